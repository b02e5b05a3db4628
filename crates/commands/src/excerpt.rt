//! What a query finds, as the text of a file.
ghost use Rattle.std.specs.Prelude.{◌≡◌, ⊤};
ghost use Rattle.commands.specs.inner.Printed.{scanned_text};

use crate::query::Query;
use crate::searching::print_hits;
use databases::{Database, scan};
use device::Sink;
use folders::FileText;
use ldif::WriteFault;
use std::alloc::Global;

/// What a query finds by a test of each entry in scope.
#[derive(Clone, Copy, Drop)]
pub struct Excerpt<'a> {
    pub database: &'a Database,
    pub query: &'a Query,
    ghost same_conf: { query.now.filter.conf ≡ database.now.conf },
}

impl<'a> FileText for Excerpt<'a> {
    /// Whether there is more than may be printed.
    type Answer = bool;

    ghost answers = { λ _ _. ⊤ };

    ghost text = { λ e. scanned_text e.query.now e.database.now };

    fn write<W: Sink>(&self, alloc: Global, sink: &mut W) -> Result<bool, WriteFault> {
        let database = self.database;
        let query = self.query;
        match scan(
            alloc,
            database.tree(),
            &query.base,
            query.scope,
            &query.filter,
        ) {
            Some(hits) => print_hits(alloc, query, database, hits, sink),
            None => Ok(false),
        }
    }
}
