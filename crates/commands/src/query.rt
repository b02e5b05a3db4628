//! What is looked for in a directory, looked up under its configuration.
ghost use Rattle.std.specs.Prelude.{◌≡◌, IfOk};
ghost use Rattle.commands.specs.inner.Sought.{excerpt_query};

use base::Bytes;
use databases::{Scope, Selection};
use filter::{Prepared, prepare};
use filter_text::Filter;
use ldif::LineWidth;
use schema::{Conf, Path};
use std::alloc::{AllocError, Global};

/// What is printed of the entries that are found.
#[derive(Drop)]
pub enum Form {
    /// Their records, and before these a text, which is a comment or nothing.
    Records(Bytes),
    /// How many they are, and behind that a text, which ends the line.
    Count(Bytes),
}

/// What is looked for, and printed of what is found.
#[derive(Drop)]
pub struct Query {
    pub filter: Prepared,
    pub base: Path,
    /// Which entries are looked at, from the base on.
    pub scope: Scope,
    /// The attributes that are printed.
    pub selection: Selection,
    /// How many entries are printed at most, or none for all.
    pub limit: Option<u32>,
    pub form: Form,
    /// How long a printed line may be.
    pub width: LineWidth,
}

impl Query {
    /// The entries at this base and below it that the filter is True of, whole, with lines of a width.
    pub fn of_excerpt(
        alloc: Global,
        filter: &Filter,
        base: Path,
        conf: &Conf,
        width: LineWidth,
    ) -> Result<Query, AllocError>
        ensures { IfOk result (λ q. q ≡ excerpt_query conf.now filter.now base width) }
    {
        let filter = prepare(alloc, filter, conf)?;
        Ok(Query {
            filter,
            base,
            scope: Scope::Sub,
            selection: Selection::all(),
            limit: None,
            form: Form::Records(Bytes::from_vec(Vec::new(alloc))),
            width,
        })
    }
}
