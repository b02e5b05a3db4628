//! Directories.

ghost use Rattle.std.specs.Prelude.{◌≡◌, ◌+◌, ◌*◌, ◌<◌, ◌-◌, ◌^◌, true, false, Err, IfOk, IfErr, OnErr};
ghost use Rattle.std.specs.FinMap as finite;
ghost use Rattle.tree.specs.Operations.{apply};
ghost use Rattle.entries.specs.Gives.{Gives};
ghost use Rattle.directory.specs.Directories.{tree_of};
ghost use Rattle.ldif.specs.Written.{Writes};
ghost use Rattle.databases.specs.Runs.{LoadsBack, dump};
ghost use Rattle.directory.specs.Indexes.{IsIndexOf, record_edits};
ghost use Rattle.databases.specs.RunEdits.{RisesUpTo};
ghost use Rattle.databases.specs.Searches.{IsRefused};
ghost use Rattle.directory.specs.Searches.{FindsByIndex};
ghost use Rattle.schema.specs.declared.code.Code.{Code};
ghost use Rattle.schema.specs.declared.code.Code.TheVariants.{NoSuchObject};

use crate::applying::{Edits, apply_record};
use crate::indexing::index_of;
use crate::searching::search_with_index;
use databases::{Database, Hits, Scope, Target};
use dense_sets::KeySet;
use device::Sink;
use entries::Refusal;
use filter::Prepared;
use index::Index;
use ldif::{Mode, Record, WriteFault};
use schema::{Conf, Path};
use std::alloc::{AllocError, Global};
use std::marker::Model;
use tree::{LentTree, Tree};

/// A directory under a configuration, with its index. A contract sees its rules, its entries by their paths, their numbers, and how many
/// edits of the index were made; the index is that of the entries at all times.
#[derive(Drop)]
pub struct Directory {
    alloc: Global,
    database: Database,
    index: Index,
}

impl Model for Directory {
    ghost use Rattle.directory.specs.Directories as seen;
    ghost use Rattle.directory.specs.Indexes.{IsIndexOf};

    ghost Value = { seen.Directory };

    ghost coded = { seen.directory_code };

    ghost view = { λ d. seen.with_edits d.database d.index.edits };

    ghost invariant = { λ d. IsIndexOf d.database.conf d.database.entries d.database.numbers d.index };
}

impl Directory {
    /// The directory with no entry.
    pub fn new(alloc: Global, conf: Conf) -> Result<Directory, AllocError>
        ensures same_conf { IfOk result (λ d. d.conf ≡ conf) }
        ensures entries { IfOk result (λ d. d.entries ≡ finite.empty) }
    {
        Directory::from_database(alloc, Database::new(alloc, conf))
    }

    /// The directory of a tree that was made with this configuration.
    pub fn from_tree(alloc: Global, conf: Conf, tree: Tree) -> Result<Directory, AllocError>
        requires { tree.conf ≡ conf }
        ensures { IfOk result (λ d. tree_of d ≡ tree) }
    {
        Directory::from_database(alloc, Database::from_tree(conf, tree))
    }

    /// The directory of these entries.
    pub fn from_database(alloc: Global, database: Database) -> Result<Directory, AllocError>
        ensures { IfOk result (λ d. tree_of d ≡ database) }
    {
        let index = index_of(alloc, &database)?;
        Ok(Directory {
            alloc,
            database,
            index,
        })
    }

    /// The configuration.
    pub fn conf(&self) -> &Conf
        ensures { result.now ≡ self.now.conf }
    {
        self.database.conf()
    }

    /// The entries.
    pub fn tree(&self) -> &Tree
        ensures { result.now ≡ tree_of self.now }
    {
        self.database.tree()
    }

    /// The entries and the configuration, without the index.
    pub fn database(&self) -> &Database
        ensures { result.now ≡ tree_of self.now }
    {
        &self.database
    }

    /// The index of the entries.
    pub(crate) fn index(&self) -> &Index
        ensures { IsIndexOf self.now.conf self.now.entries self.now.numbers result.now }
    {
        &self.index
    }

    /// The entries in scope of which the filter is True, in dump order (RFC 4511, 4.5.1). Of the entries in scope it tests those of which the
    /// filter may be True by what the index shows, and no other. The filter was prepared under the configuration of this directory.
    /// `NoSuchObject` where the base isn't there, and else `OutOfMemory`.
    pub fn search<'a>(
        &'a self,
        base: &'a Path,
        scope: Scope,
        filter: &'a Prepared,
    ) -> Result<Hits<'a, KeySet>, Refusal>
        requires { filter.now.conf ≡ self.now.conf }
        ensures there { IfOk result (λ h. finite.contains_key self.now.entries base.now ≡ true) }
        ensures refused { IfErr result (IsRefused self.now.entries base.now) }
        ensures missing { finite.contains_key self.now.entries base.now ≡ false → result ≡ Err (Refusal.Code NoSuchObject) }
        ensures finds { IfOk result (FindsByIndex self.now.conf (tree_of self.now) filter.now base.now scope) }
    {
        search_with_index(self.alloc, &self.database, &self.index, base, scope, filter)
    }

    /// Carries out a record (RFC 4511, 4.6 to 4.9) and edits the index, or refuses it with the code of the first check that fails. A refusal,
    /// also for want of memory, changes no entry and no member of the index. Where memory runs out, keys that came by then are taken back, an
    /// edit each again.
    pub fn apply(&mut self, asked: &Record<'_>, mode: Mode) -> Result<Edits, Refusal>
        ensures same_conf { self.new.conf ≡ self.old.conf }
        ensures gives { Gives (λ _. self.new.entries) result (apply self.old.conf mode self.old.entries asked.now) }
        ensures count { IfOk result (λ e. e.count ≡ record_edits self.old.conf mode self.old.entries asked.now) }
        ensures edits { IfOk result (λ e. self.new.edits ≡ self.old.edits + e.count) }
        ensures refused { (code : Code) → result ≡ Err (Refusal.Code code) → self.new.edits ≡ self.old.edits }
        ensures wanting { OnErr result (RisesUpTo (2 * record_edits self.old.conf mode self.old.entries asked.now) self.old.edits self.new.edits) }
        ensures err { OnErr result (tree_of self.new ≡ tree_of self.old) }
    {
        apply_record(self.alloc, &mut self.database, &mut self.index, asked, mode)
    }
}

impl Directory {
    /// Writes each entry as a content record, in the order of paths (RFC 2849), in pieces of some 64 KiB. On a fault a
    /// beginning was written.
    ///
    /// Loading what a whole dump holds gives this directory again, and refuses none of its records.
    pub fn dump<W: Sink>(&self, alloc: Global, sink: &mut W) -> Result<(), WriteFault>
        requires { (W.written sink.old).failed < 2 ^ 64 - 1 }
        ensures writes { Writes result (W.written sink.old) (W.written sink.new) (dump self.now.conf self.now.entries) }
        ensures loads { LoadsBack self.now.conf self.now.entries }
    {
        self.database.dump(alloc, sink)
    }
}

impl Target for Directory {
    ghost conf = { λ d. d.conf };

    ghost entries = { λ d. d.entries };

    ghost edits = { λ d. d.edits };

    ghost count_edits = { record_edits };

    fn lent(&self) -> LentTree<'_> {
        self.database.lent()
    }

    fn carry_out(&mut self, _alloc: Global, asked: &Record<'_>, mode: Mode) -> Result<(), Refusal> {
        match self.apply(asked, mode) {
            Ok(_) => Ok(()),
            Err(refusal) => Err(refusal),
        }
    }
}
