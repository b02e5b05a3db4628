//! A directory in the order of its dump, for many searches.

ghost use Rattle.std.specs.Prelude.{◌≡◌, true, false, Err, IfOk, IfErr};
ghost use Rattle.std.specs.FinMap as finite;
ghost use Rattle.schema.specs.declared.code.Code.TheVariants.{NoSuchObject};
ghost use Rattle.databases.specs.Searches.{IsRefused};
ghost use Rattle.directory.specs.Directories.{tree_of};
ghost use Rattle.directory.specs.Searches.{FindsByIndex};

use crate::directory::Directory;
use crate::ranks::{ranks_by_number, ranks_for};
use candidates::{brackets_hold, indexes_reflect_entries, may_match};
use databases::{EntriesByRank, Hits, Scope, candidates_suffice, search_ranked};
use entries::Refusal;
use filter::Prepared;
use id_sets::ListSet;
use schema::{Code, Path};
use std::alloc::{AllocError, Global};
use std::marker::Model;

/// A directory with its entries by their ranks, and the rank of each entry at its number. It is made once and lent to many searches. A contract sees
/// it as the directory.
pub struct OrderedDirectory<'a> {
    alloc: Global,
    directory: &'a Directory,
    entries: EntriesByRank<'a>,
    ranks: Vec<u32>,
}

// A call of its own, so that no other crate proves it anew.
impl Drop for OrderedDirectory<'_> {
    fn drop(self) {
        let OrderedDirectory {
            alloc: _,
            directory: _,
            entries: _,
            ranks: _,
        } = self;
    }
}

impl<'a> Model for OrderedDirectory<'a> {
    ghost use Rattle.directory.specs.Directories as seen;
    ghost use Rattle.directory.specs.Indexes.{IsIndexOf};
    ghost use Rattle.directory.specs.inner.Ordered.{AreInOrder};

    ghost Value = { seen.Directory };

    ghost coded = { seen.directory_code };

    ghost view = { λ o. o.directory.now };

    ghost invariant = { λ o. AreInOrder (seen.tree_of o.directory.now) o.entries o.ranks.items };
}

impl Directory {
    /// This directory in the order of its dump. It goes through all entries once, and takes 20 bytes for each.
    pub fn in_order(&self, alloc: Global) -> Result<OrderedDirectory<'_>, AllocError>
        ensures { IfOk result (λ o. o ≡ self.now) }
    {
        let entries = EntriesByRank::of(alloc, self.tree())?;
        let ranks = ranks_by_number(alloc, self.tree())?;
        Ok(OrderedDirectory {
            alloc,
            directory: self,
            entries,
            ranks,
        })
    }
}

impl<'a> OrderedDirectory<'a> {
    /// What `Directory::search` finds, with the same answers. It goes through the entries at the base and below it of which the filter may be True
    /// alone, and not through the others.
    pub fn search(
        &'a self,
        base: &'a Path,
        scope: Scope,
        filter: &'a Prepared,
    ) -> Result<Hits<'a, ListSet>, Refusal>
        requires { filter.now.conf ≡ self.now.conf }
        ensures there { IfOk result (λ h. finite.contains_key self.now.entries base.now ≡ true) }
        ensures refused { IfErr result (IsRefused self.now.entries base.now) }
        ensures missing { finite.contains_key self.now.entries base.now ≡ false → result ≡ Err (Refusal.Code NoSuchObject) }
        ensures finds { IfOk result (FindsByIndex self.now.conf (tree_of self.now) filter.now base.now scope) }
    {
        brackets_hold();
        indexes_reflect_entries();
        candidates_suffice();
        schema::order_of_paths();
        self.directory.conf().rules_are_kept();
        let tree = self.directory.tree();
        tree.entries_are_a_directory();
        tree.entries_are_numbered();
        if tree.get(base).is_none() {
            return Err(Refusal::Code(Code::NoSuchObject));
        }
        let may = may_match(self.alloc, filter, self.directory.index())?;
        let ranked = ranks_for(self.alloc, &self.ranks, &may)?;
        match search_ranked(&self.entries, base, scope, filter, ranked) {
            Some(hits) => Ok(hits),
            None => Err(Refusal::Code(Code::NoSuchObject)),
        }
    }
}
