//! The entries of a tree by their ranks.

ghost use Rattle.std.specs.Prelude.{◌≡◌, ◌+◌, ◌≤◌, ◌<◌, ◌^◌, true, false, length, filter, IfOk};
ghost use Rattle.std.specs.List.{AllByRecursion};
ghost use Rattle.std.specs.List.Sorted.{IsPartitionPoint};
ghost use Rattle.std.specs.FinMap as finite;
ghost use Rattle.paths.specs.Paths.{begins};
ghost use Rattle.entries.specs.StoredEntries.{IsMade};
ghost use Rattle.tree.specs.Trees.{seen_entries};
ghost use Rattle.databases.specs.Ranks.{rank_in};
ghost use Rattle.databases.specs.inner.Picks.{lent_entries, Rise, comes_before, is_begun};

use entries::Entry;
use schema::Path;
use std::alloc::{AllocError, Global};
use std::marker::Model;
use tree::Tree;

/// The entries of a tree in dump order: a rank leads to an entry at once, and a path to its rank by a binary search. It is made once and lent
/// to many searches. A contract sees it as its tree.
pub struct EntriesByRank<'a> {
    tree: &'a Tree,
    entries: Vec<(&'a Path, &'a Entry)>,
}

// A call of its own, so that no other crate proves it anew.
impl Drop for EntriesByRank<'_> {
    fn drop(self) {
        let EntriesByRank {
            tree: _,
            entries: _,
        } = self;
    }
}

impl<'a> Model for EntriesByRank<'a> {
    ghost use Rattle.tree.specs.Trees as trees;
    ghost use Rattle.databases.specs.inner.Picks.{AreInOrder};

    ghost Value = { trees.Tree };

    ghost coded = { trees.tree_code };

    ghost view = { λ e. e.tree.now };

    ghost invariant = { λ e. AreInOrder e.tree.now e.entries.items };
}

impl<'a> EntriesByRank<'a> {
    /// The entries of a tree. It goes through all of them once, and takes 16 bytes for each.
    pub fn of(alloc: Global, tree: &'a Tree) -> Result<EntriesByRank<'a>, AllocError>
        ensures { IfOk result (λ e. e ≡ tree.now) }
    {
        let root = Path::root(alloc);
        let mut entries = Vec::with_capacity(alloc, tree.len())?;
        for found in tree.numbered(&root) {
            let (path, _, entry) = found;
            entries.push((path, entry))?;
        }
        Ok(EntriesByRank { tree, entries })
    }

    /// The tree.
    pub fn tree(&self) -> &'a Tree
        ensures { result.now ≡ self.now }
    {
        self.tree
    }

    // the rank of a base, and the entries at the base and below it
    pub(crate) fn from_base(&self, base: &Path) -> (u32, &[(&'a Path, &'a Entry)])
        ensures rank { result.0 ≡ rank_in self.now.entries base.now }
        ensures entries { seen_entries (lent_entries result.1.now) ≡ filter (λ e. begins base.now e.0) (finite.entries self.now.entries) }
        ensures made { AllByRecursion (λ e. IsMade self.now.conf.types e.1.now.attrs) result.1.now }
        ensures room { result.0 + length result.1.now < 2 ^ 32 }
    {
        self.tree.entries_are_a_directory();
        let all = self.entries.as_slice();
        let rank = count_before(all, base);
        let rest = &all[rank..];
        let count = count_begun(rest, base);
        (rank as u32, &rest[..count])
    }
}

// how many of these entries come before a path
fn count_before(entries: &[(&Path, &Entry)], path: &Path) -> usize
    requires { Rise entries.now }
    ensures bound { result ≤ length entries.now }
    ensures point { IsPartitionPoint (λ e. comes_before path.now e ≡ true) (λ e. comes_before path.now e ≡ false) entries.now result }
{
    entries.partition_point(|e| e.0.cmp(path).is_lt())
}

// how many of these entries, none of which comes before a base, are at the base or below it
fn count_begun(entries: &[(&Path, &Entry)], base: &Path) -> usize
    requires rising { Rise entries.now }
    requires from { AllByRecursion (λ e. comes_before base.now e ≡ false) entries.now }
    ensures bound { result ≤ length entries.now }
    ensures point { IsPartitionPoint (λ e. is_begun base.now e ≡ true) (λ e. is_begun base.now e ≡ false) entries.now result }
{
    entries.partition_point(|e| base.begins(e.0))
}
