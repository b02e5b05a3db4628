//! Ranks of paths: how many entries come before them in the dump.

ghost use Rattle.std.specs.Prelude.{◌≡◌};
ghost use Rattle.databases.specs.Ranks.{rank_in};

use schema::Path;
use std::alloc::Global;
use std::cmp::Ordering;
use tree::Tree;

/// How many entries of a tree come before a path. It goes through these alone.
pub(crate) fn rank_of(alloc: Global, tree: &Tree, path: &Path) -> u32
    ensures { result ≡ rank_in tree.now.entries path.now }
{
    tree.entries_are_a_directory();
    let root = Path::root(alloc);
    let mut rank: u32 = 0;
    for found in tree.numbered(&root) {
        let (before, _, _) = found;
        match before.cmp(path) {
            Ordering::Less => rank += 1,
            Ordering::Equal | Ordering::Greater => return rank,
        }
    }
    rank
}
