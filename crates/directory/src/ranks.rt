//! The ranks of entries: their places in the dump, from 0 on.

ghost use Rattle.std.specs.Prelude.{◌≡◌, ◌==◌, ℕ, if◌then◌else◌, IfOk, OnOk};
ghost use Rattle.tree.specs.Trees.{Tree as SeenTree};
ghost use Rattle.directory.specs.inner.IndexRows.{rank_at, ranks_of};
ghost use Rattle.directory.specs.inner.Ordered.{IsRankTable, AreRanksFor};

use candidates::Numbers;
use dense_sets::KeySet;
use id_sets::{IdSet, ListSet};
use schema::Path;
use std::alloc::{AllocError, Global};
use tree::Tree;

/// What stands at a number that no entry has. It is no rank: there are at most so many entries, and the first has the rank 0.
const NO_RANK: u32 = u32::MAX;

// keeps the rank of the entry with a number, at that number
fn put_rank(ranks: &mut Vec<u32>, number: u32, rank: u32) -> Result<(), AllocError>
    ensures { OnOk result ((n : ℕ) → rank_at ranks.new.items n ≡ (if n == number then rank else rank_at ranks.old.items n)) }
{
    let place = number as usize;
    if ranks.len() <= place {
        ranks.resize(place + 1, NO_RANK)?;
    }
    ranks[place] = rank;
    Ok(())
}

/// The rank of each entry of a tree, at its number.
pub(crate) fn ranks_by_number(alloc: Global, tree: &Tree) -> Result<Vec<u32>, AllocError>
    ensures { IfOk result (λ ranks. IsRankTable tree.now ranks.items) }
{
    tree.entries_are_a_directory();
    tree.entries_are_numbered();
    let root = Path::root(alloc);
    let mut ranks = Vec::new(alloc);
    let mut rank: u32 = 0;
    for (_, number, _) in tree.numbered(&root) {
        put_rank(&mut ranks, number, rank)?;
        rank += 1;
    }
    Ok(ranks)
}

fn rank_of(ranks: &[u32], number: u32) -> u32
    ensures { result ≡ rank_at ranks.now number }
{
    match ranks.get(number as usize) {
        Some(rank) => *rank,
        None => NO_RANK,
    }
}

/// The ranks of the entries with these numbers, ascending.
pub(crate) fn ranks_of(
    alloc: Global,
    ranks: &[u32],
    numbers: &KeySet,
) -> Result<Vec<u32>, AllocError>
    ensures { IfOk result (λ found. found.items ≡ ranks_of ranks.now numbers.now.members) }
{
    let mut found = Vec::new(alloc);
    for number in numbers.walk() {
        found.push(rank_of(ranks, number))?;
    }
    found.sort_unstable();
    found.dedup();
    Ok(found)
}

/// The same of the entries with these numbers, or of all others: their ranks.
pub(crate) fn ranks_for(
    alloc: Global,
    ranks: &[u32],
    numbers: &Numbers<KeySet>,
) -> Result<Numbers<ListSet>, AllocError>
    ensures { IfOk result (λ found. (t : SeenTree) → IsRankTable t ranks.now → AreRanksFor t numbers.now found) }
{
    match numbers {
        Numbers::Only(members) => {
            let found = ranks_of(alloc, ranks, members)?;
            Ok(Numbers::Only(ListSet::of_list(found)))
        }
        Numbers::AllBut(members) => {
            let found = ranks_of(alloc, ranks, members)?;
            Ok(Numbers::AllBut(ListSet::of_list(found)))
        }
    }
}
