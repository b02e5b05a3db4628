//! Entries with their ranks, in the order in which they lie in memory.

ghost use Rattle.std.specs.Prelude.{◌≡◌, [], map, IfOk};
ghost use Rattle.std.specs.List.Sorted.{IsPermutation};
ghost use Rattle.databases.specs.inner.RankedEntries.{AreRankedEntries};

use crate::database::Database;
use index_keys::Numbered;
use schema::Path;
use std::alloc::{AllocError, Global};

/// An entry by its number in the tree, and with its rank in the place of that number.
#[derive(Clone, Copy, Drop)]
struct PlacedEntry<'a> {
    number: u32,
    ranked: Numbered<'a>,
}

// all entries below the root, in the order of the dump
fn placed_entries<'a>(
    alloc: Global,
    database: &'a Database,
    root: &'a Path,
) -> Result<Vec<PlacedEntry<'a>>, AllocError>
    requires { root.now ≡ [] }
    ensures { IfOk result (λ es. AreRankedEntries database.now.conf database.now.entries (map (λ e. e.ranked) es.items)) }
{
    let tree = database.tree();
    tree.entries_are_a_directory();
    let mut entries = Vec::with_capacity(alloc, tree.len())?;
    let mut rank: u32 = 0;
    for found in tree.numbered(root) {
        let (_, number, entry) = found;
        let ranked = Numbered {
            number: rank,
            entry,
        };
        entries.push(PlacedEntry { number, ranked })?;
        rank += 1;
    }
    Ok(entries)
}

// the same by their numbers in the tree
fn by_number<'a>(
    alloc: Global,
    placed: &mut [PlacedEntry<'a>],
) -> Result<Vec<Numbered<'a>>, AllocError>
    ensures { IfOk result (λ es. IsPermutation (map (λ e. e.ranked) placed.old) es.items) }
{
    placed.sort_unstable_by_key(|entry| entry.number);
    let mut entries = Vec::with_capacity(alloc, placed.len())?;
    for entry in placed.iter() {
        entries.push(entry.ranked)?;
    }
    Ok(entries)
}

/// All entries below the root, each with its rank as its number. They stand by their numbers in the tree, since so they lie in memory.
pub(crate) fn ranked_entries<'a>(
    alloc: Global,
    database: &'a Database,
    root: &'a Path,
) -> Result<Vec<Numbered<'a>>, AllocError>
    requires { root.now ≡ [] }
    ensures { IfOk result (λ es. AreRankedEntries database.now.conf database.now.entries es.items) }
{
    let mut placed = placed_entries(alloc, database, root)?;
    by_number(alloc, placed.as_mut_slice())
}
