//! The index of all entries.

ghost use Rattle.std.specs.Prelude.{◌≡◌, [], ℕ, IfOk};
ghost use Rattle.std.specs.List.{AllByRecursion};
ghost use Rattle.entries.specs.StoredEntries.{IsMade};
ghost use Rattle.index_text.specs.declared.slot_key.SlotKey as seen;
ghost use Rattle.index_keys.specs.NumberedEntries.{has_among};
ghost use Rattle.directory.specs.Indexes.{IsIndexOf};
ghost use Rattle.directory.specs.inner.Indexes.{has_in_tree};

use databases::Database;
use index::Index;
use index_keys::Numbered;
use schema::Path;
use std::alloc::{AllocError, Global};

/// All entries below the root, each with its number.
fn numbered_entries<'a>(
    alloc: Global,
    database: &'a Database,
    root: &'a Path,
) -> Result<Vec<Numbered<'a>>, AllocError>
    requires { root.now ≡ [] }
    ensures made { IfOk result (λ es. AllByRecursion (λ e. IsMade database.now.conf.types e.entry.now.attrs) es.items) }
    ensures all { IfOk result (λ es. (n : ℕ) (k : seen.SlotKey) → has_among database.now.conf es.items n k ≡ has_in_tree database.now.conf database.now n k) }
{
    let tree = database.tree();
    let mut entries = Vec::with_capacity(alloc, tree.len())?;
    for found in tree.numbered(root) {
        let (_, number, entry) = found;
        entries.push(Numbered { number, entry })?;
    }
    Ok(entries)
}

/// The index of all entries.
pub(crate) fn index_of(alloc: Global, database: &Database) -> Result<Index, AllocError>
    ensures { IfOk result (λ x. IsIndexOf database.now.conf database.now.entries database.now.numbers x) }
{
    database.tree().entries_are_a_directory();
    database.tree().entries_are_numbered();
    schema::order_of_paths();
    let root = Path::root(alloc);
    let entries = numbered_entries(alloc, database, &root)?;
    Index::of_entries(alloc, database.conf(), entries.as_slice())
}
