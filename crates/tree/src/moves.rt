//! The numbers of an entry and of those below it, where that entry moves.

ghost use Rattle.std.specs.Prelude.{◌≡◌, ℕ, IfOk, OnOk, OnErr, Some, T, false, filter};
ghost use Rattle.std.specs.FinMap as finite;
ghost use Rattle.std.specs.FinMap.Entries.{is_sorted};
ghost use Rattle.paths.specs.Paths.{Path, path_cmp, begins};
ghost use Rattle.tree.specs.Changes.{moved_path, moved_entries, moved};
ghost use Rattle.tree.specs.inner.Moves.{is_among, put_all, without_all};
ghost use Rattle.tree.specs.inner.Trees.{numbers_of};

use schema::Path;
use std::alloc::{AllocError, Global};
use std::collections::BTreeMap;
use std::ops::Bound;

// The numbers at a path and below it, each with its path.
fn numbers_below(
    alloc: Global,
    numbers: &BTreeMap<Path, u32>,
    base: &Path,
) -> Result<Vec<(Path, u32)>, AllocError>
    requires { T (is_sorted path_cmp numbers.now.entries) }
    ensures { IfOk result (λ v. v.items ≡ filter (λ e. begins base.now e.0) numbers.now.entries) }
{
    let mut found = Vec::new(alloc);
    for (path, number) in numbers.range((Bound::Included(base), Bound::Unbounded)) {
        if !base.begins(path) {
            return Ok(found);
        }
        found.push((path.copy(alloc)?, *number))?;
    }
    Ok(found)
}

// Where a path leads when an entry moves.
fn moved_path(alloc: Global, path: &Path, from: &Path, to: &Path) -> Result<Path, AllocError>
    ensures { IfOk result (λ p. p ≡ moved_path from.now to.now path.now) }
{
    if from.begins(path) {
        to.join(alloc, &path.behind(alloc, from)?)
    } else {
        path.copy(alloc)
    }
}

// The same numbers, each with the path that its own leads to.
fn moved_entries(
    alloc: Global,
    entries: &[(Path, u32)],
    from: &Path,
    to: &Path,
) -> Result<Vec<(Path, u32)>, AllocError>
    ensures { IfOk result (λ v. v.items ≡ moved_entries from.now to.now entries.now) }
{
    let mut led = Vec::with_capacity(alloc, entries.len())?;
    for (path, number) in entries {
        led.push_reserved((moved_path(alloc, path, from, to)?, *number));
    }
    Ok(led)
}

// Puts numbers in, one by one. Where memory runs out some of them are in.
fn put_all(
    alloc: Global,
    numbers: &mut BTreeMap<Path, u32>,
    entries: &[(Path, u32)],
) -> Result<(), AllocError>
    requires { T (is_sorted path_cmp numbers.old.entries) }
    ensures sorted { T (is_sorted path_cmp numbers.new.entries) }
    ensures all { OnOk result (numbers_of numbers.new.entries ≡ put_all (numbers_of numbers.old.entries) entries.now) }
    ensures others { (q : Path) → is_among q entries.now ≡ false → finite.get (numbers_of numbers.new.entries) q ≡ finite.get (numbers_of numbers.old.entries) q }
{
    for (path, number) in entries {
        numbers.insert(path.copy(alloc)?, *number)?;
    }
    Ok(())
}

// Takes what stands at these paths out, one by one. It takes no memory.
fn remove_all(numbers: &mut BTreeMap<Path, u32>, entries: &[(Path, u32)])
    requires { T (is_sorted path_cmp numbers.old.entries) }
    ensures sorted { T (is_sorted path_cmp numbers.new.entries) }
    ensures all { numbers_of numbers.new.entries ≡ without_all (numbers_of numbers.old.entries) entries.now }
{
    for (path, _) in entries {
        let _ = numbers.remove(path);
    }
}

/// The numbers of the entry at a path and of those below it come to where their paths lead when it moves, or nothing changes where
/// memory runs out: what was put in by then is taken out again. The others stay as they lie.
pub(crate) fn move_numbers(
    alloc: Global,
    numbers: &mut BTreeMap<Path, u32>,
    from: &Path,
    to: &Path,
) -> Result<(), AllocError>
    requires sorted { T (is_sorted path_cmp numbers.old.entries) }
    requires spare { (q : Path) (n : ℕ) → finite.get (numbers_of numbers.old.entries) q ≡ Some n → begins to.now q ≡ false }
    ensures sorted { T (is_sorted path_cmp numbers.new.entries) }
    ensures moved { OnOk result (numbers_of numbers.new.entries ≡ moved from.now to.now (numbers_of numbers.old.entries)) }
    ensures err { OnErr result (numbers.new.entries ≡ numbers.old.entries) }
{
    let along = numbers_below(alloc, numbers, from)?;
    let led = moved_entries(alloc, &along, from, to)?;
    match put_all(alloc, numbers, &led) {
        Ok(()) => {
            remove_all(numbers, &along);
            Ok(())
        }
        Err(fault) => {
            remove_all(numbers, &led);
            Err(fault)
        }
    }
}
