//! How much is changed between two directories, in one line.

ghost use Rattle.sentences.specs.Sentence.{IsShown};

use crate::counts::grouped;
use crate::lines::{Line, ShownText};
use differences::Counts;
use std::alloc::{AllocError, Global};

/// A number of things in words: `1 change`, `5,000 changes`.
fn counted(
    alloc: Global,
    number: u64,
    one: &'static str,
    more: &'static str,
) -> Result<ShownText, AllocError>
    requires one { IsShown one.now }
    requires more { IsShown more.now }
{
    let number_words = grouped(alloc, number)?;
    let mut out = ShownText::new(alloc);
    out.push_str(number_words.as_str())?;
    out.push(' ')?;
    out.push_str(if number == 1 { one } else { more })?;
    Ok(out)
}

/// The entries that are changed: `2 changes: 1 added, 0 deleted, 0 renamed, 1 modified`.
fn entry_words(alloc: Global, counts: &Counts) -> Result<ShownText, AllocError> {
    let Counts {
        added,
        deleted,
        renamed,
        modified,
        ..
    } = *counts;
    let all = added
        .saturating_add(deleted)
        .saturating_add(renamed)
        .saturating_add(modified);
    let changes = counted(alloc, all, "change", "changes")?;
    let added = grouped(alloc, added)?;
    let deleted = grouped(alloc, deleted)?;
    let renamed = grouped(alloc, renamed)?;
    let modified = grouped(alloc, modified)?;
    ShownText::of(format!(in alloc;
        "{changes}: {added} added, {deleted} deleted, {renamed} renamed, {modified} modified"
    ))
}

/// What modifies change: `1 value added, 2 deleted; 0 attributes deleted, 1 replaced`.
fn value_words(alloc: Global, counts: &Counts) -> Result<ShownText, AllocError> {
    let Counts {
        values_added,
        values_deleted,
        attributes_deleted,
        attributes_replaced,
        ..
    } = *counts;
    let added = counted(alloc, values_added, "value added", "values added")?;
    let deleted = grouped(alloc, values_deleted)?;
    let whole = counted(
        alloc,
        attributes_deleted,
        "attribute deleted",
        "attributes deleted",
    )?;
    let replaced = grouped(alloc, attributes_replaced)?;
    ShownText::of(format!(in alloc; "{added}, {deleted} deleted; {whole}, {replaced} replaced"))
}

/// How much is changed between two directories.
pub(crate) fn difference_line(alloc: Global, counts: &Counts) -> Result<Line, AllocError> {
    let entries = entry_words(alloc, counts)?;
    let values = value_words(alloc, counts)?;
    let words = ShownText::of(format!(in alloc; "{entries}; {values}"))?;
    Line::of(alloc, &words)
}
