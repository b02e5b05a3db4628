//! Where the text of an index first differs from the one that is due.

ghost use Rattle.std.specs.Prelude.{◌≡◌, ◌==◌, ◌++◌, [], map, OnOk, IfOk};
ghost use Rattle.std.specs.List.{slice_split};
ghost use Rattle.std.specs.Option.{option_map};
ghost use Rattle.definitions.specs.Lines.{is_line_feed};
ghost use Rattle.checks.specs.IndexDifferences.{begins_slot, slot_behind, key_on, first_is_less, is_before, first_key, key_text, slot_and_key, first_line, first_difference, difference_of};

use crate::near_names::is_same;
use definitions::split_first_word;
use std::alloc::{AllocError, Global};

fn begins_slot(line: &[u8]) -> bool
    ensures { result ≡ begins_slot line.now }
{
    line.starts_with(b"slot ")
}

/// The slot that the next line is in.
fn slot_behind<'a>(slot: &'a [u8], line: &'a [u8]) -> &'a [u8]
    ensures { result.now ≡ slot_behind slot.now line.now }
{
    if begins_slot(line) { line } else { slot }
}

/// The key of a line, where it is one of keys.
fn key_on(line: &[u8]) -> Option<&[u8]>
    ensures { option_map (λ k. k.now) result ≡ key_on line.now }
{
    if begins_slot(line) || (line == b"end".as_slice() || line.is_empty()) {
        None
    } else {
        Some(split_first_word(line).0)
    }
}

fn first_is_less(one: &[u8], other: &[u8]) -> bool
    ensures { result ≡ first_is_less one.now other.now }
{
    if other.is_empty() {
        false
    } else if one.is_empty() {
        true
    } else {
        one[0] < other[0]
    }
}

fn is_same_byte(one: u8, other: u8) -> bool
    ensures { result ≡ (one == other) }
{
    one == other
}

/// Whether a key comes before another one: byte by byte, a beginning first.
#[tactic(auto, unfolding(crate::specs::IndexDifferences::is_before))]
fn is_before(one: &[u8], other: &[u8]) -> bool
    ensures { result ≡ is_before one.now other.now }
{
    let mut ours = one;
    let mut theirs = other;
    'bytes: while !ours.is_empty() && !theirs.is_empty() && is_same_byte(ours[0], theirs[0]) {
        ours = &ours[1..];
        theirs = &theirs[1..];
    }
    first_is_less(ours, theirs)
}

/// The first of two keys, in the order of their bytes.
fn first_key<'a>(one: Option<&'a [u8]>, other: Option<&'a [u8]>) -> Option<&'a [u8]>
    ensures { option_map (λ k. k.now) result
        ≡ first_key (option_map (λ k. k.now) one.entry) (option_map (λ k. k.now) other.entry) }
{
    match (one, other) {
        (Some(key), Some(before)) if is_before(before, key) => Some(before),
        (Some(key), _) => Some(key),
        (None, other) => other,
    }
}

/// Puts a key, if there is one, at the end of a text.
fn put_key(text: &mut Vec<u8>, key: Option<&[u8]>) -> Result<(), AllocError>
    ensures { OnOk result (text.new.items ≡ text.old.items ++ key_text (option_map (λ k. k.now) key.entry)) }
{
    let Some(key) = key else {
        return Ok(());
    };
    text.extend_from_slice(b", key ")?;
    text.extend_from_slice(key)
}

/// A slot, and the first of the keys on two lines.
fn slot_and_key(alloc: Global, slot: &[u8], one: &[u8], other: &[u8]) -> Result<Vec<u8>, AllocError>
    ensures { IfOk result (λ v. v.items ≡ slot_and_key slot.now one.now other.now) }
{
    let mut text = Vec::from_slice(alloc, slot)?;
    put_key(&mut text, first_key(key_on(one), key_on(other)))?;
    Ok(text)
}

/// What stands between line feeds.
fn lines_in<'a>(alloc: Global, text: &'a [u8]) -> Result<Vec<&'a [u8]>, AllocError>
    ensures { IfOk result (λ v. map (λ l. l.now) v.items ≡ slice_split is_line_feed text.now) }
{
    text.split(|b| *b == b'\n').collect(alloc)
}

/// The first of some lines, or an empty one.
fn first_line<'a>(lines: &[&'a [u8]]) -> &'a [u8]
    ensures { result.now ≡ first_line (map (λ l. l.now) lines.now) }
{
    match lines {
        [first, ..] => first,
        [] => b"",
    }
}

/// The slot and the key in which lines first differ.
#[tactic(auto, unfolding(crate::specs::IndexDifferences::first_difference))]
fn first_difference(alloc: Global, one: &[&[u8]], other: &[&[u8]]) -> Result<Vec<u8>, AllocError>
    ensures { IfOk result (λ v. v.items
        ≡ first_difference [] (map (λ l. l.now) one.now) (map (λ l. l.now) other.now)) }
{
    let mut slot: &[u8] = b"";
    let mut ours = one;
    let mut theirs = other;
    'lines: while !ours.is_empty() && !theirs.is_empty() && is_same(ours[0], theirs[0]) {
        slot = slot_behind(slot, ours[0]);
        ours = &ours[1..];
        theirs = &theirs[1..];
    }
    slot_and_key(alloc, slot, first_line(ours), first_line(theirs))
}

/// The slot and the key in which the text of an index first differs from another one, as `slot cn eq, key 626f62`: so under that key not the same
/// entries stand, or it stands in one of them alone. A slot stands without a key where none of the two lines that differ has one. The fault is want of
/// memory.
pub fn slot_and_key_of_difference(
    alloc: Global,
    text: &[u8],
    other: &[u8],
) -> Result<Vec<u8>, AllocError>
    ensures { IfOk result (λ v. v.items ≡ difference_of text.now other.now) }
{
    let ours = lines_in(alloc, text)?;
    let theirs = lines_in(alloc, other)?;
    first_difference(alloc, ours.as_slice(), theirs.as_slice())
}
