//! The lines of slots.

ghost use Rattle.std.specs.Prelude.{◌≡◌, IfOk, map};
ghost use Rattle.stored_index.specs.Reading.{ends_rows};
ghost use Rattle.stored_index.specs.SlotLines.{kind_named, type_printed, slot_of, slot_in, is_slot, is_passed, fault_at};

use crate::fault::IndexFaultKind;
use crate::words::words;
use schema::{Conf, IndexKind, Slot, TypeId};
use std::alloc::{AllocError, Global};

/// Whether a line is that of a slot, or the last one.
pub(crate) fn ends_rows(line: &[u8]) -> bool
    ensures { result ≡ ends_rows line.now }
{
    line == b"end".as_slice() || line.starts_with(b"slot ")
}

// the kind that a word calls
fn kind_named(word: &[u8]) -> Option<IndexKind>
    ensures { result ≡ kind_named word.now }
{
    if word == b"eq".as_slice() {
        Some(IndexKind::Equality)
    } else if word == b"pres".as_slice() {
        Some(IndexKind::Presence)
    } else if word == b"sub".as_slice() {
        Some(IndexKind::Substrings)
    } else {
        None
    }
}

// the type that is printed by this name
fn type_printed(conf: &Conf, name: &[u8]) -> Option<TypeId>
    ensures { result ≡ type_printed conf.now.types name.now }
{
    match conf.type_of(name) {
        None => None,
        Some(t) => { if conf.name(t) == name { Some(t) } else { None } }
    }
}

fn slot_of(conf: &Conf, words: &[&[u8]]) -> Option<Slot>
    ensures { result ≡ slot_of conf.now.types (map (λ w. w.now) words.now) }
{
    match words {
        [word, name, kind] => {
            if *word != b"slot".as_slice() {
                return None;
            }
            let type_id = type_printed(conf, name)?;
            let kind = kind_named(kind)?;
            Some(Slot { type_id, kind })
        }
        _ => None,
    }
}

/// The slot that a line names, if it can be read.
#[tactic(auto, unfolding(crate::specs::SlotLines::slot_in))]
pub(crate) fn slot_in(alloc: Global, conf: &Conf, line: &[u8]) -> Result<Option<Slot>, AllocError>
    ensures { IfOk result (λ s. s ≡ slot_in conf.now.types line.now) }
{
    let words = words(alloc, line)?;
    Ok(slot_of(conf, words.as_slice()))
}

/// Whether a line that was read is that of the slot that is due.
pub(crate) fn is_slot(due: Slot, found: Option<Slot>) -> bool
    ensures { result ≡ is_slot due found }
{
    match found {
        None => false,
        Some(slot) => slot.cmp(&due).is_eq(),
    }
}

// whether a slot doesn't come after the one before it
fn is_passed(before: Option<Slot>, slot: Slot) -> bool
    ensures { result ≡ is_passed before slot }
{
    match before {
        None => false,
        Some(before) => !before.cmp(&slot).is_lt(),
    }
}

/// What is wrong with a line that isn't the one that is due.
pub(crate) fn fault_at(
    alloc: Global,
    conf: &Conf,
    before: Option<Slot>,
    line: &[u8],
) -> Result<IndexFaultKind, AllocError>
    ensures { IfOk result (λ kind. kind ≡ fault_at conf.now.types before line.now) }
{
    match slot_in(alloc, conf, line)? {
        None => Ok(IndexFaultKind::Form),
        Some(slot) => {
            if is_passed(before, slot) {
                Ok(IndexFaultKind::Order)
            } else {
                Ok(IndexFaultKind::Form)
            }
        }
    }
}
