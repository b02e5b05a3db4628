//! Reading the index lines of a configuration.

ghost use Rattle.std.specs.Prelude.{◌≡◌, ◌<◌, ◌++◌, IfOk, OnOk, length, map};
ghost use Rattle.std.specs.List.{AllByRecursion, list_any, list_all, slice_split};
ghost use Rattle.base.specs.Answers.{each};
ghost use Rattle.dir_conf.specs.IndexLines.{is_comma, is_empty, words, two_words, members, kind_named, each_once, slots_with, if_kept, slots_of, slots_in};
ghost use Rattle.schema.specs.Slots.{has_rule_for, can_be_kept};
ghost use Rattle.dir_conf.specs.NamesInLines.{type_named};
ghost use Rattle.dir_conf.specs.Reads.{Reads};

use crate::conf_fault::{ConfFault, ConfFaultKind};
use crate::conf_lines::fault;
use crate::type_lines::type_named;
use schema::{IndexKind, Slot};
use std::alloc::{AllocError, Global};
use values::{AttributeType, TypeId, TypeTable};

const EVERY_KIND: [IndexKind; 3] = [
    IndexKind::Equality,
    IndexKind::Presence,
    IndexKind::Substrings,
];

/// What stands between spaces and tabs.
pub(crate) fn words<'a>(alloc: Global, text: &'a [u8]) -> Result<Vec<&'a [u8]>, AllocError>
    ensures { IfOk result (λ v. map (λ w. w.now) v.items ≡ words text.now) }
{
    text.split(|b| *b == b' ' || *b == b'\t')
        .filter(|word| !word.is_empty())
        .collect(alloc)
}

// the two words behind the first one: names and kinds
fn two_words<'a>(
    alloc: Global,
    line: u64,
    text: &'a [u8],
) -> Result<(&'a [u8], &'a [u8]), ConfFault>
    ensures { Reads (λ lists. (lists.0.now, lists.1.now)) result (two_words line (words text.now)) }
{
    match words(alloc, text)?.as_slice() {
        [names, kinds] => Ok((*names, *kinds)),
        _ => Err(fault(line, ConfFaultKind::Form)),
    }
}

/// What stands between commas.
pub(crate) fn parts_of<'a>(alloc: Global, word: &'a [u8]) -> Result<Vec<&'a [u8]>, AllocError>
    ensures { IfOk result (λ v. map (λ p. p.now) v.items ≡ slice_split is_comma word.now) }
{
    word.split(|b| *b == b',').collect(alloc)
}

/// Whether one of these is empty.
pub(crate) fn is_any_empty(parts: &[&[u8]]) -> bool
    ensures { result ≡ list_any is_empty (map (λ p. p.now) parts.now) }
{
    parts.iter().any(|part| part.is_empty())
}

// the members of a comma list
fn members<'a>(alloc: Global, line: u64, word: &'a [u8]) -> Result<Vec<&'a [u8]>, ConfFault>
    ensures { Reads (λ v. map (λ p. p.now) v.items) result (members line word.now) }
{
    let parts = parts_of(alloc, word)?;
    if is_any_empty(&parts) {
        Err(fault(line, ConfFaultKind::Form))
    } else {
        Ok(parts)
    }
}

fn types_named(
    alloc: Global,
    types: &TypeTable,
    line: u64,
    names: &[&[u8]],
) -> Result<Vec<TypeId>, ConfFault>
    ensures gives { Reads (λ v. v.items) result (each (type_named types.now line) (map (λ n. n.now) names.now)) }
    ensures known { IfOk result (λ v. AllByRecursion (λ t. t < length types.now) v.items) }
{
    let mut named = Vec::with_capacity(alloc, names.len())?;
    for name in names {
        named.push(type_named(types, line, name)?)?;
    }
    Ok(named)
}

fn kind_named(line: u64, word: &[u8]) -> Result<IndexKind, ConfFault>
    ensures { Reads (λ k. k) result (kind_named line word.now) }
{
    if word == b"eq".as_slice() {
        Ok(IndexKind::Equality)
    } else if word == b"pres".as_slice() {
        Ok(IndexKind::Presence)
    } else if word == b"sub".as_slice() {
        Ok(IndexKind::Substrings)
    } else {
        Err(fault(line, ConfFaultKind::Index))
    }
}

fn kinds_named(alloc: Global, line: u64, words: &[&[u8]]) -> Result<Vec<IndexKind>, ConfFault>
    ensures { Reads (λ v. v.items) result (each (kind_named line) (map (λ w. w.now) words.now)) }
{
    let mut kinds = Vec::with_capacity(alloc, words.len())?;
    for word in words {
        kinds.push(kind_named(line, word)?)?;
    }
    Ok(kinds)
}

fn each_once(alloc: Global, kinds: &[IndexKind]) -> Result<Vec<IndexKind>, AllocError>
    ensures { IfOk result (λ v. v.items ≡ each_once kinds.now) }
{
    EVERY_KIND
        .iter()
        .copied()
        .filter(|kind| kinds.contains(kind))
        .collect(alloc)
}

fn put_slots(slots: &mut Vec<Slot>, type_id: TypeId, kinds: &[IndexKind]) -> Result<(), AllocError>
    ensures { OnOk result (slots.new.items ≡ slots.old.items ++ map (λ k. record { type_id = type_id; kind = k }) kinds.now) }
{
    for kind in kinds {
        slots.push(Slot {
            type_id,
            kind: *kind,
        })?;
    }
    Ok(())
}

fn slots_with(alloc: Global, ts: &[TypeId], kinds: &[IndexKind]) -> Result<Vec<Slot>, AllocError>
    ensures { IfOk result (λ v. v.items ≡ slots_with ts.now kinds.now) }
{
    let mut slots = Vec::new(alloc);
    for t in ts {
        put_slots(&mut slots, *t, kinds)?;
    }
    Ok(slots)
}

/// Whether a type has the rule that a kind of index goes by.
pub(crate) fn has_rule_for(t: &AttributeType, kind: IndexKind) -> bool
    ensures { result ≡ has_rule_for t.now kind }
{
    match kind {
        IndexKind::Equality => t.equality.is_some(),
        IndexKind::Presence => true,
        IndexKind::Substrings => t.has_substrings,
    }
}

fn can_be_kept(types: &TypeTable, slot: &Slot) -> bool
    requires { slot.now.type_id < length types.now }
    ensures { result ≡ can_be_kept types.now slot.now }
{
    has_rule_for(types.at(slot.type_id), slot.kind)
}

fn can_all_be_kept(types: &TypeTable, slots: &[Slot]) -> bool
    requires { AllByRecursion (λ s. s.type_id < length types.now) slots.now }
    ensures { result ≡ list_all (can_be_kept types.now) slots.now }
{
    for slot in slots {
        if !can_be_kept(types, slot) {
            return false;
        }
    }
    true
}

// a slot for each type and each kind, where all can be kept
fn kept_slots(
    alloc: Global,
    types: &TypeTable,
    line: u64,
    ts: &[TypeId],
    kinds: &[IndexKind],
) -> Result<Vec<Slot>, ConfFault>
    requires { AllByRecursion (λ t. t < length types.now) ts.now }
    ensures { Reads (λ v. v.items) result (if_kept types.now line (slots_with ts.now kinds.now)) }
{
    let slots = slots_with(alloc, ts, kinds)?;
    if can_all_be_kept(types, &slots) {
        Ok(slots)
    } else {
        Err(fault(line, ConfFaultKind::Index))
    }
}

// the slots of types and kinds as they are named
fn slots_of(
    alloc: Global,
    types: &TypeTable,
    line: u64,
    names: &[&[u8]],
    kinds: &[&[u8]],
) -> Result<Vec<Slot>, ConfFault>
    ensures { Reads (λ v. v.items) result (slots_of types.now line (map (λ n. n.now) names.now) (map (λ k. k.now) kinds.now)) }
{
    let ts = types_named(alloc, types, line, names)?;
    let listed = kinds_named(alloc, line, kinds)?;
    let kinds = each_once(alloc, &listed)?;
    kept_slots(alloc, types, line, &ts, &kinds)
}

/// The slots that an index line says behind its first word.
#[tactic(auto, unfolding(crate::specs::IndexLines::slots_in))]
pub(crate) fn slots_in(
    alloc: Global,
    types: &TypeTable,
    line: u64,
    text: &[u8],
) -> Result<Vec<Slot>, ConfFault>
    ensures { Reads (λ v. v.items) result (slots_in types.now line text.now) }
{
    let (names, kinds) = two_words(alloc, line, text)?;
    let names = members(alloc, line, names)?;
    let kinds = members(alloc, line, kinds)?;
    slots_of(alloc, types, line, &names, &kinds)
}
