//! Indexes of many entries, made slot by slot.

ghost use Rattle.std.specs.Prelude.{◌≡◌, ℕ, List, [], ◌∷◌, if◌then◌else◌, IfOk, OnOk};
ghost use Rattle.std.specs.FinSet as set;
ghost use Rattle.std.specs.List.{AllByRecursion};
ghost use Rattle.std.specs.Str.{bytes_eq};
ghost use Rattle.entries.specs.StoredEntries.{IsMade};
ghost use Rattle.index_text.specs.declared.slot_key.SlotKey as seen;
ghost use Rattle.index_keys.specs.EntryKeys.{is_window, gives_key};
ghost use Rattle.index_text.specs.Indexes.{members};
ghost use Rattle.index_text.specs.KeySets.{members_in};
ghost use Rattle.index_text.specs.SlotKeys.{same_slot_key};
ghost use Rattle.index.specs.Edits.{CountsEach, CountsEdits, no_index};
ghost use Rattle.index_keys.specs.NumberedEntries.{has_among};
ghost use Rattle.index.specs.inner.SlotEntries.{PutsEach, IsSetOf, AreSetsOf, members_of};

use crate::edit_count::EditCount;
use crate::index::Index;
use crate::key_sets::KeySets;
use index_keys::{Numbered, NumberedNorm, first_window, norms_for};
use schema::{Conf, IndexKind, Slot};
use std::alloc::{AllocError, Global};

// adds a number under a key, and counts an edit where it is new there
fn put_key(
    alloc: Global,
    sets: &mut KeySets,
    edits: &mut EditCount,
    key: &[u8],
    number: u32,
) -> Result<(), AllocError>
    ensures came { OnOk result ((q : List ℕ) → members_in sets.new q ≡ (if bytes_eq key.now q then set.insert (members_in sets.old q) number else members_in sets.old q)) }
    ensures counted { OnOk result (CountsEach bytes_eq (members_in sets.old) (members_in sets.new) edits.old edits.new) }
{
    if sets.insert(alloc, key, number)? {
        edits.count_one();
    }
    Ok(())
}

// adds a number under each window of a text
fn put_windows(
    alloc: Global,
    sets: &mut KeySets,
    edits: &mut EditCount,
    text: &[u8],
    number: u32,
) -> Result<(), AllocError>
    ensures put { OnOk result (PutsEach (is_window text.now) number sets.old sets.new) }
    ensures counted { OnOk result (CountsEach bytes_eq (members_in sets.old) (members_in sets.new) edits.old edits.new) }
{
    let mut left = text;
    while let Some(first) = first_window(left) {
        let (window, rest) = first;
        put_key(alloc, sets, edits, window, number)?;
        left = rest;
    }
    Ok(())
}

// adds a number under the keys that a normal form gives
fn put_norm(
    alloc: Global,
    sets: &mut KeySets,
    edits: &mut EditCount,
    kind: IndexKind,
    numbered: &NumberedNorm<'_>,
) -> Result<(), AllocError>
    ensures put { OnOk result (PutsEach (gives_key kind (numbered.now.norm.now ∷ [])) numbered.now.number sets.old sets.new) }
    ensures counted { OnOk result (CountsEach bytes_eq (members_in sets.old) (members_in sets.new) edits.old edits.new) }
{
    let NumberedNorm { number, norm } = *numbered;
    match kind {
        IndexKind::Equality => put_key(alloc, sets, edits, norm, number),
        IndexKind::Presence => put_key(alloc, sets, edits, b"", number),
        IndexKind::Substrings => put_windows(alloc, sets, edits, norm, number),
    }
}

// the keys that normal forms give, each with the numbers of the entries that have it
fn sets_of(
    alloc: Global,
    edits: &mut EditCount,
    kind: IndexKind,
    norms: &[NumberedNorm<'_>],
) -> Result<KeySets, AllocError>
    ensures set { IfOk result (IsSetOf kind norms.now) }
    ensures counted { IfOk result (λ sets. CountsEach bytes_eq (λ key. set.empty) (members_in sets) edits.old edits.new) }
{
    let mut sets = KeySets::new(alloc);
    for numbered in norms {
        put_norm(alloc, &mut sets, edits, kind, numbered)?;
    }
    Ok(sets)
}

// the keys under each slot
fn sets_of_slots<'a>(
    alloc: Global,
    edits: &mut EditCount,
    conf: &'a Conf,
    slots: &[Slot],
    entries: &[Numbered<'a>],
) -> Result<Vec<KeySets>, AllocError>
    requires { AllByRecursion (λ e. IsMade conf.now.types e.entry.now.attrs) entries.now }
    ensures sets { IfOk result (λ sets. AreSetsOf conf.now.types entries.now slots.now sets.items) }
    ensures counted { IfOk result (λ sets. CountsEach same_slot_key (λ p. set.empty) (members_of sets.items) edits.old edits.new) }
{
    let mut all = Vec::with_capacity(alloc, slots.len())?;
    let mut kept = None;
    for slot in slots {
        let of_type = norms_for(alloc, conf, kept, slot.type_id, entries)?;
        all.push(sets_of(alloc, edits, slot.kind, of_type.norms.as_slice())?)?;
        kept = Some(of_type);
    }
    Ok(all)
}

impl Index {
    /// The index of these entries, each by its number, under a configuration. It is made slot by slot: for many entries that takes less
    /// time than adding one after the other, since the keys of a slot stay in the processor's caches. Each member that comes is an edit.
    pub fn of_entries(
        alloc: Global,
        conf: &Conf,
        entries: &[Numbered<'_>],
    ) -> Result<Index, AllocError>
        requires { AllByRecursion (λ e. IsMade conf.now.types e.entry.now.attrs) entries.now }
        ensures same_conf { IfOk result (λ x. x.conf ≡ conf.now) }
        ensures members { IfOk result (λ x. (p : seen.SlotKey) (n : ℕ) → set.contains (members x p) n ≡ has_among conf.now entries.now n p) }
        ensures edits { IfOk result (CountsEdits (no_index conf.now)) }
    {
        let mut edits = EditCount::new();
        let sets = sets_of_slots(alloc, &mut edits, conf, conf.slots(), entries)?;
        Index::of_sets(alloc, conf, sets, edits)
    }
}
