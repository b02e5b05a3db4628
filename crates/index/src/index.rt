//! Indexes.

ghost use Rattle.std.specs.Prelude.{◌≡◌, ◌<◌, ◌+◌, nat_eq, not, length, filter, if◌then◌else◌, IfOk, OnOk, OnErr};
ghost use Rattle.std.specs.List.{AllByRecursion};
ghost use Rattle.std.specs.FinMap as finite;
ghost use Rattle.std.specs.FinSet as set;
ghost use Rattle.index_text.specs.declared.slot_key.SlotKey as seen;
ghost use Rattle.index.specs.KeySets.{AreRowsOf};
ghost use Rattle.index_text.specs.SlotKeys.{slot_key, same_slot_key};
ghost use Rattle.index_text.specs.Indexes.{members, sets_at};
ghost use Rattle.index.specs.Edits.{CountsEdits};
ghost use Rattle.index.specs.Indexes.{Inserts, Removes, KeepsMembers, Forgets};

use crate::edit_count::EditCount;
use crate::key_sets::{KeySets, Keys};
use dense_sets::KeySet;
use id_sets::IdSet;
use index_text::{Postings, SlotNumber, slot_number};
use schema::{Conf, IndexKind, Slot, TypeId};
use std::alloc::{AllocError, Global};
use std::marker::Model;
use std::snapshot::Snapshot;

/// Which entries have which keys, by the numbers of the entries. A contract sees the configuration that it was made with, the
/// members of each key, and how many edits were made: times that a member came or went. The number of edits takes no bytes.
#[derive(Drop)]
pub struct Index {
    alloc: Global,
    made: Snapshot<Conf>,
    // those of the configuration
    slots: Vec<Slot>,
    // the keys of each slot, in the order of the slots
    sets: Vec<KeySets>,
    edits: EditCount,
}

impl Model for Index {
    ghost use Rattle.std.specs.Prelude.{◌≡◌, length};
    ghost use Rattle.index_text.specs.Indexes as seen_as;
    ghost use Rattle.index.specs.Indexes.{index_code};

    ghost Value = { seen_as.Index };

    ghost coded = { index_code };

    ghost view = { λ x. record { conf = x.made.value; slots = x.sets.items; edits = x.edits } };

    ghost invariant = { λ x. (x.slots.items ≡ x.made.value.slots) × (length x.sets.items ≡ length x.made.value.slots) };
}

// as many slots without keys
fn no_keys(alloc: Global, count: usize) -> Result<Vec<KeySets>, AllocError>
    ensures len { IfOk result (λ sets. length sets.items ≡ count) }
    ensures empty { IfOk result (λ sets. AllByRecursion (λ s. s ≡ finite.empty) sets.items) }
{
    let mut sets = Vec::with_capacity(alloc, count)?;
    while sets.len() < count {
        sets.push(KeySets::new(alloc))?;
    }
    Ok(sets)
}

// counts an edit for each key that has a number
fn count_holders(edits: &mut EditCount, rows: Keys<'_>, number: u32)
    ensures { edits.new ≡ edits.old + length (filter (λ row. set.contains row.1 number) rows.entry) }
{
    for row in rows {
        if row.1.contains(number) {
            edits.count_one();
        }
    }
}

impl Index {
    /// The index of no entry, under a configuration.
    pub fn new(alloc: Global, conf: &Conf) -> Result<Index, AllocError>
        ensures same_conf { IfOk result (λ x. x.conf ≡ conf.now) }
        ensures empty { IfOk result (λ x. (p : seen.SlotKey) → members x p ≡ set.empty) }
        ensures edits { IfOk result (λ x. x.edits ≡ 0) }
    {
        let sets = no_keys(alloc, conf.slots().len())?;
        Index::of_sets(alloc, conf, sets, EditCount::new())
    }

    // the index with these keys of the slots of a configuration
    pub(crate) fn of_sets(
        alloc: Global,
        conf: &Conf,
        sets: Vec<KeySets>,
        edits: EditCount,
    ) -> Result<Index, AllocError>
        requires { length sets.items ≡ length conf.now.slots }
        ensures same_conf { IfOk result (λ x. x.conf ≡ conf.now) }
        ensures slots { IfOk result (λ x. x.slots ≡ sets.items) }
        ensures edits { IfOk result (λ x. x.edits ≡ edits) }
    {
        Ok(Index {
            alloc,
            made: Snapshot::of(conf),
            slots: Vec::from_slice(alloc, conf.slots())?,
            sets,
            edits,
        })
    }

    /// The keys under a slot that have a member, by their bytes, each with its members. It takes no memory.
    pub fn keys(&self, slot: SlotNumber) -> Keys<'_>
        requires { slot.0 < length self.now.conf.slots }
        ensures { AreRowsOf (sets_at self.now slot.0) result }
    {
        self.sets[slot.0].rows()
    }

    /// Adds a number under a key, and answers whether it is new there, which is one edit.
    pub fn insert(&mut self, slot: SlotNumber, key: &[u8], number: u32) -> Result<bool, AllocError>
        requires { slot.0 < length self.old.conf.slots }
        ensures same_conf { self.new.conf ≡ self.old.conf }
        ensures new { IfOk result (λ new. new ≡ not (set.contains (members self.old (slot_key slot.0 key.now)) number)) }
        ensures ok { OnOk result (Inserts (same_slot_key (slot_key slot.0 key.now)) number self.old self.new) }
        ensures edits { IfOk result (λ new. self.new.edits ≡ self.old.edits + (if new then 1 else 0)) }
        ensures err { OnErr result (KeepsMembers self.old self.new) }
        ensures refused { OnErr result (self.new.edits ≡ self.old.edits) }
    {
        let new = self.sets[slot.0].insert(self.alloc, key, number)?;
        if new {
            self.edits.count_one();
        }
        Ok(new)
    }

    /// Takes a number from a key, and answers whether it was there, which is one edit. It takes no memory.
    pub fn remove(&mut self, slot: SlotNumber, key: &[u8], number: u32) -> bool
        requires { slot.0 < length self.old.conf.slots }
        ensures same_conf { self.new.conf ≡ self.old.conf }
        ensures was { result ≡ set.contains (members self.old (slot_key slot.0 key.now)) number }
        ensures members { Removes (same_slot_key (slot_key slot.0 key.now)) number self.old self.new }
        ensures edits { self.new.edits ≡ self.old.edits + (if result then 1 else 0) }
    {
        let was = self.sets[slot.0].remove(key, number);
        if was {
            self.edits.count_one();
        }
        was
    }

    // takes a number from every key of a slot, and counts nothing
    fn take_under(&mut self, slot: SlotNumber, number: u32)
        requires { slot.0 < length self.old.conf.slots }
        ensures same_conf { self.new.conf ≡ self.old.conf }
        ensures members { Removes (λ p. nat_eq slot.0 p.slot.0) number self.old self.new }
        ensures edits { self.new.edits ≡ self.old.edits }
    {
        self.sets[slot.0].forget(number);
    }

    // takes a number from every key of a slot
    fn forget_under(&mut self, slot: SlotNumber, number: u32)
        requires { slot.0 < length self.old.conf.slots }
        ensures same_conf { self.new.conf ≡ self.old.conf }
        ensures members { Removes (λ p. nat_eq slot.0 p.slot.0) number self.old self.new }
        ensures edits { CountsEdits self.old self.new }
    {
        count_holders(&mut self.edits, self.sets[slot.0].rows(), number);
        self.take_under(slot, number);
    }

    /// Takes a number from every key, which is an edit for each key that had it. It takes no memory.
    pub fn forget(&mut self, number: u32)
        ensures same_conf { self.new.conf ≡ self.old.conf }
        ensures members { Forgets number self.old self.new }
        ensures edits { CountsEdits self.old self.new }
    {
        for place in 0..self.sets.as_slice().len() {
            self.forget_under(SlotNumber(place), number);
        }
    }
}

impl Postings for Index {
    ghost use Rattle.index_text.specs.Postings.{shown_by};

    type Set = KeySet;

    ghost shown = { shown_by };

    fn slot(&self, type_id: TypeId, kind: IndexKind) -> Option<SlotNumber> {
        slot_number(self.slots.as_slice(), type_id, kind)
    }

    fn lookup(&self, slot: SlotNumber, key: &[u8]) -> Option<&KeySet> {
        match self.sets.get(slot.0) {
            Some(sets) => sets.get(key),
            None => None,
        }
    }
}
