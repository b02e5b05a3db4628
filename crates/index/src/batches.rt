//! One number under several keys.

ghost use Rattle.std.specs.Prelude.{◌≡◌, ◌<◌, ◌+◌, ◌*◌, ◌==◌, ◌&&◌, false, length, if◌then◌else◌, Some, None, IfOk, OnOk, OnErr};
ghost use Rattle.std.specs.List.{list_any, AllByRecursion, IsDistinct};
ghost use Rattle.std.specs.Str.{bytes_eq};
ghost use Rattle.std.specs.FinSet as set;
ghost use Rattle.entries.specs.StoredEntries.{attributes_of, content_of, IsMade};
ghost use Rattle.index_keys.specs.EntryKeys.{slot_keys, edits};
ghost use Rattle.index_text.specs.SlotKeys.{same_slot_key, is_among};
ghost use Rattle.index_text.specs.Indexes.{members};
ghost use Rattle.index.specs.Edits.{CountsEdits, RisesUpTo};
ghost use Rattle.index.specs.Indexes.{AllHave, Inserts, Removes, KeepsMembers, Forgets, IsNowhere};
ghost use Rattle.index.specs.inner.Counts.{HaveNumber, InsertsSome};

use crate::entry_keys::EntryKeys;
use crate::index::Index;
use entries::Entry;
use index_text::{SlotKey, SlotNumber};
use schema::Conf;
use std::alloc::AllocError;

// one more for a key that is new; more than can be counted have no room in memory
fn counted(count: usize, new: bool) -> Result<usize, AllocError>
    ensures { IfOk result (λ after. after ≡ count + (if new then 1 else 0)) }
{
    count.checked_add(usize::from(new)).ok_or(AllocError)
}

impl Index {
    /// Takes a number from each key of a list, which is an edit for each key that had it. It takes no memory.
    pub fn remove_all(&mut self, keys: &[SlotKey], number: u32)
        requires { AllByRecursion (λ p. p.slot.0 < length self.old.conf.slots) keys.now }
        ensures same_conf { self.new.conf ≡ self.old.conf }
        ensures members { Removes (λ p. is_among p keys.now) number self.old self.new }
        ensures edits { CountsEdits self.old self.new }
        ensures all { IsDistinct same_slot_key keys.now → AllHave number self.old keys.now → self.new.edits ≡ self.old.edits + length keys.now }
    {
        for key in keys {
            let _ = self.remove(key.slot, key.key.as_slice(), number);
        }
    }

    /// Adds a number under each key of a list, none of which has it, an edit each. After a refusal no member has changed: what came by then is
    /// taken back, an edit each again.
    pub fn insert_all(&mut self, keys: &[SlotKey], number: u32) -> Result<(), AllocError>
        requires slots { AllByRecursion (λ p. p.slot.0 < length self.old.conf.slots) keys.now }
        requires apart { IsDistinct same_slot_key keys.now }
        requires lacking { AllByRecursion (λ p. set.contains (members self.old p) number ≡ false) keys.now }
        ensures same_conf { self.new.conf ≡ self.old.conf }
        ensures ok { OnOk result (Inserts (λ p. is_among p keys.now) number self.old self.new) }
        ensures edits { OnOk result (CountsEdits self.old self.new) }
        ensures all { OnOk result (self.new.edits ≡ self.old.edits + length keys.now) }
        ensures err { OnErr result (KeepsMembers self.old self.new) }
        ensures refused { OnErr result (RisesUpTo (2 * length keys.now) self.old self.new) }
    {
        for (done, key) in keys.iter().enumerate() {
            match self.insert(key.slot, key.key.as_slice(), number) {
                Ok(_) => {}
                Err(error) => {
                    self.remove_all(&keys[..done], number);
                    return Err(error);
                }
            }
        }
        Ok(())
    }

    // adds a number under keys of one slot, and counts on for each that hadn't it
    fn insert_under(
        &mut self,
        slot: SlotNumber,
        keys: EntryKeys<'_>,
        number: u32,
        count: usize,
    ) -> Result<usize, AllocError>
        requires { slot.0 < length self.old.conf.slots }
        ensures same_conf { self.new.conf ≡ self.old.conf }
        ensures ok { OnOk result (Inserts (λ p. (slot.0 == p.slot.0) && list_any (λ k. bytes_eq k p.key) keys.entry) number self.old self.new) }
        ensures count { IfOk result (λ after. HaveNumber self.old number count → HaveNumber self.new number after) }
        ensures edits { IfOk result (λ after. self.new.edits + count ≡ self.old.edits + after) }
        ensures counted { CountsEdits self.old self.new }
        ensures err { OnErr result (InsertsSome (λ p. (slot.0 == p.slot.0) && list_any (λ k. bytes_eq k p.key) keys.entry) number self.old self.new) }
    {
        let mut count = count;
        for key in keys {
            let new = self.insert(slot, key, number)?;
            count = counted(count, new)?;
        }
        Ok(count)
    }

    // adds a number under each key of an entry, and counts those that hadn't it
    fn insert_keys(&mut self, conf: &Conf, entry: &Entry, number: u32) -> Result<usize, AllocError>
        requires same_conf { self.old.conf ≡ conf.now }
        requires made { IsMade conf.now.types entry.now.attrs }
        ensures same_conf { self.new.conf ≡ self.old.conf }
        ensures ok { OnOk result (Inserts (set.contains (slot_keys conf.now (attributes_of entry.now.attrs))) number self.old self.new) }
        ensures count { IfOk result (λ count. HaveNumber self.old number 0 → HaveNumber self.new number count) }
        ensures edits { IfOk result (λ count. self.new.edits ≡ self.old.edits + count) }
        ensures counted { CountsEdits self.old self.new }
        ensures err { OnErr result (InsertsSome (set.contains (slot_keys conf.now (attributes_of entry.now.attrs))) number self.old self.new) }
    {
        let mut count = 0;
        for (place, slot) in conf.slots().iter().enumerate() {
            let keys = EntryKeys::of(conf, entry, slot);
            count = self.insert_under(SlotNumber(place), keys, number, count)?;
        }
        Ok(count)
    }

    /// Adds a number under each key of an entry, one after the other, without a list of them, and answers how many of these hadn't it, an
    /// edit each. After a refusal no key has the number: it is taken from each key that has it, an edit each again.
    pub fn insert_entry(
        &mut self,
        conf: &Conf,
        entry: &Entry,
        number: u32,
    ) -> Result<usize, AllocError>
        requires same_conf { self.old.conf ≡ conf.now }
        requires made { IsMade conf.now.types entry.now.attrs }
        ensures same_conf { self.new.conf ≡ self.old.conf }
        ensures ok { OnOk result (Inserts (set.contains (slot_keys conf.now (attributes_of entry.now.attrs))) number self.old self.new) }
        ensures count { IfOk result (λ count. IsNowhere number self.old → count ≡ edits conf.now None (Some (content_of entry.now))) }
        ensures edits { OnOk result (CountsEdits self.old self.new) }
        ensures all { IfOk result (λ count. self.new.edits ≡ self.old.edits + count) }
        ensures err { OnErr result (Forgets number self.old self.new) }
        ensures refused { OnErr result (IsNowhere number self.old → RisesUpTo (2 * edits conf.now None (Some (content_of entry.now))) self.old self.new) }
    {
        match self.insert_keys(conf, entry, number) {
            Ok(count) => Ok(count),
            Err(error) => {
                self.forget(number);
                Err(error)
            }
        }
    }
}
