//! An index as its text says it.

ghost use Rattle.std.specs.Prelude.{◌≡◌, ◌≢◌, ◌<◌, ◌-◌, ◌^◌, Ok, OnOk, IfOk, IfErr, IfSome, MatchOption};
ghost use Rattle.std.specs.Io.KnownBytes.{IsAtEnd};
ghost use Rattle.base.specs.Answers.{Fails};
ghost use Rattle.device.specs.Device.{GaveSome};
ghost use Rattle.std.specs.List.Sorted.{IsStrictlySortedBy};
ghost use Rattle.std.specs.Cmp.Lexicographic.{slice_cmp};
ghost use Rattle.std.specs.Ordering.{nat_cmp};
ghost use Rattle.std.specs.Map.{keys_of};
ghost use Rattle.std.specs.FinSet as set;
ghost use Rattle.index_text.specs.KeySets.{members_at};
ghost use Rattle.stored_index.specs.Gives.{failures_by, fault_of};
ghost use Rattle.stored_index.specs.Stored.{index_in, HasText, ReadsKeys};
ghost use Rattle.stored_index.specs.inner.Drafts.{Comes, read_by};
ghost use Rattle.stored_index.specs.inner.Sorted.{AreFull};

use crate::asked::AskedTexts;
use crate::fault::IndexFault;
use crate::given::Given;
use crate::reading::read_rows;
use crate::row::Row;
use base::Sequence;
use device::Source;
use id_sets::ListSet;
use index_text::{Postings, SlotKey, SlotNumber, slot_number};
use schema::{Conf, IndexKind, Slot, TypeId};
use std::alloc::Global;
use std::marker::Model;
use std::snapshot::Snapshot;

/// An index that was read from its text: the ranks of the entries that have each key. A contract sees the configuration that it was read
/// under, and the keys of each slot, each with its ranks.
pub struct StoredIndex {
    made: Snapshot<Conf>,
    // those of the configuration
    slots: Vec<Slot>,
    // the keys of each, with their ranks, in order
    rows: Sequence<Sequence<Row>>,
}

// A call of its own, so that no other crate proves it anew.
impl Drop for StoredIndex {
    fn drop(self) {
        let StoredIndex {
            made: _,
            slots: _,
            rows: _,
        } = self;
    }
}

impl Model for StoredIndex {
    ghost use Rattle.std.specs.Prelude.{◌≡◌};
    ghost use Rattle.std.specs.List.{AllByRecursion};
    ghost use Rattle.stored_index.specs.Stored.{Stored, stored_code};
    ghost use Rattle.stored_index.specs.inner.Sorted.{AreKept};

    ghost Value = { Stored };

    ghost coded = { stored_code };

    ghost view = { λ x. record { conf = x.made.value; slots = x.rows } };

    ghost invariant = { λ x. (x.slots.items ≡ x.made.value.slots) × (AllByRecursion AreKept x.rows) };
}

// the ranks of a key, among keys in order
fn ranks_of<'a>(rows: &'a [Row], key: &[u8]) -> Option<&'a ListSet>
    requires sorted { IsStrictlySortedBy (slice_cmp nat_cmp) (keys_of rows.now) }
    requires full { AreFull rows.now }
    ensures members { MatchOption result (members_at rows.now key.now ≡ set.empty) (λ s. s.now ≡ members_at rows.now key.now) }
    ensures some { IfSome result (λ s. members_at rows.now key.now ≢ set.empty) }
{
    match rows.binary_search_by(|row| row.key().cmp(key)) {
        Ok(place) => Some(rows[place].ranks()),
        Err(_) => None,
    }
}

impl StoredIndex {
    // Of the index that a text writes, what is kept of it.
    fn read_kept<S: Source>(given: Given<'_>, source: &mut S) -> Result<StoredIndex, IndexFault>
        requires { (S.seen source.old).failed < 2 ^ 64 - 1 }
        ensures conf { IfOk result (λ x. x.conf ≡ given.entry.conf.now) }
        ensures ok { IfOk result (λ x. HasText (S.seen source.old).left (λ text. Comes given.entry.asked.now x.slots (read_by given.entry text))) }
        ensures err { IfErr result (λ e. HasText (S.seen source.old).left (λ text. Fails (fault_of e) (read_by given.entry text))) }
        ensures failures { (S.seen source.new).failed ≡ failures_by result (S.seen source.old).failed }
        ensures gave { GaveSome (S.seen source.old) (S.seen source.new) }
        ensures end { OnOk result (IsAtEnd (S.seen source.new).left) }
    {
        let rows = read_rows(given, source)?;
        Ok(StoredIndex {
            made: Snapshot::of(given.conf),
            slots: Vec::from_slice(given.alloc, given.conf.slots())?,
            rows,
        })
    }

    /// The index that a text writes under a configuration, of so many entries, for the dump with this stamp; or what is wrong with the text's
    /// first line, or else with the first line behind it that is at fault. The text is read from a source in pieces of 64 KiB, up to the fault,
    /// if it has one, and else to its end. Memory is taken for all keys and their ranks, and for the longest line.
    pub fn read<S: Source>(
        alloc: Global,
        source: &mut S,
        conf: &Conf,
        stamp: &[u8],
        entries: usize,
    ) -> Result<StoredIndex, IndexFault>
        requires { (S.seen source.old).failed < 2 ^ 64 - 1 }
        ensures ok { IfOk result (λ x. HasText (S.seen source.old).left (λ text. index_in conf.now entries stamp.now text ≡ Ok x)) }
        ensures err { IfErr result (λ e. HasText (S.seen source.old).left (λ text. Fails (fault_of e) (index_in conf.now entries stamp.now text))) }
        ensures failures { (S.seen source.new).failed ≡ failures_by result (S.seen source.old).failed }
        ensures gave { GaveSome (S.seen source.old) (S.seen source.new) }
        ensures end { OnOk result (IsAtEnd (S.seen source.new).left) }
    {
        let asked = AskedTexts::Every;
        let given = Given {
            alloc,
            conf,
            stamp,
            entries,
            asked: &asked,
        };
        StoredIndex::read_kept(given, source)
    }

    /// Of the index that a text writes, as `read` tells, the keys that are asked for, and those of other slots that are written as these. Memory
    /// is taken for these keys and their ranks, and for the longest line.
    pub fn read_asked<S: Source>(
        alloc: Global,
        source: &mut S,
        conf: &Conf,
        stamp: &[u8],
        entries: usize,
        asked: &[SlotKey],
    ) -> Result<StoredIndex, IndexFault>
        requires { (S.seen source.old).failed < 2 ^ 64 - 1 }
        ensures ok { IfOk result (λ x. HasText (S.seen source.old).left (λ text. ReadsKeys asked.now (index_in conf.now entries stamp.now text) x)) }
        ensures err { IfErr result (λ e. HasText (S.seen source.old).left (λ text. Fails (fault_of e) (index_in conf.now entries stamp.now text))) }
        ensures failures { (S.seen source.new).failed ≡ failures_by result (S.seen source.old).failed }
        ensures gave { GaveSome (S.seen source.old) (S.seen source.new) }
        ensures end { OnOk result (IsAtEnd (S.seen source.new).left) }
    {
        let asked = AskedTexts::of(alloc, asked)?;
        let given = Given {
            alloc,
            conf,
            stamp,
            entries,
            asked: &asked,
        };
        StoredIndex::read_kept(given, source)
    }
}

impl Postings for StoredIndex {
    ghost use Rattle.stored_index.specs.Stored.{shown_by};

    type Set = ListSet;

    ghost shown = { shown_by };

    fn slot(&self, type_id: TypeId, kind: IndexKind) -> Option<SlotNumber> {
        slot_number(self.slots.as_slice(), type_id, kind)
    }

    fn lookup(&self, slot: SlotNumber, key: &[u8]) -> Option<&ListSet> {
        match self.rows.as_slice().get(slot.0) {
            Some(rows) => ranks_of(rows.as_slice(), key),
            None => None,
        }
    }
}
