//! The keys of an entry, and what a change of it changes of them.

ghost use Rattle.std.specs.Prelude.{◌≡◌, IfOk, OnOk};
ghost use Rattle.std.specs.List.Sorted.{IsStrictlySortedBy};
ghost use Rattle.std.specs.FinSet as set;
ghost use Rattle.entries.specs.StoredEntries.{attributes_of, IsMade};
ghost use Rattle.index_text.specs.SlotKeys.{slot_key_cmp};
ghost use Rattle.index_keys.specs.EntryKeys.{slot_keys};
ghost use Rattle.index.specs.inner.SlotTests.{HaveSameFront};
ghost use Rattle.index.specs.KeyChanges.{AreChanges, IsMadeIn, content_in};
ghost use Rattle.index.specs.inner.KeyLists.{IsWithDifference};

use crate::distinct_keys::{keys_among, keys_behind};
use crate::key_lists::push_missing;
use crate::norm_fronts::same_norms;
use entries::Entry;
use index_text::{SlotKey, SlotNumber};
use schema::{Conf, Slot};
use std::alloc::{AllocError, Global};

/// The keys that come and those that go where one entry is put in place of another, by slot, and then by their bytes.
#[derive(Drop)]
pub struct KeyChanges {
    pub came: Vec<SlotKey>,
    pub gone: Vec<SlotKey>,
}

// how many normal forms of a type are the same before and after, from the first on
fn same_front(conf: &Conf, slot: &Slot, before: Option<&Entry>, after: Option<&Entry>) -> usize
    requires before { IsMadeIn conf.now.types before }
    requires after { IsMadeIn conf.now.types after }
    ensures { HaveSameFront conf.now.types slot.now (content_in before.entry) (content_in after.entry) result }
{
    match before {
        Some(one) => match after {
            Some(other) => same_norms(conf, one, other, slot.type_id),
            None => 0,
        },
        None => 0,
    }
}

// what comes and what goes under one slot: only what the values behind those that stay give can come or go
fn push_changes(
    alloc: Global,
    conf: &Conf,
    number: SlotNumber,
    slot: &Slot,
    before: Option<&Entry>,
    after: Option<&Entry>,
    found: &mut KeyChanges,
) -> Result<(), AllocError>
    requires before { IsMadeIn conf.now.types before }
    requires after { IsMadeIn conf.now.types after }
    ensures came { OnOk result (IsWithDifference conf.now.types number.0 slot.now after.entry before.entry found.old.came.items found.new.came.items) }
    ensures gone { OnOk result (IsWithDifference conf.now.types number.0 slot.now before.entry after.entry found.old.gone.items found.new.gone.items) }
{
    let front = same_front(conf, slot, before, after);
    let has = keys_behind(alloc, conf, after, slot, front)?;
    let kept = keys_among(alloc, conf, before, slot, &has)?;
    push_missing(alloc, number, &has, &kept, &mut found.came)?;
    let had = keys_behind(alloc, conf, before, slot, front)?;
    let left = keys_among(alloc, conf, after, slot, &had)?;
    push_missing(alloc, number, &had, &left, &mut found.gone)?;
    Ok(())
}

/// What comes and what goes of the keys where an entry, or none, is put in place of another one, or none.
pub fn key_changes(
    alloc: Global,
    conf: &Conf,
    before: Option<&Entry>,
    after: Option<&Entry>,
) -> Result<KeyChanges, AllocError>
    requires before { IsMadeIn conf.now.types before }
    requires after { IsMadeIn conf.now.types after }
    ensures { IfOk result (λ c. AreChanges conf.now (content_in before.entry) (content_in after.entry) c.came.items c.gone.items) }
{
    let mut found = KeyChanges {
        came: Vec::new(alloc),
        gone: Vec::new(alloc),
    };
    for (place, slot) in conf.slots().iter().enumerate() {
        push_changes(
            alloc,
            conf,
            SlotNumber(place),
            slot,
            before,
            after,
            &mut found,
        )?;
    }
    Ok(found)
}

/// The keys of an entry under the slots of a configuration, each once, by slot, and then by their bytes.
pub fn keys_of(alloc: Global, conf: &Conf, entry: &Entry) -> Result<Vec<SlotKey>, AllocError>
    requires { IsMade conf.now.types entry.now.attrs }
    ensures rise { IfOk result (λ ps. IsStrictlySortedBy slot_key_cmp ps.items) }
    ensures exact { IfOk result (λ ps. set.from_list ps.items ≡ slot_keys conf.now (attributes_of entry.now.attrs)) }
{
    let KeyChanges { came, gone: _ } = key_changes(alloc, conf, None, Some(entry))?;
    Ok(came)
}
