//! The keys of an entry under a slot, one after the other.

ghost use Rattle.std.specs.Prelude.{◌≡◌, ◌++◌, drop};
ghost use Rattle.std.specs.List.{flat_map};
ghost use Rattle.std.specs.Map.Iter.{TakesFirst, deref};
ghost use Rattle.entries.specs.StoredEntries.{attributes_of, IsMade};
ghost use Rattle.index_keys.specs.EntryKeys.{windows, norms_under, keys_by, entry_keys};
ghost use Rattle.index.specs.inner.StoredKeys.{presence_left};

use crate::norm_fronts::norms_behind;
use entries::Entry;
use index_keys::{Norms, first_window};
use schema::{Conf, IndexKind, Slot};
use std::marker::Model;

/// The keys of an entry under a slot, as its values give them, perhaps one several times; they are lent. A contract sees the list
/// of those that are still to come.
#[derive(Drop)]
pub(crate) struct EntryKeys<'a> {
    kind: IndexKind,
    norms: Norms<'a>,
    // of presence: whether the empty key was given
    is_given: bool,
    // of substrings: what of a normal form has windows left
    text: &'a [u8],
}

impl<'a> Model for EntryKeys<'a> {
    ghost use Rattle.std.specs.Prelude.{List, ℕ};
    ghost use Rattle.index.specs.inner.StoredKeys.{keys_left};

    ghost Value = { List (List ℕ) };

    ghost view = { λ k. keys_left k.kind k.is_given k.text.now k.norms };
}

// one empty key where there is a value
fn next_of_presence<'a>(norms: &mut Norms<'a>, is_given: &mut bool) -> Option<&'a [u8]>
    ensures { TakesFirst deref (presence_left is_given.old norms.old) result (presence_left is_given.new norms.new) }
{
    if *is_given {
        return None;
    }
    *is_given = true;
    match norms.next() {
        Some(_) => Some(b""),
        None => None,
    }
}

fn next_window<'a>(norms: &mut Norms<'a>, text: &mut &'a [u8]) -> Option<&'a [u8]>
    ensures { TakesFirst deref (windows text.old.now ++ flat_map windows norms.old) result (windows text.new.now ++ flat_map windows norms.new) }
{
    if let Some(first) = first_window(*text) {
        let (window, rest) = first;
        *text = rest;
        return Some(window.as_slice());
    }
    while let Some(norm) = norms.next() {
        *text = norm;
        if let Some(first) = first_window(norm) {
            let (window, rest) = first;
            *text = rest;
            return Some(window.as_slice());
        }
    }
    None
}

impl<'a> EntryKeys<'a> {
    // what these normal forms give
    fn by(kind: IndexKind, norms: Norms<'a>) -> EntryKeys<'a>
        ensures { result ≡ keys_by kind norms.entry }
    {
        EntryKeys {
            kind,
            norms,
            is_given: false,
            text: b"",
        }
    }

    pub(crate) fn of(conf: &'a Conf, entry: &'a Entry, slot: &Slot) -> EntryKeys<'a>
        requires { IsMade conf.now.types entry.now.attrs }
        ensures { result ≡ entry_keys conf.now.types (attributes_of entry.now.attrs) slot.now.type_id slot.now.kind }
    {
        EntryKeys::by(slot.kind, Norms::of(conf, entry, slot.type_id))
    }

    /// Those that the normal forms behind so many give.
    pub(crate) fn behind(
        conf: &'a Conf,
        entry: &'a Entry,
        slot: &Slot,
        front: usize,
    ) -> EntryKeys<'a>
        requires { IsMade conf.now.types entry.now.attrs }
        ensures { result ≡ keys_by slot.now.kind (drop front (norms_under conf.now.types (attributes_of entry.now.attrs) slot.now.type_id)) }
    {
        EntryKeys::by(slot.kind, norms_behind(conf, entry, slot.type_id, front))
    }
}

impl<'a> Iterator for EntryKeys<'a> {
    ghost use Rattle.std.specs.Prelude.{length};
    ghost use Rattle.std.specs.Iterator.{at_most};
    ghost use Rattle.std.specs.Map.Iter.{TakesFirst, deref};

    type Item = &'a [u8];

    ghost next_gives = { TakesFirst deref };

    ghost remaining = { λ k. at_most (length k) };

    fn next(&mut self) -> Option<&'a [u8]> {
        match self.kind {
            IndexKind::Equality => self.norms.next(),
            IndexKind::Presence => next_of_presence(&mut self.norms, &mut self.is_given),
            IndexKind::Substrings => next_window(&mut self.norms, &mut self.text),
        }
    }
}
