//! The keys of one slot, each with a set of numbers.

ghost use Rattle.std.specs.Prelude.{◌≡◌, ◌≢◌, ℕ, List, IfSome, MatchOption};
ghost use Rattle.std.specs.FinMap as finite;
ghost use Rattle.std.specs.FinSet as set;
ghost use Rattle.index_text.specs.KeySets.{members_in};
ghost use Rattle.index.specs.KeySets.{AreRowsOf, Puts, Takes};

use crate::buckets::{BucketRows, Buckets};
use crate::keyed_sets::KeyedSets;
use crate::rows::{Merge, Rows};
use crate::short_key::ShortKey;
use dense_sets::KeySet;
use std::alloc::{AllocError, Global};
use std::collections::btree_map::Iter;
use std::marker::Model;

/// The keys of a slot, each with its members, of which there is one at least. Those of few bytes lie in their map
/// itself, so that a look-up goes to no other place. Most are windows, of three bytes, and lie in buckets. A contract sees a finite map from
/// keys to members.
#[derive(Drop)]
pub(crate) struct KeySets {
    tiny: Buckets,
    short: KeyedSets<ShortKey<32>>,
    long: KeyedSets<Vec<u8>>,
}

impl Model for KeySets {
    ghost use Rattle.index_text.specs.KeySets as seen;
    ghost use Rattle.index.specs.KeySets.{sets_code};
    ghost use Rattle.index.specs.inner.JoinedSets.{joined, AreApart};
    ghost use Rattle.index.specs.inner.ShortKeys.{fits};

    ghost Value = { seen.SetsByKey };

    ghost coded = { sets_code };

    ghost view = { λ s. joined (fits 4) s.tiny (joined (fits 32) s.short s.long) };

    ghost invariant = { λ s. AreApart (fits 4) s.tiny (joined (fits 32) s.short s.long) × AreApart (fits 32) s.short s.long };
}

impl KeySets {
    pub(crate) fn new(alloc: Global) -> KeySets
        ensures { result ≡ finite.empty }
    {
        KeySets {
            tiny: Buckets::new(alloc),
            short: KeyedSets::new(alloc),
            long: KeyedSets::new(alloc),
        }
    }

    /// The members of a key, or none where it has no member.
    pub(crate) fn get(&self, key: &[u8]) -> Option<&KeySet>
        ensures members { MatchOption result (members_in self.now key.now ≡ set.empty) (λ s. s.now.members ≡ members_in self.now key.now) }
        ensures some { IfSome result (λ s. members_in self.now key.now ≢ set.empty) }
    {
        match ShortKey::tiny(key) {
            Some(tiny) => self.tiny.get(&tiny),
            None => match ShortKey::of(key) {
                Some(short) => self.short.get(&short),
                None => self.long.get(key),
            },
        }
    }

    /// The keys, by their bytes, each with its members.
    pub(crate) fn rows(&self) -> Keys<'_>
        ensures { AreRowsOf self.now result }
    {
        let others = Merge::of(self.short.rows(), self.long.rows());
        Keys {
            rows: Merge::of(self.tiny.rows(), others),
        }
    }

    /// Adds a number under a key, and answers whether it is new there.
    pub(crate) fn insert(
        &mut self,
        alloc: Global,
        key: &[u8],
        number: u32,
    ) -> Result<bool, AllocError>
        ensures { Puts key.now number (members_in self.old) (members_in self.new) result }
    {
        match ShortKey::tiny(key) {
            Some(tiny) => self.tiny.insert(alloc, &tiny, number),
            None => match ShortKey::of(key) {
                Some(short) => self.short.insert(alloc, &short, number),
                None => self.long.insert(alloc, key, number),
            },
        }
    }

    /// Takes a number from a key, and answers whether it was there. It takes no memory.
    pub(crate) fn remove(&mut self, key: &[u8], number: u32) -> bool
        ensures { Takes key.now number (members_in self.old) (members_in self.new) result }
    {
        match ShortKey::tiny(key) {
            Some(tiny) => self.tiny.remove(&tiny, number),
            None => match ShortKey::of(key) {
                Some(short) => self.short.remove(&short, number),
                None => self.long.remove(key, number),
            },
        }
    }

    /// Takes a number from every key. It takes no memory.
    pub(crate) fn forget(&mut self, number: u32)
        ensures { (q : List ℕ) → members_in self.new q ≡ set.remove (members_in self.old q) number }
    {
        self.tiny.forget(number);
        self.short.forget(number);
        self.long.forget(number);
    }
}

/// The keys of a slot that have a member, by their bytes, each with its members; all are lent. A contract sees the list of those
/// that are still to come.
#[derive(Drop)]
pub struct Keys<'a> {
    rows: Merge<'a, BucketRows<'a>, Merge<'a, Short<'a>, Long<'a>>>,
}

type Short<'a> = Iter<'a, ShortKey<32>, KeySet>;

type Long<'a> = Iter<'a, Vec<u8>, KeySet>;

impl<'a> Model for Keys<'a> {
    ghost use Rattle.std.specs.Prelude.{List};
    ghost use Rattle.index_text.specs.KeySets.{Row, rows_code};
    ghost use Rattle.index.specs.inner.MergedRows.{ahead, merged};
    ghost use Rattle.index.specs.inner.StoredSets.{short_rows, long_rows};
    ghost use Rattle.index.specs.inner.BucketRows.{rows_left};

    ghost Value = { List Row };

    ghost coded = { rows_code };

    ghost view = { λ k. merged (ahead k.rows.row (rows_left k.rows.rows)) (ahead k.rows.other (merged (ahead k.rows.others.row (short_rows 32 k.rows.others.rows)) (ahead k.rows.others.other (long_rows k.rows.others.others)))) };
}

impl<'a> Iterator for Keys<'a> {
    ghost use Rattle.std.specs.Prelude.{length};
    ghost use Rattle.std.specs.Iterator.{at_most};
    ghost use Rattle.std.specs.Map.Iter.{TakesFirst};
    ghost use Rattle.index.specs.inner.MergedRows.{row_lent};

    type Item = (&'a [u8], &'a KeySet);

    ghost next_gives = { TakesFirst row_lent };

    ghost remaining = { λ k. at_most (length k) };

    fn next(&mut self) -> Option<(&'a [u8], &'a KeySet)> {
        self.rows.next_row()
    }
}
