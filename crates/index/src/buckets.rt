//! Keys of few bytes in buckets.

ghost use Rattle.std.specs.Prelude.{◌≡◌, ◌≢◌, ◌∷◌, [], ◌++◌, ◌≤◌, ◌<◌, ℕ, List, length, slice_index_or, IfSome, MatchOption, OnOk};
ghost use Rattle.std.specs.FinMap as finite;
ghost use Rattle.std.specs.FinSet as set;
ghost use Rattle.std.specs.Map.Iter.{TakesFirst};
ghost use Rattle.std.specs.Slice.Iter.{iter_rest};
ghost use Rattle.index_text.specs.KeySets.{members_in};
ghost use Rattle.index.specs.KeySets.{AreRowsOf, Puts, Takes};
ghost use Rattle.index.specs.inner.MergedRows.{row_lent};
ghost use Rattle.index.specs.inner.Buckets.{side, bucket_of, AreBuckets, members_within, in_hand, all_rows};
ghost use Rattle.index.specs.inner.BucketRows.{rows_left};
ghost use Rattle.index.specs.inner.ShortKeys.{key_in};

use crate::keyed_sets::KeyedSets;
use crate::rows::Rows;
use crate::short_key::ShortKey;
use crate::stored_key::StoredKey;
use dense_sets::KeySet;
use std::alloc::{AllocError, Global};
use std::collections::btree_map::Iter;
use std::marker::Model;
use std::slice;

/// So many buckets have keys with the same first byte.
const SIDES: usize = 40;

/// Keys of few bytes, each with its members, in buckets by their first two bytes: a look-up then compares with few keys. A bucket is made
/// where a key comes that goes there or further on. A contract sees a finite map from keys to members.
#[derive(Drop)]
pub(crate) struct Buckets {
    sets: Vec<KeyedSets<ShortKey<4>>>,
}

impl Model for Buckets {
    ghost use Rattle.index_text.specs.KeySets as seen;
    ghost use Rattle.index.specs.KeySets.{sets_code};
    ghost use Rattle.index.specs.inner.Buckets.{gathered, AreBuckets};

    ghost Value = { seen.SetsByKey };

    ghost coded = { sets_code };

    ghost view = { λ b. gathered b.sets.items };

    ghost invariant = { λ b. AreBuckets b.sets.items };
}

// Which of the buckets with the same first byte has a second byte: digits are told apart, and small letters.
fn side_of(second: u8) -> usize
    ensures side { result ≡ side (second ∷ []) }
    ensures few { result < 40 }
{
    usize::from(second.saturating_sub(47)).min(11) + usize::from(second.saturating_sub(96)).min(27)
}

// Where the bucket of a key stands. Buckets rise as their keys do.
fn bucket_of(key: &[u8]) -> usize
    ensures bucket { result ≡ bucket_of key.now }
    ensures few { result < 16384 }
{
    match key {
        [] => 0,
        [first] => usize::from(*first) * SIDES,
        [first, second, ..] => usize::from(*first) * SIDES + side_of(*second),
    }
}

// Puts empty buckets at the end, up to so many.
fn grow(alloc: Global, sets: &mut Vec<KeyedSets<ShortKey<4>>>, len: usize) -> Result<(), AllocError>
    ensures long { OnOk result (len ≤ length sets.new.items) }
    ensures same { (place : ℕ) → slice_index_or sets.new.items place finite.empty ≡ slice_index_or sets.old.items place finite.empty }
{
    while sets.len() < len {
        sets.push(KeyedSets::new(alloc))?;
    }
    Ok(())
}

// Adds a number under a key, and answers whether it is new there.
fn put(
    alloc: Global,
    sets: &mut Vec<KeyedSets<ShortKey<4>>>,
    key: &ShortKey<4>,
    number: u32,
) -> Result<bool, AllocError>
    requires { AreBuckets sets.old.items }
    ensures buckets { AreBuckets sets.new.items }
    ensures puts { Puts (key_in 4 key.now.bytes) number (members_within sets.old.items) (members_within sets.new.items) result }
{
    let place = bucket_of(key.as_slice());
    grow(alloc, sets, place + 1)?;
    let bucket = &mut sets[place];
    let result = bucket.insert(alloc, key, number);
    bucket.is_full();
    result
}

// Takes a number from a key, and answers whether it was there.
fn take(sets: &mut Vec<KeyedSets<ShortKey<4>>>, key: &ShortKey<4>, number: u32) -> bool
    requires { AreBuckets sets.old.items }
    ensures buckets { AreBuckets sets.new.items }
    ensures takes { Takes (key_in 4 key.now.bytes) number (members_within sets.old.items) (members_within sets.new.items) result }
{
    let place = bucket_of(key.as_slice());
    if place >= sets.len() {
        return false;
    }
    let bucket = &mut sets[place];
    let was = bucket.remove(key, number);
    bucket.is_full();
    was
}

// Takes a number from every key.
fn forget_in(sets: &mut [KeyedSets<ShortKey<4>>], number: u32)
    requires { AreBuckets sets.old }
    ensures buckets { AreBuckets sets.new }
    ensures members { (key : List ℕ) → members_within sets.new key ≡ set.remove (members_within sets.old key) number }
{
    for bucket in sets.iter_mut() {
        bucket.forget(number);
        bucket.is_full();
    }
}

impl Buckets {
    pub(crate) fn new(alloc: Global) -> Buckets
        ensures { result ≡ finite.empty }
    {
        Buckets {
            sets: Vec::new(alloc),
        }
    }

    /// The members of a key, or none where it has no member.
    pub(crate) fn get(&self, key: &ShortKey<4>) -> Option<&KeySet>
        ensures members { MatchOption result (members_in self.now (key_in 4 key.now.bytes) ≡ set.empty) (λ s. s.now.members ≡ members_in self.now (key_in 4 key.now.bytes)) }
        ensures some { IfSome result (λ s. members_in self.now (key_in 4 key.now.bytes) ≢ set.empty) }
    {
        let place = bucket_of(key.as_slice());
        if place >= self.sets.len() {
            return None;
        }
        let bucket = &self.sets[place];
        bucket.get(key)
    }

    /// Adds a number under a key, and answers whether it is new there.
    pub(crate) fn insert(
        &mut self,
        alloc: Global,
        key: &ShortKey<4>,
        number: u32,
    ) -> Result<bool, AllocError>
        ensures { Puts (key_in 4 key.now.bytes) number (members_in self.old) (members_in self.new) result }
    {
        put(alloc, &mut self.sets, key, number)
    }

    /// Takes a number from a key, and answers whether it was there. It takes no memory.
    pub(crate) fn remove(&mut self, key: &ShortKey<4>, number: u32) -> bool
        ensures { Takes (key_in 4 key.now.bytes) number (members_in self.old) (members_in self.new) result }
    {
        take(&mut self.sets, key, number)
    }

    /// Takes a number from every key. It takes no memory.
    pub(crate) fn forget(&mut self, number: u32)
        ensures { (key : List ℕ) → members_in self.new key ≡ set.remove (members_in self.old key) number }
    {
        forget_in(self.sets.as_mut_slice(), number);
    }

    /// The keys, by their bytes, each with its members.
    pub(crate) fn rows(&self) -> BucketRows<'_>
        ensures { AreRowsOf self.now (rows_left result) }
    {
        BucketRows {
            current: None,
            others: self.sets.iter(),
        }
    }
}

/// The rows of buckets, one after the other.
#[derive(Drop)]
pub struct BucketRows<'a> {
    // what is left of a bucket, and the buckets behind it
    current: Option<Iter<'a, ShortKey<4>, KeySet>>,
    others: slice::Iter<'a, KeyedSets<ShortKey<4>>>,
}

// the next row of the bucket in hand
fn next_in<'a>(
    current: &mut Option<Iter<'a, ShortKey<4>, KeySet>>,
) -> Option<(&'a [u8], &'a KeySet)>
    ensures { TakesFirst row_lent (in_hand current.old) result (in_hand current.new) }
{
    match current {
        Some(rows) => rows.next_row(),
        None => None,
    }
}

fn next_of<'a>(
    current: &mut Option<Iter<'a, ShortKey<4>, KeySet>>,
    others: &mut slice::Iter<'a, KeyedSets<ShortKey<4>>>,
) -> Option<(&'a [u8], &'a KeySet)>
    ensures { TakesFirst row_lent (in_hand current.old ++ all_rows (iter_rest others.old)) result (in_hand current.new ++ all_rows (iter_rest others.new)) }
{
    if let Some(row) = next_in(current) {
        return Some(row);
    }
    while let Some(bucket) = others.next() {
        *current = Some(bucket.rows());
        if let Some(row) = next_in(current) {
            return Some(row);
        }
    }
    None
}

impl<'a> Rows<'a> for BucketRows<'a> {
    ghost use Rattle.index.specs.inner.BucketRows.{rows_left};

    ghost rows = { rows_left };

    fn next_row(&mut self) -> Option<(&'a [u8], &'a KeySet)> {
        next_of(&mut self.current, &mut self.others)
    }
}
