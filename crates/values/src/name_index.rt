//! Numbers that are found by a name.

ghost use Rattle.std.specs.Prelude.{◌≡◌, ℕ, ◌+◌, ◌<◌, ◌≤◌, ◌++◌, ◌∷◌, [], IfOk, IsTrue, OnOk, OnErr, length, slice_set};
ghost use Rattle.std.specs.List.{AllByRecursion};
ghost use Rattle.std.specs.Str.{str_eq_ignore_ascii_case};
ghost use Rattle.values.specs.Tables.{named, number_of};
ghost use Rattle.values.specs.inner.Buckets.{bucket_of, key_of, key_by_words, key_by_bytes, word_at, small_at, bucket_at, entries_at};

use base::{Bytes, Sequence};
use std::alloc::{AllocError, Global};
use std::marker::Model;

/// In ASCII a capital and its small letter differ in this bit.
const CASE_BIT: u8 = 0x20;

/// An odd number: of a product by it each byte depends on all those below.
const SPREAD: u64 = 11_400_714_819_323_198_485;

/// The buckets of an index, at most.
const MOST_BUCKETS: usize = 1 << 24;

/// A name and its number.
pub(crate) struct NameEntry {
    name: Bytes,
    number: usize,
}

// A call of its own, so that no other crate proves it anew.
impl Drop for NameEntry {
    fn drop(self) {
        let NameEntry { name: _, number: _ } = self;
    }
}

/// Names with numbers. A contract sees the list of them, in the order in which they were added.
pub struct NameIndex {
    entries: Vec<NameEntry>,
    // the places of entries; which bucket a name's is in, its key says, which doesn't see ASCII case
    buckets: Vec<Sequence<usize>>,
}

// A call of its own, so that no other crate proves it anew.
impl Drop for NameIndex {
    fn drop(self) {
        let NameIndex {
            entries: _,
            buckets: _,
        } = self;
    }
}

impl Model for NameIndex {
    ghost use Rattle.std.specs.Prelude.{List};
    ghost use Rattle.values.specs.declared.name_index.NameEntry.{NameEntry};
    ghost use Rattle.values.specs.inner.Buckets.{AreFound};

    ghost Value = { List NameEntry };

    ghost view = { λ x. x.entries.items };

    ghost invariant = { λ x. AreFound x.entries.items x.buckets.items };
}

// a byte, the same in each ASCII case
fn small_at(name: &[u8], at: usize) -> u8
    requires { at < length name.now }
    ensures { result ≡ small_at name.now at }
{
    name[at] | CASE_BIT
}

// the eight bytes from a place on
#[tactic(auto, unfolding(crate::specs::inner::Buckets::word_at))]
fn word_at(name: &[u8], at: usize) -> u64
    requires { at + 8 ≤ length name.now }
    ensures { result ≡ word_at name.now at }
{
    u64::from_le_bytes([
        small_at(name, at),
        small_at(name, at + 1),
        small_at(name, at + 2),
        small_at(name, at + 3),
        small_at(name, at + 4),
        small_at(name, at + 5),
        small_at(name, at + 6),
        small_at(name, at + 7),
    ])
}

#[tactic(auto, unfolding(crate::specs::inner::Buckets::key_by_words))]
fn key_by_words(name: &[u8]) -> u64
    requires { 8 ≤ length name.now }
    ensures { result ≡ key_by_words name.now }
{
    let first = word_at(name, 0);
    let last = word_at(name, name.len() - 8);
    let product = first
        .wrapping_mul(SPREAD)
        .wrapping_add(last)
        .wrapping_mul(SPREAD);
    // a bucket is told by the lowest bits
    product.swap_bytes()
}

fn key_by_bytes(name: &[u8]) -> u64
    ensures { result ≡ key_by_bytes name.now }
{
    let mut key: u64 = 0;
    for b in name {
        key = key.wrapping_mul(33).wrapping_add((*b | CASE_BIT) as u64);
    }
    key
}

// two words have all bytes of most names
#[tactic(auto, unfolding(crate::specs::inner::Buckets::key_of))]
fn key_of(name: &[u8]) -> u64
    ensures { result ≡ key_of name.now }
{
    if 8 <= name.len() && name.len() <= 16 {
        key_by_words(name)
    } else {
        key_by_bytes(name)
    }
}

fn bucket_of(count: usize, name: &[u8]) -> usize
    requires { 0 < count }
    ensures bucket { result ≡ bucket_of count name.now }
    ensures bound { result < count }
{
    key_of(name) as usize & (count - 1)
}

// a comparison of so many bytes takes no loop
fn are_equal(a: &[u8], b: &[u8]) -> bool
    ensures { IsTrue result → a.now ≡ b.now }
{
    let len = a.len();
    if len != b.len() {
        return false;
    }
    if 8 <= len && len <= 16 {
        return a[..8] == b[..8] && a[len - 8..] == b[len - 8..];
    }
    a == b
}

fn are_alike(a: &[u8], b: &[u8]) -> bool
    ensures { result ≡ str_eq_ignore_ascii_case a.now b.now }
{
    // most names are written in one case
    are_equal(a, b) || a.eq_ignore_ascii_case(b)
}

// the number of the first of these places at which this name stands
fn number_at(entries: &[NameEntry], places: &[usize], name: &[u8]) -> Option<usize>
    requires { AllByRecursion (λ place. place < length entries.now) places.now }
    ensures { result ≡ number_of (entries_at entries.now places.now) name.now }
{
    for place in places {
        let entry = &entries[*place];
        if are_alike(entry.name.as_slice(), name) {
            return Some(entry.number);
        }
    }
    None
}

fn empty_buckets(alloc: Global, count: usize) -> Result<Vec<Sequence<usize>>, AllocError>
    ensures count { IfOk result (λ v. length v.items ≡ count) }
    ensures none { IfOk result (λ v. AllByRecursion (λ places. places ≡ []) v.items) }
{
    let mut buckets = Vec::with_capacity(alloc, count)?;
    while buckets.len() < count {
        buckets.push(Sequence::new(alloc))?;
    }
    Ok(buckets)
}

// one place more, at the end of a bucket
fn put_place(
    buckets: &mut Vec<Sequence<usize>>,
    bucket: usize,
    place: usize,
) -> Result<(), AllocError>
    requires { bucket < length buckets.old.items }
    ensures ok { OnOk result (buckets.new.items ≡ slice_set buckets.old.items bucket (bucket_at buckets.old.items bucket ++ place ∷ [])) }
    ensures err { OnErr result (buckets.new.items ≡ buckets.old.items) }
{
    buckets[bucket].push(place)
}

impl NameIndex {
    /// No names. As many as there is `room` for are found quickly, more than them less so.
    pub fn with_room(alloc: Global, room: usize) -> Result<NameIndex, AllocError>
        ensures { IfOk result (λ x. x ≡ []) }
    {
        let count = room.min(MOST_BUCKETS).next_power_of_two();
        Ok(NameIndex {
            entries: Vec::new(alloc),
            buckets: empty_buckets(alloc, count)?,
        })
    }

    /// Puts a name with a number at the end, or changes nothing where memory runs out.
    pub fn add(&mut self, alloc: Global, name: &[u8], number: usize) -> Result<(), AllocError>
        ensures ok { OnOk result (self.new ≡ self.old ++ named number name.now ∷ []) }
        ensures err { OnErr result (self.new ≡ self.old) }
    {
        let bucket = bucket_of(self.buckets.len(), name);
        let name = Bytes::from_slice(alloc, name)?;
        self.entries.reserve(1)?;
        put_place(&mut self.buckets, bucket, self.entries.len())?;
        self.entries.push_reserved(NameEntry { name, number });
        Ok(())
    }

    /// The number of the first entry with this name, without ASCII case.
    pub fn get(&self, name: &[u8]) -> Option<usize>
        ensures { result ≡ number_of self.now name.now }
    {
        let bucket = bucket_of(self.buckets.len(), name);
        number_at(
            self.entries.as_slice(),
            self.buckets[bucket].as_slice(),
            name,
        )
    }
}
