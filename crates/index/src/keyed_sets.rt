//! Keys of one slot, each with a set of numbers.

ghost use Rattle.std.specs.Prelude.{◌≡◌, ◌≢◌, ℕ, nat_lt, List, IfSome, MatchOption};
ghost use Rattle.std.specs.FinMap as finite;
ghost use Rattle.std.specs.FinSet as set;
ghost use Rattle.index_text.specs.KeySets.{members_in, members_at};
ghost use Rattle.index.specs.KeySets.{AreRowsOf, Puts, Takes};
ghost use Rattle.index.specs.inner.Buckets.{IsFull};
ghost use Rattle.index.specs.inner.StoredSets.{rows_by, HaveMembers};

use crate::stored_key::{StoredKey, Wanted};
use dense_sets::KeySet;
use id_sets::IdSet;
use std::alloc::{AllocError, Global};
use std::collections::BTreeMap;
use std::collections::btree_map::Iter;
use std::marker::Model;

/// Keys of a slot, each with its members, of which there is one at least. A contract sees a finite map from keys to members.
#[derive(Drop)]
pub struct KeyedSets<K: StoredKey> {
    sets: BTreeMap<K, KeySet>,
}

impl<K: StoredKey> Model for KeyedSets<K> {
    ghost use Rattle.index_text.specs.KeySets as seen;
    ghost use Rattle.index.specs.KeySets.{sets_code};
    ghost use Rattle.index.specs.inner.StoredSets.{rows_by, sets_by, HaveMembers};

    ghost Value = { seen.SetsByKey };

    ghost coded = { sets_code };

    ghost view = { λ s. sets_by K.bytes s.sets };

    ghost invariant = { λ s. HaveMembers (rows_by K.bytes s.sets.entries) };
}

// Adds a number under a key, and answers whether it is new there.
fn put<K: StoredKey, Q: Wanted<K>>(
    alloc: Global,
    sets: &mut BTreeMap<K, KeySet>,
    key: Q,
    number: u32,
) -> Result<bool, AllocError>
    requires { HaveMembers (rows_by K.bytes sets.old.entries) }
    ensures full { HaveMembers (rows_by K.bytes sets.new.entries) }
    ensures puts { Puts (Q.wanted key) number (members_at (rows_by K.bytes sets.old.entries)) (members_at (rows_by K.bytes sets.new.entries)) result }
{
    if let Some(found) = sets.get_mut(key) {
        return found.insert(number);
    }
    let mut fresh = KeySet::new(alloc);
    let _ = fresh.insert(number)?;
    sets.insert(key.stored(alloc)?, fresh)?;
    Ok(true)
}

// Takes a number from a key, and answers whether it was there.
fn take<K: StoredKey, Q: Wanted<K>>(sets: &mut BTreeMap<K, KeySet>, key: Q, number: u32) -> bool
    requires { HaveMembers (rows_by K.bytes sets.old.entries) }
    ensures full { HaveMembers (rows_by K.bytes sets.new.entries) }
    ensures takes { Takes (Q.wanted key) number (members_at (rows_by K.bytes sets.old.entries)) (members_at (rows_by K.bytes sets.new.entries)) result }
{
    let Some(found) = sets.get_mut(key) else {
        return false;
    };
    let was = found.remove(number);
    if found.len() == 0 {
        let _ = sets.remove(key);
    }
    was
}

// Takes a number from every key.
fn forget_in<K: StoredKey>(sets: &mut BTreeMap<K, KeySet>, number: u32)
    ensures full { HaveMembers (rows_by K.bytes sets.new.entries) }
    ensures members { (q : List ℕ) → members_at (rows_by K.bytes sets.new.entries) q ≡ set.remove (members_at (rows_by K.bytes sets.old.entries) q) number }
{
    sets.retain(
        move |_: &K, kept: &mut KeySet| -> bool
            ensures less { kept.new.members ≡ set.remove kept.old.members number }
            ensures some { result ≡ nat_lt 0 (set.len kept.new.members) }
        {
            let _ = kept.remove(number);
            kept.len() > 0
        },
    );
}

impl<K: StoredKey> KeyedSets<K> {
    pub(crate) fn new(alloc: Global) -> Self
        ensures { result ≡ finite.empty }
    {
        KeyedSets {
            sets: BTreeMap::new(alloc),
        }
    }

    /// Each key that is there has a member.
    pub(crate) fn is_full(&self)
        ensures { IsFull self.now }
    {
        let _ = &self.sets;
    }

    /// The members of a key, or none where it has no member.
    pub(crate) fn get<Q: Wanted<K>>(&self, key: Q) -> Option<&KeySet>
        ensures members { MatchOption result (members_in self.now (Q.wanted key) ≡ set.empty) (λ s. s.now.members ≡ members_in self.now (Q.wanted key)) }
        ensures some { IfSome result (λ s. members_in self.now (Q.wanted key) ≢ set.empty) }
    {
        self.sets.get(key)
    }

    /// The keys, by their bytes, each with its members.
    pub(crate) fn rows(&self) -> Iter<'_, K, KeySet>
        ensures rows { AreRowsOf self.now (rows_by K.bytes result) }
        ensures entries { rows_by K.bytes result ≡ finite.entries self.now }
    {
        self.sets.iter()
    }

    /// Adds a number under a key, and answers whether it is new there.
    pub(crate) fn insert<Q: Wanted<K>>(
        &mut self,
        alloc: Global,
        key: Q,
        number: u32,
    ) -> Result<bool, AllocError>
        ensures { Puts (Q.wanted key) number (members_in self.old) (members_in self.new) result }
    {
        put(alloc, &mut self.sets, key, number)
    }

    /// Takes a number from a key, and answers whether it was there. It takes no memory.
    pub(crate) fn remove<Q: Wanted<K>>(&mut self, key: Q, number: u32) -> bool
        ensures { Takes (Q.wanted key) number (members_in self.old) (members_in self.new) result }
    {
        take(&mut self.sets, key, number)
    }

    /// Takes a number from every key. It takes no memory.
    pub(crate) fn forget(&mut self, number: u32)
        ensures { (q : List ℕ) → members_in self.new q ≡ set.remove (members_in self.old q) number }
    {
        forget_in(&mut self.sets, number);
    }
}
