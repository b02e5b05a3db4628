//! The keys of an entry under a slot, in order.

ghost use Rattle.std.specs.Prelude.{◌≡◌, ◌&&◌, ◌||◌, ℕ, List, IfOk, OnOk};
ghost use Rattle.std.specs.List.{list_any};
ghost use Rattle.std.specs.List.Sorted.{IsStrictlySortedBy};
ghost use Rattle.std.specs.Cmp.Lexicographic.{slice_cmp};
ghost use Rattle.std.specs.Ordering.{nat_cmp};
ghost use Rattle.std.specs.Str.{bytes_eq};
ghost use Rattle.index.specs.KeyChanges.{IsMadeIn, content_in};
ghost use Rattle.index.specs.inner.KeyLists.{is_listed, AreListed};
ghost use Rattle.index.specs.inner.SlotTests.{has_under, has_behind};

use crate::entry_keys::EntryKeys;
use crate::key_lists::is_among;
use entries::Entry;
use schema::{Conf, Slot};
use std::alloc::{AllocError, Global};

/// So many keys at least are gathered before those that stand there twice are left out.
const MANY: usize = 4096;

// Leaves the keys in order, each once.
fn tidy<'a>(keys: &mut Vec<&'a [u8]>)
    ensures { AreListed (λ q. is_listed q keys.old.items) keys.new.items }
{
    keys.sort_unstable();
    keys.dedup();
}

// Leaves out keys that stand there twice where there are more than so many, and answers how many there may be next: the windows of a long
// text are few.
fn tidy_many<'a>(keys: &mut Vec<&'a [u8]>, most: usize) -> usize
    ensures { (q : List ℕ) → is_listed q keys.new.items ≡ is_listed q keys.old.items }
{
    if keys.len() <= most {
        return most;
    }
    tidy(keys);
    keys.len().saturating_mul(2).max(MANY)
}

// puts a key to others, and answers how many there may be next
fn gather<'a>(keys: &mut Vec<&'a [u8]>, most: usize, key: &'a [u8]) -> Result<usize, AllocError>
    ensures { OnOk result ((q : List ℕ) → is_listed q keys.new.items ≡ (is_listed q keys.old.items || bytes_eq key.now q)) }
{
    let next = tidy_many(keys, most);
    keys.push(key)?;
    Ok(next)
}

// the same, of a key that is among others, which are in order
fn gather_among<'a>(
    keys: &mut Vec<&'a [u8]>,
    most: usize,
    key: &'a [u8],
    others: &[&[u8]],
) -> Result<usize, AllocError>
    requires { IsStrictlySortedBy (λ a b. slice_cmp nat_cmp a.now b.now) others.now }
    ensures { OnOk result ((q : List ℕ) → is_listed q keys.new.items ≡ (is_listed q keys.old.items || (is_listed key.now others.now && bytes_eq key.now q))) }
{
    if !is_among(others, &key) {
        return Ok(most);
    }
    gather(keys, most, key)
}

// the keys in order, each once
fn sorted<'a>(alloc: Global, keys: EntryKeys<'a>) -> Result<Vec<&'a [u8]>, AllocError>
    ensures { IfOk result (λ ks. AreListed (λ q. list_any (λ k. bytes_eq k q) keys.entry) ks.items) }
{
    let mut all = Vec::new(alloc);
    let mut most = MANY;
    for key in keys {
        most = gather(&mut all, most, key)?;
    }
    tidy(&mut all);
    Ok(all)
}

// those that are among others, which are in order; in order, each once
fn sorted_among<'a>(
    alloc: Global,
    keys: EntryKeys<'a>,
    others: &[&[u8]],
) -> Result<Vec<&'a [u8]>, AllocError>
    requires { IsStrictlySortedBy (λ a b. slice_cmp nat_cmp a.now b.now) others.now }
    ensures { IfOk result (λ ks. AreListed (λ q. list_any (λ k. bytes_eq k q) keys.entry && is_listed q others.now) ks.items) }
{
    let mut found = Vec::new(alloc);
    if others.is_empty() {
        return Ok(found);
    }
    let mut most = MANY;
    for key in keys {
        most = gather_among(&mut found, most, key, others)?;
    }
    tidy(&mut found);
    Ok(found)
}

/// The keys under a slot that the normal forms behind so many of an entry give, by their bytes, each once; none where there is no entry.
pub(crate) fn keys_behind<'a>(
    alloc: Global,
    conf: &'a Conf,
    stored: Option<&'a Entry>,
    slot: &Slot,
    front: usize,
) -> Result<Vec<&'a [u8]>, AllocError>
    requires { IsMadeIn conf.now.types stored }
    ensures { IfOk result (λ ks. AreListed (has_behind conf.now.types slot.now front (content_in stored.entry)) ks.items) }
{
    match stored {
        Some(entry) => sorted(alloc, EntryKeys::behind(conf, entry, slot, front)),
        None => Ok(Vec::new(alloc)),
    }
}

/// The keys of an entry under a slot that are among others, which are in order; by their bytes, each once. None where there is no entry.
pub(crate) fn keys_among<'a>(
    alloc: Global,
    conf: &'a Conf,
    stored: Option<&'a Entry>,
    slot: &Slot,
    others: &[&[u8]],
) -> Result<Vec<&'a [u8]>, AllocError>
    requires made { IsMadeIn conf.now.types stored }
    requires rise { IsStrictlySortedBy (λ a b. slice_cmp nat_cmp a.now b.now) others.now }
    ensures { IfOk result (λ ks. AreListed (λ q. has_under conf.now.types slot.now (content_in stored.entry) q && is_listed q others.now) ks.items) }
{
    match stored {
        Some(entry) => sorted_among(alloc, EntryKeys::of(conf, entry, slot), others),
        None => Ok(Vec::new(alloc)),
    }
}
