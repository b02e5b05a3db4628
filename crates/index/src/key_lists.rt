//! Lists of keys: those of one that another one hasn't.

ghost use Rattle.std.specs.Prelude.{◌≡◌, ◌++◌, ◌∷◌, [], not, map, filter, OnOk};
ghost use Rattle.std.specs.List.Sorted.{IsStrictlySortedBy};
ghost use Rattle.std.specs.Cmp.Lexicographic.{slice_cmp};
ghost use Rattle.std.specs.Ordering.{nat_cmp};
ghost use Rattle.index_text.specs.SlotKeys.{slot_key};
ghost use Rattle.index.specs.inner.KeyLists.{is_listed};

use base::Bytes;
use index_text::{SlotKey, SlotNumber};
use std::alloc::{AllocError, Global};

/// Whether a key is one of those, which are in order.
pub(crate) fn is_among(keys: &[&[u8]], key: &&[u8]) -> bool
    requires { IsStrictlySortedBy (λ a b. slice_cmp nat_cmp a.now b.now) keys.now }
    ensures { result ≡ is_listed key.now.now keys.now }
{
    keys.binary_search(key).is_ok()
}

// puts a key under a slot at the end
fn push(
    alloc: Global,
    slot: SlotNumber,
    key: &[u8],
    found: &mut Vec<SlotKey>,
) -> Result<(), AllocError>
    ensures { OnOk result (found.new.items ≡ found.old.items ++ slot_key slot.0 key.now ∷ []) }
{
    let key = Bytes::from_slice(alloc, key)?;
    found.push(SlotKey { slot, key })?;
    Ok(())
}

/// Puts those keys under a slot at the end that aren't among others, which are in order.
pub(crate) fn push_missing(
    alloc: Global,
    slot: SlotNumber,
    keys: &[&[u8]],
    others: &[&[u8]],
    found: &mut Vec<SlotKey>,
) -> Result<(), AllocError>
    requires { IsStrictlySortedBy (λ a b. slice_cmp nat_cmp a.now b.now) others.now }
    ensures { OnOk result (found.new.items ≡ found.old.items ++ map (λ k. slot_key slot.0 k.now) (filter (λ k. not (is_listed k.now others.now)) keys.now)) }
{
    for key in keys {
        if !is_among(others, key) {
            push(alloc, slot, *key, found)?;
        }
    }
    Ok(())
}
