//! The keys that normal forms give, in order.

ghost use Rattle.std.specs.Prelude.{◌≡◌, ℕ, List, map, IfOk, OnOk};
ghost use Rattle.std.specs.List.Sorted.{IsStrictlySortedBy};
ghost use Rattle.schema.specs.declared.slots.IndexKind.TheVariants.{Equality, Presence, Substrings};
ghost use Rattle.index_keys.specs.RankedKeys.{joined, ranked_cmp, is_among, AreRanked};
ghost use Rattle.index_keys.specs.Pairs.{norm_pairs, window_pairs};
ghost use Rattle.index_keys.specs.inner.AddedWindows.{AddsWindows};

use crate::ranked_key::RankedKey;
use crate::ranked_norm::RankedNorm;
use crate::ranked_window::RankedWindow;
use crate::type_norms::NumberedNorm;
use crate::windows::first_window;
use std::alloc::{AllocError, Global};

// the same in order, each once
fn in_order<K: RankedKey>(keys: Vec<K>) -> Vec<K>
    ensures rise { IsStrictlySortedBy ranked_cmp (map K.pair result.items) }
    ensures same { (q : List ℕ) (n : ℕ) → is_among (map K.pair result.items) q n ≡ is_among (map K.pair keys.items) q n }
{
    let mut keys = keys;
    keys.sort_unstable();
    keys.dedup();
    keys
}

// puts the windows of a text to others
fn push_windows(all: &mut Vec<RankedWindow>, text: &[u8], rank: u32) -> Result<(), AllocError>
    ensures { OnOk result (AddsWindows text.now rank (window_pairs all.old.items) (window_pairs all.new.items)) }
{
    let mut left = text;
    while let Some(first) = first_window(left) {
        let (window, rest) = first;
        all.push(RankedWindow::of(*window, rank))?;
        left = rest;
    }
    Ok(())
}

/// The windows of normal forms, each with the number of the entry that has it as its rank, in order, each once.
pub fn ranked_windows(
    alloc: Global,
    norms: &[NumberedNorm<'_>],
) -> Result<Vec<RankedWindow>, AllocError>
    ensures { IfOk result (λ keys. AreRanked Substrings norms.now (window_pairs keys.items)) }
{
    let mut all = Vec::new(alloc);
    for numbered in norms {
        push_windows(&mut all, numbered.norm, numbered.number)?;
    }
    Ok(in_order(all))
}

/// The bytes of normal forms, one behind the other. Keys that lie there are found faster than where their entries lie.
pub fn bytes_of(alloc: Global, norms: &[NumberedNorm<'_>]) -> Result<Vec<u8>, AllocError>
    ensures { IfOk result (λ bytes. bytes.items ≡ joined norms.now) }
{
    let mut bytes = Vec::new(alloc);
    for numbered in norms {
        bytes.extend_from_slice(numbered.norm)?;
    }
    Ok(bytes)
}

/// Normal forms, whose bytes these are, as keys of equality, each with the number of the entry that has it as its rank, in order, each once.
pub fn ranked_norms<'a>(
    alloc: Global,
    norms: &[NumberedNorm<'_>],
    bytes: &'a [u8],
) -> Result<Vec<RankedNorm<'a>>, AllocError>
    requires { bytes.now ≡ joined norms.now }
    ensures { IfOk result (λ keys. AreRanked Equality norms.now (norm_pairs keys.items)) }
{
    let mut all = Vec::with_capacity(alloc, norms.len())?;
    let mut left = bytes;
    for numbered in norms {
        let (norm, others) = left.split_at(numbered.norm.len());
        all.push(RankedNorm::of(norm, numbered.number))?;
        left = others;
    }
    Ok(in_order(all))
}

/// The empty key of presence, with the number of each entry that has a normal form as its rank, in order, each once.
pub fn ranked_presence<'a>(
    alloc: Global,
    norms: &[NumberedNorm<'_>],
) -> Result<Vec<RankedNorm<'a>>, AllocError>
    ensures { IfOk result (λ keys. AreRanked Presence norms.now (norm_pairs keys.items)) }
{
    let mut all = Vec::with_capacity(alloc, norms.len())?;
    for numbered in norms {
        all.push(RankedNorm::of(b"", numbered.number))?;
    }
    Ok(in_order(all))
}
