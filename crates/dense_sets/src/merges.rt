//! Words merged with words at the same places, eight at a time.
ghost use Rattle.std.specs.Prelude.{◌≡◌, ◌≤◌, ◌+◌, ◌<◌, ℕ, IfOk, length, slice_index};
ghost use Rattle.std.specs.Int.{w64, bit_not};
ghost use Rattle.std.specs.Int.Bits.{bit_and, bit_or};
ghost use Rattle.std.specs.Simd.Lanes.{zip2};
ghost use Rattle.dense_sets.specs.inner.Merged.{IsMerged};

use std::alloc::{AllocError, Global};
use std::simd::prelude::*;

/// What becomes of two words, and of eight pairs of words at once.
pub trait Merge {
    /// The word that two words become.
    ghost merged: { ℕ → ℕ → ℕ };

    fn word(left: u64, right: u64) -> u64
        ensures { result ≡ merged left right };

    fn lanes(left: u64x8, right: u64x8) -> u64x8
        ensures { result ≡ zip2 merged left right };
}

/// The bits that both have.
pub struct Both;

/// The bits that one of them has.
pub struct Either;

/// The bits that the first has and the second hasn't.
pub struct OnlyFirst;

impl Merge for Both {
    ghost merged = { bit_and };

    fn word(left: u64, right: u64) -> u64 {
        left & right
    }

    fn lanes(left: u64x8, right: u64x8) -> u64x8 {
        left & right
    }
}

impl Merge for Either {
    ghost merged = { bit_or };

    fn word(left: u64, right: u64) -> u64 {
        left | right
    }

    fn lanes(left: u64x8, right: u64x8) -> u64x8 {
        left | right
    }
}

impl Merge for OnlyFirst {
    ghost merged = { λ left right. bit_and left (bit_not w64 right) };

    fn word(left: u64, right: u64) -> u64 {
        left & !right
    }

    fn lanes(left: u64x8, right: u64x8) -> u64x8 {
        left & !right
    }
}

/// The eight words at a place, each merged with the other's.
fn merge_block<M: Merge>(words: &mut [u64], other: &[u64], at: usize)
    requires here { at + 8 ≤ length words.old }
    requires there { at + 8 ≤ length other.now }
    ensures merged { (k : ℕ) → at ≤ k → k < at + 8 → slice_index words.new k ≡ M.merged (slice_index words.old k) (slice_index other.now k) }
    ensures below { (k : ℕ) → k < at → slice_index words.new k ≡ slice_index words.old k }
    ensures above { (k : ℕ) → at + 8 ≤ k → slice_index words.new k ≡ slice_index words.old k }
{
    let mine = u64x8::from_slice(&words[at..]);
    let theirs = u64x8::from_slice(&other[at..]);
    M::lanes(mine, theirs).copy_to_slice(&mut words[at..]);
}

/// Each word merged with the other's at its place, where there is one.
fn merge_words<M: Merge>(words: &mut [u64], other: &[u64])
    ensures { IsMerged M.merged words.old other.now words.new }
{
    let len = words.len().min(other.len());
    let mut at = 0;
    while at + 8 <= len {
        merge_block::<M>(words, other, at);
        at += 8;
    }
    while at < len {
        words[at] = M::word(words[at], other[at]);
        at += 1;
    }
}

/// A copy of words, merged with others.
pub fn merged<M: Merge>(alloc: Global, words: &[u64], other: &[u64]) -> Result<Vec<u64>, AllocError>
    ensures words { IfOk result (λ all. IsMerged M.merged words.now other.now all.items) }
    ensures len { IfOk result (λ all. length all.items ≡ length words.now) }
{
    let mut all = Vec::from_slice(alloc, words)?;
    merge_words::<M>(all.as_mut_slice(), other);
    Ok(all)
}
