//! Words whose bits stand for numbers: changed, counted, and merged with others.
ghost use Rattle.std.specs.Prelude.{◌≡◌, ◌≤◌, ◌<◌, ◌/◌, ◌^◌, ℕ, ◌==◌, ◌||◌, ◌&&◌, not, OnOk, IfOk, length};
ghost use Rattle.std.specs.FinSet as set;
ghost use Rattle.id_sets.specs.Words.{FitsIds, has_bit, set_of_words};

use crate::merges::{Both, Either, OnlyFirst, merged};
use std::alloc::{AllocError, Global};

/// Whether the number's bit is set.
pub fn test_bit(words: &[u64], id: u32) -> bool
    ensures { result ≡ has_bit words.now id }
{
    let place = (id / 64) as usize;
    place < words.len() && (words[place] >> (id % 64)) & 1 == 1
}

/// Sets the number's bit.
pub fn set_bit(words: &mut [u64], id: u32)
    requires { id / 64 < length words.old }
    ensures { (q : ℕ) → has_bit words.new q ≡ (q == id || has_bit words.old q) }
{
    let place = (id / 64) as usize;
    words[place] |= 1 << (id % 64);
}

/// Clears the number's bit.
pub fn clear_bit(words: &mut [u64], id: u32)
    requires { id / 64 < length words.old }
    ensures { (q : ℕ) → has_bit words.new q ≡ (not (q == id) && has_bit words.old q) }
{
    let place = (id / 64) as usize;
    words[place] &= !(1 << (id % 64));
}

/// Adds words without bits, up to a length. Where there is no memory, nothing changes.
pub fn grow(words: &mut Vec<u64>, len: usize) -> Result<(), AllocError>
    ensures long { OnOk result (len ≤ length words.new.items) }
    ensures most { FitsIds words.old.items → len ≤ 2 ^ 26 → FitsIds words.new.items }
    ensures same { (q : ℕ) → has_bit words.new.items q ≡ has_bit words.old.items q }
{
    if words.len() < len {
        words.resize(len, 0)?;
    }
    Ok(())
}

/// How many bits are set.
pub fn count(words: &[u64]) -> u64
    requires { FitsIds words.now }
    ensures { result ≡ set.len (set_of_words words.now) }
{
    let mut ones = 0u64;
    for word in words {
        ones += u64::from(word.count_ones());
    }
    ones
}

/// The bits that are set in both.
pub fn meet(alloc: Global, left: &[u64], right: &[u64]) -> Result<Vec<u64>, AllocError>
    ensures bits { IfOk result (λ both. (q : ℕ) → has_bit both.items q ≡ (has_bit left.now q && has_bit right.now q)) }
    ensures len { IfOk result (λ both. length both.items ≤ length left.now) }
{
    if left.len() <= right.len() {
        merged::<Both>(alloc, left, right)
    } else {
        merged::<Both>(alloc, right, left)
    }
}

/// The bits that are set in one of them.
pub fn join(alloc: Global, left: &[u64], right: &[u64]) -> Result<Vec<u64>, AllocError>
    ensures bits { IfOk result (λ all. (q : ℕ) → has_bit all.items q ≡ (has_bit left.now q || has_bit right.now q)) }
    ensures len { FitsIds left.now → FitsIds right.now → IfOk result (λ all. FitsIds all.items) }
{
    if left.len() <= right.len() {
        merged::<Either>(alloc, right, left)
    } else {
        merged::<Either>(alloc, left, right)
    }
}

/// The bits that are set in the first and not in the second.
pub fn minus(alloc: Global, left: &[u64], right: &[u64]) -> Result<Vec<u64>, AllocError>
    ensures bits { IfOk result (λ rest. (q : ℕ) → has_bit rest.items q ≡ (has_bit left.now q && not (has_bit right.now q))) }
    ensures len { IfOk result (λ rest. length rest.items ≡ length left.now) }
{
    merged::<OnlyFirst>(alloc, left, right)
}
