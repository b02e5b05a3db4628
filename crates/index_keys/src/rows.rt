//! Rows of an index text.

ghost use Rattle.std.specs.Prelude.{◌≤◌, ◌∷◌, map, length, IfOk, OnErr};
ghost use Rattle.index_text.specs.Begun.{HasBegun};
ghost use Rattle.index_keys.specs.RankedKeys.{first_row_text, WritesRow};
ghost use Rattle.index_keys.specs.inner.Fronts.{MovesRanks, BeginsOtherwise};

use crate::ranked_key::RankedKey;
use std::alloc::{AllocError, Global};

// puts the ranks of those in front that have the key of the first behind others, and hands out what is left
fn take_ranks<'k, K: RankedKey>(
    first: &K,
    keys: &'k [K],
    ranks: &mut Vec<u32>,
) -> Result<&'k [K], AllocError>
    ensures parts { IfOk result (λ rest. MovesRanks (K.pair first.now).0 ranks.old.items ranks.new.items (map K.pair keys.now) (map K.pair rest.now)) }
    ensures others { IfOk result (λ rest. BeginsOtherwise (K.pair first.now).0 (map K.pair rest.now)) }
    ensures fewer { IfOk result (λ rest. length rest.now ≤ length keys.now) }
{
    let mut left = keys;
    while let Some(parts) = left.split_first() {
        let (next, rest) = parts;
        if !next.has_key_of(first) {
            return Ok(left);
        }
        ranks.push(next.rank())?;
        left = rest;
    }
    Ok(left)
}

/// Puts the row of the first key at the end of a text: the line of that key with all its ranks. It hands out the keys of the other rows.
/// The ranks are the caller's room, and what they were is forgotten. Where memory runs out, a beginning of the line is put, perhaps nothing.
pub fn put_row<'k, K: RankedKey>(
    alloc: Global,
    first: &K,
    others: &'k [K],
    ranks: &mut Vec<u32>,
    out: &mut Vec<u8>,
) -> Result<&'k [K], AllocError>
    ensures text { IfOk result (λ rest. WritesRow (K.pair first.now ∷ map K.pair others.now) (map K.pair rest.now) out.old.items out.new.items) }
    ensures fewer { IfOk result (λ rest. length rest.now ≤ length others.now) }
    ensures kept { OnErr result (HasBegun (first_row_text (K.pair first.now ∷ map K.pair others.now)) out.old.items out.new.items) }
{
    ranks.clear();
    ranks.push(first.rank())?;
    let rest = take_ranks(first, others, ranks)?;
    first.put_line(alloc, ranks.as_slice(), out)?;
    Ok(rest)
}
