//! Pieces between stars.
ghost use Rattle.std.specs.Prelude.{◌≡◌, ℕ, ◌≤◌, List, ◌++◌, ◌∷◌, length, IfOk, IfErr, MatchResult};
ghost use Rattle.filter_text.specs.inner.Begins.{IsMemory, Faulty};
ghost use Rattle.filter_text.specs.inner.Pieces.{IsPieces, SomePieces};
ghost use Rattle.filter_text.specs.Runs.{Run, Stops, is_star};

use crate::cursor::after;
use crate::fault::{Fault, read_whole};
use crate::values::value_at;
use base::Bytes;
use std::alloc::Global;

/// What follows the stars at the front.
fn skip_stars(bytes: &[u8]) -> &[u8]
    ensures run { (s : List ℕ) × Run is_star s × (bytes.now ≡ s ++ result.now) }
    ensures stops { Stops is_star result.now }
    ensures no_longer { length result.now ≤ length bytes.now }
{
    let mut rest = bytes;
    while let Some(more) = after(rest, b'*') {
        rest = more;
    }
    rest
}

/// The pieces that the whole text spells: the first, and those behind stars.
pub fn pieces_of(alloc: Global, text: &[u8]) -> Result<(Bytes, Vec<Bytes>), Fault>
    ensures found { IfOk result (λ x. IsPieces (x.0 ∷ x.1.items) text.now) }
    ensures only { (ps : List (List ℕ)) → IsPieces ps text.now → MatchResult result (λ x. x.0 ∷ x.1.items ≡ ps) IsMemory }
    ensures front { IfErr result (Faulty SomePieces text.now) }
{
    let (first, end) = value_at(alloc, text)?;
    let mut others = Vec::new(alloc);
    let mut rest = end;
    'stars: while let Some(more) = after(rest, b'*') {
        let (piece, end) = value_at(alloc, skip_stars(more))?;
        others.push(piece)?;
        rest = end;
    }
    read_whole((first, others), rest)
}
