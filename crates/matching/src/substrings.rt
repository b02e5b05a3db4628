//! Substring assertions.

ghost use Rattle.std.specs.Prelude.{◌≡◌, ◌≢◌, ◌↔◌, ◌++◌, List, ℕ, IsTrue, IfOk, MatchOption, map};
ghost use Rattle.matching.specs.Forms.{lower};
ghost use Rattle.matching.specs.Substrings.{Fits, cut_front, cut_end, tidy_piece, piece_norm, piece_norms};
ghost use Rattle.matching.specs.inner.Places.{InOrder, OccursNowhere, FollowsFirst};

use crate::family::Family;
use crate::normal::normal_form;
use crate::spaces::one_spaces;
use base::{Bytes, Sequence, without_end, without_front};
use memchr::memmem;
use std::alloc::{AllocError, Global};

/// The pieces of a substring assertion in their normal forms (RFC 4511, 4.5.1.7.2).
#[derive(Drop)]
pub struct Pieces {
    pub pieces: Sequence<Bytes>,
    /// Whether a star stands before the first.
    pub front: bool,
    /// Whether a star stands after the last.
    pub back: bool,
}

fn cut_front(before: bool, text: &[u8]) -> &[u8]
    ensures { result.now ≡ cut_front before text.now }
{
    if before { text } else { without_front(text) }
}

fn cut_end(after: bool, text: &[u8]) -> &[u8]
    ensures { result.now ≡ cut_end after text.now }
{
    if after { text } else { without_end(text) }
}

fn tidy_piece(alloc: Global, before: bool, after: bool, text: &[u8]) -> Result<Bytes, AllocError>
    ensures { IfOk result (λ v. v ≡ tidy_piece before after text.now) }
{
    let text = one_spaces(alloc, cut_end(after, cut_front(before, text)))?;
    Ok(Bytes::from_vec(text))
}

fn tidy_and_lower(
    alloc: Global,
    before: bool,
    after: bool,
    text: &[u8],
) -> Result<Bytes, AllocError>
    ensures { IfOk result (λ v. v ≡ lower (tidy_piece before after text.now)) }
{
    let mut text = tidy_piece(alloc, before, after, text)?;
    text.make_ascii_lowercase();
    Ok(text)
}

#[tactic(auto, unfolding(crate::specs::Substrings::piece_norm))]
fn piece_norm(
    alloc: Global,
    family: Family,
    before: bool,
    after: bool,
    text: &[u8],
) -> Result<Bytes, AllocError>
    ensures { IfOk result (λ v. v ≡ piece_norm family before after text.now) }
{
    match family {
        Family::Ignore => tidy_and_lower(alloc, before, after, text),
        Family::Exact => tidy_piece(alloc, before, after, text),
        _ => normal_form(alloc, family, text),
    }
}

fn piece_norms(
    alloc: Global,
    family: Family,
    texts: &[&[u8]],
    front: bool,
    back: bool,
) -> Result<Vec<Bytes>, AllocError>
    ensures { IfOk result (λ v. v.items ≡ piece_norms family front back (map (λ text. text.now) texts.now)) }
{
    let mut pieces = Vec::with_capacity(alloc, texts.len())?;
    for i in 0..texts.len() {
        let before = front | (0 < i);
        let after = back | (i + 1 < texts.len());
        pieces.push(piece_norm(alloc, family, before, after, texts[i])?)?;
    }
    Ok(pieces)
}

impl Pieces {
    /// The pieces of an assertion for values of this family; `front` and `back` say whether a star stands there.
    pub fn new(
        alloc: Global,
        family: Family,
        texts: &[&[u8]],
        front: bool,
        back: bool,
    ) -> Result<Pieces, AllocError>
        ensures { IfOk result (λ p. p ≡ record { pieces = piece_norms family front back (map (λ text. text.now) texts.now); front = front; back = back }) }
    {
        let pieces = piece_norms(alloc, family, texts, front, back)?;
        Ok(Pieces {
            pieces: Sequence::from_vec(pieces),
            front,
            back,
        })
    }
}

fn after_prefix<'a>(text: &'a [u8], piece: &[u8]) -> Option<&'a [u8]>
    ensures { MatchOption result ((rest : List ℕ) → text.entry.now ≢ piece.now ++ rest) (λ rest. text.entry.now ≡ piece.now ++ rest.now) }
{
    text.strip_prefix(piece)
}

fn ends_in(text: &[u8], piece: &[u8]) -> bool
    ensures { IsTrue result ↔ ((gap : List ℕ) × (text.now ≡ gap ++ piece.now)) }
{
    text.ends_with(piece)
}

// what follows the first place of a piece
fn after_first<'a>(text: &'a [u8], piece: &[u8]) -> Option<&'a [u8]>
    ensures { MatchOption result (OccursNowhere text.entry.now piece.now) (λ rest. FollowsFirst text.entry.now piece.now rest.now) }
{
    let at = memmem::find(text, piece)?;
    Some(text.split_at(at + piece.len()).1)
}

// whether the pieces stand in order in the text, each at the leftmost place that is left
fn stand_in_order(pieces: &[Bytes], back: bool, text: &[u8]) -> bool
    ensures { IsTrue result ↔ InOrder back pieces.now text.now }
{
    let mut rest = text;
    for (i, piece) in pieces.iter().enumerate() {
        if !back && i + 1 == pieces.len() {
            return ends_in(rest, piece.as_slice());
        }
        match after_first(rest, piece.as_slice()) {
            Some(after) => rest = after,
            None => return false,
        }
    }
    back || rest.is_empty()
}

fn fits(pieces: &[Bytes], front: bool, back: bool, text: &[u8]) -> bool
    ensures { IsTrue result ↔ Fits front back pieces.now text.now }
{
    if front {
        return stand_in_order(pieces, back, text);
    }
    match pieces.split_first() {
        None => text.is_empty(),
        Some((first, others)) => match after_prefix(text, first.as_slice()) {
            Some(rest) => stand_in_order(others, back, rest),
            None => false,
        },
    }
}

/// Whether a value in normal form is made of the pieces in order, with a stretch at each star, which may be empty.
pub fn contains_pieces(pieces: &Pieces, norm: &[u8]) -> bool
    ensures { IsTrue result ↔ Fits pieces.now.front pieces.now.back pieces.now.pieces norm.now }
{
    fits(pieces.pieces.as_slice(), pieces.front, pieces.back, norm)
}
