//! The candidates of an item.

ghost use Rattle.std.specs.Prelude.{◌≡◌, ◌&&◌, IfOk};
ghost use Rattle.candidates.specs.Sides.{has_windows, has_piece, key_sides, value_sides, pieces_sides, assertion_sides, item_sides};
ghost use Rattle.candidates.specs.inner.Held.{members_of, hold, HoldExactly};
ghost use Rattle.candidates.specs.inner.OneSide.{on};

use crate::held::{Held, all_or_none, meet_numbers};
use crate::numbers::Numbers;
use crate::side::Side;
use filter::{Assertion, PreparedItem};
use index_keys::first_window;
use index_text::{Postings, SlotNumber};
use schema::{IndexKind, Pieces, TypeId};
use std::alloc::{AllocError, Global};

// the members of a key
fn members<'p, P: Postings>(postings: &'p P, slot: SlotNumber, key: &[u8]) -> Held<'p, P::Set>
    ensures { members_of P.Set.members result ≡ (P.shown postings.now).members slot.0 key.now }
{
    match postings.lookup(slot, key) {
        Some(set) => Held::Lent(set),
        None => Held::Nothing,
    }
}

// where the item is True of exactly the members of a key
fn exactly<'p, P: Postings>(
    postings: &'p P,
    t: TypeId,
    kind: IndexKind,
    key: &[u8],
    side: Side,
) -> Numbers<Held<'p, P::Set>>
    ensures { HoldExactly P.Set.members (λ n. on side (key_sides (P.shown postings.now) n t kind key.now)) result }
{
    match postings.slot(t, kind) {
        None => all_or_none(postings, true),
        Some(slot) => match side {
            Side::MayBeTrue => Numbers::Only(members(postings, slot, key)),
            Side::MayBeFalse => Numbers::AllBut(members(postings, slot, key)),
        },
    }
}

// where the item asks by an order: an entry of which it is True has a value, and one that has values need not be such an entry
fn by_presence<'p, P: Postings>(postings: &'p P, t: TypeId, side: Side) -> Numbers<Held<'p, P::Set>>
    ensures { HoldExactly P.Set.members (λ n. on side (value_sides (P.shown postings.now) n t)) result }
{
    match postings.slot(t, IndexKind::Presence) {
        None => all_or_none(postings, true),
        Some(slot) => match side {
            Side::MayBeTrue => Numbers::Only(members(postings, slot, &[])),
            Side::MayBeFalse => all_or_none(postings, true),
        },
    }
}

// those of the numbers that are members of each window of a piece
fn with_windows<'p, P: Postings>(
    alloc: Global,
    postings: &'p P,
    slot: SlotNumber,
    piece: &[u8],
    numbers: Numbers<Held<'p, P::Set>>,
) -> Result<Numbers<Held<'p, P::Set>>, AllocError>
    ensures { IfOk result (HoldExactly P.Set.members (λ n. hold P.Set.members numbers.entry n && has_piece (P.shown postings.now) n slot.0 piece.now)) }
{
    let mut left = numbers;
    let mut rest = piece;
    while let Some(first) = first_window(rest) {
        let (window, after) = first;
        left = meet_numbers(alloc, left, Numbers::Only(members(postings, slot, window)))?;
        rest = after;
    }
    Ok(left)
}

// the members of each window of the pieces
fn by_windows<'p, P: Postings>(
    alloc: Global,
    postings: &'p P,
    slot: SlotNumber,
    pieces: &Pieces,
) -> Result<Numbers<Held<'p, P::Set>>, AllocError>
    ensures { IfOk result (HoldExactly P.Set.members (λ n. has_windows (P.shown postings.now) n slot.0 pieces.now.pieces)) }
{
    let mut left = all_or_none(postings, true);
    for piece in pieces.pieces.as_slice() {
        left = with_windows(alloc, postings, slot, piece.as_slice(), left)?;
    }
    Ok(left)
}

// where the item asks for pieces: a value that they fit has their windows, and one that has these need not fit
fn by_pieces<'p, P: Postings>(
    alloc: Global,
    postings: &'p P,
    t: TypeId,
    pieces: &Pieces,
    side: Side,
) -> Result<Numbers<Held<'p, P::Set>>, AllocError>
    ensures { IfOk result (HoldExactly P.Set.members (λ n. on side (pieces_sides (P.shown postings.now) n t pieces.now.pieces))) }
{
    match postings.slot(t, IndexKind::Substrings) {
        None => Ok(all_or_none(postings, true)),
        Some(slot) => match side {
            Side::MayBeTrue => by_windows(alloc, postings, slot, pieces),
            Side::MayBeFalse => Ok(all_or_none(postings, true)),
        },
    }
}

// where the item asks this of the values of a type
fn by_assertion<'p, P: Postings>(
    alloc: Global,
    postings: &'p P,
    t: TypeId,
    assertion: &Assertion,
    side: Side,
) -> Result<Numbers<Held<'p, P::Set>>, AllocError>
    ensures { IfOk result (HoldExactly P.Set.members (λ n. on side (assertion_sides (P.shown postings.now) n t assertion.now))) }
{
    match assertion {
        Assertion::Equality(value) => {
            Ok(exactly(postings, t, IndexKind::Equality, value.as_slice(), side))
        }
        Assertion::Present => Ok(exactly(postings, t, IndexKind::Presence, &[], side)),
        Assertion::GreaterOrEqual { .. } | Assertion::LessOrEqual { .. } => {
            Ok(by_presence(postings, t, side))
        }
        Assertion::Substrings(pieces) => by_pieces(alloc, postings, t, pieces, side),
    }
}

/// The numbers of the entries of which an item may be what the side says.
pub(crate) fn item_numbers<'p, P: Postings>(
    alloc: Global,
    item: &PreparedItem,
    postings: &'p P,
    side: Side,
) -> Result<Numbers<Held<'p, P::Set>>, AllocError>
    ensures { IfOk result (HoldExactly P.Set.members (λ n. on side (item_sides (P.shown postings.now) n item.now))) }
{
    match item {
        PreparedItem::Undefined => Ok(all_or_none(postings, false)),
        PreparedItem::Asserts {
            type_id,
            assertion,
            ..
        } => by_assertion(alloc, postings, *type_id, assertion, side),
    }
}
