//! The keys that a filter asks postings for.

ghost use Rattle.std.specs.Prelude.{◌≡◌, ◌++◌, ◌∷◌, [], map, IfOk, OnOk};
ghost use Rattle.std.specs.List.{flat_map};
ghost use Rattle.filter.specs.Prepared.{prepared_view, prepared_views};
ghost use Rattle.index_keys.specs.EntryKeys.{windows};
ghost use Rattle.index_text.specs.Postings.{slot_in};
ghost use Rattle.index_text.specs.SlotKeys.{slot_key};
ghost use Rattle.candidates.specs.Asked.{asked_kind, asked_of_slot, item_keys, asked_keys, asked_keys_each};
ghost use Rattle.candidates.specs.Candidates.{prepared_of};

use base::Bytes;
use filter::{Assertion, Prepared, PreparedFilter, PreparedItem};
use index_keys::first_window;
use index_text::{SlotKey, SlotNumber, slot_number};
use schema::{IndexKind, Pieces, Slot};
use std::alloc::{AllocError, Global};

// the kind of the slot that an assertion asks
fn asked_kind(assertion: &Assertion) -> IndexKind
    ensures { result ≡ asked_kind assertion.now }
{
    match assertion {
        Assertion::Equality(_) => IndexKind::Equality,
        Assertion::Present | Assertion::GreaterOrEqual { .. } | Assertion::LessOrEqual { .. } => {
            IndexKind::Presence
        }
        Assertion::Substrings(_) => IndexKind::Substrings,
    }
}

fn push_key(
    alloc: Global,
    keys: &mut Vec<SlotKey>,
    slot: SlotNumber,
    key: &[u8],
) -> Result<(), AllocError>
    ensures { OnOk result (keys.new.items ≡ keys.old.items ++ slot_key slot.0 key.now ∷ []) }
{
    let key = Bytes::from_slice(alloc, key)?;
    keys.push(SlotKey { slot, key })?;
    Ok(())
}

// each window of a piece
fn push_windows(
    alloc: Global,
    keys: &mut Vec<SlotKey>,
    slot: SlotNumber,
    piece: &[u8],
) -> Result<(), AllocError>
    ensures { OnOk result (keys.new.items ≡ keys.old.items ++ map (slot_key slot.0) (windows piece.now)) }
{
    let mut rest = piece;
    while let Some(first) = first_window(rest) {
        let (window, after) = first;
        push_key(alloc, keys, slot, window)?;
        rest = after;
    }
    Ok(())
}

// each window of the pieces
fn push_pieces(
    alloc: Global,
    keys: &mut Vec<SlotKey>,
    slot: SlotNumber,
    pieces: &Pieces,
) -> Result<(), AllocError>
    ensures { OnOk result (keys.new.items ≡ keys.old.items ++ map (slot_key slot.0) (flat_map windows pieces.now.pieces)) }
{
    for piece in pieces.pieces.as_slice() {
        push_windows(alloc, keys, slot, piece.as_slice())?;
    }
    Ok(())
}

// the keys that an assertion asks its slot for
fn push_assertion(
    alloc: Global,
    keys: &mut Vec<SlotKey>,
    slot: SlotNumber,
    assertion: &Assertion,
) -> Result<(), AllocError>
    ensures { OnOk result (keys.new.items ≡ keys.old.items ++ map (slot_key slot.0) (asked_of_slot assertion.now)) }
{
    match assertion {
        Assertion::Equality(value) => push_key(alloc, keys, slot, value.as_slice()),
        Assertion::Present | Assertion::GreaterOrEqual { .. } | Assertion::LessOrEqual { .. } => {
            push_key(alloc, keys, slot, &[])
        }
        Assertion::Substrings(pieces) => push_pieces(alloc, keys, slot, pieces),
    }
}

fn push_item(
    alloc: Global,
    keys: &mut Vec<SlotKey>,
    slots: &[Slot],
    item: &PreparedItem,
) -> Result<(), AllocError>
    ensures { OnOk result (keys.new.items ≡ keys.old.items ++ item_keys (slot_in slots.now) item.now) }
{
    match item {
        PreparedItem::Undefined => Ok(()),
        PreparedItem::Asserts {
            type_id,
            assertion,
            ..
        } => match slot_number(slots, *type_id, asked_kind(assertion)) {
            None => Ok(()),
            Some(slot) => push_assertion(alloc, keys, slot, assertion),
        },
    }
}

#[cycle(operands)]
fn push_filter(
    alloc: Global,
    keys: &mut Vec<SlotKey>,
    slots: &[Slot],
    filter: &PreparedFilter,
) -> Result<(), AllocError>
    ensures { OnOk result (keys.new.items ≡ keys.old.items ++ asked_keys (slot_in slots.now) (prepared_view filter.now)) }
{
    match filter {
        PreparedFilter::And(operands) | PreparedFilter::Or(operands) => {
            push_operands(alloc, keys, slots, operands.as_slice())
        }
        PreparedFilter::Not(operand) => push_filter(alloc, keys, slots, operand),
        PreparedFilter::Item(item) => push_item(alloc, keys, slots, item),
    }
}

#[cycle(operands)]
fn push_operands(
    alloc: Global,
    keys: &mut Vec<SlotKey>,
    slots: &[Slot],
    operands: &[PreparedFilter],
) -> Result<(), AllocError>
    ensures { OnOk result (keys.new.items ≡ keys.old.items ++ asked_keys_each (slot_in slots.now) (prepared_views operands.now)) }
{
    for operand in operands {
        push_filter(alloc, keys, slots, operand)?;
    }
    Ok(())
}

/// The keys that a filter asks postings with these slots for, perhaps one several times. What postings show of other keys doesn't matter
/// to its candidates.
pub fn asked_keys(
    alloc: Global,
    filter: &Prepared,
    slots: &[Slot],
) -> Result<Vec<SlotKey>, AllocError>
    ensures { IfOk result (λ keys. keys.items ≡ asked_keys (slot_in slots.now) (prepared_of filter.now)) }
{
    let mut keys = Vec::new(alloc);
    push_filter(alloc, &mut keys, slots, filter.root())?;
    Ok(keys)
}
