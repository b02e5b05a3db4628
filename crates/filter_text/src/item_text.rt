//! Items of filters as text (RFC 4515, section 3: `item`).
ghost use Rattle.std.specs.Prelude.{◌≡◌, ◌↔◌, ◌∷◌, [], IsTrue, IfOk, IfErr, MatchResult, MatchOption};
ghost use Rattle.filter_text.specs.declared.items.Item.{Item};
ghost use Rattle.filter_text.specs.Items.{IsItem, SomeItem};
ghost use Rattle.filter_text.specs.Runs.{Stops};
ghost use Rattle.filter_text.specs.inner.Begins.{IsMemory, Faulty};
ghost use Rattle.filter_text.specs.inner.Shapes.{unless_empty, of_many, of_pieces, compared, sign, is_sign};

use crate::comparison::Comparison;
use crate::cursor::{after, name_at};
use crate::fault::Fault;
use crate::items::Item;
use crate::pieces::pieces_of;
use crate::values::value_of;
use crate::words::words_of;
use base::{Bytes, Sequence};
use std::alloc::Global;

fn comparison_at(bytes: &[u8]) -> Option<(Comparison, &[u8])>
    ensures { MatchOption result (Stops is_sign bytes.now) (λ x. bytes.now ≡ sign x.0 ∷ x.1.now) }
{
    match bytes {
        [b'~', rest @ ..] => Some((Comparison::Approx, rest)),
        [b'>', rest @ ..] => Some((Comparison::Greater, rest)),
        [b'<', rest @ ..] => Some((Comparison::Less, rest)),
        _ => None,
    }
}

fn compared(comparison: Comparison, attribute: Bytes, value: Bytes) -> Item
    ensures { result ≡ compared comparison attribute value }
{
    match comparison {
        Comparison::Approx => Item::Approx { attribute, value },
        Comparison::Greater => Item::GreaterOrEqual { attribute, value },
        Comparison::Less => Item::LessOrEqual { attribute, value },
    }
}

fn unless_empty(piece: Bytes) -> Option<Bytes>
    ensures { result ≡ unless_empty piece }
{
    if piece.is_empty() { None } else { Some(piece) }
}

fn are_empty(first: &Bytes, any: &[Bytes], last: &Bytes) -> bool
    ensures { IsTrue result ↔ ((first.now ≡ []) × (any.now ≡ []) × (last.now ≡ [])) }
{
    first.is_empty() && any.is_empty() && last.is_empty()
}

/// What the pieces before, between and behind stars come to: a presence where all are empty, or substrings.
fn of_many(attribute: Bytes, first: Bytes, any: Vec<Bytes>, last: Bytes) -> Item
    ensures { result ≡ of_many attribute first any.items last }
{
    if are_empty(&first, &any, &last) {
        return Item::Present { attribute };
    }
    Item::Substrings {
        attribute,
        initial: unless_empty(first),
        any: Sequence::from_vec(any),
        last: unless_empty(last),
    }
}

/// What the pieces behind `=` come to: an equality where there is one alone.
fn of_pieces(attribute: Bytes, first: Bytes, others: Vec<Bytes>) -> Item
    ensures { result ≡ of_pieces attribute (first ∷ others.items) }
{
    let mut any = others;
    match any.pop() {
        Some(last) => of_many(attribute, first, any, last),
        None => Item::Equality {
            attribute,
            value: first,
        },
    }
}

/// The item that the whole text spells.
pub fn item_of(alloc: Global, text: &[u8]) -> Result<Item, Fault>
    ensures found { IfOk result (λ item. IsItem item text.now) }
    ensures only { (i : Item) → IsItem i text.now → MatchResult result (λ item. item ≡ i) IsMemory }
    ensures front { IfErr result (Faulty SomeItem text.now) }
{
    let (name, rest) = name_at(text);
    if name.is_empty() {
        let (words, value) = words_of(alloc, rest, 1)?;
        return Ok(Item::Extensible {
            attribute: None,
            words,
            value,
        });
    }
    if let Some(right) = after(rest, b'=') {
        let (first, others) = pieces_of(alloc, right)?;
        let attribute = Bytes::from_slice(alloc, name)?;
        return Ok(of_pieces(attribute, first, others));
    }
    let Some((comparison, equals)) = comparison_at(rest) else {
        let (words, value) = words_of(alloc, rest, 0)?;
        let attribute = Bytes::from_slice(alloc, name)?;
        return Ok(Item::Extensible {
            attribute: Some(attribute),
            words,
            value,
        });
    };
    let Some(right) = after(equals, b'=') else {
        return Err(Fault::Syntax(equals.len()));
    };
    let value = value_of(alloc, right)?;
    let attribute = Bytes::from_slice(alloc, name)?;
    Ok(compared(comparison, attribute, value))
}
