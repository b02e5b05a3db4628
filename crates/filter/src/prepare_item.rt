//! Settling items under a configuration.

ghost use Rattle.std.specs.Prelude.{◌≡◌, ◌<◌, ◌++◌, IfOk, IfSome, OnOk, length, map};
ghost use Rattle.std.specs.Option.{option_map};
ghost use Rattle.schema.specs.Values.{is_valid_at, norm_at};
ghost use Rattle.filter.specs.Items.{attribute_of, item_type, one_or_none, order_of, texts_of};
ghost use Rattle.schema.specs.Subtypes.{subtypes};
ghost use Rattle.filter.specs.Prepared.{only_if, equality_assertion, bound_of, at_least_assertion, at_most_assertion, substrings_assertion, assertion_of, prepared_item};

use crate::assertion::Assertion;
use crate::prepared_item::PreparedItem;
use base::{Bytes, Sequence};
use filter_text::Item;
use schema::{Conf, EqualityRule, Family, TypeId, ValueFault};
use std::alloc::{AllocError, Global};

// the normal form of a value, where it is valid
fn normal_value(
    alloc: Global,
    conf: &Conf,
    t: TypeId,
    value: &[u8],
) -> Result<Option<Bytes>, AllocError>
    requires { t < length conf.now.types }
    ensures { IfOk result (λ n. n ≡ only_if (is_valid_at conf.now.types t value.now) (norm_at conf.now.types t value.now)) }
{
    match conf.make_value(alloc, t, value) {
        Ok(value) => Ok(Some(Bytes::from_slice(alloc, value.norm())?)),
        Err(ValueFault::Invalid) => Ok(None),
        Err(ValueFault::OutOfMemory) => Err(AllocError),
    }
}

// what is asked for with a value of the type, where it has an equality rule
fn equality(
    alloc: Global,
    conf: &Conf,
    t: TypeId,
    value: &[u8],
) -> Result<Option<Assertion>, AllocError>
    requires { t < length conf.now.types }
    ensures { IfOk result (λ a. a ≡ equality_assertion conf.now.types t value.now) }
{
    if conf.equality_rule(t).is_none() {
        return Ok(None);
    }
    match normal_value(alloc, conf, t, value)? {
        Some(value) => Ok(Some(Assertion::Equality(value))),
        None => Ok(None),
    }
}

// a value of the type with its family, where it has an ordering rule
fn bound(
    alloc: Global,
    conf: &Conf,
    t: TypeId,
    value: &[u8],
) -> Result<Option<(Family, Bytes)>, AllocError>
    requires { t < length conf.now.types }
    ensures { IfOk result (λ b. b ≡ bound_of conf.now.types t value.now) }
{
    if !conf.has_order(t) {
        return Ok(None);
    }
    let family = order_of(conf, t);
    match normal_value(alloc, conf, t, value)? {
        Some(value) => Ok(Some((family, value))),
        None => Ok(None),
    }
}

// the family of a type's equality rule; any other where it has none
fn order_of(conf: &Conf, t: TypeId) -> Family
    requires { t < length conf.now.types }
    ensures { result ≡ order_of conf.now.types t }
{
    match conf.equality_rule(t) {
        Some(EqualityRule::Plain(family)) => family,
        Some(EqualityRule::Name) | None => Family::Octet,
    }
}

fn at_least(
    alloc: Global,
    conf: &Conf,
    t: TypeId,
    value: &[u8],
) -> Result<Option<Assertion>, AllocError>
    requires { t < length conf.now.types }
    ensures { IfOk result (λ a. a ≡ at_least_assertion conf.now.types t value.now) }
{
    match bound(alloc, conf, t, value)? {
        Some((family, value)) => Ok(Some(Assertion::GreaterOrEqual { family, value })),
        None => Ok(None),
    }
}

fn at_most(
    alloc: Global,
    conf: &Conf,
    t: TypeId,
    value: &[u8],
) -> Result<Option<Assertion>, AllocError>
    requires { t < length conf.now.types }
    ensures { IfOk result (λ a. a ≡ at_most_assertion conf.now.types t value.now) }
{
    match bound(alloc, conf, t, value)? {
        Some((family, value)) => Ok(Some(Assertion::LessOrEqual { family, value })),
        None => Ok(None),
    }
}

fn push_some<'a>(texts: &mut Vec<&'a [u8]>, piece: &'a Option<Bytes>) -> Result<(), AllocError>
    ensures { OnOk result (map (λ x. x.now) texts.new.items ≡ map (λ x. x.now) texts.old.items ++ one_or_none piece.now) }
{
    if let Some(piece) = piece {
        texts.push(piece.as_slice())?;
    }
    Ok(())
}

// the pieces of a substring item, in order
fn texts_of<'a>(
    alloc: Global,
    initial: &'a Option<Bytes>,
    any: &'a [Bytes],
    last: &'a Option<Bytes>,
) -> Result<Vec<&'a [u8]>, AllocError>
    ensures { IfOk result (λ v. map (λ x. x.now) v.items ≡ texts_of initial.now any.now last.now) }
{
    let mut texts = Vec::new(alloc);
    push_some(&mut texts, initial)?;
    for piece in any {
        texts.push(piece.as_slice())?;
    }
    push_some(&mut texts, last)?;
    Ok(texts)
}

// what is asked for with these pieces, where the type has a substrings rule
fn substrings(
    alloc: Global,
    conf: &Conf,
    t: TypeId,
    texts: &[&[u8]],
    front: bool,
    back: bool,
) -> Result<Option<Assertion>, AllocError>
    requires { t < length conf.now.types }
    ensures { IfOk result (λ a. a ≡ substrings_assertion conf.now.types t front back (map (λ x. x.now) texts.now)) }
{
    if !conf.has_sub(t) {
        return Ok(None);
    }
    match conf.pieces(alloc, t, texts, front, back) {
        Ok(pieces) => Ok(Some(Assertion::Substrings(pieces))),
        Err(ValueFault::Invalid) => Ok(None),
        Err(ValueFault::OutOfMemory) => Err(AllocError),
    }
}

// what an item asks of values of the type; nothing where it can't be told
fn assertion_of(
    alloc: Global,
    conf: &Conf,
    t: TypeId,
    item: &Item,
) -> Result<Option<Assertion>, AllocError>
    requires { t < length conf.now.types }
    ensures { IfOk result (λ a. a ≡ assertion_of conf.now.types t item.now) }
{
    match item {
        Item::Equality { value, .. } => equality(alloc, conf, t, value.as_slice()),
        Item::Approx { value, .. } => equality(alloc, conf, t, value.as_slice()),
        Item::GreaterOrEqual { value, .. } => at_least(alloc, conf, t, value.as_slice()),
        Item::LessOrEqual { value, .. } => at_most(alloc, conf, t, value.as_slice()),
        Item::Present { .. } => Ok(Some(Assertion::Present)),
        Item::Substrings {
            initial,
            any,
            last,
            ..
        } => {
            let texts = texts_of(alloc, initial, any.as_slice(), last)?;
            substrings(alloc, conf, t, &texts, initial.is_none(), last.is_none())
        }
        Item::Extensible { .. } => Ok(None),
    }
}

// a type and its subtypes, by their numbers
fn subtypes(alloc: Global, conf: &Conf, t: TypeId) -> Result<Sequence<TypeId>, AllocError>
    ensures { IfOk result (λ ts. ts ≡ subtypes conf.now.types t) }
{
    schema::subtypes_are_told();
    conf.rules_are_kept();
    let mut found = Sequence::new(alloc);
    for number in 0..conf.types().len() {
        let under = TypeId::from_number(number as u16);
        if conf.is_subtype(under, t) {
            found.push(under)?;
        }
    }
    Ok(found)
}

fn attribute_of(item: &Item) -> Option<&[u8]>
    ensures { option_map (λ a. a.now) result ≡ attribute_of item.now }
{
    match item {
        Item::Equality { attribute, .. } => Some(attribute.as_slice()),
        Item::Approx { attribute, .. } => Some(attribute.as_slice()),
        Item::GreaterOrEqual { attribute, .. } => Some(attribute.as_slice()),
        Item::LessOrEqual { attribute, .. } => Some(attribute.as_slice()),
        Item::Present { attribute } => Some(attribute.as_slice()),
        Item::Substrings { attribute, .. } => Some(attribute.as_slice()),
        Item::Extensible {
            attribute: Some(attribute),
            ..
        } => Some(attribute.as_slice()),
        Item::Extensible {
            attribute: None,
            ..
        } => None,
    }
}

// the type that an item names
fn type_of(conf: &Conf, item: &Item) -> Option<TypeId>
    ensures place { result ≡ item_type conf.now.types item.now }
    ensures known { IfSome result (λ t. t < length conf.now.types) }
{
    match attribute_of(item) {
        Some(attribute) => conf.type_of(attribute),
        None => None,
    }
}

/// An item prepared under a configuration.
pub(crate) fn prepare_item(
    alloc: Global,
    conf: &Conf,
    item: &Item,
) -> Result<PreparedItem, AllocError>
    ensures { IfOk result (λ p. p ≡ prepared_item conf.now.types item.now) }
{
    let Some(type_id) = type_of(conf, item) else {
        return Ok(PreparedItem::Undefined);
    };
    match assertion_of(alloc, conf, type_id, item)? {
        Some(assertion) => Ok(PreparedItem::Asserts {
            type_id,
            types: subtypes(alloc, conf, type_id)?,
            assertion,
        }),
        None => Ok(PreparedItem::Undefined),
    }
}
