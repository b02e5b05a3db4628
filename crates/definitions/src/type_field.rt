//! The fields of an attribute type's definition (RFC 4512, 4.1.2).

ghost use Rattle.std.specs.Prelude.{◌≡◌, ◌<◌, IfSome, length, position};
ghost use Rattle.std.specs.Option.{option_map};
ghost use Rattle.std.specs.List.{list_all};
ghost use Rattle.std.specs.Char.{is_ascii_digit};
ghost use Rattle.definitions.specs.Words.{◌>>>◌, word_at, plain_or_quoted_at};
ghost use Rattle.definitions.specs.declared.type_field.TypeField.TheVariants as fields;
ghost use Rattle.definitions.specs.TypeFields.{reference_of, flag_of, usage_of, is_brace, is_closed, is_length, syntax_oid, without_length, referred_at, usage_field, refer, other_field, field_of, field_at};
ghost use Rattle.definitions.specs.Gives.{Gives};

use crate::element::{ElementField, Sort, element_field};
use crate::fault::DefinitionFault;
use crate::words::{plain_or_named_at, plain_or_quoted_at, word_at};
use base::{Bytes, is_oid};
use std::alloc::Global;

/// A field that names a type, a rule or a syntax.
#[derive(Clone, Copy)]
pub enum Reference {
    /// SUP
    Superior,
    /// EQUALITY
    Equality,
    /// ORDERING
    Ordering,
    /// SUBSTR
    Substrings,
    /// SYNTAX
    Syntax,
}

/// A field that stands alone.
#[derive(Clone, Copy)]
pub enum Flag {
    /// SINGLE-VALUE
    SingleValue,
    /// COLLECTIVE
    Collective,
    /// NO-USER-MODIFICATION
    NoUserModification,
}

/// What a type is for: users' data, or the operation of servers.
#[derive(Clone, Copy)]
pub enum Usage {
    /// userApplications
    UserApplications,
    /// directoryOperation
    DirectoryOperation,
    /// distributedOperation
    DistributedOperation,
    /// dSAOperation
    DsaOperation,
}

/// A field of a definition.
#[derive(Drop)]
pub(crate) enum TypeField {
    Element(ElementField),
    Flag(Flag),
    Reference(Reference, Bytes),
    Usage(Usage),
}

#[tactic(auto, unfolding(crate::specs::TypeFields::reference_of))]
fn reference_of(word: &[u8]) -> Option<Reference>
    ensures { result ≡ reference_of word.now }
{
    if word.eq_ignore_ascii_case(b"SUP") {
        Some(Reference::Superior)
    } else if word.eq_ignore_ascii_case(b"EQUALITY") {
        Some(Reference::Equality)
    } else if word.eq_ignore_ascii_case(b"ORDERING") {
        Some(Reference::Ordering)
    } else if word.eq_ignore_ascii_case(b"SUBSTR") {
        Some(Reference::Substrings)
    } else if word.eq_ignore_ascii_case(b"SYNTAX") {
        Some(Reference::Syntax)
    } else {
        None
    }
}

#[tactic(auto, unfolding(crate::specs::TypeFields::flag_of))]
fn flag_of(word: &[u8]) -> Option<Flag>
    ensures { result ≡ flag_of word.now }
{
    if word.eq_ignore_ascii_case(b"SINGLE-VALUE") {
        Some(Flag::SingleValue)
    } else if word.eq_ignore_ascii_case(b"COLLECTIVE") {
        Some(Flag::Collective)
    } else if word.eq_ignore_ascii_case(b"NO-USER-MODIFICATION") {
        Some(Flag::NoUserModification)
    } else {
        None
    }
}

#[tactic(auto, unfolding(crate::specs::TypeFields::usage_of))]
fn usage_of(word: &[u8]) -> Option<Usage>
    ensures { result ≡ usage_of word.now }
{
    if word.eq_ignore_ascii_case(b"userApplications") {
        Some(Usage::UserApplications)
    } else if word.eq_ignore_ascii_case(b"directoryOperation") {
        Some(Usage::DirectoryOperation)
    } else if word.eq_ignore_ascii_case(b"distributedOperation") {
        Some(Usage::DistributedOperation)
    } else if word.eq_ignore_ascii_case(b"dSAOperation") {
        Some(Usage::DsaOperation)
    } else {
        None
    }
}

fn are_digits(text: &[u8]) -> bool
    ensures { result ≡ list_all is_ascii_digit text.now }
{
    text.iter().all(|b| b.is_ascii_digit())
}

// nothing, or digits in braces
fn is_length(text: &[u8]) -> bool
    ensures { result ≡ is_length text.now }
{
    match text {
        [] => true,
        [_, rest @ ..] => is_closed(rest),
    }
}

fn is_closed(text: &[u8]) -> bool
    ensures { result ≡ is_closed text.now }
{
    match text {
        [digits @ .., b'}'] => !digits.is_empty() && are_digits(digits),
        _ => false,
    }
}

fn brace_in(text: &[u8]) -> Option<usize>
    ensures place { result ≡ position is_brace text.now }
    ensures bound { IfSome result (λ at. at < length text.now) }
{
    text.iter().position(|b| *b == b'{')
}

// the OID of a syntax, without the length behind it
#[tactic(auto, unfolding(crate::specs::TypeFields::syntax_oid))]
fn syntax_oid(text: &[u8]) -> Option<&[u8]>
    ensures { option_map (λ oid. oid.now) result ≡ syntax_oid text.now }
{
    let (oid, length) = text.split_at(brace_in(text).unwrap_or(text.len()));
    if is_oid(oid) && is_length(length) {
        Some(oid)
    } else {
        None
    }
}

fn syntax_at(text: &[u8]) -> Option<(&[u8], &[u8])>
    ensures { option_map (λ w. (w.0.now, w.1.now)) result ≡ (plain_or_quoted_at text.now >>> without_length) }
{
    let (syntax, rest) = plain_or_quoted_at(text)?;
    Some((syntax_oid(syntax)?, rest))
}

// the name or OID that stands there, and what follows it
#[tactic(auto, unfolding(crate::specs::TypeFields::referred_at))]
fn referred_at(reference: Reference, text: &[u8]) -> Option<(&[u8], &[u8])>
    ensures { option_map (λ w. (w.0.now, w.1.now)) result ≡ referred_at reference text.now }
{
    match reference {
        Reference::Syntax => syntax_at(text),
        _ => plain_or_named_at(text),
    }
}

fn usage_at(text: &[u8]) -> Option<(Usage, &[u8])>
    ensures { option_map (λ x. (fields.Usage x.0, x.1.now)) result ≡ (word_at text.now >>> usage_field) }
{
    let (word, rest) = word_at(text)?;
    Some((usage_of(word)?, rest))
}

fn usage_field(text: &[u8]) -> Result<(TypeField, &[u8]), DefinitionFault>
    ensures { Gives (λ x. (x.0, x.1.now)) result (word_at text.now >>> usage_field) }
{
    match usage_at(text) {
        Some((usage, rest)) => Ok((TypeField::Usage(usage), rest)),
        None => Err(DefinitionFault::Form),
    }
}

#[tactic(auto, unfolding(crate::specs::TypeFields::other_field))]
fn other_field<'a>(
    alloc: Global,
    word: &[u8],
    rest: &'a [u8],
) -> Result<(TypeField, &'a [u8]), DefinitionFault>
    ensures { Gives (λ x. (x.0, x.1.now)) result (other_field word.now rest.entry.now) }
{
    if word.eq_ignore_ascii_case(b"USAGE") {
        return usage_field(rest);
    }
    let (field, rest) = element_field(alloc, Sort::AttributeType, word, rest)?;
    Ok((TypeField::Element(field), rest))
}

fn refer(
    alloc: Global,
    reference: Reference,
    text: &[u8],
) -> Result<(TypeField, &[u8]), DefinitionFault>
    ensures { Gives (λ x. (x.0, x.1.now)) result (referred_at reference text.now >>> refer reference) }
{
    let Some((name, rest)) = referred_at(reference, text) else {
        return Err(DefinitionFault::Form);
    };
    let name = Bytes::from_slice(alloc, name)?;
    Ok((TypeField::Reference(reference, name), rest))
}

fn field_of<'a>(
    alloc: Global,
    word: &[u8],
    rest: &'a [u8],
) -> Result<(TypeField, &'a [u8]), DefinitionFault>
    ensures { Gives (λ x. (x.0, x.1.now)) result (field_of (word.now, rest.entry.now)) }
{
    if let Some(reference) = reference_of(word) {
        return refer(alloc, reference, rest);
    }
    match flag_of(word) {
        Some(flag) => Ok((TypeField::Flag(flag), rest)),
        None => other_field(alloc, word, rest),
    }
}

/// A field of a definition, and what follows it.
#[tactic(auto, unfolding(crate::specs::TypeFields::field_at))]
pub(crate) fn field_at(alloc: Global, text: &[u8]) -> Result<(TypeField, &[u8]), DefinitionFault>
    ensures { Gives (λ x. (x.0, x.1.now)) result (field_at text.now) }
{
    match word_at(text) {
        Some((word, rest)) => field_of(alloc, word, rest),
        None => Err(DefinitionFault::Form),
    }
}
