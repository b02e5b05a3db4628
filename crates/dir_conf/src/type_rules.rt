//! What a definition of an attribute type comes to (RFC 4512, 2.5.1 and 4.1.2).

ghost use Rattle.std.specs.Prelude.{◌≡◌, ◌<◌, ℕ, IfOk, IfSome, Option, length};
ghost use Rattle.std.specs.Option.{option_map};
ghost use Rattle.schema.specs.TypeRules.{rule_number, is_equality, syntax_number, is_syntax, leaves_family, breaks_with, needs_another_syntax};
ghost use Rattle.dir_conf.specs.DerivedTypes.{stated, equality_above, ordering_above, substrings_above, syntax_above, syntax_with, goes_with, equality_with, is_operational, type_with};
ghost use Rattle.dir_conf.specs.RuleNames.{or_else, equality_of, ordering_of, substrings_of};

use crate::rule_names::{equality_of, ordering_of, substrings_of, syntax_of};
use base::{Bytes, Sequence};
use definitions::{TypeDefinition, Usage};
use matching::{Family, Syntax};
use schema::is_syntax;
use std::alloc::{AllocError, Global};
use values::{AttributeType, EqualityRule, TypeId, TypeSyntax};

fn rule_number(rule: EqualityRule) -> u8
    ensures { result ≡ rule_number rule }
{
    match rule {
        EqualityRule::Plain(Family::Ignore) => 0,
        EqualityRule::Plain(Family::Exact) => 1,
        EqualityRule::Plain(Family::Numeric) => 2,
        EqualityRule::Plain(Family::Telephone) => 3,
        EqualityRule::Plain(Family::Integer) => 4,
        EqualityRule::Plain(Family::Boolean) => 5,
        EqualityRule::Plain(Family::Octet) => 6,
        EqualityRule::Plain(Family::Oid) => 7,
        EqualityRule::Name => 8,
    }
}

pub(crate) fn is_equality(rule: EqualityRule, other: Option<EqualityRule>) -> bool
    ensures { result ≡ is_equality rule other }
{
    match other {
        Some(other) => rule_number(rule) == rule_number(other),
        None => false,
    }
}

fn or_else(family: Option<Family>, other: Option<Family>) -> Option<Family>
    ensures { result ≡ or_else family other }
{
    match family {
        Some(family) => Some(family),
        None => other,
    }
}

fn stated_equality(name: &Option<Bytes>) -> Option<EqualityRule>
    ensures { result ≡ stated equality_of name.now }
{
    match name {
        Some(name) => equality_of(name.as_slice()),
        None => None,
    }
}

fn stated_ordering(name: &Option<Bytes>) -> Option<Family>
    ensures { result ≡ stated ordering_of name.now }
{
    match name {
        Some(name) => ordering_of(name.as_slice()),
        None => None,
    }
}

fn stated_substrings(name: &Option<Bytes>) -> Option<Family>
    ensures { result ≡ stated substrings_of name.now }
{
    match name {
        Some(name) => substrings_of(name.as_slice()),
        None => None,
    }
}

fn equality_above(up: Option<&AttributeType>) -> Option<EqualityRule>
    ensures { result ≡ equality_above (option_map (λ t. t.now) up.entry) }
{
    match up {
        Some(up) => up.equality,
        None => None,
    }
}

fn ordering_above(up: Option<&AttributeType>) -> Option<Family>
    ensures { result ≡ ordering_above (option_map (λ t. t.now) up.entry) }
{
    match up {
        Some(up) if up.is_ordered => up.plain_family(),
        _ => None,
    }
}

fn substrings_above(up: Option<&AttributeType>) -> Option<Family>
    ensures { result ≡ substrings_above (option_map (λ t. t.now) up.entry) }
{
    match up {
        Some(up) if up.has_substrings => up.plain_family(),
        _ => None,
    }
}

fn syntax_with(oid: &Option<Bytes>, up: Option<&AttributeType>) -> TypeSyntax
    ensures { result ≡ syntax_with oid.now (option_map (λ t. t.now) up.entry) }
{
    match (oid, up) {
        (Some(oid), _) => syntax_of(oid.as_slice()),
        (None, Some(up)) => up.syntax,
        (None, None) => TypeSyntax::Plain(Syntax::Octet),
    }
}

fn goes_with(family: Option<Family>, equality: Option<EqualityRule>) -> bool
    ensures { result ≡ goes_with family equality }
{
    match family {
        Some(family) => is_equality(EqualityRule::Plain(family), equality),
        None => false,
    }
}

fn equality_with(definition: &TypeDefinition, up: Option<&AttributeType>) -> Option<EqualityRule>
    ensures { result ≡ equality_with definition.now (option_map (λ t. t.now) up.entry) }
{
    match stated_equality(&definition.equality) {
        Some(rule) => Some(rule),
        None => equality_above(up),
    }
}

fn is_operational(usage: Option<Usage>) -> bool
    ensures { result ≡ is_operational usage }
{
    match usage {
        None | Some(Usage::UserApplications) => false,
        Some(_) => true,
    }
}

pub(crate) fn copied(alloc: Global, names: &[Bytes]) -> Result<Sequence<Bytes>, AllocError>
    ensures { IfOk result (λ s. s ≡ names.now) }
{
    let mut copies = Vec::with_capacity(alloc, names.len())?;
    for name in names {
        copies.push(name.copy(alloc)?)?;
    }
    Ok(Sequence::from_vec(copies))
}

/// The type that a definition defines, below the type of this number, or below none.
#[tactic(auto, unfolding(crate::specs::DerivedTypes::type_with))]
pub(crate) fn type_with(
    alloc: Global,
    definition: &TypeDefinition,
    number: Option<TypeId>,
    up: Option<&AttributeType>,
) -> Result<AttributeType, AllocError>
    ensures { IfOk result (λ t. t ≡ type_with definition.now number (option_map (λ t. t.now) up.entry)) }
{
    let equality = equality_with(definition, up);
    let ordering = or_else(stated_ordering(&definition.ordering), ordering_above(up));
    let substrings = or_else(
        stated_substrings(&definition.substrings),
        substrings_above(up),
    );
    Ok(AttributeType {
        oid: definition.element.oid.copy(alloc)?,
        names: copied(alloc, definition.element.names.as_slice())?,
        superior: number,
        syntax: syntax_with(&definition.syntax, up),
        equality,
        is_ordered: goes_with(ordering, equality),
        has_substrings: goes_with(substrings, equality),
        single_value: definition.is_single_value,
        is_fixed: definition.is_fixed,
        is_operational: is_operational(definition.usage),
    })
}

fn leaves_family(t: &AttributeType, up: &AttributeType) -> bool
    ensures { result ≡ leaves_family t.now up.now }
{
    match up.equality {
        Some(rule) => !is_equality(rule, t.equality),
        None => false,
    }
}

/// Whether a type is of another family than the type above it, or has another syntax.
pub(crate) fn breaks_with(t: &AttributeType, up: Option<&AttributeType>) -> bool
    ensures { result ≡ breaks_with t.now (option_map (λ t. t.now) up.entry) }
{
    match up {
        Some(up) => leaves_family(t, up) || !is_syntax(t.syntax, up.syntax),
        None => false,
    }
}

/// Whether a type has a rule for numbers or names, and not their syntax.
pub(crate) fn needs_another_syntax(t: &AttributeType) -> bool
    ensures { result ≡ needs_another_syntax t.now }
{
    (is_equality(EqualityRule::Plain(Family::Integer), t.equality)
        && !is_syntax(TypeSyntax::Plain(Syntax::Integer), t.syntax))
        || (is_equality(EqualityRule::Name, t.equality) && !is_syntax(TypeSyntax::Name, t.syntax))
}
