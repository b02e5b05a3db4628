//! Reading the attribute types of a configuration.

ghost use Rattle.std.specs.Prelude.{◌≡◌, ◌<◌, ◌++◌, ◌∷◌, [], IfOk, IfSome, Some, length};
ghost use Rattle.std.specs.List.{list_any};
ghost use Rattle.std.specs.Option.{option_map};
ghost use Rattle.std.specs.Str.{str_eq_ignore_ascii_case};
ghost use Rattle.definitions.specs.TypeDefinitions.{type_definition_of};
ghost use Rattle.dir_conf.specs.Configurations.{is_built_in, is_type, names_one, is_taken, superior_of, flaw_of, below, refused, placed};
ghost use Rattle.dir_conf.specs.DerivedTypes.{type_with};
ghost use Rattle.schema.specs.TypeRules.{object_class, has_twin, up_of};
ghost use Rattle.dir_conf.specs.NamesInLines.{type_named};
ghost use Rattle.dir_conf.specs.Reads.{Reads};
ghost use Rattle.dir_conf.specs.inner.Views.{and_type};

use crate::conf_fault::{ConfFault, ConfFaultKind};
use crate::conf_lines::fault;
use crate::type_rules::{breaks_with, needs_another_syntax, type_with};
use base::{Bytes, Sequence};
use definitions::{DefinitionFault, Element, TypeDefinition, read_type_definition};
use matching::{Family, Syntax};
use std::alloc::{AllocError, Global};
use values::{AttributeType, EqualityRule, NameIndex, TypeId, TypeSyntax, TypeTable};

/// A name alone.
pub(crate) fn one_name(alloc: Global, name: &[u8]) -> Result<Sequence<Bytes>, AllocError>
    ensures { IfOk result (λ names. names ≡ name.now ∷ []) }
{
    let mut names = Sequence::new(alloc);
    names.push(Bytes::from_slice(alloc, name)?)?;
    Ok(names)
}

pub(crate) fn object_class(alloc: Global) -> Result<AttributeType, AllocError>
    ensures { IfOk result (λ t. t ≡ object_class) }
{
    Ok(AttributeType {
        oid: Bytes::from_slice(alloc, b"2.5.4.0")?,
        names: one_name(alloc, b"objectClass")?,
        superior: None,
        syntax: TypeSyntax::Plain(Syntax::Oid),
        equality: Some(EqualityRule::Plain(Family::Oid)),
        is_ordered: false,
        has_substrings: false,
        single_value: false,
        is_fixed: false,
        is_operational: false,
    })
}

/// Whether an OID is of something that every configuration has.
pub(crate) fn is_built_in(oid: &[u8]) -> bool
    ensures { result ≡ is_built_in oid.now }
{
    b"2.5.4.0".as_slice() == oid
        || (b"2.5.6.0".as_slice() == oid || b"1.3.6.1.4.1.1466.101.120.111".as_slice() == oid)
}

/// Whether a type has this name or OID.
pub(crate) fn is_type(types: &TypeTable, name: &[u8]) -> bool
    ensures { result ≡ is_type types.now name.now }
{
    types.type_of(name).is_some()
}

/// The number of the type with this name or OID; `UnknownName` where there is none.
pub(crate) fn type_named(types: &TypeTable, line: u64, name: &[u8]) -> Result<TypeId, ConfFault>
    ensures gives { Reads (λ t. t) result (type_named types.now line name.now) }
    ensures known { IfOk result (λ t. t < length types.now) }
{
    match types.type_of(name) {
        Some(t) => Ok(t),
        None => Err(fault(line, ConfFaultKind::UnknownName)),
    }
}

fn any_types(types: &TypeTable, names: &[Bytes]) -> bool
    ensures { result ≡ list_any (is_type types.now) names.now }
{
    names.iter().any(|name| is_type(types, name.as_slice()))
}

fn is_known(types: &TypeTable, element: &Element) -> bool
    ensures { result ≡ list_any (names_one element.now) types.now }
{
    is_type(types, element.oid.as_slice()) || any_types(types, element.names.as_slice())
}

pub(crate) fn has_twin(alloc: Global, names: &[Bytes]) -> Result<bool, AllocError>
    ensures { IfOk result (λ b. b ≡ has_twin names.now) }
{
    let mut seen = NameIndex::with_room(alloc, names.len())?;
    for name in names {
        if seen.get(name.as_slice()).is_some() {
            return Ok(true);
        }
        seen.add(alloc, name.as_slice(), 0)?;
    }
    Ok(false)
}

fn is_taken(alloc: Global, types: &TypeTable, element: &Element) -> Result<bool, AllocError>
    ensures { IfOk result (λ b. b ≡ is_taken types.now element.now) }
{
    Ok(is_known(types, element) || has_twin(alloc, element.names.as_slice())?)
}

/// The number of the type above, or that there is none; nothing where no type has this name.
pub(crate) fn superior_of(types: &TypeTable, name: &Option<Bytes>) -> Option<Option<TypeId>>
    ensures number { result ≡ superior_of types.now name.now }
    ensures bound { IfSome result (λ number. IfSome number (λ t. t < length types.now)) }
{
    let Some(name) = name else {
        return Some(None);
    };
    match types.type_of(name.as_slice()) {
        Some(t) => Some(Some(t)),
        None => None,
    }
}

pub(crate) fn up_of<'a>(types: &'a TypeTable, number: &Option<TypeId>) -> Option<&'a AttributeType>
    requires { IfSome number.now (λ t. t < length types.now) }
    ensures { option_map (λ t. t.now) result ≡ up_of types.entry.now number.now }
{
    match number {
        Some(t) => Some(types.at(*t)),
        None => None,
    }
}

fn copy_of(number: &Option<TypeId>) -> Option<TypeId>
    ensures { result ≡ number.now }
{
    match number {
        Some(t) => Some(*t),
        None => None,
    }
}

pub(crate) fn derived(
    alloc: Global,
    types: &TypeTable,
    definition: &TypeDefinition,
    number: &Option<TypeId>,
) -> Result<AttributeType, AllocError>
    requires { IfSome number.now (λ t. t < length types.now) }
    ensures { IfOk result (λ t. t ≡ type_with definition.now number.now (up_of types.now number.now)) }
{
    type_with(alloc, definition, copy_of(number), up_of(types, number))
}

// what is wrong with a type beside the one above it
fn flaw_of(types: &TypeTable, new: &AttributeType, number: &Option<TypeId>) -> Option<ConfFaultKind>
    requires { IfSome number.now (λ t. t < length types.now) }
    ensures { result ≡ flaw_of new.now (up_of types.now number.now) }
{
    if breaks_with(new, up_of(types, number)) {
        Some(ConfFaultKind::Subtype)
    } else if needs_another_syntax(new) {
        Some(ConfFaultKind::RuleSyntax)
    } else {
        None
    }
}

// the type that a definition defines below the type of this number, or below none
fn type_below(
    alloc: Global,
    types: &TypeTable,
    line: u64,
    definition: &TypeDefinition,
    number: &Option<TypeId>,
) -> Result<AttributeType, ConfFault>
    requires { IfSome number.now (λ t. t < length types.now) }
    ensures { Reads (λ t. types.now ++ t ∷ []) result (below types.now line definition.now (Some number.now)) }
{
    let new = derived(alloc, types, definition, number)?;
    match flaw_of(types, &new, number) {
        Some(kind) => Err(fault(line, kind)),
        None => Ok(new),
    }
}

// the fault of a definition that breaks no rule by itself, but beside the types that are there
fn refused(
    alloc: Global,
    types: &TypeTable,
    definition: &TypeDefinition,
) -> Result<Option<ConfFaultKind>, AllocError>
    ensures { IfOk result (λ o. o ≡ refused types.now definition.now) }
{
    if types.len() >= 65535 {
        Ok(Some(ConfFaultKind::TooManyTypes))
    } else if is_taken(alloc, types, &definition.element)? {
        Ok(Some(ConfFaultKind::Twice))
    } else if definition.is_collective {
        Ok(Some(ConfFaultKind::Collective))
    } else {
        Ok(None)
    }
}

#[tactic(auto, unfolding(crate::specs::Configurations::placed))]
fn place(
    alloc: Global,
    types: &TypeTable,
    line: u64,
    definition: &TypeDefinition,
) -> Result<Option<AttributeType>, ConfFault>
    ensures gives { Reads (and_type types.now) result (placed types.now line (Some definition.now)) }
    ensures room { IfOk result (λ o. IfSome o (λ t. length types.now < 65535)) }
{
    if is_built_in(definition.element.oid.as_slice()) {
        return Ok(None);
    }
    if let Some(kind) = refused(alloc, types, definition)? {
        return Err(fault(line, kind));
    }
    match superior_of(types, &definition.superior) {
        Some(number) => Ok(Some(type_below(alloc, types, line, definition, &number)?)),
        None => Err(fault(line, ConfFaultKind::UnknownName)),
    }
}

/// The type that a definition adds to those that are there, which leave room for it; none where it is built in.
#[tactic(auto, unfolding(crate::specs::Configurations::placed))]
pub(crate) fn defined_type(
    alloc: Global,
    types: &TypeTable,
    line: u64,
    text: &[u8],
) -> Result<Option<AttributeType>, ConfFault>
    ensures gives { Reads (and_type types.now) result (placed types.now line (type_definition_of text.now)) }
    ensures room { IfOk result (λ o. IfSome o (λ t. length types.now < 65535)) }
{
    match read_type_definition(alloc, text) {
        Ok(definition) => place(alloc, types, line, &definition),
        Err(DefinitionFault::Form) => Err(fault(line, ConfFaultKind::Form)),
        Err(DefinitionFault::OutOfMemory) => Err(ConfFault::OutOfMemory),
    }
}
