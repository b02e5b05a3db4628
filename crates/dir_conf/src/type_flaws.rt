//! What is wrong with a definition of an attribute type, and with what of it.

ghost use Rattle.std.specs.Prelude.{◌≡◌, ◌<◌, [], IfOk, IfSome, Some, length, not, unwrap_or};
ghost use Rattle.std.specs.List.{find, list_any};
ghost use Rattle.std.specs.Option.{option_map};
ghost use Rattle.std.specs.Str.{str_eq_ignore_ascii_case};
ghost use Rattle.definitions.specs.TypeDefinitions.{type_definition_of};
ghost use Rattle.dir_conf.specs.Configurations.{is_type, superior_of};
ghost use Rattle.dir_conf.specs.FaultyLines.{type_below};
ghost use Rattle.dir_conf.specs.Flaws.{name_of};
ghost use Rattle.dir_conf.specs.declared.reason.ConfFlaw.TheVariants as flaws;
ghost use Rattle.dir_conf.specs.inner.FoundFlaws.{twin, taken_word, rule_at_fault, mismatch, below_flaw, type_flaw, new_type_flaw, TellsType};

use crate::reason::{ConfFlaw, NameField, SyntaxRule};
use crate::type_lines::{derived, is_built_in, is_type, superior_of, up_of};
use crate::type_rules::{breaks_with, is_equality, needs_another_syntax};
use crate::unread::unread_type;
use base::Bytes;
use definitions::{DefinitionFault, Element, TypeDefinition, read_type_definition};
use matching::{Family, Syntax};
use schema::is_syntax;
use std::alloc::{AllocError, Global};
use values::{AttributeType, EqualityRule, TypeId, TypeSyntax, TypeTable};

/// The first name of a type or class that is defined, or its OID.
pub(crate) fn name_of(alloc: Global, element: &Element) -> Result<Bytes, AllocError>
    ensures { IfOk result (λ name. name ≡ name_of element.now) }
{
    match element.names.as_slice() {
        [first, ..] => first.copy(alloc),
        [] => element.oid.copy(alloc),
    }
}

// a copy of a word that may be stated
fn copy_of(alloc: Global, word: &Option<Bytes>) -> Result<Option<Bytes>, AllocError>
    ensures { IfOk result (λ copy. copy ≡ word.now) }
{
    match word {
        Some(word) => Ok(Some(word.copy(alloc)?)),
        None => Ok(None),
    }
}

// a copy of a word that is stated
fn word_of(alloc: Global, word: &Option<Bytes>) -> Result<Bytes, AllocError>
    ensures { IfOk result (λ copy. copy ≡ unwrap_or word.now []) }
{
    match word {
        Some(word) => word.copy(alloc),
        None => Bytes::from_slice(alloc, b""),
    }
}

// whether a name stands among others
fn stands_in(name: &[u8], names: &[Bytes]) -> bool
    ensures { result ≡ list_any (λ m. str_eq_ignore_ascii_case m name.now) names.now }
{
    names
        .iter()
        .any(|other| other.as_slice().eq_ignore_ascii_case(name))
}

/// The first name that stands once more behind it.
pub(crate) fn twin(names: &[Bytes]) -> Option<&Bytes>
    ensures { option_map (λ n. n.now) result ≡ twin names.now }
{
    let mut rest = names;
    for name in names {
        rest = rest.split_at(1).1;
        if stands_in(name.as_slice(), rest) {
            return Some(name);
        }
    }
    None
}

// the first of these that is a type's name
fn known_type<'a>(types: &TypeTable, names: &'a [Bytes]) -> Option<&'a Bytes>
    ensures { option_map (λ n. n.now) result ≡ find (is_type types.now) names.now }
{
    names.iter().find(|name| is_type(types, name.as_slice()))
}

/// The first of these that is no type's name.
pub(crate) fn unknown_type<'a>(types: &TypeTable, names: &'a [Bytes]) -> Option<&'a Bytes>
    ensures { option_map (λ n. n.now) result ≡ find (λ n. not (is_type types.now n)) names.now }
{
    names.iter().find(|name| !is_type(types, name.as_slice()))
}

// the OID or name of a definition that is a type's already, or else its name that stands twice
fn taken_word<'a>(types: &TypeTable, element: &'a Element) -> Option<&'a Bytes>
    ensures { option_map (λ n. n.now) result ≡ taken_word (is_type types.now) element.entry.now }
{
    if is_type(types, element.oid.as_slice()) {
        return Some(&element.oid);
    }
    match known_type(types, element.names.as_slice()) {
        Some(name) => Some(name),
        None => twin(element.names.as_slice()),
    }
}

// which of a type's rules needs another syntax
fn rule_at_fault(t: &AttributeType) -> SyntaxRule
    ensures { result ≡ rule_at_fault t.now }
{
    if is_equality(EqualityRule::Plain(Family::Integer), t.equality)
        && !is_syntax(TypeSyntax::Plain(Syntax::Integer), t.syntax)
    {
        SyntaxRule::Integer
    } else {
        SyntaxRule::Name
    }
}

fn rule_syntax(
    alloc: Global,
    definition: &TypeDefinition,
    t: &AttributeType,
) -> Result<ConfFlaw, AllocError>
    ensures { IfOk result (λ flaw. flaw ≡ flaws.RuleSyntax (name_of definition.now.element) (rule_at_fault t.now) definition.now.equality definition.now.syntax) }
{
    Ok(ConfFlaw::RuleSyntax {
        of: name_of(alloc, &definition.element)?,
        rule: rule_at_fault(t),
        stated_rule: copy_of(alloc, &definition.equality)?,
        stated_syntax: copy_of(alloc, &definition.syntax)?,
    })
}

// what is wrong with a type beside the one above it
fn mismatch(
    alloc: Global,
    types: &TypeTable,
    definition: &TypeDefinition,
    number: &Option<TypeId>,
) -> Result<Option<ConfFlaw>, AllocError>
    requires { IfSome number.now (λ t. t < length types.now) }
    ensures { IfOk result (λ found. found ≡ mismatch types.now definition.now number.now) }
{
    let new = derived(alloc, types, definition, number)?;
    if breaks_with(&new, up_of(types, number)) {
        return Ok(Some(ConfFlaw::Subtype {
            of: name_of(alloc, &definition.element)?,
            superior: word_of(alloc, &definition.superior)?,
        }));
    }
    if needs_another_syntax(&new) {
        return Ok(Some(rule_syntax(alloc, definition, &new)?));
    }
    Ok(None)
}

// what is wrong with a type and the name of the one above it
fn below_flaw(
    alloc: Global,
    types: &TypeTable,
    definition: &TypeDefinition,
) -> Result<Option<ConfFlaw>, AllocError>
    ensures { IfOk result (λ found. found ≡ below_flaw types.now definition.now (superior_of types.now definition.now.superior)) }
{
    match superior_of(types, &definition.superior) {
        Some(number) => mismatch(alloc, types, definition, &number),
        None => Ok(Some(ConfFlaw::UnknownName {
            of: name_of(alloc, &definition.element)?,
            field: NameField::Superior,
            word: word_of(alloc, &definition.superior)?,
        })),
    }
}

/// A flaw by which a word of a definition is taken.
pub(crate) fn twice(alloc: Global, element: &Element, word: &Bytes) -> Result<ConfFlaw, AllocError>
    ensures { IfOk result (λ flaw. flaw ≡ flaws.Twice (name_of element.now) word.now) }
{
    Ok(ConfFlaw::Twice {
        of: name_of(alloc, element)?,
        word: word.copy(alloc)?,
    })
}

#[tactic(auto, unfolding(crate::specs::inner::FoundFlaws::type_flaw))]
fn type_flaw(
    alloc: Global,
    types: &TypeTable,
    definition: &TypeDefinition,
) -> Result<Option<ConfFlaw>, AllocError>
    ensures { IfOk result (λ found. found ≡ type_flaw types.now definition.now) }
{
    if types.len() >= 65535 {
        let of = name_of(alloc, &definition.element)?;
        return Ok(Some(ConfFlaw::TooManyTypes { of }));
    }
    if let Some(word) = taken_word(types, &definition.element) {
        return Ok(Some(twice(alloc, &definition.element, word)?));
    }
    if definition.is_collective {
        let of = name_of(alloc, &definition.element)?;
        return Ok(Some(ConfFlaw::Collective { of }));
    }
    below_flaw(alloc, types, definition)
}

fn new_type_flaw(
    alloc: Global,
    types: &TypeTable,
    definition: &TypeDefinition,
) -> Result<Option<ConfFlaw>, AllocError>
    ensures { IfOk result (λ found. found ≡ new_type_flaw types.now definition.now) }
{
    if is_built_in(definition.element.oid.as_slice()) {
        Ok(None)
    } else {
        type_flaw(alloc, types, definition)
    }
}

/// What is wrong with what stands behind the word `attributetype`, beside the types that are defined above.
pub(crate) fn type_flaw_in(
    alloc: Global,
    types: &TypeTable,
    text: &[u8],
) -> Result<Option<ConfFlaw>, AllocError>
    ensures { IfOk result (TellsType types.now (type_definition_of text.now)) }
{
    match read_type_definition(alloc, text) {
        Ok(definition) => new_type_flaw(alloc, types, &definition),
        Err(DefinitionFault::Form) => Ok(Some(unread_type(alloc, text)?)),
        Err(DefinitionFault::OutOfMemory) => Err(AllocError),
    }
}
