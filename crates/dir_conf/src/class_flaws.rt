//! What is wrong with a definition of an object class, and with what of it.

ghost use Rattle.std.specs.Prelude.{◌≡◌, IfOk, not};
ghost use Rattle.std.specs.List.{find};
ghost use Rattle.std.specs.Option.{option_map};
ghost use Rattle.definitions.specs.ClassDefinitions.{class_definition_of};
ghost use Rattle.schema.specs.Classes.{is_class};
ghost use Rattle.dir_conf.specs.Configurations.{is_type, types_and_classes};
ghost use Rattle.dir_conf.specs.Flaws.{name_of};
ghost use Rattle.dir_conf.specs.declared.reason.ConfFlaw.TheVariants as flaws;
ghost use Rattle.dir_conf.specs.inner.FoundFlaws.{taken_word, missing, flaw_or, unknown, types_flaw, names_flaw, class_flaw, new_class_flaw, TellsClass};

use crate::class_lines::is_class;
use crate::reason::{ConfFlaw, NameField};
use crate::type_flaws::{name_of, twice, twin, unknown_type};
use crate::type_lines::is_built_in;
use crate::unread::unread_class;
use base::Bytes;
use definitions::{ClassDefinition, DefinitionFault, Element, read_class_definition};
use schema::ClassTable;
use std::alloc::{AllocError, Global};
use values::TypeTable;

// the first of these that is a class's name
fn known_class<'a>(classes: &ClassTable, names: &'a [Bytes]) -> Option<&'a Bytes>
    ensures { option_map (λ n. n.now) result ≡ find (is_class classes.now) names.now }
{
    names.iter().find(|name| is_class(classes, name.as_slice()))
}

// the first of these that is no class's name
fn unknown_class<'a>(classes: &ClassTable, names: &'a [Bytes]) -> Option<&'a Bytes>
    ensures { option_map (λ n. n.now) result ≡ find (λ n. not (is_class classes.now n)) names.now }
{
    names
        .iter()
        .find(|name| !is_class(classes, name.as_slice()))
}

// the OID or name of a definition that is a class's already, or else its name that stands twice
fn taken_word<'a>(classes: &ClassTable, element: &'a Element) -> Option<&'a Bytes>
    ensures { option_map (λ n. n.now) result ≡ taken_word (is_class classes.now) element.entry.now }
{
    if is_class(classes, element.oid.as_slice()) {
        return Some(&element.oid);
    }
    match known_class(classes, element.names.as_slice()) {
        Some(name) => Some(name),
        None => twin(element.names.as_slice()),
    }
}

fn unknown(
    alloc: Global,
    definition: &ClassDefinition,
    field: NameField,
    word: &Bytes,
) -> Result<ConfFlaw, AllocError>
    ensures { IfOk result (λ flaw. flaw ≡ flaws.UnknownName (name_of definition.now.element) field word.now) }
{
    Ok(ConfFlaw::UnknownName {
        of: name_of(alloc, &definition.element)?,
        field,
        word: word.copy(alloc)?,
    })
}

// what is wrong with the types that a class requires or allows
fn types_flaw(
    alloc: Global,
    types: &TypeTable,
    definition: &ClassDefinition,
) -> Result<Option<ConfFlaw>, AllocError>
    ensures { IfOk result (λ found. found ≡ types_flaw types.now definition.now) }
{
    if let Some(word) = unknown_type(types, definition.must.as_slice()) {
        return Ok(Some(unknown(alloc, definition, NameField::Must, word)?));
    }
    match unknown_type(types, definition.may.as_slice()) {
        Some(word) => Ok(Some(unknown(alloc, definition, NameField::May, word)?)),
        None => Ok(None),
    }
}

// what is wrong with the names of classes and types in a definition
fn names_flaw(
    alloc: Global,
    types: &TypeTable,
    classes: &ClassTable,
    definition: &ClassDefinition,
) -> Result<Option<ConfFlaw>, AllocError>
    ensures { IfOk result (λ found. found ≡ names_flaw (types_and_classes types.now classes.now) definition.now) }
{
    match unknown_class(classes, definition.superiors.as_slice()) {
        Some(word) => Ok(Some(unknown(alloc, definition, NameField::Superior, word)?)),
        None => types_flaw(alloc, types, definition),
    }
}

#[tactic(auto, unfolding(crate::specs::inner::FoundFlaws::class_flaw))]
fn class_flaw(
    alloc: Global,
    types: &TypeTable,
    classes: &ClassTable,
    definition: &ClassDefinition,
) -> Result<Option<ConfFlaw>, AllocError>
    ensures { IfOk result (λ found. found ≡ class_flaw (types_and_classes types.now classes.now) definition.now) }
{
    match taken_word(classes, &definition.element) {
        Some(word) => Ok(Some(twice(alloc, &definition.element, word)?)),
        None => names_flaw(alloc, types, classes, definition),
    }
}

fn new_class_flaw(
    alloc: Global,
    types: &TypeTable,
    classes: &ClassTable,
    definition: &ClassDefinition,
) -> Result<Option<ConfFlaw>, AllocError>
    ensures { IfOk result (λ found. found ≡ new_class_flaw (types_and_classes types.now classes.now) definition.now) }
{
    if is_built_in(definition.element.oid.as_slice()) {
        Ok(None)
    } else {
        class_flaw(alloc, types, classes, definition)
    }
}

/// What is wrong with what stands behind the word `objectclass`, beside the types and classes that are defined above.
pub(crate) fn class_flaw_in(
    alloc: Global,
    types: &TypeTable,
    classes: &ClassTable,
    text: &[u8],
) -> Result<Option<ConfFlaw>, AllocError>
    ensures { IfOk result (TellsClass (types_and_classes types.now classes.now) (class_definition_of text.now)) }
{
    match read_class_definition(alloc, text) {
        Ok(definition) => new_class_flaw(alloc, types, classes, &definition),
        Err(DefinitionFault::Form) => Ok(Some(unread_class(alloc, text)?)),
        Err(DefinitionFault::OutOfMemory) => Err(AllocError),
    }
}
