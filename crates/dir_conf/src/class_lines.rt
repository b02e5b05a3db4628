//! Reading the object classes of a configuration.

ghost use Rattle.std.specs.Prelude.{◌≡◌, ◌∷◌, [], Some, IfOk};
ghost use Rattle.std.specs.List.{list_any};
ghost use Rattle.base.specs.Answers.{each};
ghost use Rattle.definitions.specs.ClassDefinitions.{class_definition_of};
ghost use Rattle.schema.specs.Classes.{is_class, top, extensible_object};
ghost use Rattle.dir_conf.specs.Configurations.{types_and_classes, shares_class_name, is_class_taken, class_named, kind_with, class_from, class_with, class_placed};
ghost use Rattle.dir_conf.specs.NamesInLines.{type_named};
ghost use Rattle.dir_conf.specs.Reads.{Reads};
ghost use Rattle.dir_conf.specs.inner.Views.{and_class};

use crate::conf_fault::{ConfFault, ConfFaultKind};
use crate::conf_lines::fault;
use crate::type_lines::{has_twin, is_built_in, one_name, type_named};
use crate::type_rules::copied;
use base::{Bytes, ClassKind, Sequence};
use definitions::{ClassDefinition, DefinitionFault, Element, read_class_definition};
use schema::{ClassTable, ObjectClass};
use std::alloc::{AllocError, Global};
use values::{TypeId, TypeTable};

/// The numbers of the classes and types that a definition of a class names.
#[derive(Drop)]
struct Links {
    superiors: Sequence<usize>,
    must: Sequence<TypeId>,
    may: Sequence<TypeId>,
}

fn built_in(
    alloc: Global,
    oid: &[u8],
    name: &[u8],
    kind: ClassKind,
    superiors: Sequence<usize>,
    must: Sequence<TypeId>,
) -> Result<ObjectClass, AllocError>
    ensures { IfOk result (λ c. c ≡ record { oid = oid.now; names = name.now ∷ []; kind = kind; superiors = superiors; must = must; may = [] }) }
{
    Ok(ObjectClass {
        oid: Bytes::from_slice(alloc, oid)?,
        names: one_name(alloc, name)?,
        kind,
        superiors,
        must,
        may: Sequence::new(alloc),
    })
}

/// The abstract class of every entry (RFC 4512, 2.4.1).
pub(crate) fn top(alloc: Global) -> Result<ObjectClass, AllocError>
    ensures { IfOk result (λ c. c ≡ top) }
{
    let mut must = Sequence::new(alloc);
    must.push(TypeId::OBJECT_CLASS)?;
    built_in(
        alloc,
        b"2.5.6.0",
        b"top",
        ClassKind::Abstract,
        Sequence::new(alloc),
        must,
    )
}

/// The auxiliary class of entries that may have any type (RFC 4512, 4.3), below the class of number 0.
pub(crate) fn extensible_object(alloc: Global) -> Result<ObjectClass, AllocError>
    ensures { IfOk result (λ c. c ≡ extensible_object) }
{
    let mut superiors = Sequence::new(alloc);
    superiors.push(0)?;
    built_in(
        alloc,
        b"1.3.6.1.4.1.1466.101.120.111",
        b"extensibleObject",
        ClassKind::Auxiliary,
        superiors,
        Sequence::new(alloc),
    )
}

/// Whether a class has this name or OID.
pub(crate) fn is_class(classes: &ClassTable, name: &[u8]) -> bool
    ensures { result ≡ is_class classes.now name.now }
{
    classes.class_of(name).is_some()
}

fn any_classes(classes: &ClassTable, names: &[Bytes]) -> bool
    ensures { result ≡ list_any (is_class classes.now) names.now }
{
    names.iter().any(|name| is_class(classes, name.as_slice()))
}

fn is_known(classes: &ClassTable, element: &Element) -> bool
    ensures { result ≡ list_any (shares_class_name element.now) classes.now }
{
    is_class(classes, element.oid.as_slice()) || any_classes(classes, element.names.as_slice())
}

fn is_class_taken(
    alloc: Global,
    classes: &ClassTable,
    element: &Element,
) -> Result<bool, AllocError>
    ensures { IfOk result (λ b. b ≡ is_class_taken classes.now element.now) }
{
    Ok(is_known(classes, element) || has_twin(alloc, element.names.as_slice())?)
}

fn class_named(classes: &ClassTable, line: u64, name: &[u8]) -> Result<usize, ConfFault>
    ensures { Reads (λ n. n) result (class_named classes.now line name.now) }
{
    match classes.class_of(name) {
        Some(number) => Ok(number),
        None => Err(fault(line, ConfFaultKind::UnknownName)),
    }
}

fn classes_named(
    alloc: Global,
    classes: &ClassTable,
    line: u64,
    names: &[Bytes],
) -> Result<Sequence<usize>, ConfFault>
    ensures { Reads (λ s. s) result (each (class_named classes.now line) names.now) }
{
    let mut numbers = Vec::with_capacity(alloc, names.len())?;
    for name in names {
        numbers.push(class_named(classes, line, name.as_slice())?)?;
    }
    Ok(Sequence::from_vec(numbers))
}

fn types_named(
    alloc: Global,
    types: &TypeTable,
    line: u64,
    names: &[Bytes],
) -> Result<Sequence<TypeId>, ConfFault>
    ensures { Reads (λ s. s) result (each (type_named types.now line) names.now) }
{
    let mut numbers = Vec::with_capacity(alloc, names.len())?;
    for name in names {
        numbers.push(type_named(types, line, name.as_slice())?)?;
    }
    Ok(Sequence::from_vec(numbers))
}

fn kind_with(stated: Option<ClassKind>) -> ClassKind
    ensures { result ≡ kind_with stated }
{
    stated.unwrap_or(ClassKind::Structural)
}

#[tactic(auto, unfolding(crate::specs::Configurations::class_with))]
fn links_of(
    alloc: Global,
    types: &TypeTable,
    classes: &ClassTable,
    line: u64,
    definition: &ClassDefinition,
) -> Result<Links, ConfFault>
    ensures { Reads (λ l. class_from definition.now l.superiors l.must l.may) result (class_with (types_and_classes types.now classes.now) line definition.now) }
{
    let superiors = classes_named(alloc, classes, line, definition.superiors.as_slice())?;
    let must = types_named(alloc, types, line, definition.must.as_slice())?;
    let may = types_named(alloc, types, line, definition.may.as_slice())?;
    Ok(Links {
        superiors,
        must,
        may,
    })
}

fn class_from(
    alloc: Global,
    definition: &ClassDefinition,
    links: Links,
) -> Result<ObjectClass, AllocError>
    ensures { IfOk result (λ c. c ≡ class_from definition.now links.superiors links.must links.may) }
{
    let oid = definition.element.oid.copy(alloc)?;
    let names = copied(alloc, definition.element.names.as_slice())?;
    let Links {
        superiors,
        must,
        may,
    } = links;
    Ok(ObjectClass {
        oid,
        names,
        kind: kind_with(definition.kind),
        superiors,
        must,
        may,
    })
}

fn class_with(
    alloc: Global,
    types: &TypeTable,
    classes: &ClassTable,
    line: u64,
    definition: &ClassDefinition,
) -> Result<ObjectClass, ConfFault>
    ensures { Reads (λ c. c) result (class_with (types_and_classes types.now classes.now) line definition.now) }
{
    let links = links_of(alloc, types, classes, line, definition)?;
    Ok(class_from(alloc, definition, links)?)
}

#[tactic(auto, unfolding(crate::specs::Configurations::class_placed))]
fn place_class(
    alloc: Global,
    types: &TypeTable,
    classes: &ClassTable,
    line: u64,
    definition: &ClassDefinition,
) -> Result<Option<ObjectClass>, ConfFault>
    ensures { Reads (and_class (types_and_classes types.now classes.now)) result (class_placed (types_and_classes types.now classes.now) line (Some definition.now)) }
{
    if is_built_in(definition.element.oid.as_slice()) {
        return Ok(None);
    }
    if is_class_taken(alloc, classes, &definition.element)? {
        return Err(fault(line, ConfFaultKind::Twice));
    }
    Ok(Some(class_with(alloc, types, classes, line, definition)?))
}

/// The class that a definition adds to those that are there; none where it is built in.
#[tactic(auto, unfolding(crate::specs::Configurations::class_placed))]
pub(crate) fn defined_class(
    alloc: Global,
    types: &TypeTable,
    classes: &ClassTable,
    line: u64,
    text: &[u8],
) -> Result<Option<ObjectClass>, ConfFault>
    ensures { Reads (and_class (types_and_classes types.now classes.now)) result (class_placed (types_and_classes types.now classes.now) line (class_definition_of text.now)) }
{
    match read_class_definition(alloc, text) {
        Ok(definition) => place_class(alloc, types, classes, line, &definition),
        Err(DefinitionFault::Form) => Err(fault(line, ConfFaultKind::Form)),
        Err(DefinitionFault::OutOfMemory) => Err(ConfFault::OutOfMemory),
    }
}
