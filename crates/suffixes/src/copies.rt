//! Copies of what a configuration defines.

ghost use Rattle.std.specs.Prelude.{◌≡◌, IfOk};

use base::{Bytes, Sequence};
use schema::{AttributeType, ClassTable, Conf, ObjectClass, Slot, TypeId};
use std::alloc::{AllocError, Global};
use values::TypeTable;

/// As many names as a type or a class has at most, for the most part.
const NAMES: usize = 3;

fn copy_names(alloc: Global, names: &[Bytes]) -> Result<Sequence<Bytes>, AllocError>
    ensures { IfOk result (λ copies. copies ≡ names.now) }
{
    let mut copies = Vec::with_capacity(alloc, names.len())?;
    for name in names {
        copies.push(name.copy(alloc)?)?;
    }
    Ok(Sequence::from_vec(copies))
}

fn copy_types(alloc: Global, types: &[TypeId]) -> Result<Sequence<TypeId>, AllocError>
    ensures { IfOk result (λ copies. copies ≡ types.now) }
{
    Ok(Sequence::from_vec(Vec::from_slice(alloc, types)?))
}

fn copy_classes(alloc: Global, classes: &[usize]) -> Result<Sequence<usize>, AllocError>
    ensures { IfOk result (λ copies. copies ≡ classes.now) }
{
    Ok(Sequence::from_vec(Vec::from_slice(alloc, classes)?))
}

fn copy_type(alloc: Global, kind: &AttributeType) -> Result<AttributeType, AllocError>
    ensures { IfOk result (λ copy. copy ≡ kind.now) }
{
    Ok(AttributeType {
        oid: kind.oid.copy(alloc)?,
        names: copy_names(alloc, kind.names.as_slice())?,
        superior: kind.superior,
        syntax: kind.syntax,
        equality: kind.equality,
        is_ordered: kind.is_ordered,
        has_substrings: kind.has_substrings,
        single_value: kind.single_value,
        is_fixed: kind.is_fixed,
        is_operational: kind.is_operational,
    })
}

fn copy_class(alloc: Global, class: &ObjectClass) -> Result<ObjectClass, AllocError>
    ensures { IfOk result (λ copy. copy ≡ class.now) }
{
    Ok(ObjectClass {
        oid: class.oid.copy(alloc)?,
        names: copy_names(alloc, class.names.as_slice())?,
        kind: class.kind,
        superiors: copy_classes(alloc, class.superiors.as_slice())?,
        must: copy_types(alloc, class.must.as_slice())?,
        may: copy_types(alloc, class.may.as_slice())?,
    })
}

/// The attribute types of a configuration again.
pub(crate) fn types_of(alloc: Global, conf: &Conf) -> Result<TypeTable, AllocError>
    ensures { IfOk result (λ types. types ≡ conf.now.types) }
{
    let kinds = conf.types();
    let mut types = TypeTable::with_room(alloc, kinds.len().saturating_mul(NAMES))?;
    for kind in kinds {
        types = types.with(alloc, copy_type(alloc, kind)?)?;
    }
    Ok(types)
}

/// Its object classes again.
pub(crate) fn classes_of(alloc: Global, conf: &Conf) -> Result<ClassTable, AllocError>
    ensures { IfOk result (λ classes. classes ≡ conf.now.classes) }
{
    let all = conf.classes();
    let mut classes = ClassTable::with_room(alloc, all.len().saturating_mul(NAMES))?;
    for class in all {
        classes = classes.with(alloc, copy_class(alloc, class)?)?;
    }
    Ok(classes)
}

/// What it says is indexed, again.
pub(crate) fn slots_of(alloc: Global, conf: &Conf) -> Result<Sequence<Slot>, AllocError>
    ensures { IfOk result (λ slots. slots ≡ conf.now.slots) }
{
    Ok(Sequence::from_vec(Vec::from_slice(alloc, conf.slots())?))
}
