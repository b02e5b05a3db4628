//! Reading the types and classes of a configuration.

ghost use Rattle.std.specs.Prelude.{◌≡◌, IfOk, length};
ghost use Rattle.definitions.specs.ClassDefinitions.{class_definition_of};
ghost use Rattle.definitions.specs.Lines.{begins_blank};
ghost use Rattle.definitions.specs.TypeDefinitions.{type_definition_of};
ghost use Rattle.dir_conf.specs.Configurations.{built_in, placed, with_types, class_placed, definition_line, defined_by};
ghost use Rattle.dir_conf.specs.Reads.{Reads};
ghost use Rattle.dir_conf.specs.inner.Views.{defined_view, and_added, HasRoom};

use crate::class_lines::{defined_class, extensible_object, top};
use crate::conf_fault::{ConfFault, ConfFaultKind};
use crate::conf_lines::{fault, is_first, says_nothing};
use crate::type_lines::{defined_type, object_class};
use base::begins_with;
use definitions::{Line, split_first_word};
use schema::{ClassTable, ObjectClass};
use std::alloc::{AllocError, Global};
use values::{AttributeType, TypeTable};

/// What lines define, behind what is built in.
#[derive(Drop)]
pub struct Defined {
    pub types: TypeTable,
    pub classes: ClassTable,
}

/// What a line adds to it.
#[derive(Drop)]
enum Addition {
    Nothing,
    OneType(AttributeType),
    OneClass(ObjectClass),
}

pub(crate) fn begins_blank(text: &[u8]) -> bool
    ensures { result ≡ begins_blank text.now }
{
    begins_with(text, b' ') || begins_with(text, b'\t')
}

// the type that a line defines
fn type_at(alloc: Global, known: &Defined, line: u64, text: &[u8]) -> Result<Addition, ConfFault>
    ensures gives { Reads (and_added (defined_view known.now)) result (with_types (defined_view known.now) (placed known.now.types line (type_definition_of text.now))) }
    ensures room { IfOk result (HasRoom (length known.now.types)) }
{
    match defined_type(alloc, &known.types, line, text)? {
        Some(new) => Ok(Addition::OneType(new)),
        None => Ok(Addition::Nothing),
    }
}

// the class that a line defines
fn class_at(alloc: Global, known: &Defined, line: u64, text: &[u8]) -> Result<Addition, ConfFault>
    ensures gives { Reads (and_added (defined_view known.now)) result (class_placed (defined_view known.now) line (class_definition_of text.now)) }
    ensures room { IfOk result (HasRoom (length known.now.types)) }
{
    match defined_class(alloc, &known.types, &known.classes, line, text)? {
        Some(new) => Ok(Addition::OneClass(new)),
        None => Ok(Addition::Nothing),
    }
}

// what a line of the first pass adds to what is known
#[tactic(auto, unfolding(crate::specs::Configurations::definition_line))]
fn addition_at(alloc: Global, known: &Defined, line: &Line) -> Result<Addition, ConfFault>
    ensures gives { Reads (and_added (defined_view known.now)) result (definition_line (defined_view known.now) line.now) }
    ensures room { IfOk result (HasRoom (length known.now.types)) }
{
    let text = line.text.as_slice();
    if says_nothing(text) {
        Ok(Addition::Nothing)
    } else if begins_blank(text) {
        Err(fault(line.number, ConfFaultKind::Form))
    } else if is_first(b"suffix", text) || is_first(b"index", text) {
        Ok(Addition::Nothing)
    } else if is_first(b"attributetype", text) {
        type_at(alloc, known, line.number, split_first_word(text).1)
    } else if is_first(b"objectclass", text) {
        class_at(alloc, known, line.number, split_first_word(text).1)
    } else {
        Err(fault(line.number, ConfFaultKind::Keyword))
    }
}

fn with_addition(alloc: Global, known: Defined, addition: Addition) -> Result<Defined, AllocError>
    requires { HasRoom (length known.types) addition }
    ensures { IfOk result (λ d. defined_view d ≡ and_added (defined_view known) addition) }
{
    let Defined { types, classes } = known;
    match addition {
        Addition::Nothing => Ok(Defined { types, classes }),
        Addition::OneType(new) => Ok(Defined {
            types: types.with(alloc, new)?,
            classes,
        }),
        Addition::OneClass(new) => Ok(Defined {
            types,
            classes: classes.with(alloc, new)?,
        }),
    }
}

/// What is defined behind a line.
pub(crate) fn read_definition_line(
    alloc: Global,
    known: Defined,
    line: &Line,
) -> Result<Defined, ConfFault>
    ensures { Reads defined_view result (definition_line (defined_view known) line.now) }
{
    let addition = addition_at(alloc, &known, line)?;
    Ok(with_addition(alloc, known, addition)?)
}

fn built_in_classes(alloc: Global, names: usize) -> Result<ClassTable, AllocError>
    ensures { IfOk result (λ t. t ≡ built_in.classes) }
{
    let none = ClassTable::with_room(alloc, names)?;
    none.with(alloc, top(alloc)?)?
        .with(alloc, extensible_object(alloc)?)
}

fn built_in_types(alloc: Global, names: usize) -> Result<TypeTable, AllocError>
    ensures { IfOk result (λ t. t ≡ built_in.types) }
{
    let none = TypeTable::with_room(alloc, names)?;
    none.with(alloc, object_class(alloc)?)
}

/// What is defined before any line: what is built in. `names` is how many names of each kind are expected.
pub(crate) fn nothing_defined(alloc: Global, names: usize) -> Result<Defined, AllocError>
    ensures { IfOk result (λ d. defined_view d ≡ built_in) }
{
    Ok(Defined {
        types: built_in_types(alloc, names)?,
        classes: built_in_classes(alloc, names)?,
    })
}

/// The types and classes that the lines define, after those that are built in. `names` is how many names of each are expected.
pub(crate) fn defined_by(alloc: Global, names: usize, lines: &[Line]) -> Result<Defined, ConfFault>
    ensures { Reads defined_view result (defined_by built_in lines.now) }
{
    let mut known = nothing_defined(alloc, names)?;
    for line in lines {
        known = read_definition_line(alloc, known, line)?;
    }
    Ok(known)
}
