//! Object classes that are found by their names.

ghost use Rattle.std.specs.Prelude.{◌≡◌, ◌<◌, ◌++◌, ◌∷◌, [], IfOk, IfSome, OnOk, length, map};
ghost use Rattle.values.specs.Tables.{named};
ghost use Rattle.schema.specs.Classes.{class_names, class_of};

use crate::object_class::ObjectClass;
use base::{Bytes, Sequence};
use std::alloc::{AllocError, Global};
use std::marker::Model;
use values::NameIndex;

/// Object classes, each at its number. A contract sees them as a list.
#[derive(Drop)]
pub struct ClassTable {
    classes: Sequence<ObjectClass>,
    // the number of the first class with a name or OID
    numbers: NameIndex,
}

impl Model for ClassTable {
    ghost use Rattle.std.specs.Prelude.{List};
    ghost use Rattle.schema.specs.declared.object_class.ObjectClass.{ObjectClass};
    ghost use Rattle.schema.specs.inner.Classes.{FindsClasses};

    ghost Value = { List ObjectClass };

    ghost view = { λ t. t.classes };

    ghost invariant = { λ t. FindsClasses t.numbers t.classes };
}

fn add_names(
    alloc: Global,
    numbers: &mut NameIndex,
    names: &[Bytes],
    number: usize,
) -> Result<(), AllocError>
    ensures { OnOk result (numbers.new ≡ numbers.old ++ map (named number) names.now) }
{
    for name in names {
        numbers.add(alloc, name.as_slice(), number)?;
    }
    Ok(())
}

// puts a class's number at its OID and its names
fn add_class(
    alloc: Global,
    numbers: &mut NameIndex,
    class: &ObjectClass,
    number: usize,
) -> Result<(), AllocError>
    ensures { OnOk result (numbers.new ≡ numbers.old ++ map (named number) (class_names class.now)) }
{
    numbers.add(alloc, class.oid.as_slice(), number)?;
    add_names(alloc, numbers, class.names.as_slice(), number)
}

impl ClassTable {
    /// No classes. As many `names` as are expected are found quickly, more than them less so.
    pub fn with_room(alloc: Global, names: usize) -> Result<ClassTable, AllocError>
        ensures { IfOk result (λ t. t ≡ []) }
    {
        Ok(ClassTable {
            classes: Sequence::new(alloc),
            numbers: NameIndex::with_room(alloc, names)?,
        })
    }

    /// These classes and one more, at the end.
    pub fn with(self, alloc: Global, class: ObjectClass) -> Result<ClassTable, AllocError>
        ensures { IfOk result (λ t. t ≡ self ++ class ∷ []) }
    {
        let ClassTable {
            mut classes,
            mut numbers,
        } = self;
        add_class(alloc, &mut numbers, &class, classes.len())?;
        classes.push(class)?;
        Ok(ClassTable { classes, numbers })
    }

    /// The classes, each at its number.
    pub fn as_slice(&self) -> &[ObjectClass]
        ensures { result.now ≡ self.now }
    {
        self.classes.as_slice()
    }

    /// The number of the first class with this name or OID, without ASCII case.
    pub fn class_of(&self, name: &[u8]) -> Option<usize>
        ensures place { result ≡ class_of self.now name.now }
        ensures known { IfSome result (λ c. c < length self.now) }
    {
        self.numbers.get(name)
    }
}
