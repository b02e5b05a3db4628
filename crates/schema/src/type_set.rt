//! Sets of attribute types.

ghost use Rattle.std.specs.Prelude.{◌≡◌, ◌||◌, ◌<◌, ◌≤◌, [], ℕ, IfOk, OnOk, length, nat_eq};
ghost use Rattle.schema.specs.Superclasses.{has_number};
ghost use Rattle.schema.specs.inner.Marks.{is_marked};

use std::alloc::{AllocError, Global};
use std::marker::Model;
use values::TypeId;

/// Attribute types, each once. A contract sees them as the list of their numbers.
#[derive(Drop)]
pub(crate) struct TypeSet {
    types: Vec<TypeId>,
    // at the number of a type, whether it is one of them; behind the end none is
    marks: Vec<bool>,
}

impl Model for TypeSet {
    ghost use Rattle.std.specs.Prelude.{ℕ, List};
    ghost use Rattle.schema.specs.inner.Marks.{AreMarked};

    ghost Value = { List ℕ };

    ghost view = { λ s. s.types.items };

    ghost invariant = { λ s. AreMarked s.types.items s.marks.items };
}

// at least so many marks, the new ones not set
fn grow(marks: &mut Vec<bool>, len: usize) -> Result<(), AllocError>
    ensures len { OnOk result (len ≤ length marks.new.items) }
    ensures same { OnOk result ((n : ℕ) → is_marked marks.new.items n ≡ is_marked marks.old.items n) }
{
    if marks.len() < len {
        marks.resize(len, false)?;
    }
    Ok(())
}

fn mark(marks: &mut Vec<bool>, number: usize)
    requires { number < length marks.old.items }
    ensures { (n : ℕ) → is_marked marks.new.items n ≡ (nat_eq n number || is_marked marks.old.items n) }
{
    marks[number] = true;
}

impl TypeSet {
    /// No types.
    pub(crate) fn new(alloc: Global) -> TypeSet
        ensures { result ≡ [] }
    {
        TypeSet {
            types: Vec::new(alloc),
            marks: Vec::new(alloc),
        }
    }

    pub(crate) fn as_slice(&self) -> &[TypeId]
        ensures { result.now ≡ self.now }
    {
        self.types.as_slice()
    }

    pub(crate) fn contains(&self, t: TypeId) -> bool
        ensures { result ≡ has_number self.now t }
    {
        let number = usize::from(t.number());
        number < self.marks.len() && self.marks[number]
    }

    /// These types and one more.
    pub(crate) fn with(self, t: TypeId) -> Result<TypeSet, AllocError>
        ensures { IfOk result (λ s. (n : ℕ) → has_number s n ≡ (nat_eq n t || has_number self n)) }
    {
        if self.contains(t) {
            return Ok(self);
        }
        let TypeSet {
            mut types,
            mut marks,
        } = self;
        let number = usize::from(t.number());
        grow(&mut marks, number + 1)?;
        mark(&mut marks, number);
        types.push(t)?;
        Ok(TypeSet { types, marks })
    }

    /// These types and more of them.
    pub(crate) fn with_all(self, more: &[TypeId]) -> Result<TypeSet, AllocError>
        ensures { IfOk result (λ s. (n : ℕ) → has_number s n ≡ (has_number more.now n || has_number self n)) }
    {
        let mut set = self;
        for t in more {
            set = set.with(*t)?;
        }
        Ok(set)
    }
}
