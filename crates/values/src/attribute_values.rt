//! The values of an attribute.

ghost use Rattle.std.specs.Prelude.{◌≡◌, ◌++◌, ◌∷◌, ◌==◌, ◌≤◌, [], OnOk, OnErr, IfOk, IsTrue, ◌↔◌, length};
ghost use Rattle.values.specs.Norms.{has_norm, but_norm};

use crate::many_values::{ManyValues, pair, room_for_two};
use crate::value::Value;
use crate::values_iter::ValuesIter;
use std::alloc::{AllocError, Global};
use std::default::MadeWith;
use std::marker::Model;
use std::{mem, slice};

/// The values as they are kept.
#[derive(Drop)]
enum Kept {
    Empty,
    One(Value),
    Many(Box<ManyValues>),
}

/// The values of an attribute in order. One takes no allocation of its own; many are kept in chunks that copies share, so that a copy
/// takes a step for each 256 of them. A contract sees the list of them.
pub struct Values {
    kept: Kept,
}

impl Drop for Values {
    fn drop(self) {
        let Values { kept } = self;
        drop(kept);
    }
}

const _: () = prove!(size_of::<Values>() == 48);

impl Model for Values {
    ghost use Rattle.std.specs.Prelude.{List};
    ghost use Rattle.values.specs.Values as values;
    ghost use Rattle.values.specs.inner.Kept.{values_in};

    ghost Value = { List values.Value };

    ghost view = { λ v. values_in v.kept };
}

// A value that is moved out of its place and one behind it; or it stays there.
fn two(alloc: Global, one: &mut Value, other: Value) -> Result<Box<ManyValues>, AllocError>
    ensures ok { IfOk result (λ many. many.value ≡ one.old ∷ other ∷ []) }
    ensures err { OnErr result (one.new ≡ one.old) }
{
    let room = room_for_two(alloc)?;
    let mut many = Box::new(alloc, ManyValues::new(alloc))?;
    let one = mem::replace(one, Value::made_with(alloc));
    many.set(pair(room, one, other));
    Ok(many)
}

impl Values {
    /// No value.
    pub fn new() -> Values
        ensures { result ≡ [] }
    {
        Values { kept: Kept::Empty }
    }

    /// One value.
    pub fn one(value: Value) -> Values
        ensures { result ≡ value ∷ [] }
    {
        Values {
            kept: Kept::One(value),
        }
    }

    /// The same values again.
    pub fn copy(&self, alloc: Global) -> Result<Values, AllocError>
        ensures { IfOk result (λ v. v ≡ self.now) }
    {
        let kept = match &self.kept {
            Kept::Empty => Kept::Empty,
            Kept::One(value) => Kept::One(value.copy(alloc)?),
            Kept::Many(many) => Kept::Many(Box::new(alloc, many.copy(alloc)?)?),
        };
        Ok(Values { kept })
    }

    /// The values in order.
    pub fn iter(&self) -> ValuesIter<'_>
        ensures { result ≡ self.now }
    {
        match &self.kept {
            Kept::Empty => ValuesIter::of_slice(&[]),
            Kept::One(value) => ValuesIter::of_slice(slice::from_ref(value)),
            Kept::Many(many) => many.iter(),
        }
    }

    pub fn is_empty(&self) -> bool
        ensures { result ≡ (length self.now == 0) }
    {
        self.iter().next().is_none()
    }

    /// Whether there is one value at most.
    pub fn is_at_most_one(&self) -> bool
        ensures { IsTrue result ↔ (length self.now ≤ 1) }
    {
        let mut values = self.iter();
        values.next();
        values.next().is_none()
    }

    /// Whether one of the values has this normal form.
    pub fn has_norm(&self, norm: &[u8]) -> bool
        ensures { result ≡ has_norm norm.now self.now }
    {
        for value in self.iter() {
            if value.norm() == norm {
                return true;
            }
        }
        false
    }

    /// Puts a value last, or changes nothing where memory runs out.
    pub fn push(&mut self, alloc: Global, value: Value) -> Result<(), AllocError>
        ensures ok { OnOk result (self.new ≡ self.old ++ value ∷ []) }
        ensures err { OnErr result (self.new ≡ self.old) }
    {
        match &mut self.kept {
            Kept::Empty => {
                self.kept = Kept::One(value);
                Ok(())
            }
            Kept::One(one) => {
                self.kept = Kept::Many(two(alloc, one, value)?);
                Ok(())
            }
            Kept::Many(many) => many.push(alloc, value),
        }
    }

    /// Takes away each value with this normal form, or changes nothing where memory runs out.
    pub fn remove_norm(&mut self, alloc: Global, norm: &[u8]) -> Result<(), AllocError>
        ensures ok { OnOk result (self.new ≡ but_norm norm.now self.old) }
        ensures err { OnErr result (self.new ≡ self.old) }
    {
        match &mut self.kept {
            Kept::Empty => Ok(()),
            Kept::One(value) => {
                if value.norm() == norm {
                    self.kept = Kept::Empty;
                }
                Ok(())
            }
            Kept::Many(many) => many.remove_norm(alloc, norm),
        }
    }
}
