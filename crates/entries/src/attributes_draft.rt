//! The attributes of an entry while a modify changes them.

ghost use Rattle.std.specs.Prelude.{◌≡◌, ◌<◌, List, [], IfOk, OnOk, length, nat_eq, None};
ghost use Rattle.std.specs.Map.{lookup};
ghost use Rattle.values.specs.Values as values;
ghost use Rattle.entries.specs.Entries.{values_of};
ghost use Rattle.entries.specs.Modifies.{modify_at, set_values};
ghost use Rattle.entries.specs.StoredEntries.{attributes_of, IsMade};
ghost use Rattle.entries.specs.inner.ValuesDrafts.{put_back, IsTaken};
ghost use Rattle.entries.specs.Gives.{Gives};

use crate::kept_attributes::Attributes;
use crate::modified_values::change_values;
use crate::refusal::Refusal;
use crate::values_draft::ValuesDraft;
use base::Bytes;
use ldif::Op;
use schema::{Conf, TypeId};
use std::alloc::{AllocError, Global};
use std::marker::Model;
use values::Values;

/// Attributes while they're changed. A contract sees the list of the types with their values.
///
/// The values of the type that was changed last stay as they are made ready for changes: so many blocks of one type with a value each,
/// one right after the other, take no more time than one block with all values.
pub(crate) struct AttributesDraft {
    attrs: Attributes,
    // a type and its values, whose place `attrs` keeps
    taken: Option<(TypeId, ValuesDraft)>,
}

impl Drop for AttributesDraft {
    fn drop(self) {
        let AttributesDraft { attrs: _, taken: _ } = self;
    }
}

impl Model for AttributesDraft {
    ghost use Rattle.std.specs.Prelude.{List};
    ghost use Rattle.entries.specs.StoredEntries.{EntryAttribute};
    ghost use Rattle.entries.specs.inner.ValuesDrafts.{put_back, IsTaken};

    ghost Value = { List EntryAttribute };

    ghost view = { λ d. put_back d.attrs.entries d.taken };

    ghost invariant = { λ d. IsTaken d.attrs.entries d.taken };
}

// Puts values back that were taken out.
fn put_back(
    alloc: Global,
    attrs: &mut Attributes,
    taken: Option<(TypeId, ValuesDraft)>,
) -> Result<(), AllocError>
    ensures { OnOk result (attrs.new.entries ≡ put_back attrs.old.entries taken) }
{
    match taken {
        None => Ok(()),
        Some((t, values)) => attrs.set(t, values.into_values(alloc)?),
    }
}

// Takes the values of a type out. Those of another one go back.
fn take_out(
    alloc: Global,
    attrs: &mut Attributes,
    taken: Option<(TypeId, ValuesDraft)>,
    t: TypeId,
) -> Result<ValuesDraft, AllocError>
    requires { IsTaken attrs.old.entries taken }
    ensures values { IfOk result (λ values. values ≡ values_of (put_back attrs.old.entries taken) t) }
    ensures place { OnOk result ((vs : List values.Value) → set_values attrs.new.entries t vs ≡ set_values (put_back attrs.old.entries taken) t vs) }
{
    if let Some(last) = taken {
        let (u, values) = last;
        if u == t {
            return Ok(values);
        }
        attrs.set(u, values.into_values(alloc)?)?;
    }
    Ok(ValuesDraft::new(attrs.take(t)))
}

// Where none of its values are left, a type has no place.
fn drop_place(attrs: &mut Attributes, t: TypeId, values: &ValuesDraft)
    ensures place { set_values attrs.new.entries t values.now ≡ set_values attrs.old.entries t values.now }
    ensures none { values.now ≡ [] → lookup (nat_eq t) attrs.new.entries ≡ None }
{
    if !values.has_values() {
        attrs.remove(t);
    }
}

impl AttributesDraft {
    pub(crate) fn new(attrs: Attributes) -> AttributesDraft
        ensures { result ≡ attrs.entries }
    {
        AttributesDraft { attrs, taken: None }
    }

    /// What a block with these values makes of them.
    #[tactic(auto, unfolding(crate::specs::Modifies::modify_at))]
    pub(crate) fn modify_at(
        &mut self,
        alloc: Global,
        conf: &Conf,
        t: TypeId,
        op: Op,
        texts: &[Bytes],
    ) -> Result<(), Refusal>
        requires made { IsMade conf.now.types self.old }
        requires known { t < length conf.now.types }
        ensures made { OnOk result (IsMade conf.now.types self.new) }
        ensures gives { Gives (λ _. attributes_of self.new) result (modify_at conf.now.types (attributes_of self.old) t op texts.now) }
    {
        let mut values = take_out(alloc, &mut self.attrs, self.taken.take(), t)?;
        change_values(alloc, conf, t, op, &mut values, texts)?;
        drop_place(&mut self.attrs, t, &values);
        self.taken = Some((t, values));
        Ok(())
    }

    /// The attributes that they come to.
    pub(crate) fn into_attributes(self, alloc: Global) -> Result<Attributes, AllocError>
        ensures { IfOk result (λ attrs. attrs.entries ≡ self) }
    {
        let AttributesDraft { mut attrs, taken } = self;
        put_back(alloc, &mut attrs, taken)?;
        Ok(attrs)
    }
}
