//! The attributes of an entry as it is to be, whatever they are.

ghost use Rattle.std.specs.Prelude.{◌≡◌, nat_eq, IfOk, OnOk};
ghost use Rattle.std.specs.Map.{lookup};
ghost use Rattle.std.specs.Option.{option_copied};
ghost use Rattle.entries.specs.Entries.{values_of, push_value};
ghost use Rattle.entries.specs.EntryClasses.{has_type};
ghost use Rattle.entries.specs.Modifies.{set_values};
ghost use Rattle.entries.specs.StoredEntries.{attributes_of};
ghost use Rattle.reasons.specs.inner.Drafts.{IsPlaceOf};

use entries::Entry;
use schema::{TypeId, Value};
use std::alloc::{AllocError, Global};
use values::Values;

/// A type with its values.
pub(crate) type Attribute = (TypeId, Values);

/// The attributes of an entry again.
pub(crate) fn attributes_of(alloc: Global, entry: &Entry) -> Result<Vec<Attribute>, AllocError>
    ensures { IfOk result (λ attrs. attrs.items ≡ entry.now.attrs) }
{
    let mut attrs = Vec::new(alloc);
    for (t, values) in entry.attrs() {
        attrs.push((*t, values.copy(alloc)?))?;
    }
    Ok(attrs)
}

// the place of a type
fn place_of(attrs: &[Attribute], t: TypeId) -> Option<usize>
    ensures { IsPlaceOf t attrs.now result }
{
    for place in 0..attrs.len() {
        if t == attrs[place].0 {
            return Some(place);
        }
    }
    None
}

/// The values of a type, where it has any.
pub(crate) fn values_at(attrs: &[Attribute], t: TypeId) -> Option<&Values>
    ensures { option_copied result ≡ lookup (nat_eq t) attrs.now }
{
    match place_of(attrs, t) {
        Some(place) => Some(&attrs[place].1),
        None => None,
    }
}

/// Whether a type has a value.
pub(crate) fn has_type(attrs: &[Attribute], t: TypeId) -> bool
    ensures { result ≡ has_type (attributes_of attrs.now) t }
{
    values_at(attrs, t).is_some()
}

/// The values of a type again, or none.
pub(crate) fn copy_values(
    alloc: Global,
    attrs: &[Attribute],
    t: TypeId,
) -> Result<Values, AllocError>
    ensures { IfOk result (λ values. values ≡ values_of attrs.now t) }
{
    match values_at(attrs, t) {
        Some(values) => values.copy(alloc),
        None => Ok(Values::new()),
    }
}

/// Puts a value last among those of a type.
pub(crate) fn push_value(
    alloc: Global,
    attrs: &mut Vec<Attribute>,
    t: TypeId,
    value: Value,
) -> Result<(), AllocError>
    ensures { OnOk result (attrs.new.items ≡ push_value attrs.old.items t value) }
{
    match place_of(attrs, t) {
        Some(place) => attrs[place].1.push(alloc, value)?,
        None => attrs.push((t, Values::one(value)))?,
    }
    Ok(())
}

/// Puts these values in place of those of a type, or last. An attribute without values goes.
pub(crate) fn set_values(
    attrs: &mut Vec<Attribute>,
    t: TypeId,
    values: Values,
) -> Result<(), AllocError>
    ensures { OnOk result (attrs.new.items ≡ set_values attrs.old.items t values) }
{
    match place_of(attrs, t) {
        Some(place) => {
            if values.is_empty() {
                attrs.remove(place);
            } else {
                attrs[place] = (t, values);
            }
        }
        None => {
            if !values.is_empty() {
                attrs.push((t, values))?;
            }
        }
    }
    Ok(())
}
