//! What an object class asks of an entry, with all of its superclasses.

ghost use Rattle.std.specs.Prelude.{◌≡◌, ◌||◌, ◌<◌, ℕ, IfOk, length, nat_eq};
ghost use Rattle.std.specs.List.{list_any, AllByRecursion};
ghost use Rattle.schema.specs.Superclasses.{has_number};
ghost use Rattle.schema.specs.inner.Settled.{settled_at, is_required_by, is_named_by, AreOrdered, AreSettled, IsSettledBy};

use crate::object_class::ObjectClass;
use crate::type_set::TypeSet;
use base::Sequence;
use std::alloc::{AllocError, Global};

/// The number of the class extensibleObject, which each configuration has.
const EXTENSIBLE_OBJECT: usize = 1;

/// What a class asks of an entry, by itself and by its superclasses.
#[derive(Drop)]
pub(crate) struct Settled {
    /// The types that an entry of it has.
    pub(crate) required: TypeSet,
    /// The types that it or one of its superclasses names.
    pub(crate) allowed: TypeSet,
    /// It is extensibleObject, or below it.
    pub(crate) extensible: bool,
}

fn at(settled: &[Settled], class: usize) -> &Settled
    requires { class < length settled.now }
    ensures { result.now ≡ settled_at settled.now class }
{
    &settled[class]
}

fn required_by(alloc: Global, class: &ObjectClass, above: &[Settled]) -> Result<TypeSet, AllocError>
    requires { AllByRecursion (λ s. s < length above.now) class.now.superiors }
    ensures { IfOk result (λ set. (t : ℕ) → has_number set t ≡ is_required_by above.now class.now t) }
{
    let mut set = TypeSet::new(alloc).with_all(class.must.as_slice())?;
    for superior in class.superiors.as_slice() {
        set = set.with_all(at(above, *superior).required.as_slice())?;
    }
    Ok(set)
}

fn allowed_by(alloc: Global, class: &ObjectClass, above: &[Settled]) -> Result<TypeSet, AllocError>
    requires { AllByRecursion (λ s. s < length above.now) class.now.superiors }
    ensures { IfOk result (λ set. (t : ℕ) → has_number set t ≡ is_named_by above.now class.now t) }
{
    let own = TypeSet::new(alloc).with_all(class.may.as_slice())?;
    let mut set = own.with_all(class.must.as_slice())?;
    for superior in class.superiors.as_slice() {
        set = set.with_all(at(above, *superior).allowed.as_slice())?;
    }
    Ok(set)
}

fn extensible_above(class: &ObjectClass, above: &[Settled]) -> bool
    requires { AllByRecursion (λ s. s < length above.now) class.now.superiors }
    ensures { result ≡ list_any (λ s. (settled_at above.now s).extensible) class.now.superiors }
{
    for superior in class.superiors.as_slice() {
        if at(above, *superior).extensible {
            return true;
        }
    }
    false
}

fn extensible_by(class: &ObjectClass, number: usize, above: &[Settled]) -> bool
    requires { AllByRecursion (λ s. s < length above.now) class.now.superiors }
    ensures { result ≡ (nat_eq 1 number || list_any (λ s. (settled_at above.now s).extensible) class.now.superiors) }
{
    EXTENSIBLE_OBJECT == number || extensible_above(class, above)
}

// What the class of this number asks, where it is settled what those before it ask.
fn settle_class(
    alloc: Global,
    class: &ObjectClass,
    number: usize,
    above: &[Settled],
) -> Result<Settled, AllocError>
    requires { AllByRecursion (λ s. s < length above.now) class.now.superiors }
    ensures { IfOk result (λ s. IsSettledBy above.now class.now number s) }
{
    Ok(Settled {
        required: required_by(alloc, class, above)?,
        allowed: allowed_by(alloc, class, above)?,
        extensible: extensible_by(class, number, above),
    })
}

/// What each class asks: superclasses have lower numbers, so what they ask is settled before.
pub(crate) fn settle(
    alloc: Global,
    classes: &[ObjectClass],
) -> Result<Sequence<Settled>, AllocError>
    requires { AreOrdered classes.now }
    ensures { IfOk result (λ s. AreSettled classes.now s) }
{
    let mut settled = Vec::with_capacity(alloc, classes.len())?;
    for c in 0..classes.len() {
        settled.push(settle_class(alloc, &classes[c], c, &settled)?)?;
    }
    Ok(Sequence::from_vec(settled))
}
