//! The values of the suffix's entry without those of its old RDN, for who takes note of why it can't be added.

ghost use Rattle.std.specs.Prelude.{◌<◌, length, IfOk};
ghost use Rattle.std.specs.List.{AllByRecursion};
ghost use Rattle.schema.specs.GoodRdns.{IsAva};
ghost use Rattle.suffixes.specs.inner.Lines.{AreKnown};

use crate::lines::Ava;
use base::Bytes;
use schema::{Conf, TypeId, TypedRdn, Value, ValueFault};
use std::alloc::{AllocError, Global};

// the value of a type that is written so, if that has it
fn value_of(alloc: Global, conf: &Conf, t: TypeId, raw: &[u8]) -> Result<Option<Value>, AllocError>
    requires { t < length conf.now.types }
{
    match conf.make_value(alloc, t, raw) {
        Ok(value) => Ok(Some(value)),
        Err(ValueFault::Invalid) => Ok(None),
        Err(ValueFault::OutOfMemory) => Err(AllocError),
    }
}

// whether two values of a type are equal
fn are_equal(
    alloc: Global,
    conf: &Conf,
    t: TypeId,
    one: &Bytes,
    other: &Bytes,
) -> Result<bool, AllocError>
    requires { t < length conf.now.types }
{
    let Some(one) = value_of(alloc, conf, t, one.as_slice())? else {
        return Ok(false);
    };
    match value_of(alloc, conf, t, other.as_slice())? {
        Some(other) => Ok(one.norm() == other.norm()),
        None => Ok(false),
    }
}

// whether an RDN has a value
fn is_in(alloc: Global, conf: &Conf, rdn: &TypedRdn, ava: &Ava) -> Result<bool, AllocError>
    requires { AllByRecursion (IsAva conf.now.types) rdn.now }
{
    let (t, value) = ava;
    for (other, old) in rdn.avas() {
        if other == t && are_equal(alloc, conf, *other, old, value)? {
            return Ok(true);
        }
    }
    Ok(false)
}

/// Those values that an RDN doesn't have.
pub(crate) fn left_values(
    alloc: Global,
    conf: &Conf,
    rdn: &TypedRdn,
    avas: &[Ava],
) -> Result<Vec<Ava>, AllocError>
    requires rdn { AllByRecursion (IsAva conf.now.types) rdn.now }
    requires known { AreKnown conf.now.types avas.now }
    ensures { IfOk result (λ left. AreKnown conf.now.types left.items) }
{
    let mut left = Vec::with_capacity(alloc, avas.len())?;
    for ava in avas {
        if !is_in(alloc, conf, rdn, ava)? {
            left.push((ava.0, ava.1.copy(alloc)?))?;
        }
    }
    Ok(left)
}
