//! The values of an RDN among an entry's attributes.

ghost use Rattle.std.specs.Prelude.{◌≡◌, ◌<◌, true, IfOk, OnErr, OnOk, length};
ghost use Rattle.std.specs.List.{AllByRecursion, list_any};
ghost use Rattle.std.specs.Str.{bytes_eq};
ghost use Rattle.schema.specs.GoodRdns.{IsAva};
ghost use Rattle.schema.specs.Values.{norm_at, is_valid_at};
ghost use Rattle.entries.specs.Entries.{values_of, has_equal, with_ava, with_rdn, HasBegun};
ghost use Rattle.entries.specs.Modifies.{has_rdn};
ghost use Rattle.entries.specs.StoredEntries.{attributes_of, IsMade};
ghost use Rattle.values.specs.Norms.{has_norm};

use crate::kept_attributes::Attributes;
use base::Bytes;
use schema::{Conf, TypeId, TypedRdn, Value, ValueFault};
use std::alloc::{AllocError, Global};

/// A value that is valid.
pub(crate) fn valid_value(
    alloc: Global,
    conf: &Conf,
    t: TypeId,
    raw: &[u8],
) -> Result<Value, AllocError>
    requires known { t < length conf.now.types }
    requires valid { is_valid_at conf.now.types t raw.now ≡ true }
    ensures { IfOk result (λ v. v ≡ record { raw = raw.now; norm = norm_at conf.now.types t raw.now }) }
{
    match conf.make_value(alloc, t, raw) {
        Ok(value) => Ok(value),
        Err(ValueFault::OutOfMemory) => Err(AllocError),
        Err(ValueFault::Invalid) => unreachable!(),
    }
}

// whether a type has a value that is written so
fn has_raw(attrs: &Attributes, t: TypeId, raw: &[u8]) -> bool
    ensures { result ≡ list_any (λ v. bytes_eq v.raw raw.now) (values_of attrs.now.entries t) }
{
    let Some(values) = attrs.get(t) else {
        return false;
    };
    for value in values.iter() {
        if value.raw() == raw {
            return true;
        }
    }
    false
}

fn add_ava(
    alloc: Global,
    conf: &Conf,
    attrs: &mut Attributes,
    ava: &(TypeId, Bytes),
) -> Result<(), AllocError>
    requires made { IsMade conf.now.types attrs.old.entries }
    requires ava { IsAva conf.now.types ava.now }
    ensures made { OnOk result (IsMade conf.now.types attrs.new.entries) }
    ensures values { OnOk result (attributes_of attrs.new.entries ≡ with_ava conf.now.types ava.now (attributes_of attrs.old.entries)) }
    ensures err { OnErr result (attrs.new ≡ attrs.old) }
{
    let (t, value) = ava;
    let raw = value.as_slice();
    // most entries have it among their lines
    if has_raw(attrs, *t, raw) {
        return Ok(());
    }
    let value = valid_value(alloc, conf, *t, raw)?;
    attrs.put(alloc, *t, value)?;
    Ok(())
}

/// Appends each value of the RDN that has no equal one there. Where memory runs out, those of its first AVAs may be there.
#[tactic(auto, unfolding(crate::specs::Entries::with_rdn))]
pub fn add_rdn(
    alloc: Global,
    conf: &Conf,
    attrs: &mut Attributes,
    rdn: &TypedRdn,
) -> Result<(), AllocError>
    requires made { IsMade conf.now.types attrs.old.entries }
    requires avas { AllByRecursion (IsAva conf.now.types) rdn.now }
    ensures made { OnOk result (IsMade conf.now.types attrs.new.entries) }
    ensures values { OnOk result (attributes_of attrs.new.entries ≡ with_rdn conf.now.types rdn.now (attributes_of attrs.old.entries)) }
    ensures begun { OnErr result (HasBegun conf.now.types rdn.now (attributes_of attrs.old.entries) (attributes_of attrs.new.entries)) }
{
    for ava in rdn.avas() {
        add_ava(alloc, conf, attrs, ava)?;
    }
    Ok(())
}

// whether a type has a value with this normal form
fn has_norm_at(attrs: &Attributes, t: TypeId, norm: &[u8]) -> bool
    ensures { result ≡ has_norm norm.now (values_of attrs.now.entries t) }
{
    match attrs.get(t) {
        Some(values) => values.has_norm(norm),
        None => false,
    }
}

// whether a value that equals this AVA's is there
fn has_value(
    alloc: Global,
    conf: &Conf,
    attrs: &Attributes,
    ava: &(TypeId, Bytes),
) -> Result<bool, AllocError>
    requires made { IsMade conf.now.types attrs.now.entries }
    requires ava { IsAva conf.now.types ava.now }
    ensures { IfOk result (λ there. there ≡ has_equal conf.now.types ava.now.0 ava.now.1 (values_of (attributes_of attrs.now.entries) ava.now.0)) }
{
    let (t, raw) = ava;
    let value = valid_value(alloc, conf, *t, raw.as_slice())?;
    Ok(has_norm_at(attrs, *t, value.norm()))
}

/// Whether each value of the RDN is there, in whatever spelling.
pub(crate) fn has_rdn(
    alloc: Global,
    conf: &Conf,
    attrs: &Attributes,
    rdn: &TypedRdn,
) -> Result<bool, AllocError>
    requires made { IsMade conf.now.types attrs.now.entries }
    requires avas { AllByRecursion (IsAva conf.now.types) rdn.now }
    ensures { IfOk result (λ there. there ≡ has_rdn conf.now.types rdn.now (attributes_of attrs.now.entries)) }
{
    for ava in rdn.avas() {
        if !has_value(alloc, conf, attrs, ava)? {
            return Ok(false);
        }
    }
    Ok(true)
}
