//! What another RDN makes of an entry (RFC 4511, 4.9).

ghost use Rattle.std.specs.Prelude.{◌≡◌, ◌&&◌, nat_eq, OnOk, IfOk};
ghost use Rattle.std.specs.List.{AllByRecursion, list_any};
ghost use Rattle.std.specs.Str.{bytes_eq};
ghost use Rattle.schema.specs.GoodRdns.{IsAva, IsRdn};
ghost use Rattle.schema.specs.Values.{norm_at};
ghost use Rattle.entries.specs.Modifies.{without_old_ava, without_rdn, renamed_attrs, entry_fault, rename_entry};
ghost use Rattle.entries.specs.StoredEntries.{attributes_of, content_of, IsMade};
ghost use Rattle.entries.specs.Gives.{Gives};

use crate::entry::Entry;
use crate::entry_checks::entry_fault;
use crate::kept_attributes::Attributes;
use crate::rdn_values::{add_rdn, valid_value};
use crate::refusal::Refusal;
use base::Bytes;
use schema::{Code, Conf, TypeId, TypedRdn};
use std::alloc::{AllocError, Global};

// whether an AVA has this type and a value with this normal form
fn is_same_ava(
    alloc: Global,
    conf: &Conf,
    ava: &(TypeId, Bytes),
    t: TypeId,
    norm: &[u8],
) -> Result<bool, AllocError>
    requires { IsAva conf.now.types ava.now }
    ensures { IfOk result (λ b. b ≡ (nat_eq t ava.now.0 && bytes_eq (norm_at conf.now.types t ava.now.1) norm.now)) }
{
    let (u, raw) = ava;
    if t != *u {
        return Ok(false);
    }
    let value = valid_value(alloc, conf, t, raw.as_slice())?;
    Ok(value.norm() == norm)
}

// whether the RDN has such an AVA
fn has_ava(
    alloc: Global,
    conf: &Conf,
    rdn: &TypedRdn,
    t: TypeId,
    norm: &[u8],
) -> Result<bool, AllocError>
    requires { AllByRecursion (IsAva conf.now.types) rdn.now }
    ensures { IfOk result (λ b. b ≡ list_any (λ q. nat_eq t q.0 && bytes_eq (norm_at conf.now.types t q.1) norm.now) rdn.now) }
{
    for ava in rdn.avas() {
        if is_same_ava(alloc, conf, ava, t, norm)? {
            return Ok(true);
        }
    }
    Ok(false)
}

// Takes away the value of an AVA, unless the new RDN has an equal one.
fn remove_ava(
    alloc: Global,
    conf: &Conf,
    attrs: &mut Attributes,
    new: &TypedRdn,
    ava: &(TypeId, Bytes),
) -> Result<(), AllocError>
    requires made { IsMade conf.now.types attrs.old.entries }
    requires new { AllByRecursion (IsAva conf.now.types) new.now }
    requires ava { IsAva conf.now.types ava.now }
    ensures made { OnOk result (IsMade conf.now.types attrs.new.entries) }
    ensures values { OnOk result (attributes_of attrs.new.entries ≡ without_old_ava conf.now.types new.now ava.now (attributes_of attrs.old.entries)) }
{
    let (t, raw) = ava;
    let value = valid_value(alloc, conf, *t, raw.as_slice())?;
    if has_ava(alloc, conf, new, *t, value.norm())? {
        return Ok(());
    }
    let mut values = attrs.take(*t);
    values.remove_norm(alloc, value.norm())?;
    attrs.set(*t, values)
}

// Takes away the values of the old RDN, but for those that the new one has.
#[tactic(auto, unfolding(crate::specs::Modifies::without_rdn))]
fn remove_rdn(
    alloc: Global,
    conf: &Conf,
    attrs: &mut Attributes,
    new: &TypedRdn,
    old: &TypedRdn,
) -> Result<(), AllocError>
    requires made { IsMade conf.now.types attrs.old.entries }
    requires new { AllByRecursion (IsAva conf.now.types) new.now }
    requires avas { AllByRecursion (IsAva conf.now.types) old.now }
    ensures made { OnOk result (IsMade conf.now.types attrs.new.entries) }
    ensures values { OnOk result (attributes_of attrs.new.entries ≡ without_rdn conf.now.types new.now old.now (attributes_of attrs.old.entries)) }
{
    for ava in old.avas() {
        remove_ava(alloc, conf, attrs, new, ava)?;
    }
    Ok(())
}

// Puts the values of another RDN in, takes those of the old one out where that is asked for, and looks at the whole.
fn rename_attributes(
    alloc: Global,
    conf: &Conf,
    attrs: &mut Attributes,
    new: &TypedRdn,
    old: &TypedRdn,
    delete_old: bool,
) -> Result<Option<Code>, AllocError>
    requires made { IsMade conf.now.types attrs.old.entries }
    requires new { AllByRecursion (IsAva conf.now.types) new.now }
    requires avas { AllByRecursion (IsAva conf.now.types) old.now }
    ensures made { OnOk result (IsMade conf.now.types attrs.new.entries) }
    ensures values { OnOk result (attributes_of attrs.new.entries ≡ renamed_attrs conf.now.types (record { rdn = old.now; attrs = attributes_of attrs.old.entries }) new.now delete_old) }
    ensures fault { IfOk result (λ fault. fault ≡ entry_fault conf.now (attributes_of attrs.new.entries)) }
{
    add_rdn(alloc, conf, attrs, new)?;
    if delete_old {
        remove_rdn(alloc, conf, attrs, new, old)?;
    }
    entry_fault(alloc, conf, attrs)
}

/// The entry with another RDN. The first check that fails answers.
#[tactic(auto, unfolding(crate::specs::Modifies::rename_entry))]
pub fn renamed(
    alloc: Global,
    conf: &Conf,
    entry: &Entry,
    new: TypedRdn,
    delete_old: bool,
) -> Result<Entry, Refusal>
    requires made { IsMade conf.now.types entry.now.attrs }
    requires old { IsRdn conf.now.types entry.now.rdn }
    requires new { IsRdn conf.now.types new }
    ensures made { IfOk result (λ e. IsMade conf.now.types e.attrs) }
    ensures gives { Gives (λ e. content_of e) result (rename_entry conf.now (content_of entry.now) new delete_old) }
{
    let mut attrs = entry.copy_attributes(alloc)?;
    match rename_attributes(alloc, conf, &mut attrs, &new, entry.rdn(), delete_old) {
        Ok(None) => Ok(Entry::new(new, attrs)),
        Ok(Some(code)) => Err(Refusal::Code(code)),
        Err(AllocError) => Err(Refusal::OutOfMemory),
    }
}
