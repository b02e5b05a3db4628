//! Names as values: their normal form (RFC 4517, 3.3.9 and 4.2.15).

ghost use Rattle.std.specs.Prelude.{◌≡◌, ◌∷◌, ◌++◌, IfOk, OnOk, map};
ghost use Rattle.std.specs.List.{join_with_byte, AllByRecursion};
ghost use Rattle.dn.specs.Writing.{ava_text, rdn_text};
ghost use Rattle.matching.specs.Forms.{lower};
ghost use Rattle.schema.specs.inner.Fronts.{normal_front};
ghost use Rattle.schema.specs.inner.Keys.{AreKnown};
ghost use Rattle.schema.specs.Gives.{Gives};
ghost use Rattle.schema.specs.Values.{rdns_in, normal_ava, normal_avas, normal_rdn, normal_text, normal_name};

use crate::conf::Conf;
use crate::fault::PathFault;
use crate::names::read_dn;
use crate::rdns::{rdn_key_of, typed_rdns};
use base::{Bytes, Sequence};
use dn::{put_value, split_end, written_names_are_read};
use matching::valid_values_are_bytes;
use paths::TypedRdn;
use std::alloc::{AllocError, Global};
use values::{TypeId, TypeTable, norm_by};

fn put_lower(out: &mut Vec<u8>, name: &[u8]) -> Result<(), AllocError>
    ensures { OnOk result (out.new.items ≡ out.old.items ++ lower name.now) }
{
    for b in name {
        out.push(b.to_ascii_lowercase())?;
    }
    Ok(())
}

fn put_ava(types: &TypeTable, out: &mut Vec<u8>, t: TypeId, norm: &[u8]) -> Result<(), AllocError>
    ensures { OnOk result (out.new.items ≡ out.old.items ++ ava_text (normal_ava types.now (t, norm.now))) }
{
    put_lower(out, types.printed_name(t))?;
    out.extend_from_slice(b"=")?;
    put_value(out, norm)
}

fn put_avas(
    types: &TypeTable,
    out: &mut Vec<u8>,
    pairs: &[(TypeId, Bytes)],
) -> Result<(), AllocError>
    ensures { OnOk result (out.new.items ≡ out.old.items ++ rdn_text (normal_avas types.now pairs.now)) }
{
    let mut sign: &[u8] = b"";
    for pair in pairs {
        out.extend_from_slice(sign)?;
        put_ava(types, out, pair.0, pair.1.as_slice())?;
        sign = b"+";
    }
    Ok(())
}

#[tactic(auto, unfolding(crate::specs::Rdns::rdn_key_of, crate::specs::Rdns::key_from, crate::specs::Rdns::put_pair))]
fn put_rdn(
    alloc: Global,
    types: &TypeTable,
    out: &mut Vec<u8>,
    rdn: &TypedRdn,
) -> Result<(), AllocError>
    requires { AreKnown types.now rdn.now }
    ensures { OnOk result (out.new.items ≡ out.old.items ++ rdn_text (normal_rdn types.now rdn.now)) }
{
    match rdn.avas() {
        [(t, value)] => {
            let norm = norm_by(alloc, types.at(*t).plain_family(), value.as_slice())?;
            put_ava(types, out, *t, norm.as_slice())
        }
        _ => put_avas(types, out, rdn_key_of(alloc, types, rdn)?.pairs()),
    }
}

fn put_rdns(
    alloc: Global,
    types: &TypeTable,
    out: &mut Vec<u8>,
    rdns: &[TypedRdn],
) -> Result<(), AllocError>
    requires { AllByRecursion (AreKnown types.now) rdns.now }
    ensures { OnOk result (out.new.items ≡ out.old.items ++ join_with_byte 44 (map (λ r. rdn_text (normal_rdn types.now r)) rdns.now)) }
{
    let mut sign: &[u8] = b"";
    for rdn in rdns {
        out.extend_from_slice(sign)?;
        put_rdn(alloc, types, out, rdn)?;
        sign = b",";
    }
    Ok(())
}

/// The normal form of a name with these RDNs.
#[tactic(auto, unfolding(crate::specs::Values::normal_text))]
pub(crate) fn normal_text(
    alloc: Global,
    types: &TypeTable,
    rdns: &[TypedRdn],
    room: usize,
) -> Result<Bytes, AllocError>
    requires { AllByRecursion (AreKnown types.now) rdns.now }
    ensures { IfOk result (λ b. b ≡ normal_text types.now rdns.now) }
{
    let mut out = Vec::with_capacity(alloc, room)?;
    put_rdns(alloc, types, &mut out, rdns)?;
    Ok(Bytes::from_vec(out))
}

/// The RDNs of the name that bytes spell under these types, its own first, or the code of the first AVA that has a fault.
#[tactic(auto, unfolding(crate::specs::Values::rdns_in))]
pub fn rdns_in(
    alloc: Global,
    types: &TypeTable,
    text: &[u8],
) -> Result<Sequence<TypedRdn>, PathFault>
    ensures gives { Gives (λ rdns. rdns) result (rdns_in types.now text.now) }
    ensures known { IfOk result (AllByRecursion (AreKnown types.now)) }
{
    let name = read_dn(alloc, text)?;
    let rdns = typed_rdns(alloc, types, &name)?;
    Ok(Sequence::from_vec(rdns))
}

/// The normal form of the name that bytes spell, or `None` where they are no value of DN syntax.
#[tactic(auto, unfolding(crate::specs::Values::normal_name))]
pub(crate) fn normal_name(
    alloc: Global,
    types: &TypeTable,
    text: &[u8],
) -> Result<Option<Bytes>, AllocError>
    ensures { IfOk result (λ o. o ≡ normal_name types.now text.now) }
{
    match rdns_in(alloc, types, text) {
        Ok(rdns) => Ok(Some(normal_text(alloc, types, rdns.as_slice(), text.len())?)),
        Err(PathFault::Code(_)) => Ok(None),
        Err(PathFault::OutOfMemory) => Err(AllocError),
    }
}

impl Conf {
    // the normal form of RDNs, and behind it that of the suffix
    fn normal_above_suffix(
        &self,
        alloc: Global,
        rdns: &[TypedRdn],
        room: usize,
    ) -> Result<Bytes, AllocError>
        requires { AllByRecursion (AreKnown self.now.types) rdns.now }
        ensures { IfOk result (λ b. b ≡ normal_text self.now.types rdns.now ++ 44 ∷ normal_text self.now.types self.now.suffix) }
    {
        let suffix = self.suffix_norm();
        let mut out = Vec::with_capacity(alloc, room.saturating_add(suffix.len()))?;
        put_rdns(alloc, self.table(), &mut out, rdns)?;
        out.push(b',')?;
        out.extend_from_slice(suffix)?;
        Ok(Bytes::from_vec(out))
    }

    // the normal form of a name of which the RDNs of the suffix are left out, or `None` where the others are no value
    #[tactic(auto, unfolding(crate::specs::inner::Fronts::normal_front))]
    fn normal_front(&self, alloc: Global, front: &[u8]) -> Result<Option<Bytes>, AllocError>
        ensures { IfOk result (λ o. o ≡ normal_front self.now.types self.now.suffix front.now) }
    {
        let room = front.len().saturating_add(1);
        match rdns_in(alloc, self.table(), front) {
            Ok(rdns) => Ok(Some(self.normal_above_suffix(alloc, rdns.as_slice(), room)?)),
            Err(PathFault::Code(_)) => Ok(None),
            Err(PathFault::OutOfMemory) => Err(AllocError),
        }
    }

    /// The normal form of the name that bytes spell, or `None` where they are no value of DN syntax.
    pub(crate) fn normal_name(
        &self,
        alloc: Global,
        text: &[u8],
    ) -> Result<Option<Bytes>, AllocError>
        ensures { IfOk result (λ o. o ≡ normal_name self.now.types text.now) }
    {
        self.rules_are_kept();
        written_names_are_read();
        valid_values_are_bytes();
        // most names end as the suffix is written, whose normal form is known
        match split_end(text, self.suffix_text()) {
            Some(front) => self.normal_front(alloc, front),
            None => normal_name(alloc, self.table(), text),
        }
    }
}
