//! RDNs whose types are known, and what they come to in a path.

ghost use Rattle.std.specs.Prelude.{◌≡◌, ◌<◌, ◌≤◌, ◌∷◌, ◌++◌, [], IfOk, OnOk, length};
ghost use Rattle.std.specs.List.{AllByRecursion, prefix_len};
ghost use Rattle.schema.specs.Rdns.{is_plain, has_type, ava_type, typed_rdn, typed, is_lower, put_pair, rdn_key_of};
ghost use Rattle.schema.specs.inner.Keys.{AreKnown};
ghost use Rattle.schema.specs.Gives.{Gives};

use crate::code::Code;
use crate::fault::PathFault;
use crate::syntaxes::is_syntax;
use base::{Bytes, Sequence};
use dn::{Ava, Name};
use matching::is_valid;
use paths::{PathDraft, RdnKey, TypedRdn};
use std::alloc::{AllocError, Global};
use values::{TypeId, TypeSyntax, TypeTable, norm_by};

// whether an AVA of this syntax has a value
fn is_plain(syntax: TypeSyntax, value: &[u8]) -> bool
    ensures { result ≡ is_plain syntax value.now }
{
    match syntax {
        TypeSyntax::Name => false,
        TypeSyntax::Plain(syntax) => is_valid(syntax, value),
    }
}

// whether one of the AVAs is of this type
fn has_type(avas: &[(TypeId, Bytes)], t: TypeId) -> bool
    ensures { result ≡ has_type t avas.now }
{
    avas.iter().any(|ava| ava.0 == t)
}

// the type of an AVA behind others in its RDN
fn ava_type(types: &TypeTable, earlier: &[(TypeId, Bytes)], ava: &Ava) -> Result<TypeId, Code>
    ensures gives { result ≡ ava_type types.now earlier.now ava.now }
    ensures known { IfOk result (λ t. t < length types.now) }
{
    let Some(t) = types.type_of(ava.type_text()) else {
        return Err(Code::InvalidDnSyntax);
    };
    let kind = types.at(t);
    if is_syntax(TypeSyntax::Name, kind.syntax) {
        return Err(Code::InvalidDnSyntax);
    }
    if kind.equality.is_none() {
        return Err(Code::NamingViolation);
    }
    if !is_plain(kind.syntax, ava.value()) {
        return Err(Code::InvalidDnSyntax);
    }
    if has_type(earlier, t) {
        return Err(Code::NamingViolation);
    }
    Ok(t)
}

/// An RDN with its types; `InvalidDnSyntax` where a type isn't known or has DN syntax, or a value isn't valid, and `NamingViolation` where a
/// type has no equality rule or stands twice. The first AVA that has a fault answers.
#[tactic(auto, unfolding(crate::specs::Rdns::avas_from))]
pub(crate) fn typed_rdn(
    alloc: Global,
    types: &TypeTable,
    avas: &[Ava],
) -> Result<TypedRdn, PathFault>
    ensures gives { Gives (λ r. r) result (typed_rdn types.now avas.now) }
    ensures known { IfOk result (AreKnown types.now) }
{
    let mut typed = Vec::with_capacity(alloc, avas.len())?;
    for ava in avas {
        let t = match ava_type(types, &typed, ava) {
            Ok(t) => t,
            Err(code) => return Err(PathFault::Code(code)),
        };
        typed.push((t, Bytes::from_slice(alloc, ava.value())?))?;
    }
    Ok(TypedRdn::new(Sequence::from_vec(typed)))
}

/// The RDNs of a name with their types, its own first.
#[tactic(auto, unfolding(crate::specs::Rdns::rdns_from))]
pub(crate) fn typed_rdns(
    alloc: Global,
    types: &TypeTable,
    name: &Name,
) -> Result<Vec<TypedRdn>, PathFault>
    ensures gives { Gives (λ v. v.items) result (typed types.now name.now) }
    ensures known { IfOk result (λ v. AllByRecursion (AreKnown types.now) v.items) }
{
    let mut rdns = Vec::with_capacity(alloc, name.rdns().len())?;
    for rdn in name.rdns() {
        rdns.push(typed_rdn(alloc, types, rdn.avas())?)?;
    }
    Ok(rdns)
}

fn lower_pairs(pairs: &[(TypeId, Bytes)], t: TypeId) -> usize
    ensures place { result ≡ prefix_len (is_lower t) pairs.now }
    ensures bound { result ≤ length pairs.now }
{
    pairs.iter().take_while(|pair| pair.0 < t).count()
}

#[tactic(auto, unfolding(crate::specs::Rdns::put_pair))]
fn put_pair(pairs: &mut Vec<(TypeId, Bytes)>, t: TypeId, norm: Bytes) -> Result<(), AllocError>
    ensures { OnOk result (pairs.new.items ≡ put_pair (t, norm) pairs.old.items) }
{
    let at = lower_pairs(pairs, t);
    pairs.insert(at, (t, norm))?;
    Ok(())
}

#[tactic(auto, unfolding(crate::specs::Rdns::rdn_key_of, crate::specs::Rdns::key_from))]
pub(crate) fn rdn_key_of(
    alloc: Global,
    types: &TypeTable,
    rdn: &TypedRdn,
) -> Result<RdnKey, AllocError>
    requires { AreKnown types.now rdn.now }
    ensures { IfOk result (λ k. k ≡ rdn_key_of types.now rdn.now) }
{
    let mut pairs = Vec::with_capacity(alloc, rdn.avas().len())?;
    for (t, value) in rdn.avas() {
        let norm = norm_by(alloc, types.at(*t).plain_family(), value.as_slice())?;
        put_pair(&mut pairs, *t, norm)?;
    }
    Ok(RdnKey::new(Sequence::from_vec(pairs)))
}

/// Goes down in a path by what an RDN comes to.
#[tactic(auto, unfolding(crate::specs::Rdns::rdn_key_of, crate::specs::Rdns::key_from, crate::specs::Rdns::put_pair))]
pub(crate) fn step_down(
    alloc: Global,
    types: &TypeTable,
    path: PathDraft,
    rdn: &TypedRdn,
) -> Result<PathDraft, AllocError>
    requires { AreKnown types.now rdn.now }
    ensures { IfOk result (λ d. d ≡ path ++ rdn_key_of types.now rdn.now ∷ []) }
{
    match rdn.avas() {
        [(t, value)] => {
            let norm = norm_by(alloc, types.at(*t).plain_family(), value.as_slice())?;
            path.with(*t, norm.as_slice())
        }
        _ => path.with_key(&rdn_key_of(alloc, types, rdn)?),
    }
}
