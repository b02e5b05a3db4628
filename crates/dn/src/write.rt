//! Values and names are written.

ghost use Rattle.std.specs.Prelude.{◌≡◌, ◌<◌, ◌∷◌, ◌++◌, map, true, IfOk, OnErr, OnOk};
ghost use Rattle.std.specs.List.{flat_map, join_with_byte, list_all};
ghost use Rattle.std.specs.String.{string_bytes};
ghost use Rattle.base.specs.Extends.{Extends};
ghost use Rattle.dn.specs.Names.{is_name};
ghost use Rattle.dn.specs.Spelling.{Spells};
ghost use Rattle.dn.specs.Writing.{digit, needs_pair, stands, always_stands, written, value_text, ava_text, rdn_text, text_of};

use crate::avas::Ava;
use crate::names::{Name, Rdn};
use crate::value::may_stand;
use std::alloc::{AllocError, Global};

fn digit(d: u8) -> u8
    requires { d < 16 }
    ensures { result ≡ digit d }
{
    if d < 10 { d + b'0' } else { d - 10 + b'A' }
}

fn needs_pair(b: u8) -> bool
    ensures { result ≡ needs_pair b }
{
    b < 32 || b >= 127
}

fn stands(first: bool, last: bool, b: u8) -> bool
    ensures { result ≡ stands first last b }
{
    may_stand(b) && !(b == b' ' && (first || last)) && !(b == b'#' && first)
}

#[tactic(auto, unfolding(crate::specs::Writing::written))]
fn put_byte(out: &mut Vec<u8>, first: bool, last: bool, b: u8) -> Result<(), AllocError>
    ensures put { OnOk result (out.new.items ≡ out.old.items ++ written first last b) }
    ensures kept { OnErr result (out.new.items ≡ out.old.items) }
{
    if needs_pair(b) {
        return out.extend_from_slice(&[b'\\', digit(b / 16), digit(b % 16)]);
    }
    if stands(first, last, b) {
        return out.extend_from_slice(&[b]);
    }
    out.extend_from_slice(&[b'\\', b])
}

// Whether a byte stands for itself wherever it is in a value.
fn always_stands(b: u8) -> bool
    ensures { result ≡ always_stands b }
{
    !needs_pair(b) && stands(true, true, b)
}

fn all_stand(value: &[u8]) -> bool
    ensures { result ≡ list_all always_stands value.now }
{
    value.iter().all(|b| always_stands(*b))
}

// Writes it byte by byte.
fn put_bytes(out: &mut Vec<u8>, value: &[u8]) -> Result<(), AllocError>
    ensures put { OnOk result (out.new.items ≡ out.old.items ++ value_text value.now) }
    ensures kept { OnErr result (Extends out.old.items out.new.items) }
{
    for i in 0..value.len() {
        put_byte(out, i == 0, i + 1 == value.len(), value[i])?;
    }
    Ok(())
}

/// Writes a value as it stands in a name (RFC 4514, section 2.4), behind what `out` has. Where memory runs out, a beginning of it may
/// stand there.
#[tactic(auto, using(crate::proofs::Writing::text_of_standing))]
pub fn put_value(out: &mut Vec<u8>, value: &[u8]) -> Result<(), AllocError>
    ensures put { OnOk result (out.new.items ≡ out.old.items ++ value_text value.now) }
    ensures kept { OnErr result (Extends out.old.items out.new.items) }
{
    if all_stand(value) {
        return out.extend_from_slice(value);
    }
    put_bytes(out, value)
}

fn put_ava(out: &mut Vec<u8>, ava: &Ava) -> Result<(), AllocError>
    ensures { OnOk result (out.new.items ≡ out.old.items ++ ava_text ava.now) }
{
    out.extend_from_slice(ava.type_text())?;
    out.extend_from_slice(b"=")?;
    put_value(out, ava.value())
}

/// Each AVA with a plus sign before it.
fn put_more_avas(out: &mut Vec<u8>, avas: &[Ava]) -> Result<(), AllocError>
    ensures { OnOk result (out.new.items ≡ out.old.items ++ flat_map (λ p. 43 ∷ ava_text p) avas.now) }
{
    for ava in avas {
        out.extend_from_slice(b"+")?;
        put_ava(out, ava)?;
    }
    Ok(())
}

fn put_avas(out: &mut Vec<u8>, avas: &[Ava]) -> Result<(), AllocError>
    ensures { OnOk result (out.new.items ≡ out.old.items ++ join_with_byte 43 (map ava_text avas.now)) }
{
    match avas {
        [] => Ok(()),
        [first, others @ ..] => {
            put_ava(out, first)?;
            put_more_avas(out, others)?;
            Ok(())
        }
    }
}

fn put_rdn(out: &mut Vec<u8>, rdn: &Rdn) -> Result<(), AllocError>
    ensures { OnOk result (out.new.items ≡ out.old.items ++ rdn_text rdn.now) }
{
    put_avas(out, rdn.avas())
}

/// Each RDN with a comma before it.
fn put_more_rdns(out: &mut Vec<u8>, rdns: &[Rdn]) -> Result<(), AllocError>
    ensures { OnOk result (out.new.items ≡ out.old.items ++ flat_map (λ r. 44 ∷ rdn_text r) rdns.now) }
{
    for rdn in rdns {
        out.extend_from_slice(b",")?;
        put_rdn(out, rdn)?;
    }
    Ok(())
}

fn put_rdns(out: &mut Vec<u8>, rdns: &[Rdn]) -> Result<(), AllocError>
    ensures { OnOk result (out.new.items ≡ out.old.items ++ join_with_byte 44 (map rdn_text rdns.now)) }
{
    match rdns {
        [] => Ok(()),
        [first, others @ ..] => {
            put_rdn(out, first)?;
            put_more_rdns(out, others)?;
            Ok(())
        }
    }
}

#[tactic(auto, unfolding(crate::specs::Writing::text_of))]
fn text_of(alloc: Global, name: &Name) -> Result<Vec<u8>, AllocError>
    ensures text { IfOk result (λ v. v.items ≡ text_of name.now) }
    ensures good { OnOk result (is_name name.now ≡ true) }
{
    let mut out = Vec::new(alloc);
    put_rdns(&mut out, name.rdns())?;
    Ok(out)
}

/// The one spelling of a name that is written (RFC 4514, section 2): no spaces, and an escape only where one is needed. It
/// is ASCII: other bytes are written as pairs of hexadecimal digits.
pub fn write_name(alloc: Global, name: &Name) -> Result<String, AllocError>
    ensures text { IfOk result (λ s. string_bytes s ≡ text_of name.now) }
    ensures spelled { IfOk result (λ s. Spells (string_bytes s) name.now) }
{
    let text = text_of(alloc, name)?;
    Ok(String::from_utf8(text).unwrap())
}
