//! The value of a `control:` line.

ghost use Rattle.std.specs.Prelude.{◌≡◌, ◌≤◌, ◌<◌, length, take, position, IfSome};
ghost use Rattle.ldif.specs.Controls.{ends_oid, oid_len, criticality, control_value, control_of};
ghost use Rattle.ldif.specs.Gives.{Gives};
ghost use Rattle.ldif.specs.Line.{same_name};

use crate::fault::{LdifFault, LdifFaultKind};
use crate::line::form_of;
use crate::record::Control;
use crate::word::same_name;
use base::{Bytes, begins_with, without_front};
use std::alloc::Global;

fn ends_oid(b: u8) -> bool
    ensures { result ≡ ends_oid b }
{
    !((b'0' <= b && b <= b'9') || b == b'.')
}

fn oid_end(text: &[u8]) -> Option<usize>
    ensures at { result ≡ position ends_oid text.now }
    ensures within { IfSome result (λ at. at < length text.now) }
{
    text.iter().position(|b| ends_oid(*b))
}

fn oid_len(text: &[u8]) -> usize
    ensures len { result ≡ oid_len text.now }
    ensures within { result ≤ length text.now }
{
    match oid_end(text) {
        Some(at) => at,
        None => text.len(),
    }
}

fn front_of(text: &[u8], len: usize) -> &[u8]
    ensures { result.now ≡ take len text.now }
{
    if len <= text.len() {
        &text[..len]
    } else {
        text
    }
}

fn begins_with_word(text: &[u8], word: &[u8]) -> bool
    ensures { result ≡ same_name (take (length word.now) text.now) word.now }
{
    same_name(front_of(text, word.len()), word)
}

#[tactic(auto, unfolding(crate::specs::Controls::criticality))]
fn criticality(rest: &[u8]) -> (bool, &[u8])
    ensures { (result.0, result.1.now) ≡ criticality rest.now }
{
    let text = without_front(rest);
    if begins_with(rest, b' ') && begins_with_word(text, b"true") {
        return (true, &text[4..]);
    }
    if begins_with(rest, b' ') && begins_with_word(text, b"false") {
        return (false, &text[5..]);
    }
    (false, rest)
}

#[tactic(auto, unfolding(crate::specs::Controls::control_value))]
fn control_value(alloc: Global, rest: &[u8]) -> Result<Option<Bytes>, LdifFault>
    ensures { Gives result (control_value rest.now) }
{
    match rest {
        [] => Ok(None),
        [b':', text @ ..] => Ok(Some(form_of(alloc, text)?.into_bytes(alloc)?)),
        _ => Err(LdifFault::Fault(LdifFaultKind::Word)),
    }
}

#[tactic(auto, unfolding(crate::specs::Controls::control_of))]
pub fn control_of(alloc: Global, text: &[u8]) -> Result<Control, LdifFault>
    ensures { Gives result (control_of text.now) }
{
    let len = oid_len(text);
    if len == 0 {
        return Err(LdifFault::Fault(LdifFaultKind::Word));
    }
    let (critical, rest) = criticality(&text[len..]);
    let value = control_value(alloc, without_front(rest))?;
    let oid = Bytes::from_slice(alloc, &text[..len])?;
    Ok(Control {
        oid,
        critical,
        value,
    })
}
