//! Value lines.

ghost use Rattle.std.specs.Prelude.{◌≡◌, ◌<◌, List, ℕ, position, length, map, IfSome, Ok};
ghost use Rattle.std.specs.Simd.Lanes.{mask_l};
ghost use Rattle.ldif.specs.Gives.{Gives, GivesBy};
ghost use Rattle.ldif.specs.LineValues.{bytes_in};
ghost use Rattle.ldif.specs.Line.{decoded, form_of, is_colon, value_of, value_line, value_named};

use crate::fault::{LdifFault, LdifFaultKind};
use crate::value::{Attr, LineValue};
use crate::word::same_name;
use base::{Bytes, begins_with, without_end, without_front};
use base64::DecodeAllocError;
use base64::engine::general_purpose::STANDARD;
use memchr::memchr;
use std::alloc::Global;
use std::simd::prelude::*;

// Kept apart, since most values are plain, and its tables would be laid out for them too.
#[inline(never)]
#[tactic(auto, unfolding(crate::specs::Line::decoded))]
fn decode(alloc: Global, text: &[u8]) -> Result<Bytes, LdifFault>
    ensures { Gives result (decoded text.now) }
{
    match STANDARD.decode(alloc, text) {
        Ok(bytes) => Ok(Bytes::from_vec(bytes)),
        Err(DecodeAllocError::OutOfMemory) => Err(LdifFault::OutOfMemory),
        Err(DecodeAllocError::DecodeError(_)) => Err(LdifFault::Fault(LdifFaultKind::Base64)),
    }
}

/// The value, by what stands after the first colon.
#[tactic(auto, unfolding(crate::specs::Line::form_of))]
pub fn form_of(alloc: Global, rest: &[u8]) -> Result<LineValue<'_>, LdifFault>
    ensures { GivesBy bytes_in result (form_of rest.now) }
{
    match rest {
        [b':', text @ ..] => {
            let bytes = decode(alloc, without_end(without_front(text)))?;
            Ok(LineValue::Decoded(bytes))
        }
        [b'<', ..] => Err(LdifFault::Fault(LdifFaultKind::Url)),
        _ => Ok(LineValue::Plain(without_front(rest))),
    }
}

// A bit for each byte that is a colon, the lowest for the first byte.
fn colons(bytes: u8x16) -> u64
    ensures { result ≡ mask_l (map is_colon bytes) }
{
    bytes.simd_eq(u8x16::splat(b':')).to_bitmask()
}

// In most lines it is one of the first 16 bytes.
pub(crate) fn colon_in(line: &[u8]) -> Option<usize>
    ensures at { result ≡ position is_colon line.now }
    ensures within { IfSome result (λ at. at < length line.now) }
{
    if line.len() >= 16 {
        let near = colons(u8x16::from_slice(line));
        if near != 0 {
            return Some(near.trailing_zeros() as usize);
        }
    }
    memchr(b':', line)
}

// The value behind one space, where no further one follows.
fn plain_value(rest: &[u8]) -> Option<&[u8]>
    ensures { IfSome result (λ value. form_of rest.now ≡ Ok value.now) }
{
    match rest.split_first() {
        Some((b' ', value)) => {
            if begins_with(value, b' ') {
                return None;
            }
            Some(value)
        }
        _ => None,
    }
}

// The name and the value of a line as most are: what `value_line` gives, without its many forms.
#[tactic(auto, unfolding(crate::specs::Line::value_of, crate::specs::Line::value_line))]
pub(crate) fn plain_line(line: &[u8]) -> Option<(&[u8], &[u8])>
    ensures { IfSome result (λ parts. value_line line.now ≡ Ok (record { name = parts.0.now; value = parts.1.now })) }
{
    if begins_with(line, b' ') {
        return None;
    }
    let at = colon_in(line)?;
    if at == 0 {
        return None;
    }
    let value = plain_value(&line[at + 1..])?;
    Some((&line[..at], value))
}

#[tactic(auto, unfolding(crate::specs::Line::value_of))]
fn value_of(alloc: Global, line: &[u8]) -> Result<Attr<'_>, LdifFault>
    ensures { Gives result (value_of line.now) }
{
    match colon_in(line) {
        None | Some(0) => Err(LdifFault::Fault(LdifFaultKind::ColonMissing)),
        Some(at) => {
            let value = form_of(alloc, &line[at + 1..])?;
            Ok(Attr::of_line(&line[..at], value))
        }
    }
}

/// The name and the value of a line of a record.
#[tactic(auto, unfolding(crate::specs::Line::value_line))]
pub fn value_line(alloc: Global, line: &[u8]) -> Result<Attr<'_>, LdifFault>
    ensures { Gives result (value_line line.now) }
{
    match line {
        [b' ', ..] => Err(LdifFault::Fault(LdifFaultKind::Continuation)),
        _ => value_of(alloc, line),
    }
}

/// The value of a line of this name. The fault is that of a line of another name.
#[tactic(auto, unfolding(crate::specs::Line::value_named))]
pub fn value_named(
    alloc: Global,
    line: &[u8],
    name: &[u8],
    other: LdifFaultKind,
) -> Result<Bytes, LdifFault>
    ensures { Gives result (value_named other name.now line.now) }
{
    let attr = value_line(alloc, line)?;
    if !same_name(attr.name(), name) {
        return Err(LdifFault::Fault(other));
    }
    Ok(attr.into_value(alloc)?)
}
