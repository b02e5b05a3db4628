//! A text with its records in order.

ghost use Rattle.std.specs.Prelude.{◌≡◌, slice_index_or, ◌++◌, ◌∷◌, [], IfOk, OnOk, map};
ghost use Rattle.sorting.specs.Sorted.{lacking, gap, before, joined, names_of, sorted_stanzas, sorted_text};

use crate::heads::split_head;
use crate::normal_names::{NormalName, name_of_stanza};
use crate::stanzas::stanzas;
use crate::turns::turns;
use base::begins_with;
use std::alloc::{AllocError, Global};

/// The names of stanzas.
fn names_of(alloc: Global, stanzas: &[&[u8]]) -> Result<Vec<Option<NormalName>>, AllocError>
    ensures { IfOk result (λ v. v.items ≡ names_of (map (λ p. p.now) stanzas.now)) }
{
    let mut names = Vec::with_capacity(alloc, stanzas.len())?;
    for stanza in stanzas {
        names.push(name_of_stanza(alloc, stanza)?)?;
    }
    Ok(names)
}

/// What a stanza lacks of the empty line at its end.
#[tactic(auto, unfolding(crate::specs::Sorted::lacking))]
fn lacking(stanza: &[u8]) -> &'static [u8]
    ensures { result.now ≡ lacking stanza.now }
{
    if stanza.ends_with(b"\n\n") || stanza.ends_with(b"\n\r\n") {
        b""
    } else if stanza.ends_with(b"\n") {
        b"\n"
    } else if stanza.ends_with(b"\r") {
        b"\r\n\n"
    } else {
        b"\n\n"
    }
}

/// What comes between the head of a text and these stanzas.
fn gap(head: &[u8], stanzas: &[&[u8]]) -> &'static [u8]
    ensures { result.now ≡ gap head.now (map (λ p. p.now) stanzas.now) }
{
    match stanzas {
        [stanza, ..] if !head.is_empty() && begins_with(stanza, b' ') => lacking(head),
        _ => b"",
    }
}

/// Puts a stanza with these behind it at the end of a text.
fn put_stanza(stanza: &[u8], others: &[&[u8]], out: &mut Vec<u8>) -> Result<(), AllocError>
    ensures { OnOk result (out.new.items ≡ out.old.items ++ before (map (λ p. p.now) others.now) stanza.now) }
{
    out.extend_from_slice(stanza)?;
    match others {
        [] => Ok(()),
        [_, ..] => out.extend_from_slice(lacking(stanza)),
    }
}

/// Puts stanzas at the end of a text, each but the last with an empty line at its end.
#[tactic(auto, unfolding(crate::specs::Sorted::joined))]
fn put_stanzas(stanzas: &[&[u8]], out: &mut Vec<u8>) -> Result<(), AllocError>
    ensures { OnOk result (out.new.items ≡ out.old.items ++ joined (map (λ p. p.now) stanzas.now)) }
{
    for index in 0..stanzas.len() {
        put_stanza(stanzas[index], &stanzas[index + 1..], out)?;
    }
    Ok(())
}

/// The stanza with this number, from 0; empty where there is none.
fn stanza_at<'a>(stanzas: &[&'a [u8]], number: usize) -> &'a [u8]
    ensures { result.now ≡ slice_index_or (map (λ p. p.now) stanzas.now) number [] }
{
    match stanzas.get(number) {
        Some(stanza) => stanza,
        None => &[],
    }
}

/// Stanzas in the order in which they are printed.
fn in_turn<'a>(alloc: Global, stanzas: &[&'a [u8]]) -> Result<Vec<&'a [u8]>, AllocError>
    ensures { IfOk result (λ ps. map (λ p. p.now) ps.items ≡ sorted_stanzas (map (λ p. p.now) stanzas.now)) }
{
    let names = names_of(alloc, stanzas)?;
    let mut found = Vec::with_capacity(alloc, stanzas.len())?;
    for turn in turns(alloc, &names)?.iter() {
        found.push(stanza_at(stanzas, turn.number))?;
    }
    Ok(found)
}

/// An LDIF text with its content records so ordered that each comes behind all that are above it (RFC 2849), and else as they stood.
///
/// Names compare without a dir.conf: types in whatever case, values by caseIgnoreMatch. What isn't a content record with a name stays where it is.
/// Each record is kept byte for byte, with the comments before it, and reads as it does by itself. It fails only where memory runs out.
#[tactic(auto, unfolding(crate::specs::Sorted::sorted_text))]
pub fn sort_records(alloc: Global, text: &[u8]) -> Result<Vec<u8>, AllocError>
    ensures { IfOk result (λ v. v.items ≡ sorted_text text.now) }
{
    let (head, body) = split_head(alloc, text)?;
    let sorted = in_turn(alloc, &stanzas(alloc, body)?)?;
    let mut out = Vec::from_slice(alloc, head)?;
    out.extend_from_slice(gap(head, &sorted))?;
    put_stanzas(&sorted, &mut out)?;
    Ok(out)
}
