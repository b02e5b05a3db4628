//! Names as they compare where no dir.conf says what types and rules there are.

ghost use Rattle.std.specs.Prelude.{◌≡◌, [], IfOk, map};
ghost use Rattle.schema.specs.Names as names;
ghost use Rattle.sorting.specs.NormalNames.{ended_by, normal_ava, with_texts, normal_rdn, texts_up, normal_name, name_or_none, name_of_stanza};

use crate::records::first_record;
use base::{Bytes, Sequence};
use dn::{Ava, Name, Rdn, put_value};
use ldif::{LdifFault, Mode, Record, read_record};
use matching::{Family, normal_form};
use schema::{PathFault, read_dn};
use std::alloc::{AllocError, Global};
use std::collections::BTreeSet;

/// The normal form of a name of one RDN or more, and those of the names above it, from the nearest on.
#[derive(Drop)]
pub(crate) struct NormalName {
    pub(crate) text: Bytes,
    pub(crate) above: Sequence<Bytes>,
}

/// The normal form of an AVA (RFC 4512, 2.3.2).
fn normal_ava(alloc: Global, ava: &Ava) -> Result<Bytes, AllocError>
    ensures { IfOk result (λ text. text ≡ normal_ava ava.now) }
{
    let mut lower = Vec::from_slice(alloc, ava.type_text())?;
    lower.make_ascii_lowercase();
    let value = normal_form(alloc, Family::Ignore, ava.value())?;
    let mut text = Vec::new(alloc);
    put_value(&mut text, lower.as_slice())?;
    text.push(b'=')?;
    put_value(&mut text, value.as_slice())?;
    Ok(Bytes::from_vec(text))
}

/// The normal forms of AVAs in the order of their bytes, each once.
#[tactic(auto, unfolding(crate::specs::NormalNames::with_texts))]
fn normal_avas(alloc: Global, avas: &[Ava]) -> Result<BTreeSet<Bytes>, AllocError>
    ensures { IfOk result (λ s. s.keys ≡ with_texts [] (map normal_ava avas.now)) }
{
    let mut texts = BTreeSet::new(alloc);
    for ava in avas {
        texts.insert(normal_ava(alloc, ava)?)?;
    }
    Ok(texts)
}

/// Texts one behind the other, each with a byte behind it.
fn ended_by(alloc: Global, end: u8, texts: &[Bytes]) -> Result<Bytes, AllocError>
    ensures { IfOk result (λ text. text ≡ ended_by end texts.now) }
{
    let mut all = Vec::new(alloc);
    for text in texts {
        all.extend_from_slice(text.as_slice())?;
        all.push(end)?;
    }
    Ok(Bytes::from_vec(all))
}

/// The normal form of an RDN.
fn normal_rdn(alloc: Global, rdn: &Rdn) -> Result<Bytes, AllocError>
    ensures { IfOk result (λ text. text ≡ normal_rdn rdn.now) }
{
    let mut text = Vec::new(alloc);
    for ava in normal_avas(alloc, rdn.avas())?.iter() {
        text.extend_from_slice(ava.as_slice())?;
        text.push(b'+')?;
    }
    Ok(Bytes::from_vec(text))
}

/// The normal forms of RDNs.
fn normal_rdns(alloc: Global, name: &Name) -> Result<Sequence<Bytes>, AllocError>
    ensures { IfOk result (λ rdns. rdns ≡ map normal_rdn name.now) }
{
    let mut rdns = Sequence::new(alloc);
    for rdn in name.rdns() {
        rdns.push(normal_rdn(alloc, rdn)?)?;
    }
    Ok(rdns)
}

/// The normal form of the name of these RDNs, given as such, and of each name above it.
fn texts_up(alloc: Global, rdns: &[Bytes]) -> Result<Sequence<Bytes>, AllocError>
    ensures { IfOk result (λ texts. texts ≡ texts_up rdns.now) }
{
    let mut texts = Sequence::new(alloc);
    for index in 0..rdns.len() {
        texts.push(ended_by(alloc, b'\n', &rdns[index..])?)?;
    }
    Ok(texts)
}

/// The normal form of a name, None where it has no RDN.
fn normal_name(alloc: Global, name: &Name) -> Result<Option<NormalName>, AllocError>
    ensures { IfOk result (λ n. n ≡ normal_name name.now) }
{
    let rdns = normal_rdns(alloc, name)?;
    match rdns.as_slice() {
        [] => Ok(None),
        [_, above @ ..] => Ok(Some(NormalName {
            text: ended_by(alloc, b'\n', rdns.as_slice())?,
            above: texts_up(alloc, above)?,
        })),
    }
}

/// The normal form of the name that bytes spell, None where they spell none, or one of no RDN.
fn name_in(alloc: Global, text: &[u8]) -> Result<Option<NormalName>, AllocError>
    ensures { IfOk result (λ n. n ≡ name_or_none (names.name_in text.now)) }
{
    match read_dn(alloc, text) {
        Ok(name) => normal_name(alloc, &name),
        Err(PathFault::Code(_)) => Ok(None),
        Err(PathFault::OutOfMemory) => Err(AllocError),
    }
}

/// The normal form of the name of the entry that a stanza has by itself, None where it isn't a content record with a name.
#[tactic(auto, unfolding(crate::specs::NormalNames::name_of_stanza))]
pub(crate) fn name_of_stanza(alloc: Global, stanza: &[u8]) -> Result<Option<NormalName>, AllocError>
    ensures { IfOk result (λ n. n ≡ name_of_stanza stanza.now) }
{
    let Some(record) = first_record(alloc, stanza)? else {
        return Ok(None);
    };
    match read_record(alloc, &record, Mode::Content) {
        Ok(Record::Content { dn, .. }) => name_in(alloc, dn.as_slice()),
        Ok(_) | Err(LdifFault::Fault(_)) => Ok(None),
        Err(LdifFault::OutOfMemory) => Err(AllocError),
    }
}
