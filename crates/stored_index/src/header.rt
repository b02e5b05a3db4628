//! The first line.

ghost use Rattle.std.specs.Prelude.{◌≡◌, IfOk, map};
ghost use Rattle.stored_index.specs.Gives.{Gives};
ghost use Rattle.stored_index.specs.Reading.{is_stamp, has_header_form, header_of, header_in, is_current, if_current, current_header};
ghost use Rattle.stored_index.specs.inner.Reads.{header_view};
ghost use Rattle.stored_index.specs.declared.fault.LineFault.TheVariants.{Fault};
ghost use Rattle.stored_index.specs.declared.fault.IndexFaultKind.TheVariants as kinds;

use crate::fault::{IndexFaultKind, LineFault};
use crate::keys::are_hex_bytes;
use crate::numbers::number_in;
use crate::words::words;
use std::alloc::{AllocError, Global};

/// What the first line says of the dump that an index text was written for: how many entries it has, and its stamp in hexadecimal.
#[derive(Clone, Copy, Drop)]
pub(crate) struct Header<'a> {
    entries: u64,
    stamp: &'a [u8],
}

// 32 bytes in hexadecimal
fn is_stamp(word: &[u8]) -> bool
    ensures { result ≡ is_stamp word.now }
{
    word.len() == 64 && are_hex_bytes(word)
}

fn has_header_form(name: &[u8], version: &[u8], stamp: &[u8]) -> bool
    ensures { result ≡ has_header_form name.now version.now stamp.now }
{
    name == b"slapindex".as_slice() && version == b"1".as_slice() && is_stamp(stamp)
}

fn header_fault() -> LineFault
    ensures { result ≡ Fault kinds.Header }
{
    LineFault::Fault(IndexFaultKind::Header)
}

fn header_of<'a>(words: &[&'a [u8]]) -> Result<Header<'a>, LineFault>
    ensures { Gives header_view result (header_of (map (λ w. w.now) words.now)) }
{
    match words {
        [name, version, count, stamp] => {
            if !has_header_form(name, version, stamp) {
                return Err(header_fault());
            }
            match number_in(count) {
                Ok(entries) => Ok(Header {
                    entries,
                    stamp: *stamp,
                }),
                Err(_) => Err(header_fault()),
            }
        }
        _ => Err(header_fault()),
    }
}

#[tactic(auto, unfolding(crate::specs::Reading::header_in))]
fn header_in<'a>(alloc: Global, line: &'a [u8]) -> Result<Header<'a>, LineFault>
    ensures { Gives header_view result (header_in line.now) }
{
    let words = words(alloc, line)?;
    header_of(words.as_slice())
}

// whether a text was written for this dump
fn is_current(
    alloc: Global,
    header: Header<'_>,
    entries: usize,
    stamp: &[u8],
) -> Result<bool, AllocError>
    ensures { IfOk result (λ is. is ≡ is_current entries stamp.now (header_view header.entry)) }
{
    let digits = hex::encode(alloc, stamp)?;
    Ok(header.entries == entries as u64 && header.stamp == digits.as_bytes())
}

/// Looks at the first line: whether it has its form, and says this number of entries and this stamp.
pub(crate) fn check_header(
    alloc: Global,
    line: &[u8],
    entries: usize,
    stamp: &[u8],
) -> Result<(), LineFault>
    ensures { Gives (λ _. tt) result (current_header entries stamp.now line.now) }
{
    let header = header_in(alloc, line)?;
    if is_current(alloc, header, entries, stamp)? {
        Ok(())
    } else {
        Err(LineFault::Fault(IndexFaultKind::Stale))
    }
}
