//! The lines of a schema's text, as LDIF or slapd.conf has them.

ghost use Rattle.std.specs.Prelude.{◌≡◌, OnOk, IfOk, map, drop};
ghost use Rattle.std.specs.List.{slice_split};
ghost use Rattle.std.specs.Str.Lines.{strip_carriage_return};
ghost use Rattle.definitions.specs.Lines.{is_line_feed};
ghost use Rattle.server_schema.specs.Sources.{is_ldif, begins_blank, goes_on_with, joined, lines_from, all_lines, source_lines};

use base::{Bytes, begins_with};
use definitions::split_first_word;
use std::alloc::{AllocError, Global};
use std::mem;

/// Whether a line has the form of LDIF: a colon stands in its first word.
pub(crate) fn is_ldif(line: &[u8]) -> bool
    ensures { result ≡ is_ldif line.now }
{
    split_first_word(line).0.iter().any(|b| *b == b':')
}

fn begins_blank(text: &[u8]) -> bool
    ensures { result ≡ begins_blank text.now }
{
    begins_with(text, b' ') || begins_with(text, b'\t')
}

// whether a line goes on with the next stretch
fn goes_on_with(line: &[u8], next: &[u8]) -> bool
    ensures { result ≡ goes_on_with line.now next.now }
{
    match line {
        [] => false,
        _ => begins_blank(next),
    }
}

fn without_return(stretch: &[u8]) -> &[u8]
    ensures { result.now ≡ strip_carriage_return stretch.now }
{
    match stretch {
        [front @ .., b'\r'] => front,
        _ => stretch,
    }
}

// what stands behind the first byte
fn behind_first(text: &[u8]) -> &[u8]
    ensures { result.now ≡ drop 1 text.now }
{
    match text {
        [] => text,
        [_, rest @ ..] => rest,
    }
}

// puts a stretch at the end of the line that goes on with it
fn join(line: &mut Bytes, next: &[u8]) -> Result<(), AllocError>
    ensures { OnOk result (line.new ≡ joined line.old next.now) }
{
    if !is_ldif(line.as_slice()) {
        line.extend_from_slice(b" ")?;
    }
    line.extend_from_slice(behind_first(next))
}

// the lines on which a first stretch and these others stand
#[tactic(auto, unfolding(crate::specs::Sources::lines_from))]
fn lines_from(alloc: Global, first: &[u8], others: &[&[u8]]) -> Result<Vec<Bytes>, AllocError>
    ensures { IfOk result (λ v. v.items ≡ lines_from (strip_carriage_return first.now) (map (λ x. strip_carriage_return x.now) others.now)) }
{
    let mut lines = Vec::new(alloc);
    let mut line = Bytes::from_slice(alloc, without_return(first))?;
    for stretch in others {
        let next = without_return(stretch);
        if goes_on_with(line.as_slice(), next) {
            join(&mut line, next)?;
        } else {
            let ended = mem::replace(&mut line, Bytes::from_slice(alloc, next)?);
            lines.push(ended)?;
        }
    }
    lines.push(line)?;
    Ok(lines)
}

// the text cut at its line feeds
fn stretches_of(alloc: Global, text: &[u8]) -> Result<Vec<&[u8]>, AllocError>
    ensures { IfOk result (λ v. map (λ x. x.now) v.items ≡ slice_split is_line_feed text.now) }
{
    text.split(|b| *b == b'\n').collect(alloc)
}

/// The lines of a schema's text, each with the stretches that it goes on on: those that begin with a space or a tab. A line of LDIF goes on without
/// the break and the blank behind it, another one with a space for both.
#[tactic(auto, unfolding(crate::specs::Sources::source_lines))]
pub(crate) fn source_lines(alloc: Global, text: &[u8]) -> Result<Vec<Bytes>, AllocError>
    ensures { IfOk result (λ v. v.items ≡ source_lines text.now) }
{
    let stretches = stretches_of(alloc, text)?;
    match stretches.split_first() {
        Some((first, others)) => lines_from(alloc, first, others),
        None => Ok(Vec::new(alloc)),
    }
}
