//! Lines of a configuration.

ghost use Rattle.std.specs.Prelude.{◌≡◌, ◌≢◌, [], IfOk, OnOk, map, drop, if◌then◌else◌};
ghost use Rattle.std.specs.List.{slice_split};
ghost use Rattle.std.specs.Str.Lines.{strip_carriage_return};
ghost use Rattle.definitions.specs.Lines.{is_line_feed, begins_blank, goes_on_with, lines_of, numbered, unfolded};
ghost use Rattle.definitions.specs.inner.Lines.{last_goes_on, with_line};

use base::{Bytes, begins_with};
use std::alloc::{AllocError, Global};

/// A line with those that it goes on on.
pub struct Line {
    /// The number of the first one, from 1.
    pub number: u64,
    /// Its text, with a space for each break.
    pub text: Bytes,
}

// A call of its own, so that no other crate proves it anew.
impl Drop for Line {
    fn drop(self) {
        let Line { number: _, text: _ } = self;
    }
}

// the text cut at its line feeds
fn stretches_of<'a>(alloc: Global, text: &'a [u8]) -> Result<Vec<&'a [u8]>, AllocError>
    ensures { IfOk result (λ v. map (λ x. x.now) v.items ≡ slice_split is_line_feed text.now) }
{
    text.split(|b| *b == b'\n').collect(alloc)
}

fn without_return(line: &[u8]) -> &[u8]
    ensures { result.now ≡ strip_carriage_return line.now }
{
    match line {
        [front @ .., b'\r'] => front,
        _ => line,
    }
}

fn line_of(stretch: &[u8], is_last: bool) -> &[u8]
    ensures { result.now ≡ (if is_last then stretch.now else strip_carriage_return stretch.now) }
{
    if is_last {
        stretch
    } else {
        without_return(stretch)
    }
}

fn begins_blank(text: &[u8]) -> bool
    ensures { result ≡ begins_blank text.now }
{
    begins_with(text, b' ') || begins_with(text, b'\t')
}

fn goes_on_with(text: &[u8], next: &[u8]) -> bool
    ensures { result ≡ goes_on_with text.now next.now }
{
    match text {
        [] => false,
        _ => begins_blank(next),
    }
}

impl Line {
    ghost use Rattle.std.specs.Prelude.{length, ◌<◌};
    ghost use Rattle.definitions.specs.Lines.{joined};

    fn join(&mut self, next: &[u8]) -> Result<(), AllocError>
        requires { 0 < length next.now }
        ensures { OnOk result (self.new ≡ joined self.old next.now) }
    {
        self.text.extend_from_slice(b" ")?;
        self.text.extend_from_slice(next.split_at(1).1)
    }
}

// whether the last line goes on with this one
fn last_goes_on(lines: &[Line], next: &[u8]) -> bool
    ensures { result ≡ last_goes_on lines.now next.now }
{
    match lines.last() {
        Some(last) => goes_on_with(last.text.as_slice(), next),
        None => false,
    }
}

fn add_line(
    alloc: Global,
    lines: &mut Vec<Line>,
    number: u64,
    text: &[u8],
) -> Result<(), AllocError>
    ensures { OnOk result (lines.new.items ≡ with_line lines.old.items (record { number = number; text = text.now })) }
{
    if last_goes_on(lines, text) {
        let last = lines.len() - 1;
        return lines[last].join(text);
    }
    lines.push(Line {
        number,
        text: Bytes::from_slice(alloc, text)?,
    })?;
    Ok(())
}

// stretches of a text, from the first on, with those that they go on on
fn unfolded(alloc: Global, stretches: &[&[u8]]) -> Result<Vec<Line>, AllocError>
    ensures { IfOk result (λ v. v.items ≡ unfolded (numbered 1 (map (λ x. x.now) stretches.now))) }
{
    let mut lines = Vec::new(alloc);
    for (i, stretch) in stretches.iter().enumerate() {
        let text = line_of(stretch, i + 1 == stretches.len());
        add_line(alloc, &mut lines, i as u64 + 1, text)?;
    }
    Ok(lines)
}

/// The lines of a text, each with those that it goes on on: a line that begins with a space or tab continues the one before, unless
/// that is empty. They end at a line feed or a carriage return and one.
#[tactic(auto, unfolding(crate::specs::Lines::lines_of))]
pub fn lines_of(alloc: Global, text: &[u8]) -> Result<Vec<Line>, AllocError>
    ensures { IfOk result (λ v. v.items ≡ lines_of text.now) }
{
    let stretches = stretches_of(alloc, text)?;
    unfolded(alloc, &stretches)
}
