//! The head of a text: its version line with what stands before it.

ghost use Rattle.std.specs.Prelude.{◌≡◌, ◌≤◌, ◌++◌, IfOk, length, take, drop};
ghost use Rattle.sorting.specs.Heads.{stage_behind, front, is_version, head};
ghost use Rattle.sorting.specs.Sorted.{body};

use crate::records::first_record;
use crate::stanzas::{is_empty, is_kept, split_line};
use base::begins_with;
use ldif::{LdifFault, Mode, Record, read_record};
use std::alloc::{AllocError, Global};

/// How far the front of a text is: before its first line of a record, within that, or behind it.
#[derive(Clone, Copy, Drop)]
enum Stage {
    Before,
    Within,
    Behind,
}

impl Stage {
    /// How far it is behind one more line, None where that doesn't belong to it. `first` says whether a block begins with the line.
    fn behind(self, first: bool, line: &[u8]) -> Option<Stage>
        ensures { result ≡ stage_behind self first line.now }
    {
        match self {
            Stage::Before if is_kept(first, line) => Some(Stage::Within),
            Stage::Before => Some(Stage::Before),
            Stage::Within if begins_with(line, b' ') => Some(Stage::Within),
            Stage::Within | Stage::Behind if is_empty(line) => Some(Stage::Behind),
            Stage::Within | Stage::Behind => None,
        }
    }
}

/// How long the front of a text is.
fn front_len(text: &[u8]) -> usize
    ensures within { result ≤ length text.now }
    ensures front { take result text.now ≡ front text.now }
{
    let mut stage = Stage::Before;
    let mut first = true;
    let mut rest = text;
    'lines: while !rest.is_empty() {
        let (line, others) = split_line(rest);
        match stage.behind(first, line) {
            Some(next) => stage = next,
            None => return text.len() - rest.len(),
        }
        first = is_empty(line);
        rest = others;
    }
    text.len()
}

/// Whether a text is a version line alone, with the one version that there is.
#[tactic(auto, unfolding(crate::specs::Heads::is_version))]
fn is_version(alloc: Global, text: &[u8]) -> Result<bool, AllocError>
    ensures { IfOk result (λ is. is ≡ is_version text.now) }
{
    let Some(mut record) = first_record(alloc, text)? else {
        return Ok(false);
    };
    record.first = true;
    match read_record(alloc, &record, Mode::Content) {
        Ok(Record::Empty) => Ok(true),
        Ok(_) | Err(LdifFault::Fault(_)) => Ok(false),
        Err(LdifFault::OutOfMemory) => Err(AllocError),
    }
}

/// The head of a text, and what stands behind it.
pub(crate) fn split_head(alloc: Global, text: &[u8]) -> Result<(&[u8], &[u8]), AllocError>
    ensures head { IfOk result (λ parts. parts.0.now ≡ head text.now) }
    ensures body { IfOk result (λ parts. parts.1.now ≡ body text.now) }
{
    let (front, behind) = text.split_at(front_len(text));
    if is_version(alloc, front)? {
        return Ok((front, behind));
    }
    Ok(text.split_at(0))
}
