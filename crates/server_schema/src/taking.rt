//! Taking definitions into a text of a dir.conf, as they stand.

ghost use Rattle.std.specs.Prelude.{◌≡◌, None, ◌≤◌, ◌<◌, ◌++◌, true, false, IfOk, OnOk, length, take, map, if◌then◌else◌};
ghost use Rattle.server_schema.specs.Definitions.{lines_of};
ghost use Rattle.server_schema.specs.Growth.{is_read, Grows, AreRefused, AreAmong, definitions_of_all};

use crate::alike::is_readable;
use crate::definition::{Definition, Sort};
use crate::lines::put_line;
use dir_conf::{ConfFault, read_definitions};
use std::alloc::{AllocError, Global};

/// A definition that isn't taken yet.
#[derive(Clone, Copy)]
pub(crate) struct Candidate<'a> {
    pub(crate) definition: &'a Definition,
    /// Whether it stands there with repairs.
    pub(crate) is_repaired: bool,
}

/// What a pass over candidates leaves.
#[derive(Drop)]
pub(crate) struct Passed<'a> {
    pub(crate) left: Vec<Candidate<'a>>,
    /// Whether something was taken.
    pub(crate) grew: bool,
}

fn is_read(alloc: Global, text: &[u8]) -> Result<bool, AllocError>
    ensures { IfOk result (λ b. b ≡ is_read text.now) }
{
    match read_definitions(alloc, text) {
        Ok(_) => Ok(true),
        Err(ConfFault::Line { line: _, kind: _ }) => Ok(false),
        Err(ConfFault::OutOfMemory) => Err(AllocError),
    }
}

/// Puts lines at the end of a text where it is read with them, and says whether it is; else the text stays.
pub(crate) fn try_lines(alloc: Global, text: &mut Vec<u8>, lines: &[u8]) -> Result<bool, AllocError>
    ensures read { IfOk result (λ b. b ≡ is_read (text.old.items ++ lines.now)) }
    ensures put { IfOk result (λ b. text.new.items ≡ (if b then text.old.items ++ lines.now else text.old.items)) }
{
    let before = text.len();
    text.extend_from_slice(lines)?;
    let is_read = is_read(alloc, text.as_slice())?;
    if !is_read {
        text.truncate(before);
    }
    Ok(is_read)
}

/// The lines of candidates.
pub(crate) fn lines_of(alloc: Global, candidates: &[Candidate<'_>]) -> Result<Vec<u8>, AllocError>
    ensures { IfOk result (λ v. v.items ≡ lines_of (definitions_of_all candidates.now)) }
{
    let mut lines = Vec::new(alloc);
    for candidate in candidates {
        put_line(candidate.definition, &mut lines)?;
    }
    Ok(lines)
}

fn line_feeds_in(text: &[u8]) -> usize {
    text.iter().filter(|b| **b == b'\n').count()
}

fn is_same_sort(a: Sort, b: Sort) -> bool {
    match (a, b) {
        (Sort::AttributeType, Sort::AttributeType) => true,
        (Sort::ObjectClass, Sort::ObjectClass) => true,
        _ => false,
    }
}

// how many of the first candidates are of a sort
fn count_of(sort: Sort, candidates: &[Candidate<'_>]) -> usize
    ensures { result ≤ length candidates.now }
{
    match candidates
        .iter()
        .position(|candidate| !is_same_sort(candidate.definition.sort, sort))
    {
        Some(at) => at,
        None => candidates.len(),
    }
}

// how many of the first candidates can be taken at once: those above the first line at fault
fn readable(alloc: Global, text: &[u8], candidates: &[Candidate<'_>]) -> Result<usize, AllocError>
    ensures { IfOk result (λ n. n ≤ length candidates.now) }
{
    let mut whole = Vec::from_slice(alloc, text)?;
    whole.extend_from_slice(&lines_of(alloc, candidates)?)?;
    match read_definitions(alloc, &whole) {
        Ok(_) => Ok(candidates.len()),
        Err(ConfFault::Line { line, kind: _ }) => {
            let above = (line as usize).saturating_sub(1);
            Ok(
                above
                    .saturating_sub(line_feeds_in(text))
                    .min(candidates.len()),
            )
        }
        Err(ConfFault::OutOfMemory) => Err(AllocError),
    }
}

// takes the first candidate, and says whether it did
fn take_first(
    alloc: Global,
    text: &mut Vec<u8>,
    candidates: &[Candidate<'_>],
) -> Result<bool, AllocError>
    requires { 0 < length candidates.now }
    ensures took { IfOk result (λ b. text.new.items
        ≡ (if b then text.old.items ++ lines_of (take 1 (definitions_of_all candidates.now)) else text.old.items)) }
    ensures read { IfOk result (λ b. b ≡ is_read (text.old.items ++ lines_of (take 1 (definitions_of_all candidates.now)))) }
{
    let line = lines_of(alloc, &candidates[..1])?;
    try_lines(alloc, text, &line)
}

// takes some of the first candidates of a sort, and says how many
fn take_more(
    alloc: Global,
    text: &mut Vec<u8>,
    sort: Sort,
    candidates: &[Candidate<'_>],
) -> Result<usize, AllocError>
    ensures within { IfOk result (λ n. n ≤ length candidates.now) }
    ensures took { IfOk result (λ n. text.new.items ≡ text.old.items ++ lines_of (take n (definitions_of_all candidates.now))) }
    ensures read { IfOk result (λ n. is_read text.old.items ≡ true → is_read text.new.items ≡ true) }
{
    let many = readable(alloc, text, &candidates[..count_of(sort, candidates)])?;
    let lines = lines_of(alloc, &candidates[..many])?;
    let taken = try_lines(alloc, text, &lines)?;
    if taken { Ok(many) } else { Ok(0) }
}

// takes some of the first candidates, and says how many; none where the first one can't be taken
fn take_some(
    alloc: Global,
    text: &mut Vec<u8>,
    candidates: &[Candidate<'_>],
) -> Result<usize, AllocError>
    requires { 0 < length candidates.now }
    ensures within { IfOk result (λ n. n ≤ length candidates.now) }
    ensures took { IfOk result (λ n. text.new.items ≡ text.old.items ++ lines_of (take n (definitions_of_all candidates.now))) }
    ensures read { IfOk result (λ n. is_read text.old.items ≡ true → is_read text.new.items ≡ true) }
    ensures refused { IfOk result (λ n. n ≡ 0 → is_read (text.old.items ++ lines_of (take 1 (definitions_of_all candidates.now))) ≡ false) }
{
    if !take_first(alloc, text, candidates)? {
        return Ok(0);
    }
    let more = take_more(alloc, text, candidates[0].definition.sort, &candidates[1..])?;
    Ok(more + 1)
}

// whether a candidate is tried, where those of a sort that can be read are; or else all
fn is_tried(alloc: Global, only: Option<Sort>, definition: &Definition) -> Result<bool, AllocError>
    ensures { IfOk result (λ b. only ≡ None → b ≡ true) }
{
    match (only, definition.sort) {
        (None, _) => Ok(true),
        (Some(Sort::AttributeType), Sort::AttributeType) => is_readable(alloc, definition),
        (Some(Sort::ObjectClass), Sort::ObjectClass) => is_readable(alloc, definition),
        _ => Ok(false),
    }
}

// the same, where the first one is tried
fn try_some(
    alloc: Global,
    text: &mut Vec<u8>,
    only: Option<Sort>,
    candidates: &[Candidate<'_>],
) -> Result<usize, AllocError>
    requires { 0 < length candidates.now }
    ensures within { IfOk result (λ n. n ≤ length candidates.now) }
    ensures took { IfOk result (λ n. text.new.items ≡ text.old.items ++ lines_of (take n (definitions_of_all candidates.now))) }
    ensures read { IfOk result (λ n. is_read text.old.items ≡ true → is_read text.new.items ≡ true) }
    ensures refused { IfOk result (λ n. only ≡ None → n ≡ 0
        → is_read (text.old.items ++ lines_of (take 1 (definitions_of_all candidates.now))) ≡ false) }
{
    if is_tried(alloc, only, candidates[0].definition)? {
        take_some(alloc, text, candidates)
    } else {
        Ok(0)
    }
}

/// Goes through candidates, and takes each that can be taken. It tries those of a sort that can be read; or else all.
pub(crate) fn pass<'a>(
    alloc: Global,
    text: &mut Vec<u8>,
    only: Option<Sort>,
    candidates: &[Candidate<'a>],
) -> Result<Passed<'a>, AllocError>
    ensures grows { IfOk result (λ p.
        Grows text.old.items (definitions_of_all candidates.entry.now) text.new.items (definitions_of_all p.left.items) false) }
    ensures among { IfOk result (λ p. AreAmong p.left.items candidates.entry.now) }
    ensures ends { IfOk result (λ p. only ≡ None → p.grew ≡ false
        → (text.new.items ≡ text.old.items) × AreRefused text.new.items (definitions_of_all p.left.items)) }
{
    let mut left = Vec::new(alloc);
    let mut grew = false;
    let mut at = 0;
    'candidates: while at < candidates.len() {
        let taken = try_some(alloc, text, only, &candidates[at..])?;
        if taken == 0 {
            left.push(candidates[at])?;
            at += 1;
        } else {
            grew = true;
            at += taken;
        }
    }
    Ok(Passed { left, grew })
}

/// Goes through candidates until none can be taken any more. It tries those of a sort that can be read; or else all.
pub(crate) fn settle<'a>(
    alloc: Global,
    text: &mut Vec<u8>,
    only: Option<Sort>,
    candidates: Vec<Candidate<'a>>,
) -> Result<Vec<Candidate<'a>>, AllocError>
    ensures grows { IfOk result (λ v.
        Grows text.old.items (definitions_of_all candidates.entry.items) text.new.items (definitions_of_all v.items) false) }
    ensures among { IfOk result (λ v. AreAmong v.items candidates.entry.items) }
    ensures ends { IfOk result (λ v. only ≡ None → AreRefused text.new.items (definitions_of_all v.items)) }
{
    let mut left = candidates;
    for _ in 0..u64::MAX {
        let passed = pass(alloc, text, only, &left)?;
        let Passed { left: rest, grew } = passed;
        left = rest;
        if !grew {
            return Ok(left);
        }
    }
    Err(AllocError)
}
