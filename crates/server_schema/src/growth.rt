//! Taking definitions into a text of a dir.conf, with repairs where they can't be taken as they stand.

ghost use Rattle.std.specs.Prelude.{◌≡◌, ◌||◌, false, ◌∷◌, [], ◌++◌, IfOk, OnOk};
ghost use Rattle.server_schema.specs.Definitions.{line_of};
ghost use Rattle.server_schema.specs.Growth.{comment_of, Grows, Marks, definitions_of_all};

use crate::definition::{Definition, Sort};
use crate::lines::put_line;
use crate::repair::{Repair, repaired};
use crate::statements::in_line;
use crate::taking::{Candidate, Passed, settle, try_lines};
use std::alloc::{AllocError, Global};

/// What growth leaves.
#[derive(Drop)]
pub(crate) struct Grown<'a> {
    pub(crate) left: Vec<Candidate<'a>>,
    /// Whether something was taken with repairs.
    pub(crate) is_changed: bool,
}

/// Puts a comment at the end of a text, in one line.
pub(crate) fn put_comment(comment: &[u8], out: &mut Vec<u8>) -> Result<(), AllocError>
    ensures { OnOk result (out.new.items ≡ out.old.items ++ comment_of comment.now) }
{
    out.extend_from_slice(b"# ")?;
    for b in comment {
        out.push(in_line(*b))?;
    }
    out.push(b'\n')?;
    Ok(())
}

// the lines of a repair: a comment that says what was done, and the definition
fn repair_lines(alloc: Global, repair: &Repair) -> Result<Vec<u8>, AllocError>
    ensures { IfOk result (λ v. v.items ≡ comment_of repair.now.remark.items ++ line_of repair.now.definition) }
{
    let mut lines = Vec::new(alloc);
    put_comment(&repair.remark, &mut lines)?;
    put_line(&repair.definition, &mut lines)?;
    Ok(lines)
}

// takes a definition with repairs, behind a comment that says which, and says whether it did
fn take_repaired(
    alloc: Global,
    text: &mut Vec<u8>,
    definition: &Definition,
) -> Result<bool, AllocError>
    ensures { IfOk result (λ b. Grows text.old.items (definition.now ∷ []) text.new.items (definition.now ∷ []) b) }
{
    let Some(repair) = repaired(alloc, text.as_slice(), definition)? else {
        return Ok(false);
    };
    let lines = repair_lines(alloc, &repair)?;
    let taken = try_lines(alloc, text, &lines)?;
    Ok(taken)
}

// takes a candidate with repairs, where it is of this sort and not there yet; whether it is there
fn take_candidate(
    alloc: Global,
    text: &mut Vec<u8>,
    sort: Sort,
    candidate: Candidate<'_>,
) -> Result<bool, AllocError>
    ensures { IfOk result (λ b.
        Grows text.old.items (candidate.entry.definition.now ∷ []) text.new.items (candidate.entry.definition.now ∷ []) b) }
{
    match (sort, candidate.definition.sort) {
        (Sort::AttributeType, Sort::AttributeType) | (Sort::ObjectClass, Sort::ObjectClass) => {
            if candidate.is_repaired {
                Ok(false)
            } else {
                take_repaired(alloc, text, candidate.definition)
            }
        }
        _ => Ok(false),
    }
}

pub(crate) fn is_either(a: bool, b: bool) -> bool
    ensures { result ≡ (a || b) }
{
    a || b
}

// goes through candidates of a sort, and takes each that can be taken with repairs
fn repair_pass<'a>(
    alloc: Global,
    text: &mut Vec<u8>,
    sort: Sort,
    candidates: &[Candidate<'a>],
) -> Result<Passed<'a>, AllocError>
    ensures grows { IfOk result (λ p.
        Grows text.old.items (definitions_of_all candidates.entry.now) text.new.items (definitions_of_all p.left.items) p.grew) }
    ensures marks { IfOk result (λ p. Marks candidates.entry.now p.left.items p.grew) }
{
    let mut left = Vec::new(alloc);
    let mut grew = false;
    for candidate in candidates {
        let is_taken = take_candidate(alloc, text, sort, *candidate)?;
        left.push(Candidate {
            definition: candidate.definition,
            is_repaired: is_either(candidate.is_repaired, is_taken),
        })?;
        grew = is_either(grew, is_taken);
    }
    Ok(Passed { left, grew })
}

/// Takes candidates of a sort that can be taken, or can with repairs, until there seems to be no more to take.
pub(crate) fn grow<'a>(
    alloc: Global,
    text: &mut Vec<u8>,
    sort: Sort,
    candidates: Vec<Candidate<'a>>,
) -> Result<Grown<'a>, AllocError>
    ensures grows { IfOk result (λ g.
        Grows text.old.items (definitions_of_all candidates.entry.items) text.new.items (definitions_of_all g.left.items) g.is_changed) }
    ensures marks { IfOk result (λ g. Marks candidates.entry.items g.left.items g.is_changed) }
{
    let mut left = candidates;
    let mut is_changed = false;
    for _ in 0..u64::MAX {
        let settled = settle(alloc, text, Some(sort), left)?;
        let passed = repair_pass(alloc, text, sort, &settled)?;
        let Passed { left: rest, grew } = passed;
        left = rest;
        if !grew {
            return Ok(Grown { left, is_changed });
        }
        is_changed = true;
    }
    Err(AllocError)
}
