//! What is printed of a schema's text.

ghost use Rattle.std.specs.Prelude.{◌≡◌, ◌++◌, ◌&&◌, ◌==◌, not, false, drop, length, IfOk, OnOk, MatchResult};
ghost use Rattle.server_schema.specs.Growth.{end_of, Grows, AreRefused, AreMarked, Marks, definitions_of_all};
ghost use Rattle.server_schema.specs.Transfers.{is_said, IsTransferred, IsTold, IsRefusedFor, Gathers, IsOneMore, IsStepFor};
ghost use Rattle.dir_conf.specs.inner.Views.{defined_view};

use crate::alike::{Meaning, is_among};
use crate::definition::{Definition, Sort, definitions_in};
use crate::growth::{Grown, grow, is_either};
use crate::remarks::remarks_on;
use crate::stated::{is_built_in, meanings_in};
use crate::taking::{Candidate, settle};
use base::ends_with;
use dir_conf::{ConfFault, Defined, read_definitions};
use std::alloc::{AllocError, Global};

/// What is printed of a schema.
#[derive(Drop)]
pub struct Transfer {
    /// Lines of a dir.conf.
    pub lines: Vec<u8>,
    /// Whether no definition was changed or left out but for what is said already: each line is of a definition as it stands, and there is no remark.
    pub is_whole: bool,
}

// whether a definition needs no line
fn is_said(
    alloc: Global,
    defined: &Defined,
    stated: &[Meaning],
    definition: &Definition,
) -> Result<bool, AllocError>
    ensures { IfOk result (λ b. b ≡ is_said (defined_view defined.now) stated.now definition.now) }
{
    if is_built_in(alloc, definition)? {
        Ok(true)
    } else {
        is_among(alloc, defined, stated, definition)
    }
}

// puts a definition behind those of its sort
fn put_candidate<'a>(
    definition: &'a Definition,
    types: &mut Vec<Candidate<'a>>,
    classes: &mut Vec<Candidate<'a>>,
) -> Result<(), AllocError>
    ensures one { OnOk result (IsOneMore (definitions_of_all types.old.items ++ definitions_of_all classes.old.items) definition.entry.now
        (definitions_of_all types.new.items ++ definitions_of_all classes.new.items)) }
    ensures fresh { OnOk result (AreMarked false types.old.items → AreMarked false classes.old.items
        → AreMarked false types.new.items × AreMarked false classes.new.items) }
{
    let candidate = Candidate {
        definition,
        is_repaired: false,
    };
    match definition.sort {
        Sort::AttributeType => types.push(candidate)?,
        Sort::ObjectClass => classes.push(candidate)?,
    }
    Ok(())
}

// puts a definition behind those of its sort, if it needs a line
fn add_candidate<'a>(
    alloc: Global,
    defined: &Defined,
    stated: &[Meaning],
    definition: &'a Definition,
    types: &mut Vec<Candidate<'a>>,
    classes: &mut Vec<Candidate<'a>>,
) -> Result<(), AllocError>
    ensures step { OnOk result (IsStepFor (is_said (defined_view defined.now) stated.now definition.entry.now)
        (definitions_of_all types.old.items ++ definitions_of_all classes.old.items) definition.entry.now
        (definitions_of_all types.new.items ++ definitions_of_all classes.new.items)) }
    ensures fresh { OnOk result (AreMarked false types.old.items → AreMarked false classes.old.items
        → AreMarked false types.new.items × AreMarked false classes.new.items) }
{
    if is_said(alloc, defined, stated, definition)? {
        Ok(())
    } else {
        put_candidate(definition, types, classes)
    }
}

// the definitions that need a line, types first
fn candidates_of<'a>(
    alloc: Global,
    defined: &Defined,
    stated: &[Meaning],
    definitions: &'a [Definition],
) -> Result<Vec<Candidate<'a>>, AllocError>
    ensures gathers { IfOk result (λ v. Gathers (defined_view defined.now) stated.now definitions.entry.now (definitions_of_all v.items)) }
    ensures fresh { IfOk result (λ v. AreMarked false v.items) }
{
    let mut types = Vec::new(alloc);
    let mut classes = Vec::new(alloc);
    for definition in definitions {
        add_candidate(alloc, defined, stated, definition, &mut types, &mut classes)?;
    }
    types.extend_from_slice(&classes)?;
    Ok(types)
}

// what ends the last line of a text, where it isn't ended
fn end_of(text: &[u8]) -> &'static [u8]
    ensures { result.now ≡ end_of text.now }
{
    if text.is_empty() || ends_with(text, b'\n') {
        b""
    } else if ends_with(text, b'\r') {
        b"\r\n"
    } else {
        b"\n"
    }
}

// a text with the end of its last line
fn with_end(alloc: Global, text: &[u8]) -> Result<Vec<u8>, AllocError>
    ensures { IfOk result (λ v. v.items ≡ text.now ++ end_of text.now) }
{
    let mut ended = Vec::from_slice(alloc, text)?;
    ended.extend_from_slice(end_of(text))?;
    Ok(ended)
}

// takes each candidate that can be taken, types first, with repairs where they serve; all that is left can't be taken as it stands
fn grown<'a>(
    alloc: Global,
    text: &mut Vec<u8>,
    candidates: Vec<Candidate<'a>>,
) -> Result<Grown<'a>, AllocError>
    ensures grows { IfOk result (λ g.
        Grows text.old.items (definitions_of_all candidates.entry.items) text.new.items (definitions_of_all g.left.items) g.is_changed) }
    ensures marks { IfOk result (λ g. Marks candidates.entry.items g.left.items g.is_changed) }
    ensures ends { IfOk result (λ g. AreRefused text.new.items (definitions_of_all g.left.items)) }
{
    let types = grow(alloc, text, Sort::AttributeType, candidates)?;
    let Grown {
        left: behind_types,
        is_changed: are_types,
    } = types;
    let classes = grow(alloc, text, Sort::ObjectClass, behind_types)?;
    let Grown {
        left: behind_classes,
        is_changed: are_classes,
    } = classes;
    let left = settle(alloc, text, None, behind_classes)?;
    let is_changed = is_either(are_types, are_classes);
    Ok(Grown { left, is_changed })
}

// what stands behind a beginning of a text
fn behind(alloc: Global, front: &[u8], text: &[u8]) -> Result<Vec<u8>, AllocError>
    ensures { IfOk result (λ v. v.items ≡ drop (length front.now) text.now) }
{
    if text.len() < front.len() {
        return Ok(Vec::new(alloc));
    }
    Vec::from_slice(alloc, text.split_at(front.len()).1)
}

// whether nothing was changed or left out
fn is_whole(remarks: &[u8], is_changed: bool) -> bool
    ensures { result ≡ (length remarks.now == 0 && not is_changed) }
{
    remarks.is_empty() && !is_changed
}

/// The lines of a `dir.conf` that a schema's text comes to, for the end of `conf`, the text of a `dir.conf`, which may be empty. They begin with an
/// LF where that doesn't end with one, or with CR LF where it ends with a CR: so its last line stays as it is. The suffix and the indexes that `conf`
/// says stay, too, and nothing that is printed is at fault. It is refused where a definition in `conf` is at fault.
pub fn transfer_schema(alloc: Global, source: &[u8], conf: &[u8]) -> Result<Transfer, ConfFault>
    ensures transferred { MatchResult result (λ t. IsTransferred source.now conf.now t.lines.items) (IsRefusedFor conf.now) }
    ensures told { IfOk result (λ t. IsTold source.now conf.now t.lines.items t.is_whole) }
{
    let defined = read_definitions(alloc, conf)?;
    let definitions = definitions_in(alloc, source)?;
    let stated = meanings_in(alloc, conf)?;
    let candidates = candidates_of(alloc, &defined, &stated, &definitions)?;
    let mut text = with_end(alloc, conf)?;
    let rest = grown(alloc, &mut text, candidates)?;
    let grown_defined = read_definitions(alloc, text.as_slice())?;
    let remarks = remarks_on(
        alloc,
        &grown_defined,
        text.as_slice(),
        &definitions,
        &rest.left,
    )?;
    text.extend_from_slice(&remarks)?;
    let lines = behind(alloc, conf, text.as_slice())?;
    let is_whole = is_whole(&remarks, rest.is_changed);
    Ok(Transfer { lines, is_whole })
}
