//! Why a text is no configuration, with what its fault is of.

ghost use Rattle.std.specs.Prelude.{◌≡◌, ◌||◌, IfOk, IfSome, codes};
ghost use Rattle.dir_conf.specs.Configurations.{is_first};
ghost use Rattle.dir_conf.specs.Flaws.{Explains};
ghost use Rattle.dir_conf.specs.WordLines.{sought, IsWordLine};
ghost use Rattle.dir_conf.specs.inner.Passes.{StepTells, FirstTells, SecondTells, LinesTell};
ghost use Rattle.dir_conf.specs.inner.Views.{defined_view};

use crate::conf_lines::is_first;
use crate::defined::{Defined, nothing_defined, read_definition_line};
use crate::line_flaws::{definition_flaw, later_flaw};
use crate::reason::{ConfFlaw, ConfReason};
use crate::word_lines::word_line;
use definitions::{Line, lines_of, spelled_classes_are_read, spelled_types_are_read};
use std::alloc::{AllocError, Global};
use values::TypeTable;

/// A line that is at fault, by its number, and what is wrong with it.
#[derive(Drop)]
struct FlawAt {
    line: u64,
    flaw: ConfFlaw,
}

/// What a line of the first pass comes to.
#[derive(Drop)]
enum Step {
    Goes(Defined),
    Stops(ConfFlaw),
}

/// What the first pass comes to: what the lines define, or the first that is at fault.
#[derive(Drop)]
enum FirstPass {
    Defined(Defined),
    Stopped(FlawAt),
}

// a line of the first pass; one without a flaw is refused only where memory runs out
fn take_line(alloc: Global, known: Defined, line: &Line) -> Result<Step, AllocError>
    ensures { IfOk result (StepTells (defined_view known) line.now) }
{
    if let Some(flaw) = definition_flaw(alloc, &known, line.text.as_slice())? {
        return Ok(Step::Stops(flaw));
    }
    match read_definition_line(alloc, known, line) {
        Ok(next) => Ok(Step::Goes(next)),
        Err(_) => Err(AllocError),
    }
}

fn first_pass(alloc: Global, names: usize, lines: &[Line]) -> Result<FirstPass, AllocError>
    ensures { IfOk result (FirstTells lines.now) }
{
    let mut known = nothing_defined(alloc, names)?;
    for line in lines {
        match take_line(alloc, known, line)? {
            Step::Goes(next) => known = next,
            Step::Stops(flaw) => {
                let line = line.number;
                return Ok(FirstPass::Stopped(FlawAt { line, flaw }));
            }
        }
    }
    Ok(FirstPass::Defined(known))
}

// whether a suffix stands above the next line
fn has_suffix_behind(has_suffix: bool, line: &[u8]) -> bool
    ensures { result ≡ (has_suffix || is_first (codes "suffix") line.now) }
{
    has_suffix || is_first(b"suffix", line)
}

fn second_pass(
    alloc: Global,
    types: &TypeTable,
    lines: &[Line],
) -> Result<Option<FlawAt>, AllocError>
    ensures { IfOk result (SecondTells types.now lines.now) }
{
    let mut has_suffix = false;
    for line in lines {
        let text = line.text.as_slice();
        if let Some(flaw) = later_flaw(alloc, types, has_suffix, text)? {
            let line = line.number;
            return Ok(Some(FlawAt { line, flaw }));
        }
        has_suffix = has_suffix_behind(has_suffix, text);
    }
    if has_suffix {
        Ok(None)
    } else {
        let flaw = ConfFlaw::NoSuffix;
        Ok(Some(FlawAt { line: 0, flaw }))
    }
}

fn flaw_on_lines(alloc: Global, lines: &[Line]) -> Result<Option<FlawAt>, AllocError>
    ensures { IfOk result (LinesTell lines.now) }
{
    match first_pass(alloc, lines.len(), lines)? {
        FirstPass::Defined(known) => second_pass(alloc, &known.types, lines),
        FirstPass::Stopped(found) => Ok(Some(found)),
    }
}

/// Why a text is no configuration, or `None` exactly where it is one: the fault that reading it answers, and what that is of. It is read
/// once more for this, so that reading itself keeps none of it.
pub fn explain(alloc: Global, text: &[u8]) -> Result<Option<ConfReason>, AllocError>
    ensures reason { IfOk result (Explains text.now) }
    ensures word { IfOk result (λ found. IfSome found (λ r. IsWordLine text.now (sought r.flaw) r.line r.word_line)) }
{
    spelled_types_are_read();
    spelled_classes_are_read();
    let lines = lines_of(alloc, text)?;
    match flaw_on_lines(alloc, &lines)? {
        Some(FlawAt { line, flaw }) => {
            let word_line = word_line(text, line, &flaw);
            Ok(Some(ConfReason {
                line,
                word_line,
                flaw,
            }))
        }
        None => Ok(None),
    }
}
