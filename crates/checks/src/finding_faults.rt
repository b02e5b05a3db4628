//! Finding the faults of the text of a dir.conf, and which of them are left out.

ghost use Rattle.std.specs.Prelude.{◌≡◌, ◌++◌, [], IfOk, OnOk};
ghost use Rattle.checks.specs.ConfFaults.{AreFirstFaults};
ghost use Rattle.checks.specs.LeftOut.{line_losing, names_for, line_counting, is_unknown_name, types_lost_by, classes_lost_by, IsExplained, Counts, AreFaultsOf, EachIsCounted};
ghost use Rattle.checks.specs.inner.FoundFaults.{Takes};

use crate::conf_faults::{ConfFaults, ConfLineFault, FoundFault, MOST_FAULTS, commented};
use crate::laws::left_out_faults_are_counted;
use crate::lost_names::{LostName, LostNames, is_of_class, line_at, lose};
use definitions::{Line, lines_of};
use dir_conf::{ConfFault, ConfFaultKind, ConfFlaw, NameField, explain, read_conf};
use std::alloc::{AllocError, Global};

/// The line with which faults count that need this name, where it is lost.
fn line_losing(lost: &[LostName], word: &[u8]) -> Option<u64>
    ensures { result ≡ line_losing lost.now word.now }
{
    lost.iter()
        .find(|name| name.word.as_slice().eq_ignore_ascii_case(word))
        .map(|name| name.line)
}

/// Those of the lost names that a field may name: SUP of a class names a class, and any other field a type.
fn names_for(of_class: bool, field: NameField, lost: &LostNames) -> &[LostName]
    ensures { result.now ≡ names_for of_class field lost.now.types.items lost.now.classes.items }
{
    match field {
        NameField::Superior if of_class => lost.classes.as_slice(),
        NameField::Superior | NameField::Must | NameField::May => lost.types.as_slice(),
    }
}

/// The line with which a flaw counts, where it is of a name that is lost.
fn line_counting(of_class: bool, flaw: &ConfFlaw, lost: &LostNames) -> Option<u64>
    ensures { result ≡ line_counting of_class flaw.now lost.now.types.items lost.now.classes.items }
{
    match flaw {
        ConfFlaw::UnknownName { of: _, field, word } => {
            line_losing(names_for(of_class, *field, lost), word.as_slice())
        }
        ConfFlaw::UnknownIndexed { word } => { line_losing(lost.types.as_slice(), word.as_slice()) }
        ConfFlaw::Keyword { .. }
        | ConfFlaw::Indented
        | ConfFlaw::Unread { .. }
        | ConfFlaw::Lists
        | ConfFlaw::Twice { .. }
        | ConfFlaw::Subtype { .. }
        | ConfFlaw::RuleSyntax { .. }
        | ConfFlaw::NoSuffix
        | ConfFlaw::SecondSuffix
        | ConfFlaw::BadSuffix { .. }
        | ConfFlaw::UnknownKind { .. }
        | ConfFlaw::NoRule { .. }
        | ConfFlaw::Collective { .. }
        | ConfFlaw::TooManyTypes { .. } => None,
    }
}

/// Whether a name isn't defined.
fn is_unknown_name(kind: ConfFaultKind) -> bool
    ensures { result ≡ is_unknown_name kind }
{
    matches!(kind, ConfFaultKind::UnknownName)
}

/// The line with which the first fault of a text counts, a name of a class or a type that isn't defined.
fn explained(
    alloc: Global,
    left: &[u8],
    of_class: bool,
    lost: &LostNames,
) -> Result<Option<u64>, AllocError>
    ensures { IfOk result (IsExplained left.now of_class lost.now.types.items lost.now.classes.items) }
{
    match explain(alloc, left)? {
        Some(reason) => Ok(line_counting(of_class, &reason.flaw, lost)),
        None => Ok(None),
    }
}

/// The line with which the first fault of a text counts, if it is left out.
fn counted_with(
    alloc: Global,
    lines: &[Line],
    left: &[u8],
    fault: ConfLineFault,
    lost: &LostNames,
) -> Result<Option<u64>, AllocError>
    ensures { IfOk result (Counts lines.now left.now lost.now.types.items lost.now.classes.items fault) }
{
    if is_unknown_name(fault.kind) {
        explained(alloc, left, is_of_class(lines, fault.line), lost)
    } else {
        Ok(None)
    }
}

/// Puts what the line of a fault would define behind what is lost.
fn lose_line(
    alloc: Global,
    lines: &[Line],
    found: FoundFault,
    lost: &mut LostNames,
) -> Result<(), AllocError>
    ensures types { OnOk result (lost.new.types.items ≡ lost.old.types.items ++ types_lost_by lines.now found) }
    ensures classes { OnOk result (lost.new.classes.items ≡ lost.old.classes.items ++ classes_lost_by lines.now found) }
{
    let at = found.counted_with.unwrap_or(found.fault.line);
    match line_at(lines, found.fault.line) {
        Some(line) => lose(alloc, line, at, lost),
        None => Ok(()),
    }
}

/// Takes the first fault of a text behind those that were found, and with it what its line would define.
fn take_fault(
    alloc: Global,
    lines: &[Line],
    left: &[u8],
    fault: ConfLineFault,
    lost: &mut LostNames,
    faults: &mut Vec<FoundFault>,
) -> Result<(), AllocError>
    ensures { OnOk result (Takes lines.now left.now fault lost.old lost.new faults.old.items faults.new.items) }
{
    let counted_with = counted_with(alloc, lines, left, fault, lost)?;
    let found = FoundFault {
        fault,
        counted_with,
    };
    lose_line(alloc, lines, found, lost)?;
    faults.push(found)?;
    Ok(())
}

/// Whether a text has a fault.
fn has_fault(alloc: Global, text: &[u8]) -> Result<bool, AllocError>
    ensures { IfOk result (AreFirstFaults 0 text.now []) }
{
    match read_conf(alloc, text) {
        Ok(_) => Ok(false),
        Err(ConfFault::Line { .. }) => Ok(true),
        Err(ConfFault::OutOfMemory) => Err(AllocError),
    }
}

/// The first faults of the text of a dir.conf, found one after the other.
fn first_faults(alloc: Global, text: &[u8]) -> Result<ConfFaults, AllocError>
    ensures { IfOk result (λ f. AreFaultsOf text.now f.faults.items f.has_more) }
{
    let lines = lines_of(alloc, text)?;
    let mut faults = Vec::new(alloc);
    let mut lost = LostNames {
        types: Vec::new(alloc),
        classes: Vec::new(alloc),
    };
    let mut left = Vec::from_slice(alloc, text)?;
    let mut room = MOST_FAULTS;
    'readings: while 0 < room {
        match read_conf(alloc, left.as_slice()) {
            Ok(_) => {
                let has_more = false;
                return Ok(ConfFaults { faults, has_more });
            }
            Err(ConfFault::Line { line, kind }) => {
                let fault = ConfLineFault { line, kind };
                take_fault(
                    alloc,
                    &lines,
                    left.as_slice(),
                    fault,
                    &mut lost,
                    &mut faults,
                )?;
                if line == 0 {
                    let has_more = false;
                    return Ok(ConfFaults { faults, has_more });
                }
                left = commented(alloc, left.as_slice(), line)?;
                room -= 1;
            }
            Err(ConfFault::OutOfMemory) => return Err(AllocError),
        }
    }
    let has_more = has_fault(alloc, left.as_slice())?;
    Ok(ConfFaults { faults, has_more })
}

/// The first faults of the text of a dir.conf: each as it is where the lines that were found at fault before it are comments. There is no more behind
/// a line that is missing. One is left out where its line lacks a name that one of those would have defined, and counts with the first that would
/// have, or with the line that that one counts with: so each that is left out counts with one that isn't.
pub fn find_faults(alloc: Global, text: &[u8]) -> Result<ConfFaults, AllocError>
    ensures are { IfOk result (λ f. AreFaultsOf text.now f.faults.items f.has_more) }
    ensures counted { IfOk result (λ f. EachIsCounted f.faults.items) }
{
    left_out_faults_are_counted();
    first_faults(alloc, text)
}
