//! All faults of the text of a dir.conf.

ghost use Rattle.std.specs.Prelude.{◌≡◌, ◌++◌, ◌-◌, ◌<◌, IfOk, OnOk, count_by, string_bytes};
ghost use Rattle.std.specs.List.{flat_map};
ghost use Rattle.checks.specs.ConfFaults.{commented, fault_text, fault_report, counts_with, note_text, note_report, found_report, more_text, more_report, fault_reports};

use crate::reports::put_report;
use dir_conf::ConfFaultKind;
use std::alloc::{AllocError, Global};

/// A line of a dir.conf that is at fault, by its number, from 1, or 0 where a line is missing.
#[derive(Clone, Copy, Drop)]
pub struct ConfLineFault {
    pub line: u64,
    pub kind: ConfFaultKind,
}

/// A fault that was found.
#[derive(Clone, Copy, Drop)]
pub struct FoundFault {
    pub fault: ConfLineFault,
    /// The line with whose report it counts, where it is left out.
    pub counted_with: Option<u64>,
}

/// The first faults of a dir.conf.
#[derive(Drop)]
pub struct ConfFaults {
    pub faults: Vec<FoundFault>,
    /// Whether there are more.
    pub has_more: bool,
}

/// How many faults of a dir.conf are found at most: each takes a reading of the text.
pub const MOST_FAULTS: u64 = 2000;

/// A text with a number sign for the first byte of the line with this number, from 1: so it is a comment, with the lines that it goes on on.
#[tactic(auto, unfolding(crate::specs::ConfFaults::commented))]
pub fn commented(alloc: Global, text: &[u8], line: u64) -> Result<Vec<u8>, AllocError>
    requires { 0 < line }
    ensures { IfOk result (λ v. v.items ≡ commented (line - 1) text.now) }
{
    let mut out = Vec::with_capacity(alloc, text.len())?;
    let mut before = line - 1;
    let mut rest = text;
    'bytes: while !rest.is_empty() {
        if before == 0 {
            out.push(b'#')?;
            out.extend_from_slice(&rest[1..])?;
            return Ok(out);
        }
        if rest[0] == b'\n' {
            before -= 1;
        }
        out.push(rest[0])?;
        rest = &rest[1..];
    }
    Ok(out)
}

/// What is wrong with a line.
fn fault_text(alloc: Global, fault: ConfLineFault) -> Result<String, AllocError>
    ensures { IfOk result (λ s. string_bytes s ≡ fault_text fault) }
{
    let ConfLineFault { line, kind } = fault;
    format!(in alloc; "line {line}: {kind}")
}

/// Puts the report of a fault of dir.conf at the end of a text.
fn put_fault(alloc: Global, fault: ConfLineFault, out: &mut Vec<u8>) -> Result<(), AllocError>
    ensures { OnOk result (out.new.items ≡ out.old.items ++ fault_report fault) }
{
    let what = fault_text(alloc, fault)?;
    put_report(out, "faulty", b"dir.conf", what.as_bytes())
}

/// Whether a fault is left out, and counts with the line of this number.
fn counts_with(found: &FoundFault, line: u64) -> bool
    ensures { result ≡ counts_with line found.now }
{
    match found.counted_with {
        Some(at) => at == line,
        None => false,
    }
}

/// How many faults count with the line of this number.
fn count_with(faults: &[FoundFault], line: u64) -> usize
    ensures { result ≡ count_by (counts_with line) faults.now }
{
    faults
        .iter()
        .filter(|found| counts_with(found, line))
        .count()
}

/// How many faults are left out, as the note at a line says it.
fn note_text(alloc: Global, line: u64, count: usize) -> Result<String, AllocError>
    ensures { IfOk result (λ s. string_bytes s ≡ note_text line count) }
{
    if count == 1 {
        format!(in alloc; "line {line}: 1 line that needs it is left out")
    } else {
        format!(in alloc; "line {line}: {count} lines that need it are left out")
    }
}

/// Puts a note of how many faults are left out at the end of a text, if there are some.
fn put_note(alloc: Global, line: u64, count: usize, out: &mut Vec<u8>) -> Result<(), AllocError>
    ensures { OnOk result (out.new.items ≡ out.old.items ++ note_report line count) }
{
    if count == 0 {
        return Ok(());
    }
    let what = note_text(alloc, line, count)?;
    put_report(out, "note", b"dir.conf", what.as_bytes())
}

/// Puts the report of one of these faults at the end of a text, and how many of them count with it; or nothing, where it is left out.
fn put_found(
    alloc: Global,
    faults: &[FoundFault],
    found: &FoundFault,
    out: &mut Vec<u8>,
) -> Result<(), AllocError>
    ensures { OnOk result (out.new.items ≡ out.old.items ++ found_report faults.now found.now) }
{
    if found.counted_with.is_some() {
        return Ok(());
    }
    put_fault(alloc, found.fault, out)?;
    let line = found.fault.line;
    put_note(alloc, line, count_with(faults, line), out)
}

/// Puts the reports of faults of dir.conf at the end of a text.
fn put_faults(alloc: Global, faults: &[FoundFault], out: &mut Vec<u8>) -> Result<(), AllocError>
    ensures { OnOk result (out.new.items ≡ out.old.items ++ flat_map (found_report faults.now) faults.now) }
{
    for found in faults {
        put_found(alloc, faults, found, out)?;
    }
    Ok(())
}

/// That there are more faults than those that are found.
fn more_text(alloc: Global) -> Result<String, AllocError>
    ensures { IfOk result (λ s. string_bytes s ≡ more_text) }
{
    let most = MOST_FAULTS;
    format!(in alloc; "more faults: the first {most} are told or left out")
}

/// Puts the report that there are more faults at the end of a text, where there are.
fn put_more(alloc: Global, has_more: bool, out: &mut Vec<u8>) -> Result<(), AllocError>
    ensures { OnOk result (out.new.items ≡ out.old.items ++ more_report has_more) }
{
    if !has_more {
        return Ok(());
    }
    let what = more_text(alloc)?;
    put_report(out, "faulty", b"dir.conf", what.as_bytes())
}

/// Puts a report of each fault of a dir.conf that isn't left out at the end of a text: the word `faulty`, the name of the file, and the line and what
/// is wrong with it, as the other commands report it; behind it, if others count with it, the word `note`, the name of the file, and the line and how
/// many they are; and whether there are more.
pub fn report_faults(alloc: Global, found: &ConfFaults, out: &mut Vec<u8>) -> Result<(), AllocError>
    ensures { OnOk result (out.new.items ≡ out.old.items ++ fault_reports found.now.faults.items found.now.has_more) }
{
    put_faults(alloc, found.faults.as_slice(), out)?;
    put_more(alloc, found.has_more, out)
}
