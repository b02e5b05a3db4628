//! Runs: the records of a source, carried out in turn, with a report of those that are refused.

ghost use Rattle.std.specs.Prelude.{◌≡◌, ◌<◌, ◌≤◌, ◌+◌, ◌-◌, ◌^◌, false, IfOk, IfErr, OnOk, Err, option_map, if◌then◌else◌};
ghost use Rattle.device.specs.Device.{Took, Broke, GaveSome};
ghost use Rattle.ldif_lines.specs.Records.{records, closed_records};
ghost use Rattle.databases.specs.Reports.{report_line};
ghost use Rattle.databases.specs.Faults.{Failures};
ghost use Rattle.databases.specs.Folds.{Runs};
ghost use Rattle.databases.specs.RunEdits.{EditsRise};
ghost use Rattle.databases.specs.FailedReads.{StopsReading};
ghost use Rattle.databases.specs.inner.Steps.{Reports, Counts, run_fault_of};
ghost use Rattle.databases.specs.inner.Running.{standing, HasRun, TakesStep};
ghost use Rattle.databases.specs.inner.Endings.{tally_in, EndsAsTold};
ghost use Rattle.ldif_lines.specs.Reader.{source_of, is_failed, records_left, bytes_left};

use crate::applying::carry_out;
use crate::refusal::{Outcome, RefusedRecord, report_line};
use crate::target::Target;
use crate::teller::{Silent, Teller};
use device::{Sink, Source, push_all};
use ldif::{Mode, ReadFault, Reader, WriteFault};
use std::alloc::Global;
use thiserror::Error;

/// How many records of a run were accepted, and how many were refused.
#[derive(Clone, Copy, Debug, PartialEq, Eq)]
pub struct Tally {
    pub accepted: u64,
    pub refused: u64,
}

/// Why a run was broken off, with the records that were carried out by then.
#[derive(Clone, Copy, Debug, PartialEq, Eq, Error)]
pub enum RunFault {
    /// The source failed.
    #[error("cannot read")]
    Read(Tally),
    /// The sink failed in the line of the last refused record.
    #[error("cannot write")]
    Write(Tally),
    #[error("out of memory")]
    OutOfMemory(Tally),
}

/// How a run goes on behind a record.
#[derive(Clone, Copy)]
pub(crate) enum Progress {
    /// With the next record.
    GoesOn,
    /// Not at all: no record was left.
    AtEnd,
    /// Not at all: this record was refused, and the first one ends the run.
    StoppedBy(RefusedRecord),
}

/// What a run that went through comes to: its counts, and the refused record that ended it, if one did.
#[derive(Clone, Copy)]
pub(crate) struct Ending {
    pub(crate) tally: Tally,
    pub(crate) stopped_by: Option<RefusedRecord>,
}

// the report line of a refused record
fn write_report<W: Sink>(
    alloc: Global,
    sink: &mut W,
    refused: RefusedRecord,
) -> Result<(), WriteFault>
    requires { (W.written sink.old).failed < 2 ^ 64 - 1 }
    ensures ok { OnOk result (Took (W.written sink.old) (W.written sink.new) (report_line (refused.line, refused.refusal))) }
    ensures device { result ≡ Err WriteFault.Device → Broke (W.written sink.old) (W.written sink.new) (report_line (refused.line, refused.refusal)) }
    ensures memory { result ≡ Err WriteFault.OutOfMemory → W.written sink.new ≡ W.written sink.old }
{
    let text = report_line(alloc, refused)?;
    push_all(sink, text.as_bytes())?;
    Ok(())
}

// how a run goes on behind a refused record
fn behind_report(refused: RefusedRecord, go_on: bool) -> Progress
    ensures { result ≡ (if go_on then Progress.GoesOn else Progress.StoppedBy refused) }
{
    if go_on {
        Progress::GoesOn
    } else {
        Progress::StoppedBy(refused)
    }
}

// reports a refused record, which was counted, and then tells why it is refused
fn report<W: Sink, T: Teller>(
    alloc: Global,
    sink: &mut W,
    teller: &mut T,
    refused: RefusedRecord,
    go_on: bool,
    tally: Tally,
) -> Result<Progress, RunFault>
    requires { (W.written sink.old).failed < 2 ^ 64 - 1 }
    ensures { Reports refused go_on tally (W.written sink.old) (W.written sink.new) result }
{
    match write_report(alloc, sink, refused) {
        Ok(()) => {
            teller.tell();
            teller.pass(tally);
            Ok(behind_report(refused, go_on))
        }
        Err(WriteFault::Device) => Err(RunFault::Write(tally)),
        Err(WriteFault::OutOfMemory) => Err(RunFault::OutOfMemory(tally)),
    }
}

// counts what became of a record, and reports a refusal
fn count<W: Sink, T: Teller>(
    alloc: Global,
    sink: &mut W,
    teller: &mut T,
    line: u64,
    outcome: Outcome,
    go_on: bool,
    tally: &mut Tally,
) -> Result<Progress, RunFault>
    requires can_fail { (W.written sink.old).failed < 2 ^ 64 - 1 }
    requires room { tally.old.accepted + tally.old.refused < 2 ^ 64 - 1 }
    ensures { Counts outcome go_on line tally.old tally.new (W.written sink.old) (W.written sink.new) result }
{
    match outcome {
        Outcome::Nothing => Ok(Progress::GoesOn),
        Outcome::Accepted => {
            tally.accepted += 1;
            teller.pass(*tally);
            Ok(Progress::GoesOn)
        }
        Outcome::Refused(refusal) => {
            tally.refused += 1;
            report(
                alloc,
                sink,
                teller,
                RefusedRecord { line, refusal },
                go_on,
                *tally,
            )
        }
    }
}

// why a run is broken off where there is no next record
fn fault_of(fault: ReadFault, tally: Tally) -> RunFault
    requires { fault ≡ ReadFault.Failed → ⊥ }
    ensures { result ≡ run_fault_of fault tally }
{
    match fault {
        ReadFault::Device => RunFault::Read(tally),
        ReadFault::OutOfMemory => RunFault::OutOfMemory(tally),
        ReadFault::Failed => unreachable!(),
    }
}

// carries out the next record
fn take_record<T: Target, S: Source, W: Sink, L: Teller>(
    alloc: Global,
    target: &mut T,
    reader: &mut Reader<'_, S>,
    sink: &mut W,
    teller: &mut L,
    mode: Mode,
    go_on: bool,
    tally: &mut Tally,
) -> Result<Progress, RunFault>
    requires source { (S.seen (source_of reader.old)).failed < 2 ^ 64 - 1 }
    requires sink { (W.written sink.old).failed < 2 ^ 64 - 1 }
    requires going { is_failed reader.old ≡ false }
    requires few { tally.old.accepted + tally.old.refused + bytes_left S.seen reader.old ≤ 2 ^ 64 }
    ensures { TakesStep S.seen T.count_edits mode go_on (standing T.conf T.entries T.edits W.written target.old reader.old sink.old) tally.old
        (standing T.conf T.entries T.edits W.written target.new reader.new sink.new) tally.new result }
{
    match reader.next() {
        Ok(Some(raw)) => {
            let line = raw.line;
            let carried_out = carry_out(alloc, target, teller, &raw, mode);
            reader.reuse(raw);
            match carried_out {
                Ok(outcome) => count(alloc, sink, teller, line, outcome, go_on, tally),
                Err(_) => Err(RunFault::OutOfMemory(*tally)),
            }
        }
        Ok(None) => Ok(Progress::AtEnd),
        Err(fault) => Err(fault_of(fault, *tally)),
    }
}

// the rest of the records
fn run_rest<T: Target, S: Source, W: Sink, L: Teller>(
    alloc: Global,
    target: &mut T,
    reader: &mut Reader<'_, S>,
    sink: &mut W,
    teller: &mut L,
    mode: Mode,
    go_on: bool,
) -> Result<Ending, RunFault>
    requires source { (S.seen (source_of reader.old)).failed < 2 ^ 64 - 1 }
    requires sink { (W.written sink.old).failed < 2 ^ 64 - 1 }
    requires going { is_failed reader.old ≡ false }
    requires bound { bytes_left S.seen reader.old ≤ 2 ^ 64 }
    ensures run { HasRun S.seen T.count_edits mode go_on (standing T.conf T.entries T.edits W.written target.old reader.old sink.old)
        (standing T.conf T.entries T.edits W.written target.new reader.new sink.new) (tally_in result) }
    ensures ending { IfOk result (EndsAsTold (T.conf target.old) mode go_on (T.entries target.old) (records_left S.seen reader.old)) }
{
    let mut tally = Tally {
        accepted: 0,
        refused: 0,
    };
    'records: loop {
        match take_record(alloc, target, reader, sink, teller, mode, go_on, &mut tally) {
            Ok(Progress::GoesOn) => {}
            Ok(Progress::AtEnd) => {
                return Ok(Ending {
                    tally,
                    stopped_by: None,
                });
            }
            Ok(Progress::StoppedBy(refused)) => {
                return Ok(Ending {
                    tally,
                    stopped_by: Some(refused),
                });
            }
            Err(fault) => return Err(fault),
        }
    }
}

/// The same as `run`, with the refused record that ended the run.
pub(crate) fn run_to_ending<T: Target, S: Source, W: Sink, L: Teller>(
    alloc: Global,
    target: &mut T,
    source: &mut S,
    sink: &mut W,
    teller: &mut L,
    mode: Mode,
    go_on: bool,
) -> Result<Ending, RunFault>
    requires source { (S.seen source.old).failed < 2 ^ 64 - 1 }
    requires sink { (W.written sink.old).failed < 2 ^ 64 - 1 }
    ensures same_conf { T.conf target.new ≡ T.conf target.old }
    ensures runs { Runs (T.conf target.old) mode go_on (T.entries target.old) (T.entries target.new) (option_map records (S.seen source.old).left) (tally_in result) (W.written sink.old) (W.written sink.new) }
    ensures edits { EditsRise T.count_edits (T.conf target.old) mode go_on (T.entries target.old) (T.entries target.new) (option_map records (S.seen source.old).left) (tally_in result) (T.edits target.old) (T.edits target.new) }
    ensures read { IfErr result (λ f. StopsReading f closed_records (T.conf target.old) mode go_on (T.entries target.old) (T.entries target.new) (S.seen source.old) (S.seen source.new) (W.written sink.old) (W.written sink.new)) }
    ensures failures { Failures (tally_in result) (S.seen source.old).failed (S.seen source.new).failed (W.written sink.old).failed (W.written sink.new).failed }
    ensures gave { GaveSome (S.seen source.old) (S.seen source.new) }
    ensures ending { IfOk result (EndsAsTold (T.conf target.old) mode go_on (T.entries target.old) (option_map records (S.seen source.old).left)) }
{
    let mut reader = Reader::new(alloc, source);
    run_rest(alloc, target, &mut reader, sink, teller, mode, go_on)
}

/// Carries out the records of a source in turn, on a `Database` or a directory. For each that is refused, a line with the number of the
/// line on which the record begins and the refusal goes to the sink; the first one ends the run, unless it goes on.
///
/// A refused record changes nothing. A fault leaves the records that were carried out by then, and comes with their counts. Where
/// the source fails, these are the records whose closing empty line it gave by then.
pub fn run<T: Target, S: Source, W: Sink>(
    alloc: Global,
    target: &mut T,
    source: &mut S,
    sink: &mut W,
    mode: Mode,
    go_on: bool,
) -> Result<Tally, RunFault>
    requires source { (S.seen source.old).failed < 2 ^ 64 - 1 }
    requires sink { (W.written sink.old).failed < 2 ^ 64 - 1 }
    ensures same_conf { T.conf target.new ≡ T.conf target.old }
    ensures runs { Runs (T.conf target.old) mode go_on (T.entries target.old) (T.entries target.new) (option_map records (S.seen source.old).left) result (W.written sink.old) (W.written sink.new) }
    ensures edits { EditsRise T.count_edits (T.conf target.old) mode go_on (T.entries target.old) (T.entries target.new) (option_map records (S.seen source.old).left) result (T.edits target.old) (T.edits target.new) }
    ensures read { IfErr result (λ f. StopsReading f closed_records (T.conf target.old) mode go_on (T.entries target.old) (T.entries target.new) (S.seen source.old) (S.seen source.new) (W.written sink.old) (W.written sink.new)) }
    ensures failures { Failures result (S.seen source.old).failed (S.seen source.new).failed (W.written sink.old).failed (W.written sink.new).failed }
    ensures gave { GaveSome (S.seen source.old) (S.seen source.new) }
{
    run_telling(alloc, target, source, sink, &mut Silent, mode, go_on)
}

/// The same as `run`, where a teller tells why each refused record is refused, behind its line.
pub fn run_telling<T: Target, S: Source, W: Sink, L: Teller>(
    alloc: Global,
    target: &mut T,
    source: &mut S,
    sink: &mut W,
    teller: &mut L,
    mode: Mode,
    go_on: bool,
) -> Result<Tally, RunFault>
    requires source { (S.seen source.old).failed < 2 ^ 64 - 1 }
    requires sink { (W.written sink.old).failed < 2 ^ 64 - 1 }
    ensures same_conf { T.conf target.new ≡ T.conf target.old }
    ensures runs { Runs (T.conf target.old) mode go_on (T.entries target.old) (T.entries target.new) (option_map records (S.seen source.old).left) result (W.written sink.old) (W.written sink.new) }
    ensures edits { EditsRise T.count_edits (T.conf target.old) mode go_on (T.entries target.old) (T.entries target.new) (option_map records (S.seen source.old).left) result (T.edits target.old) (T.edits target.new) }
    ensures read { IfErr result (λ f. StopsReading f closed_records (T.conf target.old) mode go_on (T.entries target.old) (T.entries target.new) (S.seen source.old) (S.seen source.new) (W.written sink.old) (W.written sink.new)) }
    ensures failures { Failures result (S.seen source.old).failed (S.seen source.new).failed (W.written sink.old).failed (W.written sink.new).failed }
    ensures gave { GaveSome (S.seen source.old) (S.seen source.new) }
{
    match run_to_ending(alloc, target, source, sink, teller, mode, go_on) {
        Ok(ending) => Ok(ending.tally),
        Err(fault) => Err(fault),
    }
}
