//! Refusals of records.

ghost use Rattle.std.specs.Prelude.{◌≡◌, IfOk, Some, string_bytes, if◌then◌else◌};
ghost use Rattle.databases.specs.Reports.{refusal_report, report_line};
ghost use Rattle.databases.specs.Runs.{is_empty};

use ldif::{LdifFaultKind, Record};
use schema::Code;
use std::alloc::{AllocError, Global};
use std::fmt;

/// The refusal of a record: why it isn't carried out, printed as `32 noSuchObject` or `L4 base64`.
#[derive(Clone, Copy, Debug)]
pub enum RecordRefusal {
    /// Its lines are no record.
    Fault(LdifFaultKind),
    /// The operation has this result code.
    Code(Code),
}

/// A record that is refused: the line of the text on which it begins, from 1, and why.
#[derive(Clone, Copy, Debug)]
pub(crate) struct RefusedRecord {
    pub(crate) line: u64,
    pub(crate) refusal: RecordRefusal,
}

/// What becomes of a record.
#[derive(Clone, Copy)]
pub enum Outcome {
    /// It is empty, and isn't counted.
    Nothing,
    Accepted,
    Refused(RecordRefusal),
}

impl Outcome {
    /// What becomes of a record that was carried out.
    pub fn of_accepted(asked: &Record<'_>) -> Outcome
        ensures { result ≡ (if is_empty asked.now then Outcome.Nothing else Outcome.Accepted) }
    {
        match asked {
            Record::Empty => Outcome::Nothing,
            _ => Outcome::Accepted,
        }
    }
}

impl fmt::Display for RecordRefusal {
    ghost output = { λ r. Some (refusal_report r) };

    fn fmt<W: fmt::Write>(&self, f: &mut fmt::Formatter<W>) -> fmt::Result {
        match self {
            RecordRefusal::Fault(fault) => write!(f, "{fault}"),
            RecordRefusal::Code(code) => write!(f, "{code}"),
        }
    }
}

/// The line of a report: the number of the line on which the record begins, and the refusal.
#[tactic(auto, unfolding(crate::specs::Reports::report_line))]
pub(crate) fn report_line(alloc: Global, refused: RefusedRecord) -> Result<String, AllocError>
    ensures { IfOk result (λ t. string_bytes t ≡ report_line (refused.line, refused.refusal)) }
{
    let RefusedRecord { line, refusal } = refused;
    format!(in alloc; "line {line}: {refusal}\n")
}
