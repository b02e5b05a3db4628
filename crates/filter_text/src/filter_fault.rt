//! Why a text is no filter that can be read.
ghost use Rattle.std.specs.Prelude.{Some};
ghost use Rattle.filter_text.specs.FaultReports.{fault_report};

use std::fmt;
use thiserror::Error;

/// What is wrong with a text that is no filter.
#[derive(Clone, Copy, Debug, PartialEq, Eq)]
pub enum FilterFaultKind {
    /// The bytes before the fault begin a filter, and the text doesn't go on as one: a byte doesn't fit, or the text ends.
    Syntax,
    /// The parenthesis at the fault is the 513th that is open at once.
    Deep,
}

/// Why no filter was read, printed as `fault at 5` or `deeper than 512`.
#[derive(Clone, Copy, Debug, PartialEq, Eq, Error)]
pub enum FilterFault {
    /// How many bytes stand before the fault, and what it is.
    At { at: usize, kind: FilterFaultKind },
    OutOfMemory,
}

// By hand, since a derived `Display` has no `output` that a contract can name.
impl fmt::Display for FilterFault {
    ghost output = { λ f. Some (fault_report f) };

    fn fmt<W: fmt::Write>(&self, f: &mut fmt::Formatter<W>) -> fmt::Result {
        match *self {
            FilterFault::At {
                at,
                kind: FilterFaultKind::Syntax,
            } => write!(f, "fault at {at}"),
            FilterFault::At {
                kind: FilterFaultKind::Deep,
                ..
            } => f.write_str("deeper than 512"),
            FilterFault::OutOfMemory => f.write_str("out of memory"),
        }
    }
}
