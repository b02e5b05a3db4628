//! What can be wrong with a case file.

use std::alloc::{AllocError, AllocFailed};
use std::fmt;

/// What is wrong with a line.
#[derive(Clone, Copy)]
pub enum CaseFault {
    /// It begins with no mark.
    Mark,
    /// A space or CR stands at its end, where nobody sees it.
    End,
    /// A code in its text is wrong.
    Code,
    /// It names the stamp of a file that isn't there.
    Stamp,
    /// It doesn't belong here, as a line of a file does without that file.
    Place,
    /// Its case has no command.
    NoCommand,
    OutOfMemory,
}

impl fmt::Display for CaseFault {
    fn fmt<W: fmt::Write>(&self, f: &mut fmt::Formatter<W>) -> fmt::Result {
        f.write_str(match self {
            CaseFault::Mark => "a line without a mark",
            CaseFault::End => "a space or CR at the end of a line",
            CaseFault::Code => "a wrong code",
            CaseFault::Stamp => "a stamp of a file that isn't there",
            CaseFault::Place => "a line out of place",
            CaseFault::NoCommand => "a case without a command",
            CaseFault::OutOfMemory => "out of memory",
        })
    }
}

impl From<AllocError> for CaseFault {
    fn from(_: AllocError) -> CaseFault {
        CaseFault::OutOfMemory
    }
}

impl<T: Drop> From<AllocFailed<T>> for CaseFault {
    fn from(_: AllocFailed<T>) -> CaseFault {
        CaseFault::OutOfMemory
    }
}

/// A fault, and the number of the line that has it.
#[derive(Drop)]
pub struct LineFault {
    pub line: usize,
    pub fault: CaseFault,
}

impl fmt::Display for LineFault {
    fn fmt<W: fmt::Write>(&self, f: &mut fmt::Formatter<W>) -> fmt::Result {
        write!(f, "line {}: {}", self.line, self.fault)
    }
}
