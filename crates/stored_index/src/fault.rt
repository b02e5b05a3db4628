//! Why a text is no index text.

ghost use Rattle.std.specs.Prelude.{◌≡◌, Some};
ghost use Rattle.stored_index.specs.Faults.{fault_number, fault_text, fault_report};
ghost use Rattle.stored_index.specs.declared.fault.LineFault.TheVariants.{Fault, OutOfMemory};
ghost use Rattle.stored_index.specs.declared.fault.IndexFaultKind.TheVariants.{Form};

use device::Device;
use hex::FromHexError;
use std::alloc::{AllocError, AllocFailed};
use std::error::Error;
use std::fmt;

/// What is wrong with an index text, printed as `I4 order`.
#[derive(Clone, Copy, Debug, PartialEq, Eq)]
pub enum IndexFaultKind {
    /// The first line isn't of its form, or has no LF.
    Header,
    /// The text was written for another dump, or for another number of entries.
    Stale,
    /// A line that can't be read or isn't due, or the text ends too early or too late.
    Form,
    /// A slot, a key or a rank doesn't come after the one before it.
    Order,
    /// A rank is that of no entry.
    Rank,
}

impl IndexFaultKind {
    /// The number that is printed behind `I`.
    pub fn number(self) -> u8
        ensures { result ≡ fault_number self }
    {
        match self {
            IndexFaultKind::Header => 1,
            IndexFaultKind::Stale => 2,
            IndexFaultKind::Form => 3,
            IndexFaultKind::Order => 4,
            IndexFaultKind::Rank => 5,
        }
    }

    /// The text that is printed behind the number.
    pub fn text(self) -> &'static str
        ensures { result.now ≡ fault_text self }
    {
        match self {
            IndexFaultKind::Header => "header",
            IndexFaultKind::Stale => "stale",
            IndexFaultKind::Form => "form",
            IndexFaultKind::Order => "order",
            IndexFaultKind::Rank => "rank",
        }
    }
}

impl fmt::Display for IndexFaultKind {
    ghost output = { λ f. Some (fault_report f) };

    fn fmt<W: fmt::Write>(&self, f: &mut fmt::Formatter<W>) -> fmt::Result {
        write!(f, "I{} {}", self.number(), self.text())
    }
}

impl Error for IndexFaultKind {}

/// Why no index was read.
#[derive(Clone, Copy, Debug, PartialEq, Eq, thiserror::Error)]
pub enum IndexFault {
    #[error("{0}")]
    Fault(IndexFaultKind),
    /// The source of the text failed.
    #[error("the source failed")]
    Device,
    #[error("out of memory")]
    OutOfMemory,
}

impl From<LineFault> for IndexFault {
    ghost use Rattle.stored_index.specs.inner.Faults.{index_fault};

    ghost from_gives = { λ fault e. e ≡ index_fault fault };

    fn from(fault: LineFault) -> IndexFault {
        match fault {
            LineFault::Fault(kind) => IndexFault::Fault(kind),
            LineFault::OutOfMemory => IndexFault::OutOfMemory,
        }
    }
}

impl From<Device> for IndexFault {
    ghost use Rattle.stored_index.specs.declared.fault.IndexFault.TheVariants.{Device as failed};

    ghost from_gives = { λ _ e. e ≡ failed };

    fn from(_e: Device) -> IndexFault {
        IndexFault::Device
    }
}

impl From<AllocError> for IndexFault {
    ghost use Rattle.stored_index.specs.declared.fault.IndexFault.TheVariants as faults;

    ghost from_gives = { λ _ e. e ≡ faults.OutOfMemory };

    fn from(_e: AllocError) -> IndexFault {
        IndexFault::OutOfMemory
    }
}

/// Why lines of an index text weren't read.
#[derive(Clone, Copy, Drop)]
pub(crate) enum LineFault {
    Fault(IndexFaultKind),
    OutOfMemory,
}

impl From<AllocError> for LineFault {
    ghost from_gives = { λ _ e. e ≡ OutOfMemory };

    fn from(_e: AllocError) -> LineFault {
        LineFault::OutOfMemory
    }
}

impl<T: Drop> From<AllocFailed<T>> for LineFault {
    ghost from_gives = { λ _ e. e ≡ OutOfMemory };

    fn from(_e: AllocFailed<T>) -> LineFault {
        LineFault::OutOfMemory
    }
}

impl From<FromHexError> for LineFault {
    ghost use Rattle.stored_index.specs.inner.HexFaults.{fault_by};

    ghost from_gives = { λ error e. e ≡ fault_by error };

    fn from(error: FromHexError) -> LineFault {
        match error {
            FromHexError::OutOfMemory => LineFault::OutOfMemory,
            FromHexError::OddLength => form(),
            FromHexError::InvalidStringLength => form(),
            FromHexError::InvalidHexCharacter { .. } => form(),
        }
    }
}

pub(crate) fn form() -> LineFault
    ensures { result ≡ Fault Form }
{
    LineFault::Fault(IndexFaultKind::Form)
}
