//! Why a record is refused.

use schema::{Code, PathFault, ValueFault};
use std::alloc::{AllocError, AllocFailed};
use thiserror::Error;

/// Why a record changes nothing.
#[derive(Debug, Drop, Error)]
pub enum Refusal {
    /// The result code of the first check that fails.
    #[error("{0}")]
    Code(Code),
    #[error("out of memory")]
    OutOfMemory,
}

impl From<AllocError> for Refusal {
    ghost use Rattle.std.specs.Prelude.{◌≡◌};
    ghost use Rattle.entries.specs.declared.refusal.Refusal.TheVariants.{OutOfMemory};

    ghost from_gives = { λ _ e. e ≡ OutOfMemory };

    fn from(_: AllocError) -> Refusal {
        Refusal::OutOfMemory
    }
}

impl<T: Drop> From<AllocFailed<T>> for Refusal {
    ghost use Rattle.std.specs.Prelude.{◌≡◌};
    ghost use Rattle.entries.specs.declared.refusal.Refusal.TheVariants.{OutOfMemory};

    ghost from_gives = { λ _ e. e ≡ OutOfMemory };

    fn from(_: AllocFailed<T>) -> Refusal {
        Refusal::OutOfMemory
    }
}

impl From<PathFault> for Refusal {
    ghost use Rattle.std.specs.Prelude.{◌≡◌};
    ghost use Rattle.entries.specs.Gives.{of_path_fault};

    ghost from_gives = { λ f e. e ≡ of_path_fault f };

    fn from(fault: PathFault) -> Refusal {
        match fault {
            PathFault::Code(code) => Refusal::Code(code),
            PathFault::OutOfMemory => Refusal::OutOfMemory,
        }
    }
}

impl From<ValueFault> for Refusal {
    ghost use Rattle.std.specs.Prelude.{◌≡◌};
    ghost use Rattle.entries.specs.Gives.{of_value_fault};

    ghost from_gives = { λ f e. e ≡ of_value_fault f };

    fn from(fault: ValueFault) -> Refusal {
        match fault {
            ValueFault::Invalid => Refusal::Code(Code::InvalidAttributeSyntax),
            ValueFault::OutOfMemory => Refusal::OutOfMemory,
        }
    }
}
