//! Why a text names no place.

use crate::code::Code;
use std::alloc::{AllocError, AllocFailed};
use thiserror::Error;

/// Why a text names no place below the suffix.
#[derive(Debug, Drop, Error)]
pub enum PathFault {
    #[error("{0}")]
    Code(Code),
    #[error("out of memory")]
    OutOfMemory,
}

impl From<AllocError> for PathFault {
    ghost use Rattle.std.specs.Prelude.{◌≡◌};
    ghost use Rattle.schema.specs.declared.fault.PathFault.TheVariants.{OutOfMemory};

    ghost from_gives = { λ _ e. e ≡ OutOfMemory };

    fn from(_: AllocError) -> PathFault {
        PathFault::OutOfMemory
    }
}

impl<T: Drop> From<AllocFailed<T>> for PathFault {
    ghost use Rattle.std.specs.Prelude.{◌≡◌};
    ghost use Rattle.schema.specs.declared.fault.PathFault.TheVariants.{OutOfMemory};

    ghost from_gives = { λ _ e. e ≡ OutOfMemory };

    fn from(_: AllocFailed<T>) -> PathFault {
        PathFault::OutOfMemory
    }
}
