//! Why a text is no definition.

use std::alloc::{AllocError, AllocFailed};
use thiserror::Error;

/// Why a text is no definition.
#[derive(Debug, Drop, Error)]
pub enum DefinitionFault {
    /// It hasn't the form of one, or a name isn't allowed.
    #[error("the definition can't be read")]
    Form,
    #[error("out of memory")]
    OutOfMemory,
}

impl From<AllocError> for DefinitionFault {
    ghost use Rattle.std.specs.Prelude.{◌≡◌};
    ghost use Rattle.definitions.specs.declared.fault.DefinitionFault.TheVariants.{OutOfMemory};

    ghost from_gives = { λ _ e. e ≡ OutOfMemory };

    fn from(_: AllocError) -> DefinitionFault {
        DefinitionFault::OutOfMemory
    }
}

impl<T: Drop> From<AllocFailed<T>> for DefinitionFault {
    ghost use Rattle.std.specs.Prelude.{◌≡◌};
    ghost use Rattle.definitions.specs.declared.fault.DefinitionFault.TheVariants.{OutOfMemory};

    ghost from_gives = { λ _ e. e ≡ OutOfMemory };

    fn from(_: AllocFailed<T>) -> DefinitionFault {
        DefinitionFault::OutOfMemory
    }
}
