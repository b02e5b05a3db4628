//! Why a part of a text can't be read.
ghost use Rattle.filter_text.specs.declared.fault.Fault.TheVariants.{OutOfMemory, Syntax};
ghost use Rattle.std.specs.Prelude.{◌≡◌, ◌<◌, [], length, IfOk, IfErr};

use std::alloc::{AllocError, AllocFailed};

/// Why a part of a text can't be read.
#[derive(Drop)]
pub enum Fault {
    OutOfMemory,
    /// No byte goes on from here; so many bytes are left.
    Syntax(usize),
}

impl From<AllocError> for Fault {
    ghost from_gives = { λ _ e. e ≡ OutOfMemory };

    fn from(_: AllocError) -> Fault {
        Fault::OutOfMemory
    }
}

impl<T: Drop> From<AllocFailed<T>> for Fault {
    ghost from_gives = { λ _ e. e ≡ OutOfMemory };

    fn from(_: AllocFailed<T>) -> Fault {
        Fault::OutOfMemory
    }
}

/// What was read, where nothing is left behind it.
pub fn read_whole<T: Drop>(read: T, rest: &[u8]) -> Result<T, Fault>
    ensures done { IfOk result (λ x. (x ≡ read) × (rest.now ≡ [])) }
    ensures left { IfErr result (λ f. (f ≡ Syntax (length rest.now)) × (0 < length rest.now)) }
{
    if rest.is_empty() {
        Ok(read)
    } else {
        Err(Fault::Syntax(rest.len()))
    }
}
