//! Why a text is no name.

ghost use Rattle.std.specs.Prelude.{◌≡◌};
ghost use Rattle.dn.specs.Faults.{fault_number, fault_text};
ghost use Rattle.dn.specs.declared.faults.NameFault.TheVariants.{OutOfMemory};

use std::alloc::{AllocError, AllocFailed};
use thiserror::Error;

/// What is wrong with a text that is no name, printed as `N2 escape`.
#[derive(Clone, Copy, Debug, PartialEq, Eq, Error)]
#[error("N{} {}", self.number(), self.text())]
pub enum NameFaultKind {
    /// No `=` where one is due, behind a type and spaces.
    EqualsMissing,
    /// A backslash with neither two hexadecimal digits nor a character behind it that may be escaped so.
    Escape,
    /// A character that stands in a value by its escape alone.
    NotEscaped,
    /// An `=` with no type before it.
    TypeMissing,
    /// A value in quotation marks or in the form `#`, or a `;` in a value: forms of RFC 4514 and RFC 1779 that are not
    /// supported.
    FormNotSupported,
}

impl NameFaultKind {
    /// The number that is printed behind `N`.
    pub fn number(self) -> u8
        ensures { result ≡ fault_number self }
    {
        match self {
            NameFaultKind::EqualsMissing => 1,
            NameFaultKind::Escape => 2,
            NameFaultKind::NotEscaped => 3,
            NameFaultKind::TypeMissing => 4,
            NameFaultKind::FormNotSupported => 5,
        }
    }

    /// The text that is printed behind the number.
    pub fn text(self) -> &'static str
        ensures { result.now ≡ fault_text self }
    {
        match self {
            NameFaultKind::EqualsMissing => "equals sign missing",
            NameFaultKind::Escape => "escape",
            NameFaultKind::NotEscaped => "character not escaped",
            NameFaultKind::TypeMissing => "type missing",
            NameFaultKind::FormNotSupported => "form not supported",
        }
    }
}

/// Why no name was read.
#[derive(Clone, Copy, Debug, PartialEq, Eq, Error)]
pub enum NameFault {
    #[error("{0}")]
    Fault(NameFaultKind),
    #[error("out of memory")]
    OutOfMemory,
}

impl From<AllocError> for NameFault {
    ghost from_gives = { λ _ e. e ≡ OutOfMemory };

    fn from(_e: AllocError) -> NameFault {
        NameFault::OutOfMemory
    }
}

impl<T: Drop> From<AllocFailed<T>> for NameFault {
    ghost from_gives = { λ _ e. e ≡ OutOfMemory };

    fn from(_e: AllocFailed<T>) -> NameFault {
        NameFault::OutOfMemory
    }
}
