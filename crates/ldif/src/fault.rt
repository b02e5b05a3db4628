//! Why lines are no record.

ghost use Rattle.std.specs.Prelude.{◌≡◌, Some};
ghost use Rattle.ldif.specs.Faults.{fault_number, fault_text, fault_report};
ghost use Rattle.ldif.specs.declared.fault.LdifFault.TheVariants.{OutOfMemory};

use std::alloc::{AllocError, AllocFailed};
use std::fmt;
use thiserror::Error;

/// What is wrong with the lines of a record, printed as `L4 base64`.
#[derive(Clone, Copy, Debug, PartialEq, Eq, Error)]
pub enum LdifFaultKind {
    /// The first line, after a version line, is not `dn:`.
    DnMissing,
    /// A line begins with a space, and there is no line that it could continue.
    Continuation,
    /// A version other than 1.
    Version,
    /// Not standard base64 with padding, or bits that are left over are not zero.
    Base64,
    /// A value of the form `:<`.
    Url,
    /// No `:`, or nothing before it.
    ColonMissing,
    /// Another word than `add`, `delete`, `modify`, `modrdn` and `moddn`.
    ChangetypeUnknown,
    /// A value line of another attribute in a block of a modify.
    OtherAttribute,
    /// `newrdn:` or `deleteoldrdn:` is not where it is due.
    PartMissing,
    /// A line more than the form of the record has, or that begins no block.
    StrayLine,
    /// No `changetype:` where changes alone are read.
    ChangetypeMissing,
    /// A `changetype:` where contents alone are read.
    ChangetypeInContent,
    /// `deleteoldrdn:` is neither 0 nor 1, or the OID or the criticality of a control is none.
    Word,
}

impl LdifFaultKind {
    /// The number that is printed behind `L`.
    pub fn number(self) -> u8
        ensures { result ≡ fault_number self }
    {
        match self {
            LdifFaultKind::DnMissing => 1,
            LdifFaultKind::Continuation => 2,
            LdifFaultKind::Version => 3,
            LdifFaultKind::Base64 => 4,
            LdifFaultKind::Url => 5,
            LdifFaultKind::ColonMissing => 6,
            LdifFaultKind::ChangetypeUnknown => 7,
            LdifFaultKind::OtherAttribute => 8,
            LdifFaultKind::PartMissing => 9,
            LdifFaultKind::StrayLine => 10,
            LdifFaultKind::ChangetypeMissing => 11,
            LdifFaultKind::ChangetypeInContent => 12,
            LdifFaultKind::Word => 13,
        }
    }

    /// The text that is printed behind the number.
    pub fn text(self) -> &'static str
        ensures { result.now ≡ fault_text self }
    {
        match self {
            LdifFaultKind::DnMissing => "dn line missing",
            LdifFaultKind::Continuation => "continuation without a line",
            LdifFaultKind::Version => "version",
            LdifFaultKind::Base64 => "base64",
            LdifFaultKind::Url => "url value",
            LdifFaultKind::ColonMissing => "colon missing",
            LdifFaultKind::ChangetypeUnknown => "changetype unknown",
            LdifFaultKind::OtherAttribute => "attribute of another name",
            LdifFaultKind::PartMissing => "part missing",
            LdifFaultKind::StrayLine => "stray line",
            LdifFaultKind::ChangetypeMissing => "changetype missing",
            LdifFaultKind::ChangetypeInContent => "changetype in content",
            LdifFaultKind::Word => "word",
        }
    }
}

// By hand, since a derived `Display` has no `output` that a contract can name.
impl fmt::Display for LdifFaultKind {
    ghost output = { λ f. Some (fault_report f) };

    fn fmt<W: fmt::Write>(&self, f: &mut fmt::Formatter<W>) -> fmt::Result {
        write!(f, "L{} {}", self.number(), self.text())
    }
}

/// Why no record was read.
#[derive(Clone, Copy, Debug, PartialEq, Eq, Error)]
pub enum LdifFault {
    #[error("{0}")]
    Fault(LdifFaultKind),
    #[error("out of memory")]
    OutOfMemory,
}

impl From<AllocError> for LdifFault {
    ghost from_gives = { λ _ e. e ≡ OutOfMemory };

    fn from(_e: AllocError) -> LdifFault {
        LdifFault::OutOfMemory
    }
}

impl<T: Drop> From<AllocFailed<T>> for LdifFault {
    ghost from_gives = { λ _ e. e ≡ OutOfMemory };

    fn from(_e: AllocFailed<T>) -> LdifFault {
        LdifFault::OutOfMemory
    }
}
