//! Why a text is no configuration.

ghost use Rattle.std.specs.Prelude.{◌≡◌, Some};
ghost use Rattle.dir_conf.specs.ConfFaults.{kind_number, kind_text, kind_report};

use std::alloc::{AllocError, AllocFailed};
use std::fmt;
use thiserror::Error;

/// What is wrong with a line of a configuration.
#[derive(Clone, Copy, Debug, PartialEq, Eq)]
pub enum ConfFaultKind {
    /// The line's first word is no keyword.
    Keyword,
    /// The line can't be read, or a name isn't allowed.
    Form,
    /// A name or an OID is there already.
    Twice,
    /// A name stands for nothing that is defined above.
    UnknownName,
    /// A type doesn't go with the type that it is derived from.
    Subtype,
    /// A matching rule doesn't go with the syntax.
    RuleSyntax,
    /// The suffix is missing, stands twice, or is no name.
    Suffix,
    /// An index that can't be kept.
    Index,
    /// A collective type.
    Collective,
    /// More than 65,535 types.
    TooManyTypes,
}

impl ConfFaultKind {
    /// The number by which it is reported, after a `C`.
    pub fn number(self) -> u8
        ensures { result ≡ kind_number self }
    {
        match self {
            ConfFaultKind::Keyword => 1,
            ConfFaultKind::Form => 2,
            ConfFaultKind::Twice => 3,
            ConfFaultKind::UnknownName => 4,
            ConfFaultKind::Subtype => 5,
            ConfFaultKind::RuleSyntax => 6,
            ConfFaultKind::Suffix => 7,
            ConfFaultKind::Index => 8,
            ConfFaultKind::Collective => 9,
            ConfFaultKind::TooManyTypes => 10,
        }
    }

    /// The words by which it is reported.
    pub fn text(self) -> &'static str
        ensures { result.now ≡ kind_text self }
    {
        match self {
            ConfFaultKind::Keyword => "keyword",
            ConfFaultKind::Form => "form",
            ConfFaultKind::Twice => "twice",
            ConfFaultKind::UnknownName => "unknown name",
            ConfFaultKind::Subtype => "subtype",
            ConfFaultKind::RuleSyntax => "rule needs another syntax",
            ConfFaultKind::Suffix => "suffix",
            ConfFaultKind::Index => "index",
            ConfFaultKind::Collective => "collective",
            ConfFaultKind::TooManyTypes => "too many types",
        }
    }
}

impl fmt::Display for ConfFaultKind {
    ghost output = { λ k. Some (kind_report k) };

    fn fmt<W: fmt::Write>(&self, f: &mut fmt::Formatter<W>) -> fmt::Result {
        write!(f, "C{} {}", self.number(), self.text())
    }
}

/// Why a text is no configuration.
#[derive(Debug, Drop, Error)]
pub enum ConfFault {
    /// The first line that is at fault, or 0 where a line is missing.
    #[error("line {line}: {kind}")]
    Line { line: u64, kind: ConfFaultKind },
    #[error("out of memory")]
    OutOfMemory,
}

impl From<AllocError> for ConfFault {
    ghost use Rattle.dir_conf.specs.declared.conf_fault.ConfFault.TheVariants.{OutOfMemory};

    ghost from_gives = { λ _ e. e ≡ OutOfMemory };

    fn from(_: AllocError) -> ConfFault {
        ConfFault::OutOfMemory
    }
}

impl<T: Drop> From<AllocFailed<T>> for ConfFault {
    ghost use Rattle.dir_conf.specs.declared.conf_fault.ConfFault.TheVariants.{OutOfMemory};

    ghost from_gives = { λ _ e. e ≡ OutOfMemory };

    fn from(_: AllocFailed<T>) -> ConfFault {
        ConfFault::OutOfMemory
    }
}
