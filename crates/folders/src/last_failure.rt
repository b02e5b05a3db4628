//! What the system said when something failed.

ghost use Rattle.std.specs.Prelude.{◌≡◌};

use std::cell::Cell;
use std::io::{self, ErrorKind};

/// Why a file or a stream failed last. It is for people: no contract speaks of it.
#[derive(Drop)]
pub struct LastFailure {
    kind: Cell<Option<ErrorKind>>,
}

impl LastFailure {
    /// Nothing has failed.
    pub fn new() -> LastFailure {
        LastFailure {
            kind: Cell::new(None),
        }
    }

    /// Why it failed, if something did since it was cleared.
    pub fn kind(&self) -> Option<ErrorKind> {
        self.kind.get()
    }

    pub(crate) fn clear(&self) {
        self.kind.set(None);
    }

    pub(crate) fn keep(&self, kind: ErrorKind) {
        self.kind.set(Some(kind));
    }

    /// The same answer, whose error is kept.
    pub(crate) fn noted<T>(&self, answer: io::Result<T>) -> io::Result<T>
        ensures { result ≡ answer }
    {
        if let Err(error) = &answer {
            self.keep(error.kind());
        }
        answer
    }
}
