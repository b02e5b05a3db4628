//! Words for what the system says where a file or a stream fails.

use crate::lines::{Sentence, ShownText};
use crate::shown::named;
use std::alloc::{AllocError, Global};
use std::io::ErrorKind;

/// Why something failed.
fn failure_words(alloc: Global, kind: ErrorKind) -> Result<ShownText, AllocError> {
    match kind {
        ErrorKind::NotFound => ShownText::fixed(alloc, "no such file or folder"),
        ErrorKind::IsADirectory => ShownText::fixed(alloc, "it is a folder"),
        ErrorKind::StorageFull => ShownText::fixed(alloc, "no space left on the device"),
        ErrorKind::ReadOnlyFilesystem => ShownText::fixed(alloc, "the file system is read-only"),
        ErrorKind::WouldBlock => ShownText::fixed(alloc, "it can't be locked"),
        _ => {
            let words = format!(in alloc; "{kind}")?;
            named(alloc, words.as_bytes())
        }
    }
}

/// The same as a sentence.
pub(crate) fn failure_sentence(alloc: Global, kind: ErrorKind) -> Result<Sentence, AllocError> {
    let words = failure_words(alloc, kind)?;
    Sentence::of(words)
}
