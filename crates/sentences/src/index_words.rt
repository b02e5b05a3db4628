//! Sentences for index texts that are at fault.

ghost use Rattle.sentences.specs.Sentence.{IsShown};

use crate::lines::{Sentence, ShownText};
use crate::shown::quoted;
use std::alloc::{AllocError, Global};
use stored_index::{FaultLine, IndexFaultKind};

/// What is wrong with a line of an index text.
fn fault_words(kind: IndexFaultKind) -> &'static str
    ensures { IsShown result.now }
{
    match kind {
        IndexFaultKind::Header => "the first line is slapindex 1, a number of entries and a stamp",
        IndexFaultKind::Stale => "it was written for other entries",
        IndexFaultKind::Form => "no such line is due here, or it can't be read",
        IndexFaultKind::Order => "it doesn't come after the line before it",
        IndexFaultKind::Rank => "no entry has a rank that stands there",
    }
}

/// Where an index text is at fault, and what is wrong there.
pub(crate) fn index_sentence(alloc: Global, fault: &FaultLine) -> Result<Sentence, AllocError> {
    let number = fault.number;
    let words = fault_words(fault.kind);
    let text = quoted(alloc, fault.text.as_slice())?;
    let words = ShownText::of(format!(in alloc;
        "line {number}: {text}: {words}; slapindex writes it anew"
    ))?;
    Sentence::of(words)
}
