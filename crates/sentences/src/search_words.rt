//! Sentences for searches that find nothing, or too much.

use crate::lines::{Sentence, ShownText};
use crate::missing::RefusedAdds;
use crate::name_words::NameText;
use crate::shown::{named, quoted};
use base::{Bytes, Sequence};
use filter_text::{FilterFault, FilterFaultKind};
use ldif::{Mode, Record};
use reasons::{NameReason, Reason, explain};
use schema::{Conf, PathFault};
use std::alloc::{AllocError, Global};
use tree::LentTree;

/// What stands in a filter where it can't be read (RFC 4515).
fn filter_words(alloc: Global, text: &[u8], fault: &FilterFault) -> Result<ShownText, AllocError> {
    match fault {
        FilterFault::At {
            kind: FilterFaultKind::Deep,
            ..
        } => ShownText::fixed(alloc, "at most 512 parentheses may be open at once"),
        FilterFault::At { at, .. } => match text.get(*at..) {
            Some(rest) if !rest.is_empty() => {
                let rest = quoted(alloc, rest)?;
                ShownText::of(format!(in alloc;
                    "there stands {rest}, which goes on with no filter"
                ))
            }
            _ => ShownText::fixed(alloc, "it ends too early"),
        },
        FilterFault::OutOfMemory => Err(AllocError),
    }
}

/// The same as a sentence.
pub(crate) fn filter_sentence(
    alloc: Global,
    text: &[u8],
    fault: &FilterFault,
) -> Result<Sentence, AllocError> {
    let words = filter_words(alloc, text, fault)?;
    Sentence::of(words)
}

/// That no entry has this name.
fn no_entry(alloc: Global, lent: LentTree<'_>, text: &[u8]) -> Result<ShownText, AllocError> {
    match lent.conf.path_of_text(alloc, text) {
        Ok(path) => {
            let mut words = ShownText::new(alloc);
            RefusedAdds::new(alloc).push_looked_up(alloc, &mut words, lent, text, &path)?;
            Ok(words)
        }
        Err(PathFault::Code(_)) => {
            let name = named(alloc, text)?;
            ShownText::of(format!(in alloc; "no entry {name}"))
        }
        Err(PathFault::OutOfMemory) => Err(AllocError),
    }
}

/// What is wrong with a name.
fn name_words(
    alloc: Global,
    conf: &Conf,
    text: &[u8],
    why: NameReason,
) -> Result<ShownText, AllocError> {
    let name = NameText {
        alloc,
        conf,
        what: "the name",
        text,
    };
    let mut words = ShownText::new(alloc);
    name.push_words(&mut words, None, why)?;
    Ok(words)
}

/// What is wrong with the name of a base, or that no entry has it: what a delete of that entry would be refused for.
fn base_words(alloc: Global, lent: LentTree<'_>, text: &[u8]) -> Result<ShownText, AllocError> {
    let asked = Record::Delete {
        dn: Bytes::from_slice(alloc, text)?,
        controls: Sequence::new(alloc),
    };
    match explain(alloc, lent, &asked, Mode::Content) {
        Ok(Some(Reason::Name(why))) => name_words(alloc, lent.conf, text, why),
        Ok(_) => no_entry(alloc, lent, text),
        Err(_) => Err(AllocError),
    }
}

/// The same as a sentence.
pub(crate) fn base_sentence(
    alloc: Global,
    lent: LentTree<'_>,
    text: &[u8],
) -> Result<Sentence, AllocError> {
    let words = base_words(alloc, lent, text)?;
    Sentence::of(words)
}

/// That more entries match than are printed.
pub(crate) fn limit_sentence(alloc: Global, limit: Option<u32>) -> Result<Sentence, AllocError> {
    match limit {
        Some(limit) => {
            let words = ShownText::of(format!(in alloc;
                "more than {limit} match, and no more are printed"
            ))?;
            Sentence::of(words)
        }
        None => Err(AllocError),
    }
}
