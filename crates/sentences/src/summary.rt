//! What became of the records of a run, in one line.

use crate::counts::grouped;
use crate::lines::{Line, ShownText};
use crate::shown::named;
use databases::{RecordRefusal, Tally};
use std::alloc::{AllocError, Global};

/// A refusal, and how many records had it.
#[derive(Clone, Copy)]
struct Counted {
    refusal: RecordRefusal,
    count: u64,
}

/// Whether two refusals are of the same code or fault.
fn is_same(left: RecordRefusal, right: RecordRefusal) -> bool {
    match (left, right) {
        (RecordRefusal::Fault(left), RecordRefusal::Fault(right)) => left == right,
        (RecordRefusal::Code(left), RecordRefusal::Code(right)) => left == right,
        _ => false,
    }
}

/// How many records were refused, by the code or the fault of each.
#[derive(Drop)]
pub(crate) struct Summary {
    counts: Vec<Counted>,
}

impl Summary {
    pub(crate) fn new(alloc: Global) -> Summary {
        Summary {
            counts: Vec::new(alloc),
        }
    }

    /// Counts a refusal.
    pub(crate) fn count(&mut self, refusal: RecordRefusal) -> Result<(), AllocError> {
        for counted in self.counts.iter_mut() {
            if is_same(counted.refusal, refusal) {
                counted.count = counted.count.saturating_add(1);
                return Ok(());
            }
        }
        self.counts.push(Counted { refusal, count: 1 })?;
        Ok(())
    }

    /// The refusals that were counted, in the order in which they came first: ` (17 undefinedAttributeType 12, L4 base64 1)`.
    fn refusals(&self, alloc: Global) -> Result<ShownText, AllocError> {
        let mut out = ShownText::new(alloc);
        for counted in self.counts.iter() {
            out.push_str(if out.is_empty() { " (" } else { ", " })?;
            let Counted { refusal, count } = *counted;
            let count = grouped(alloc, count)?;
            let text = format!(in alloc; "{refusal}")?;
            let text = named(alloc, text.as_bytes())?;
            let words = ShownText::of(format!(in alloc; "{text} {count}"))?;
            out.push_str(words.as_str())?;
        }
        if !out.is_empty() {
            out.push(')')?;
        }
        Ok(out)
    }

    /// What became of all records, as the last line of a run.
    pub(crate) fn line(
        &self,
        alloc: Global,
        tally: Tally,
        done: &str,
        stored: bool,
    ) -> Result<Line, AllocError> {
        let Tally { accepted, refused } = tally;
        let all = accepted.saturating_add(refused);
        let records = if all == 1 { "record" } else { "records" };
        let all = grouped(alloc, all)?;
        let accepted = grouped(alloc, accepted)?;
        let by = self.refusals(alloc)?;
        let refused = grouped(alloc, refused)?;
        let done = named(alloc, done.as_bytes())?;
        let end = if stored { "" } else { "; nothing was stored" };
        let words = ShownText::of(format!(in alloc;
            "{all} {records}: {accepted} {done}, {refused} refused{by}{end}"
        ))?;
        Line::of(alloc, &words)
    }
}
