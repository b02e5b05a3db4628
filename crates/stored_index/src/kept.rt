//! What is kept of an index text.

ghost use Rattle.std.specs.Prelude.{◌≡◌, ◌∷◌, ◌++◌, [], OnOk};
ghost use Rattle.stored_index.specs.inner.Kept.{listed};

use crate::key_lines::KeyLine;
use crate::row::Row;
use base::Sequence;
use std::alloc::{AllocError, Global};
use std::mem;

/// The rows that are kept of the slots that were read, and of the one that is read; and the last key of that, as it is written.
#[derive(Drop)]
pub(crate) struct Kept {
    pub(crate) slots: Vec<Sequence<Row>>,
    pub(crate) rows: Vec<Row>,
    pub(crate) last_word: Vec<u8>,
}

impl Kept {
    pub(crate) fn new(alloc: Global) -> Kept
        ensures slots { result.slots.items ≡ [] }
        ensures rows { result.rows.items ≡ [] }
        ensures word { result.last_word.items ≡ [] }
    {
        Kept {
            slots: Vec::new(alloc),
            rows: Vec::new(alloc),
            last_word: Vec::new(alloc),
        }
    }

    /// Puts the line of a key behind the others.
    pub(crate) fn put(&mut self, line: KeyLine<'_>) -> Result<(), AllocError>
        ensures slots { OnOk result (self.new.slots.items ≡ self.old.slots.items) }
        ensures rows { OnOk result (self.new.rows.items ≡ self.old.rows.items ++ listed line.entry.row) }
        ensures word { OnOk result (self.new.last_word.items ≡ line.entry.word.now) }
    {
        self.last_word.clear();
        self.last_word.extend_from_slice(line.word)?;
        if let Some(row) = line.row {
            self.rows.push(row)?;
        }
        Ok(())
    }

    /// Ends the slot that is read.
    pub(crate) fn close(&mut self, alloc: Global) -> Result<(), AllocError>
        ensures slots { OnOk result (self.new.slots.items ≡ self.old.slots.items ++ self.old.rows.items ∷ []) }
        ensures rows { OnOk result (self.new.rows.items ≡ []) }
        ensures word { OnOk result (self.new.last_word.items ≡ []) }
    {
        let rows = mem::replace(&mut self.rows, Vec::new(alloc));
        self.slots.push(Sequence::from_vec(rows))?;
        self.last_word.clear();
        Ok(())
    }
}
