//! An index text, line by line.

ghost use Rattle.std.specs.Prelude.{◌≡◌, ◌++◌, ◌∷◌, [], true, false, None, OnOk, IfErr, IfOk};
ghost use Rattle.stored_index.specs.SlotLines.{fault_at};
ghost use Rattle.stored_index.specs.Reading.{lines_in};
ghost use Rattle.stored_index.specs.inner.Drafts.{Goes, GoesOn, FailsBehind, IsFault, EndsAs, FailsAtEnd, closed_rows, rows_behind, no_row};
ghost use Rattle.stored_index.specs.declared.draft.Place.TheVariants as places;

use crate::fault::{IndexFaultKind, LineFault, form};
use crate::given::Given;
use crate::header::check_header;
use crate::kept::Kept;
use crate::key_lines::read_key_line;
use crate::row::Row;
use crate::slot_lines::{ends_rows, fault_at, is_slot, slot_in};
use base::Sequence;
use schema::Slot;
use std::alloc::{AllocError, Global};

/// What stands next in an index text.
#[derive(Clone, Copy)]
pub(crate) enum Place {
    /// The first line.
    Header,
    /// The line of a slot or of a key, or the last one.
    Slots,
    /// Nothing.
    End,
}

/// An index text that was read up to the end of a line.
#[derive(Drop)]
pub(crate) struct Draft<'a> {
    given: Given<'a>,
    place: Place,
    // the slots that are still to come, and the one whose rows are read
    due: &'a [Slot],
    before: Option<Slot>,
    kept: Kept,
}

// ends the slot whose rows are read, if there is one
fn close_slot(alloc: Global, before: Option<Slot>, kept: &mut Kept) -> Result<(), AllocError>
    ensures slots { OnOk result (kept.new.slots.items ≡ kept.old.slots.items ++ closed_rows before kept.old.rows.items) }
    ensures rows { OnOk result (kept.new.rows.items ≡ rows_behind before kept.old.rows.items) }
    ensures word { OnOk result (kept.new.last_word.items ≡ rows_behind before kept.old.last_word.items) }
{
    if before.is_some() {
        kept.close(alloc)?;
    }
    Ok(())
}

impl<'a> Draft<'a> {
    /// Nothing was read yet.
    pub(crate) fn new(given: Given<'a>) -> Draft<'a>
        ensures given { result.given ≡ given.entry }
        ensures due { result.due.now ≡ given.entry.conf.now.slots }
        ensures goes { Goes (lines_in given.entry.conf.now given.entry.entries given.entry.stamp.now) result }
    {
        Draft {
            given,
            place: Place::Header,
            due: given.conf.slots(),
            before: None,
            kept: Kept::new(given.alloc),
        }
    }

    // what is wrong with a line that isn't due
    fn not_due(&self, line: &[u8]) -> LineFault
        ensures { IsFault result (fault_at self.now.given.conf.now.types self.now.before line.now) }
    {
        match fault_at(self.given.alloc, self.given.conf, self.before, line) {
            Ok(kind) => LineFault::Fault(kind),
            Err(_) => LineFault::OutOfMemory,
        }
    }

    // the first line
    fn read_header(&mut self, line: &[u8]) -> Result<(), LineFault>
        requires { self.old.place ≡ places.Header }
        ensures ok { OnOk result (GoesOn self.old self.new line.now) }
        ensures err { IfErr result (FailsBehind self.old line.now) }
    {
        check_header(self.given.alloc, line, self.given.entries, self.given.stamp)?;
        self.place = Place::Slots;
        Ok(())
    }

    // the line of a key
    fn read_row(&mut self, line: &[u8]) -> Result<(), LineFault>
        requires place { self.old.place ≡ places.Slots }
        requires row { no_row self.old.before line.now ≡ false }
        ensures ok { OnOk result (GoesOn self.old self.new line.now) }
        ensures err { IfErr result (FailsBehind self.old line.now) }
    {
        let row = read_key_line(self.given, line, self.kept.last_word.as_slice())?;
        self.kept.put(row)?;
        Ok(())
    }

    // the line of the slot that is due
    fn begin_slot(&mut self, due: Slot, later: &'a [Slot], line: &[u8]) -> Result<(), LineFault>
        requires place { self.old.place ≡ places.Slots }
        requires due { self.old.due.now ≡ due ∷ later.now }
        requires row { no_row self.old.before line.now ≡ true }
        ensures ok { OnOk result (GoesOn self.old self.new line.now) }
        ensures err { IfErr result (FailsBehind self.old line.now) }
    {
        if !is_slot(due, slot_in(self.given.alloc, self.given.conf, line)?) {
            return Err(self.not_due(line));
        }
        close_slot(self.given.alloc, self.before, &mut self.kept)?;
        self.before = Some(due);
        self.due = later;
        Ok(())
    }

    // the last line
    fn read_end(&mut self, line: &[u8]) -> Result<(), LineFault>
        requires place { self.old.place ≡ places.Slots }
        requires due { self.old.due.now ≡ [] }
        requires row { no_row self.old.before line.now ≡ true }
        ensures ok { OnOk result (GoesOn self.old self.new line.now) }
        ensures err { IfErr result (FailsBehind self.old line.now) }
    {
        if line != b"end".as_slice() {
            return Err(self.not_due(line));
        }
        close_slot(self.given.alloc, self.before, &mut self.kept)?;
        self.before = None;
        self.place = Place::End;
        Ok(())
    }

    // a line that is no key's
    fn read_slot(&mut self, line: &[u8]) -> Result<(), LineFault>
        requires place { self.old.place ≡ places.Slots }
        requires row { no_row self.old.before line.now ≡ true }
        ensures ok { OnOk result (GoesOn self.old self.new line.now) }
        ensures err { IfErr result (FailsBehind self.old line.now) }
    {
        match self.due {
            [due, later @ ..] => self.begin_slot(*due, later, line),
            [] => self.read_end(line),
        }
    }

    // whether a line can't be that of a key
    fn is_no_row(&self, line: &[u8]) -> bool
        ensures { result ≡ no_row self.now.before line.now }
    {
        self.before.is_none() || ends_rows(line)
    }

    /// Reads the next line.
    pub(crate) fn read_line(&mut self, line: &[u8]) -> Result<(), LineFault>
        ensures ok { OnOk result (GoesOn self.old self.new line.now) }
        ensures err { IfErr result (FailsBehind self.old line.now) }
    {
        match self.place {
            Place::Header => self.read_header(line),
            Place::Slots => {
                if self.is_no_row(line) {
                    self.read_slot(line)
                } else {
                    self.read_row(line)
                }
            }
            Place::End => Err(form()),
        }
    }

    /// The rows that are kept of a text that ends here, behind bytes that no line feed ends.
    pub(crate) fn finish(self, held: &[u8]) -> Result<Sequence<Sequence<Row>>, LineFault>
        ensures ok { IfOk result (EndsAs self.entry held.now) }
        ensures err { IfErr result (FailsAtEnd self.entry held.now) }
    {
        match self.place {
            Place::Header => Err(LineFault::Fault(IndexFaultKind::Header)),
            Place::Slots => Err(form()),
            Place::End => {
                if held.is_empty() {
                    Ok(Sequence::from_vec(self.kept.slots))
                } else {
                    Err(form())
                }
            }
        }
    }
}
