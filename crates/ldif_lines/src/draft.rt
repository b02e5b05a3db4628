//! A record that is read up to some place.

ghost use Rattle.std.specs.Prelude.{◌≡◌, ◌<◌, ◌-◌, ◌+◌, [], ℕ, true, false, length, OnOk, IfOk, Ok, take};
ghost use Rattle.ldif_lines.specs.inner.Drafts.{add};
ghost use Rattle.ldif_lines.specs.View.{view};
ghost use Rattle.ldif_lines.specs.inner.States.{ends_with_return};
ghost use Rattle.std.specs.Str.Lines.{strip_carriage_return};

use crate::raw_record::RawRecord;
use base::begins_with;
use std::alloc::{AllocError, Global};
use std::mem;

/// The bytes without one carriage return at their end, and whether there was one.
fn split_return(bytes: &[u8]) -> (&[u8], bool)
    ensures front { result.0.now ≡ strip_carriage_return bytes.now }
    ensures after_return { result.1 ≡ ends_with_return bytes.now }
{
    match bytes {
        [front @ .., b'\r'] => (front, true),
        _ => (bytes, false),
    }
}

/// A record that is read, up to some place within a line.
pub struct RecordDraft {
    pub record: RawRecord,
    pub in_comment: bool,
    /// Whether bytes of the line were taken.
    pub in_line: bool,
    ghost kept: { in_line ≡ true → in_comment ≡ false → 0 < length record.lines },
    ghost numbered: { length record.numbers.items ≡ length record.lines },
}

// A call of its own, so that no other crate proves it anew.
impl Drop for RecordDraft {
    fn drop(self) {
        let RecordDraft {
            record: _,
            in_comment: _,
            in_line: _,
        } = self;
    }
}

impl RecordDraft {
    ghost use Rattle.ldif_lines.specs.inner.View.{draft_of, state_of};
    ghost use Rattle.ldif_lines.specs.inner.States.{settle, raw_of, next_state, HasNoFeed};
    ghost use Rattle.ldif_lines.specs.inner.DraftSteps.{HasMore, GoesOnBehindLine, EndsWithLine, EndsWithNone, EndsWithOne};
    ghost use Rattle.ldif_lines.specs.inner.Moves.{GoesOn};

    /// A record without lines, which is the text's first or not.
    pub fn new(alloc: Global, first: bool) -> Self
        ensures state { (count : ℕ) → state_of result false count ≡ record (next_state count) { first = first } }
        ensures empty { result.record.lines ≡ [] }
    {
        RecordDraft {
            record: RawRecord::new(alloc, first),
            in_comment: false,
            in_line: false,
        }
    }

    /// Begins a record anew, in the memory that it has.
    pub fn restart(&mut self, first: bool)
        ensures state { (count : ℕ) → state_of self.new false count ≡ record (next_state count) { first = first } }
        ensures empty { self.new.record.lines ≡ [] }
    {
        self.in_comment = false;
        self.in_line = false;
        self.record.line = 0;
        self.record.first = first;
        self.record.clear();
    }

    /// Takes over the memory of another record, where this one has no line.
    pub fn reuse(&mut self, used: RawRecord)
        ensures lines { self.new.record.lines ≡ self.old.record.lines }
    {
        if self.record.lines.is_empty() {
            let RawRecord {
                line: _,
                first: _,
                mut lines,
                mut numbers,
            } = used;
            lines.clear();
            numbers.clear();
            self.record.lines = lines;
            self.record.numbers = numbers;
        }
    }

    /// Takes the first bytes of a line.
    #[tactic(auto, unfolding(crate::specs::inner::Drafts::add_by))]
    fn begin(&mut self, number: u64, line: &[u8]) -> Result<(), AllocError>
        requires some { 0 < length line.now }
        requires outside { self.old.in_line ≡ false }
        ensures draft { OnOk result (draft_of self.new ≡ add (draft_of self.old) (number, line.now)) }
        ensures same { OnOk result ((self.new.record.first ≡ self.old.record.first) × (self.new.in_line ≡ true)) }
    {
        let continues = begins_with(line, b' ');
        if continues && self.in_comment {
            self.in_line = true;
            return Ok(());
        }
        if continues && !self.record.lines.is_empty() {
            self.record.lines.extend_last(&line[1..])?;
            self.in_line = true;
            return Ok(());
        }
        if begins_with(line, b'#') {
            self.in_comment = true;
            self.in_line = true;
            return Ok(());
        }
        if self.record.lines.is_empty() {
            self.record.line = number;
        }
        self.record.push(number, line)?;
        self.in_comment = false;
        self.in_line = true;
        Ok(())
    }

    /// Takes bytes of the line that has this number.
    fn put(&mut self, number: u64, bytes: &[u8]) -> Result<(), AllocError>
        requires some { 0 < length bytes.now }
        ensures { OnOk result (HasMore self.old self.new number bytes.now) }
    {
        if !self.in_line {
            self.begin(number, bytes)?;
            return Ok(());
        }
        if self.in_comment {
            return Ok(());
        }
        self.record.lines.extend_last(bytes)?;
        Ok(())
    }

    /// A carriage return that waits belongs to the line.
    fn settle(&mut self, number: u64, after_return: bool) -> Result<(), AllocError>
        ensures { OnOk result ((count : ℕ) → (after_return ≡ true → number ≡ count + 1) → state_of self.new false count ≡ settle (state_of self.old after_return count)) }
    {
        if !after_return {
            return Ok(());
        }
        self.put(number, b"\r")?;
        Ok(())
    }

    /// Takes bytes of the line that has this number, up to its end or a cut. `after_return` says whether a carriage return waits
    /// that may belong to the line's end, as does the answer.
    pub fn take(
        &mut self,
        number: u64,
        after_return: bool,
        bytes: &[u8],
    ) -> Result<bool, AllocError>
        requires { HasNoFeed bytes.now }
        ensures { IfOk result (λ waits. (count : ℕ) → number ≡ count + 1 → GoesOn (state_of self.old after_return count) bytes.now (state_of self.new waits count)) }
    {
        if bytes.is_empty() {
            return Ok(after_return);
        }
        self.settle(number, after_return)?;
        let (front, waits) = split_return(bytes);
        if front.is_empty() {
            return Ok(waits);
        }
        self.put(number, front)?;
        Ok(waits)
    }

    /// Takes the end of a line: whether a record ends there.
    pub fn end_line(&mut self) -> bool
        ensures goes_on { result ≡ false → GoesOnBehindLine self.old self.new }
        ensures ends { result ≡ true → EndsWithLine self.old self.new }
    {
        if self.in_line {
            self.in_line = false;
            return false;
        }
        if !self.record.lines.is_empty() {
            return true;
        }
        self.in_comment = false;
        false
    }

    /// Takes the end of the text: whether a record ends there.
    pub fn finish(&mut self, number: u64, after_return: bool) -> Result<bool, AllocError>
        ensures none { result ≡ Ok false → (count : ℕ) → (after_return ≡ true → number ≡ count + 1) → EndsWithNone self.old self.new after_return count }
        ensures empty { result ≡ Ok false → self.new.record.lines ≡ [] }
        ensures some { result ≡ Ok true → (count : ℕ) → (after_return ≡ true → number ≡ count + 1) → EndsWithOne self.old self.new after_return count }
    {
        self.settle(number, after_return)?;
        if self.record.lines.is_empty() {
            self.in_line = false;
            self.in_comment = false;
            return Ok(false);
        }
        Ok(true)
    }

    /// The record, and makes a new one.
    pub fn take_record(&mut self, alloc: Global) -> RawRecord
        ensures record { (count : ℕ) → view result ≡ raw_of (state_of self.old false count) }
        ensures state { (count : ℕ) → state_of self.new false count ≡ next_state count }
        ensures empty { self.new.record.lines ≡ [] }
    {
        self.in_comment = false;
        self.in_line = false;
        mem::replace(&mut self.record, RawRecord::new(alloc, false))
    }
}
