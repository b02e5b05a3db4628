//! The records of a source, one a call.

ghost use Rattle.std.specs.Prelude.{◌≡◌, ◌<◌, ◌≤◌, ◌+◌, ◌-◌, ◌^◌, ◌∷◌, [], true, false, length, OnOk, OnErr, Ok, Err, None, option_map};
ghost use Rattle.std.specs.Option.{ForSome};
ghost use Rattle.std.specs.Io.KnownBytes.{IsAtEnd};
ghost use Rattle.std.specs.List.{sum_by};
ghost use Rattle.device.specs.Device.{PullFailed};
ghost use Rattle.ldif_lines.specs.Records.{records};
ghost use Rattle.ldif_lines.specs.View.{view};
ghost use Rattle.ldif_lines.specs.inner.States.{gives, raw_of};

use crate::draft::RecordDraft;
use crate::raw_record::RawRecord;
use crate::taken::take_lines;
use device::{Device, Source};
use std::alloc::{AllocError, Global};
use std::mem;
use thiserror::Error;

/// Why there is no next record.
#[derive(Debug, Drop, Error)]
pub enum ReadFault {
    /// The source failed in this call.
    #[error("the source failed")]
    Device,
    #[error("out of memory")]
    OutOfMemory,
    /// An earlier call answered a fault.
    #[error("an earlier read failed")]
    Failed,
}

/// How the text goes on.
#[derive(Clone, Copy)]
enum Found {
    /// A record that an empty line ends.
    Closed,
    /// A record that the text's end ends.
    Last,
    Nothing,
}

/// Reads the records of a source, in order (RFC 2849).
///
/// It keeps the loan of the source until it is dropped, pulls at most 8,192 bytes at a time, only where the bytes that it holds
/// close no record, and never behind the source's end. After a fault it has failed for good.
pub struct Reader<'a, S: Source, T: Drop = RecordDraft> {
    source: &'a mut S,
    piece: [u8; 8192],
    /// The record that it is in.
    draft: T,
    alloc: Global,
    /// The lines before the one that is read.
    count: u64,
    /// Whether no record was read yet.
    first: bool,
    /// Where the bytes of the piece that are not yet taken begin, and where they end.
    at: usize,
    end: usize,
    /// Whether a carriage return was taken that may belong to the line's end.
    after_return: bool,
    /// Whether the source's end was met.
    at_end: bool,
    failed: bool,
    ghost in_range: { at ≤ end },
    ghost in_piece: { end ≤ 8192 },
    ghost counted: { count + (end - at) ≤ (S.seen source.now).pulled },
    ghost waits: { after_return ≡ true → count + (end - at) < (S.seen source.now).pulled },
    ghost fits: { at < end → (S.seen source.now).pulled < 2 ^ 64 },
    ghost end_fits: { at_end ≡ true → (S.seen source.now).pulled < 2 ^ 64 },
    ghost none_left: { ForSome (S.seen source.now).left (λ bytes. at_end ≡ true → bytes ≡ []) },
}

impl<S: Source, T: Drop> Drop for Reader<'_, S, T> {
    fn drop(self)
        ensures { self.exit.0.now ≡ self.entry.source.now }
    {
        let Reader {
            source,
            piece,
            draft,
            alloc,
            count,
            first,
            at,
            end,
            after_return,
            at_end,
            failed,
        } = self;
        drop(draft);
        let _ = (piece, alloc, count, first, at, end);
        let _ = (after_return, at_end, failed);
        let _ = source;
    }
}

impl<'a, S: Source> Reader<'a, S> {
    ghost use Rattle.ldif_lines.specs.Reader.{source_of, loan_of, is_failed, has_ended, unread, next_is_first, next_number, lines_begun, records_left, bytes_left, AtSamePlace};
    ghost use Rattle.ldif_lines.specs.Steps.{KeepsToSource, TellsRecord, TellsFault};
    ghost use Rattle.ldif_lines.specs.inner.ReaderStates.{state, Moves, EndsItsBlock, HoldsPulled, LeavesSource, LeavesRecord, Searched, TellsEnd, TellsWhy};

    /// A reader of the records of what is left of `source`.
    #[tactic(auto, unfolding(crate::specs::Reader::records_left, crate::specs::Reader::bytes_left))]
    pub fn new(alloc: Global, source: &'a mut S) -> Reader<'a, S>
        ensures same_loan { loan_of result ≡ source.entry.ghost_name }
        ensures source { source_of result ≡ source.old }
        ensures records { records_left S.seen result ≡ option_map records (S.seen source.old).left }
        ensures place { (next_number result ≡ 1) × (next_is_first result ≡ true) × (unread result ≡ []) × (has_ended result ≡ false) }
        ensures begun { lines_begun result ≡ [] }
        ensures fresh { is_failed result ≡ false }
        ensures bound { bytes_left S.seen result ≤ 2 ^ 64 }
    {
        Reader {
            source,
            piece: [0; 8192],
            draft: RecordDraft::new(alloc, true),
            alloc,
            count: 0,
            first: true,
            at: 0,
            end: 0,
            after_return: false,
            at_end: false,
            failed: false,
        }
    }

    /// Takes held bytes up to a line's end or the last: whether a record ends there.
    fn advance(&mut self) -> Result<bool, AllocError>
        requires { self.old.at < self.old.end }
        ensures kept { LeavesSource self.old self.new }
        ensures falls { OnOk result (self.old.at < self.new.at) }
        ensures end { self.new.end ≡ self.old.end }
        ensures moved { result ≡ Ok false → Moves S.seen self.old self.new }
        ensures ended { result ≡ Ok true → EndsItsBlock S.seen self.old self.new }
        ensures settled { result ≡ Ok true → self.new.after_return ≡ false }
    {
        let mut draft = mem::replace(&mut self.draft, RecordDraft::new(self.alloc, false));
        let taken = take_lines(
            &mut draft,
            self.count,
            self.after_return,
            &self.piece[self.at..self.end],
        );
        self.draft = draft;
        let taken = taken?;
        self.at += taken.len;
        self.count = taken.count;
        self.after_return = taken.after_return;
        Ok(taken.ended)
    }

    /// Pulls bytes where none is held, unless the source's end was met: whether some came.
    fn pull(&mut self) -> Result<bool, Device>
        requires fine { (S.seen (source_of self.old)).failed < 2 ^ 64 - 1 }
        requires none { self.old.end ≤ self.old.at }
        ensures kept { LeavesRecord self.old self.new }
        ensures moved { OnOk result (Moves S.seen self.old self.new) }
        ensures some { result ≡ Ok true → HoldsPulled S.seen self.old self.new }
        ensures fits { OnOk result ((S.seen (source_of self.new)).pulled < 2 ^ 64) }
        ensures more { result ≡ Ok true → self.new.at_end ≡ self.old.at_end }
        ensures ended { self.old.at_end ≡ true → source_of self.new ≡ source_of self.old }
        ensures end { result ≡ Ok false → IsAtEnd (S.seen (source_of self.new)).left × (self.new.end ≤ self.new.at) × (self.new.at_end ≡ true) }
        ensures device { OnErr result (PullFailed (S.seen (source_of self.old)) (S.seen (source_of self.new)) × (self.new.end ≤ self.new.at) × (self.old.at_end ≡ false)) }
    {
        if self.at_end {
            return Ok(false);
        }
        let n = self.source.pull(&mut self.piece)?;
        self.at = 0;
        self.end = n;
        self.at_end = n == 0;
        Ok(n > 0)
    }

    /// Takes the end of the text, where no byte is held: whether a record ends there.
    fn last(&mut self) -> Result<bool, AllocError>
        requires none { self.old.end ≤ self.old.at }
        requires fits { (S.seen (source_of self.old)).pulled < 2 ^ 64 }
        ensures kept { LeavesSource self.old self.new }
        ensures unread { unread self.new ≡ unread self.old }
        ensures settled { OnOk result (self.new.after_return ≡ false) }
        ensures none { result ≡ Ok false → (gives false (state self.old) [] ≡ []) × (gives false (state self.new) [] ≡ []) × (lines_begun self.new ≡ []) }
        ensures some { result ≡ Ok true → gives false (state self.old) [] ≡ raw_of (state self.new) ∷ [] }
    {
        let number = if self.after_return { self.count + 1 } else { 0 };
        let mut draft = mem::replace(&mut self.draft, RecordDraft::new(self.alloc, false));
        let ended = draft.finish(number, self.after_return);
        self.draft = draft;
        let ended = ended?;
        self.after_return = false;
        Ok(ended)
    }

    /// Goes on to the end of a record.
    fn find(&mut self) -> Result<Found, ReadFault>
        requires { (S.seen (source_of self.old)).failed < 2 ^ 64 - 1 }
        ensures kept { Searched S.seen self.old self.new }
        ensures found { TellsEnd S.seen self.old self.new result }
        ensures fault { TellsWhy S.seen self.old self.new result }
    {
        loop {
            if self.at < self.end {
                match self.advance() {
                    Ok(true) => return Ok(Found::Closed),
                    Ok(false) => {}
                    Err(_) => return Err(ReadFault::OutOfMemory),
                }
            } else {
                match self.pull() {
                    Ok(true) => {}
                    Ok(false) => match self.last() {
                        Ok(true) => return Ok(Found::Last),
                        Ok(false) => return Ok(Found::Nothing),
                        Err(_) => return Err(ReadFault::OutOfMemory),
                    },
                    Err(Device) => return Err(ReadFault::Device),
                }
            }
        }
    }

    /// The record that was found.
    fn give(&mut self) -> RawRecord
        requires { self.old.after_return ≡ false }
        ensures same_loan { loan_of self.new ≡ loan_of self.old }
        ensures source { source_of self.new ≡ source_of self.old }
        ensures record { view result ≡ raw_of (state self.old) }
        ensures unread { unread self.new ≡ unread self.old }
        ensures place { (self.new.count ≡ self.old.count) × (self.new.first ≡ false) × (self.new.failed ≡ self.old.failed) × (self.new.at_end ≡ self.old.at_end) }
        ensures begun { lines_begun self.new ≡ [] }
    {
        self.first = false;
        let mut draft = mem::replace(&mut self.draft, RecordDraft::new(self.alloc, false));
        let record = draft.take_record(self.alloc);
        self.draft = draft;
        record
    }

    /// The next record, or `None` where no record is left.
    ///
    /// `Device` comes where the source failed in this call, and only after each record whose closing empty line was pulled,
    /// `OutOfMemory` where memory is wanted, and `Failed` for each call after either of them, which leaves the source as it is.
    pub fn next(&mut self) -> Result<Option<RawRecord>, ReadFault>
        requires { (S.seen (source_of self.old)).failed < 2 ^ 64 - 1 }
        ensures source { KeepsToSource S.seen self.old self.new }
        ensures told { TellsRecord S.seen self.old self.new result }
        ensures fault { TellsFault S.seen self.old self.new result }
    {
        if self.failed {
            return Err(ReadFault::Failed);
        }
        self.draft.restart(self.first);
        self.after_return = false;
        match self.find() {
            Ok(Found::Nothing) => Ok(None),
            Ok(Found::Closed) => Ok(Some(self.give())),
            Ok(Found::Last) => Ok(Some(self.give())),
            Err(fault) => {
                self.failed = true;
                Err(fault)
            }
        }
    }

    /// Takes back a record that was read, so that the next one can use its memory.
    #[tactic(auto, unfolding(crate::specs::Reader::records_left, crate::specs::Reader::bytes_left))]
    pub fn reuse(&mut self, record: RawRecord)
        ensures same_loan { loan_of self.new ≡ loan_of self.old }
        ensures source { source_of self.new ≡ source_of self.old }
        ensures records { records_left S.seen self.new ≡ records_left S.seen self.old }
        ensures bytes { bytes_left S.seen self.new ≡ bytes_left S.seen self.old }
        ensures failed { is_failed self.new ≡ is_failed self.old }
        ensures place { AtSamePlace self.new self.old }
        ensures begun { lines_begun self.new ≡ lines_begun self.old }
    {
        self.draft.reuse(record);
    }

    /// The record that it is in. It has no line, unless a call failed.
    pub fn begun(&self) -> &RawRecord
        ensures { result.now.lines ≡ lines_begun self.now }
    {
        &self.draft.record
    }

    /// How many bytes it holds: those of the piece that are not taken, and those of the lines of `begun`.
    pub fn held(&self) -> u64
        ensures held { result ≡ length (unread self.now) + sum_by length (lines_begun self.now) }
        ensures piece { length (unread self.now) ≤ 8192 }
    {
        let unread = &self.piece[self.at..self.end];
        unread.len() as u64 + self.draft.record.lines.byte_len() as u64
    }
}
