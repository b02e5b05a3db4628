//! How far a command is, on one line of a terminal.

use commands::Tally;
use folders::Reading;
use std::alloc::{AllocError, Global};
use std::cell::Cell;
use std::io::Write;
use std::time::{Duration, Instant};

/// The clock is looked at when so many records went by, or so many bytes were read.
const RECORDS_A_LOOK: u64 = 64;

const BYTES_A_LOOK: u64 = 65_536;

/// For how many milliseconds a line stands at least.
const PERIOD: u64 = 100;

/// The most bytes of a line, for a terminal of 80 columns.
const WIDTH: usize = 79;

/// Shows how far a run is on the terminal that standard error is, at most ten times a second. The line goes away before anything else is written.
#[derive(Drop)]
pub struct ProgressLine<'a> {
    rt: &'a HostRuntime,
    reading: &'a Reading,
    /// How many bytes the line has that stands there, if one does.
    width: Cell<usize>,
    /// How many records went by since the clock was looked at.
    passed: Cell<u64>,
    /// How much had been read then.
    bytes: Cell<u64>,
    /// When the line was written last, or the first record went by.
    written: Cell<Option<Instant>>,
}

/// A number of bytes in MB, with one decimal.
fn megabytes(alloc: Global, bytes: u64) -> Result<String, AllocError> {
    let (whole, tenths) = (bytes / 1_000_000, bytes / 100_000 % 10);
    format!(in alloc; "{whole}.{tenths}")
}

/// How much was read, and what became of the records.
fn line_text(alloc: Global, reading: &Reading, tally: Tally) -> Result<String, AllocError> {
    let read = megabytes(alloc, reading.bytes())?;
    let Tally { accepted, refused } = tally;
    let records = accepted.saturating_add(refused);
    match reading.size() {
        Some(size) => {
            let size = megabytes(alloc, size)?;
            format!(in alloc;
                "{read} of {size} MB: {records} records, {accepted} accepted, {refused} refused"
            )
        }
        None => {
            format!(in alloc;
                "{read} MB: {records} records, {accepted} accepted, {refused} refused"
            )
        }
    }
}

/// From the first column on a text, at most as wide as a terminal, and spaces over what is left of a line of `width` bytes. Answers the bytes, and how
/// wide the text is.
fn over(alloc: Global, text: &str, width: usize) -> Result<(Vec<u8>, usize), AllocError> {
    let mut bytes = Vec::new(alloc);
    bytes.push(b'\r')?;
    for byte in text.bytes().take(WIDTH) {
        bytes.push(byte)?;
    }
    let shown = text.len().min(WIDTH);
    for _ in shown..width {
        bytes.push(b' ')?;
    }
    Ok((bytes, shown))
}

impl<'a> ProgressLine<'a> {
    /// No line stands there. It never does where the reading isn't wanted.
    pub fn new(rt: &'a HostRuntime, reading: &'a Reading) -> ProgressLine<'a> {
        ProgressLine {
            rt,
            reading,
            width: Cell::new(0),
            passed: Cell::new(0),
            bytes: Cell::new(0),
            written: Cell::new(None),
        }
    }

    /// Whether so much went by since the clock was looked at that it is looked at again.
    fn is_look_due(&self) -> bool {
        let passed = self.passed.get().saturating_add(1);
        let bytes = self.reading.bytes();
        let is_due = passed >= RECORDS_A_LOOK || bytes.abs_diff(self.bytes.get()) >= BYTES_A_LOOK;
        if is_due {
            self.passed.set(0);
            self.bytes.set(bytes);
        } else {
            self.passed.set(passed);
        }
        is_due
    }

    /// Whether the line stood long enough. Where none stands as yet, the time is counted from the first look on.
    fn is_line_due(&self) -> bool {
        let Ok(now) = Instant::now(self.rt) else {
            return false;
        };
        match self.written.get() {
            Some(written) if now.duration_since(written) < Duration::from_millis(PERIOD) => false,
            before => {
                self.written.set(Some(now));
                before.is_some()
            }
        }
    }

    /// Writes a text in place of the line that stands there.
    fn write(&self, text: &str) {
        if let Ok((bytes, width)) = over(self.rt.alloc(), text, self.width.get()) {
            self.width.set(width);
            let _ = self.rt.stderr().write(bytes.as_slice());
        }
    }

    /// Takes the line away, if one stands there.
    pub fn clear(&self) {
        if self.width.get() > 0 {
            self.write("");
            let _ = self.rt.stderr().write(b"\r");
        }
    }

    /// Whether standard error is a terminal.
    pub fn is_on_terminal(&self) -> bool {
        self.reading.is_wanted()
    }

    /// Shows how far a run is, if it is time to.
    pub fn show(&self, tally: Tally) {
        if self.is_on_terminal() && self.is_look_due() && self.is_line_due() {
            if let Ok(text) = line_text(self.rt.alloc(), self.reading, tally) {
                self.write(text.as_str());
            }
        }
    }
}
