//! Standard error, to which reports go, what is told behind them, and a line of progress.
ghost use Rattle.std.specs.Prelude.{◌≤◌, length, IfOk};

use crate::progress::ProgressLine;
use commands::{Gauge, Tally};
use folders::{LastFailure, Uninterrupted};
use std::alloc::AllocError;
use std::cell::Cell;
use std::io::{self, ErrorKind, Read, Write};

/// Standard error. A report is written at once. What is told behind it waits for the next report, so that both take one write, but not on a terminal,
/// nor longer than the next record or the next bytes that are read or printed.
#[derive(Drop)]
pub struct StandardError<'a> {
    rt: &'a HostRuntime,
    failure: &'a LastFailure,
    line: ProgressLine<'a>,
    /// What was told and waits, if something does; else no bytes, in the room of those that waited before.
    waiting: Cell<Vec<u8>>,
    waits: Cell<bool>,
    /// Whether a record went by since it was told: its own.
    has_waited: Cell<bool>,
    /// Whether what was told could not be written: then nothing more is.
    has_failed: Cell<bool>,
}

impl<'a> StandardError<'a> {
    pub fn new(
        rt: &'a HostRuntime,
        failure: &'a LastFailure,
        line: ProgressLine<'a>,
    ) -> StandardError<'a> {
        StandardError {
            rt,
            failure,
            line,
            waiting: Cell::new(Vec::new(rt.alloc())),
            waits: Cell::new(false),
            has_waited: Cell::new(false),
            has_failed: Cell::new(false),
        }
    }

    fn take_waiting(&self) -> Vec<u8> {
        self.waits.set(false);
        self.has_waited.set(false);
        self.waiting.replace(Vec::new(self.rt.alloc()))
    }

    /// Keeps the room of bytes that wait no longer for those to come.
    fn reuse(&self, mut room: Vec<u8>) {
        room.clear();
        self.waiting.set(room);
    }

    fn write(&self, bytes: &[u8]) -> io::Result<usize>
        ensures { IfOk result (λ count. count ≤ length bytes.now) }
    {
        Uninterrupted::new(self.rt.stderr(), self.failure).write(bytes)
    }

    /// Writes what was told, unless some of it could not be written before.
    fn write_told(&self, told: &[u8]) {
        if self.has_failed.get() {
            return;
        }
        let mut stream = Uninterrupted::new(self.rt.stderr(), self.failure);
        if stream.write_all(told).is_err() {
            self.has_failed.set(true);
        }
    }

    fn write_waiting(&self) {
        if self.waits.get() {
            let told = self.take_waiting();
            self.write_told(told.as_slice());
            self.reuse(told);
        }
    }

    /// Writes what waits, and takes the line of progress away.
    pub fn settle(&self) {
        self.line.clear();
        self.write_waiting();
    }

    /// Writes a report behind what was told, and answers how many of its own bytes are written.
    fn report_behind(&self, both: &mut Vec<u8>, report: &[u8]) -> io::Result<usize>
        ensures { IfOk result (λ count. count ≤ length report.now) }
    {
        let told = both.len();
        if both.extend_from_slice(report).is_err() {
            self.write_told(both.as_slice());
            return self.write(report);
        }
        match self.write(both.as_slice()) {
            Ok(count) if count > told => Ok(count - told),
            Ok(count) => {
                self.write_told(&both[count..told]);
                self.write(report)
            }
            Err(_) => {
                self.has_failed.set(true);
                self.write(report)
            }
        }
    }

    /// Writes a report behind what waits, and answers how many of its own bytes are written.
    fn report(&self, report: &[u8]) -> io::Result<usize>
        ensures { IfOk result (λ count. count ≤ length report.now) }
    {
        self.line.clear();
        if !self.waits.get() {
            return self.write(report);
        }
        let mut told = self.take_waiting();
        let written = self.report_behind(&mut told, report);
        self.reuse(told);
        written
    }

    fn keep(&self, told: &[u8]) -> Result<(), AllocError> {
        let mut waiting = self.take_waiting();
        let kept = waiting.extend_from_slice(told);
        self.waits.set(!waiting.is_empty());
        self.waiting.set(waiting);
        kept
    }

    fn tell(&self, told: &[u8]) -> io::Result<usize>
        ensures { IfOk result (λ count. count ≤ length told.now) }
    {
        if self.line.is_on_terminal() || self.keep(told).is_err() {
            self.settle();
            self.write_told(told);
        }
        if self.has_failed.get() {
            return Err(io::Error::from(ErrorKind::Other));
        }
        Ok(told.len())
    }
}

impl Gauge for StandardError<'_> {
    fn show(&self, tally: Tally) {
        if self.has_waited.get() {
            self.write_waiting();
        }
        self.has_waited.set(self.waits.get());
        self.line.show(tally);
    }
}

/// Standard error for reports.
#[derive(Drop)]
pub struct Reports<'a> {
    pub to: &'a StandardError<'a>,
}

impl Write for Reports<'_> {
    fn write(&mut self, bytes: &[u8]) -> io::Result<usize> {
        self.to.report(bytes)
    }

    fn flush(&mut self) -> io::Result<()> {
        Ok(())
    }
}

/// Standard error for what is told behind reports.
#[derive(Drop)]
pub struct Tellings<'a> {
    pub to: &'a StandardError<'a>,
}

impl Write for Tellings<'_> {
    fn write(&mut self, bytes: &[u8]) -> io::Result<usize> {
        self.to.tell(bytes)
    }

    fn flush(&mut self) -> io::Result<()> {
        Ok(())
    }
}

/// A reader before whose bytes all that was told is written, or a writer before which also the line of progress goes away.
#[derive(Drop)]
pub struct Behind<'a, F> {
    inner: F,
    error: &'a StandardError<'a>,
}

impl<'a, F> Behind<'a, F> {
    pub fn new(inner: F, error: &'a StandardError<'a>) -> Behind<'a, F> {
        Behind { inner, error }
    }
}

impl<F: Read> Read for Behind<'_, F> {
    fn read(&mut self, buffer: &mut [u8]) -> io::Result<usize> {
        self.error.write_waiting();
        self.inner.read(buffer)
    }
}

impl<F: Write> Write for Behind<'_, F> {
    fn write(&mut self, bytes: &[u8]) -> io::Result<usize> {
        self.error.settle();
        self.inner.write(bytes)
    }

    fn flush(&mut self) -> io::Result<()> {
        self.inner.flush()
    }
}
