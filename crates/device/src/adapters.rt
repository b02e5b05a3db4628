//! Std's readers and writers as sources and sinks.

ghost use Rattle.std.specs.Prelude.{◌≡◌, ◌<◌, ◌≤◌, ◌-◌, ◌^◌, true, false, [], length, take, Ok, IfOk, OnErr};
ghost use Rattle.std.specs.Option.{ForSome};
ghost use Rattle.std.specs.Io.KnownBytes.{IsAtEnd};
ghost use Rattle.device.specs.Device.{Gave, PullFailed, Took, PushFailed};

use crate::count::Count;
use crate::sink::Sink;
use crate::source::{Device, Source};
use std::io::{Read, Write};

/// A reader as a source. Contracts see its bytes where they see those of the reader, as for one in memory.
///
/// Every error of the reader is a failure, and so is a pull past 2^64 - 1 bytes. After an end it answers 0 for good.
#[derive(Drop)]
pub struct OfRead<R: Read> {
    inner: R,
    pulled: u64,
    failures: u64,
    ended: bool,
    ghost at_end: { ForSome (R.remaining inner) (λ xs. ended ≡ true → xs ≡ []) },
}

impl<R: Read> OfRead<R> {
    ghost use Rattle.device.specs.Adapters.{read_seen};

    pub fn new(inner: R) -> Self
        ensures { read_seen R.remaining result ≡ record { left = R.remaining inner; pulled = 0; failed = 0; ended = false } }
    {
        OfRead {
            inner,
            pulled: 0,
            failures: 0,
            ended: false,
        }
    }
}

impl<R: Read> Source for OfRead<R> {
    ghost use Rattle.device.specs.Adapters.{read_seen};

    ghost seen = { read_seen R.remaining };

    fn failures(&self) -> u64 {
        self.failures
    }

    fn pull(&mut self, buffer: &mut [u8]) -> Result<usize, Device>
        requires { (read_seen R.remaining self.old).failed < 2 ^ 64 - 1 }
        ensures bound { IfOk result (λ n. n ≤ length buffer.new) }
        ensures gave { IfOk result (λ n. Gave (read_seen R.remaining self.old) (read_seen R.remaining self.new) (take n buffer.new)) }
        ensures fits { IfOk result (λ _. (read_seen R.remaining self.new).pulled < 2 ^ 64) }
        ensures end { IfOk result (λ n. n ≡ 0 → 0 < length buffer.new
            → ((read_seen R.remaining self.new).ended ≡ true) × IsAtEnd (read_seen R.remaining self.new).left) }
        ensures device { OnErr result (PullFailed (read_seen R.remaining self.old) (read_seen R.remaining self.new)) }

        // Beside what the trait says: nothing comes after the end, nor where there is no room.
        ensures over { (read_seen R.remaining self.old).ended ≡ true → result ≡ Ok 0 }
        ensures empty { length buffer.old ≡ 0 → result ≡ Ok 0 }
    {
        if buffer.is_empty() || self.ended {
            return Ok(0);
        }
        let room = u64::MAX - self.pulled;
        let most = if (buffer.len() as u64) < room {
            buffer.len()
        } else {
            room as usize
        };
        if most == 0 {
            self.failures += 1;
            return Err(Device);
        }
        match self.inner.read(&mut buffer[..most]) {
            Ok(n) => {
                self.pulled += n as u64;
                self.ended = n == 0;
                Ok(n)
            }
            Err(_) => {
                self.failures += 1;
                Err(Device)
            }
        }
    }
}

/// A writer as a sink. Contracts see its bytes where they see those of the writer, as for one in memory.
///
/// Every error of the writer is a failure, and so is a write that takes nothing of something.
#[derive(Drop)]
pub struct OfWrite<W> {
    inner: W,
    count: Count,
    failures: u64,
}

impl<W: Write> OfWrite<W> {
    ghost use Rattle.device.specs.Adapters.{write_seen};

    pub fn new(inner: W) -> Self
        ensures { write_seen W.contents result ≡ record { bytes = W.contents inner; count = 0; failed = 0 } }
    {
        OfWrite {
            inner,
            count: Count::new(),
            failures: 0,
        }
    }
}

impl<W: Write> Sink for OfWrite<W> {
    ghost use Rattle.device.specs.Adapters.{write_seen};

    ghost written = { write_seen W.contents };

    fn failures(&self) -> u64 {
        self.failures
    }

    fn push(&mut self, bytes: &[u8]) -> Result<usize, Device>
        requires { (write_seen W.contents self.old).failed < 2 ^ 64 - 1 }
        ensures bound { IfOk result (λ n. n ≤ length bytes.now) }
        ensures some { IfOk result (λ n. 0 < length bytes.now → 0 < n) }
        ensures took { IfOk result (λ n. Took (write_seen W.contents self.old) (write_seen W.contents self.new) (take n bytes.now)) }
        ensures device { OnErr result (PushFailed (write_seen W.contents self.old) (write_seen W.contents self.new)) }

        // Beside what the trait says: where there is nothing to take, nothing fails.
        ensures empty { length bytes.now ≡ 0 → result ≡ Ok 0 }
    {
        if bytes.is_empty() {
            return Ok(0);
        }
        match self.inner.write(bytes) {
            Ok(0) | Err(_) => {
                self.failures += 1;
                Err(Device)
            }
            Ok(n) => {
                self.count.add(n);
                Ok(n)
            }
        }
    }
}
