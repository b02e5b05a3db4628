//! Bytes in memory, as a source and as a sink.

ghost use Rattle.std.specs.Prelude.{◌≡◌, ◌+◌, ◌-◌, ◌^◌, ◌<◌, ◌≤◌, ◌↔◌, true, nat_le, length, take, Some, [], IfSome, IsSome, MatchOption, IfOk, OnErr};
ghost use Rattle.std.specs.Io.KnownBytes.{IsAtEnd};
ghost use Rattle.device.specs.Device.{Gave, PullFailed, Took, PushFailed};

use device::{Device, Sink, Source};
use std::alloc::Global;

/// How many bytes may come or go now that `done` of them did, or `None` where the next call is to fail.
fn allowed(most: usize, fails_after: Option<usize>, done: usize) -> Option<usize>
    requires { 0 < most }
    ensures some { IfSome result (λ n. 0 < n) }
    ensures bound { IfSome result (λ n. n ≤ most) }
    ensures limit { MatchOption fails_after (IsSome result) (λ limit. IsSome result ↔ (done < limit)) }
    ensures within { IfSome fails_after (λ limit. IfSome result (λ n. done + n ≤ limit)) }
{
    match fails_after {
        None => Some(most),
        Some(limit) if limit <= done => None,
        Some(limit) => Some(most.min(limit - done)),
    }
}

/// Bytes in memory as a source.
#[derive(Drop)]
pub struct TrySource<'a> {
    bytes: &'a [u8],
    at: usize,
    most: usize,
    fails_after: Option<usize>,
    failures: u64,
    ghost in_range: { at ≤ length bytes.now },
    ghost moves: { 0 < most },
}

impl<'a> TrySource<'a> {
    ghost use Rattle.try_device.specs.Memory.{source_seen, source_most, source_limit};

    /// A source of these bytes, which gives at most `most` of them a pull.
    ///
    /// Once `fails_after` of them or more were pulled, where that is given, each pull fails.
    pub fn new(bytes: &'a [u8], most: usize, fails_after: Option<usize>) -> Self
        requires { 0 < most }
        ensures seen { source_seen result ≡ record { left = Some bytes.now; pulled = 0; failed = 0; ended = nat_le (length bytes.now) 0 } }
        ensures most { source_most result ≡ most }
        ensures limit { source_limit result ≡ fails_after }
    {
        TrySource {
            bytes,
            at: 0,
            most,
            fails_after,
            failures: 0,
        }
    }
}

impl<'a> Source for TrySource<'a> {
    ghost use Rattle.try_device.specs.Memory.{source_seen, PullsByLimit};

    ghost seen = { source_seen };

    fn failures(&self) -> u64 {
        self.failures
    }

    fn pull(&mut self, buffer: &mut [u8]) -> Result<usize, Device>
        requires { (source_seen self.old).failed < 2 ^ 64 - 1 }
        ensures bound { IfOk result (λ n. n ≤ length buffer.new) }
        ensures gave { IfOk result (λ n. Gave (source_seen self.old) (source_seen self.new) (take n buffer.new)) }
        ensures fits { IfOk result (λ _. (source_seen self.new).pulled < 2 ^ 64) }
        ensures end { IfOk result (λ n. n ≡ 0 → 0 < length buffer.new
            → ((source_seen self.new).ended ≡ true) × IsAtEnd (source_seen self.new).left) }
        ensures device { OnErr result (PullFailed (source_seen self.old) (source_seen self.new)) }

        // Beside what the trait says.
        ensures limited { PullsByLimit self.old self.new result }
    {
        let Some(most) = allowed(self.most, self.fails_after, self.at) else {
            self.failures += 1;
            return Err(Device);
        };
        let n = buffer.len().min(most).min(self.bytes.len() - self.at);
        let end = self.at + n;
        buffer[..n].copy_from_slice(&self.bytes[self.at..end]);
        self.at = end;
        Ok(n)
    }
}

/// A sink that keeps its bytes in memory.
#[derive(Drop)]
pub struct TrySink {
    bytes: Vec<u8>,
    most: usize,
    fails_after: Option<usize>,
    failures: u64,
    ghost moves: { 0 < most },
}

impl TrySink {
    ghost use Rattle.try_device.specs.Memory.{sink_written, sink_most, sink_limit};

    /// A sink that takes at most `most` bytes a push.
    ///
    /// Once it took `fails_after` bytes or more, where that is given, each push fails; so does one for which memory is wanted.
    pub fn new(alloc: Global, most: usize, fails_after: Option<usize>) -> Self
        requires { 0 < most }
        ensures written { sink_written result ≡ record { bytes = Some []; count = 0; failed = 0 } }
        ensures most { sink_most result ≡ most }
        ensures limit { sink_limit result ≡ fails_after }
    {
        TrySink {
            bytes: Vec::new(alloc),
            most,
            fails_after,
            failures: 0,
        }
    }

    /// The bytes that it took.
    pub fn bytes(&self) -> &[u8]
        ensures { (sink_written self.now).bytes ≡ Some result.now }
    {
        self.bytes.as_slice()
    }
}

impl Sink for TrySink {
    ghost use Rattle.try_device.specs.Memory.{sink_written, PushesByLimit};

    ghost written = { sink_written };

    fn failures(&self) -> u64 {
        self.failures
    }

    fn push(&mut self, bytes: &[u8]) -> Result<usize, Device>
        requires { (sink_written self.old).failed < 2 ^ 64 - 1 }
        ensures bound { IfOk result (λ n. n ≤ length bytes.now) }
        ensures some { IfOk result (λ n. 0 < length bytes.now → 0 < n) }
        ensures took { IfOk result (λ n. Took (sink_written self.old) (sink_written self.new) (take n bytes.now)) }
        ensures device { OnErr result (PushFailed (sink_written self.old) (sink_written self.new)) }

        // Beside what the trait says.
        ensures limited { PushesByLimit self.old self.new (length bytes.now) result }
    {
        let Some(most) = allowed(self.most, self.fails_after, self.bytes.len()) else {
            self.failures += 1;
            return Err(Device);
        };
        let n = bytes.len().min(most);
        if self.bytes.extend_from_slice(&bytes[..n]).is_err() {
            self.failures += 1;
            return Err(Device);
        }
        Ok(n)
    }
}
