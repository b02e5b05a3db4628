//! The best time of several.

use crate::texts::{Grammar, Text};
use anyhow::Result;
use std::alloc::Global;
use std::rt::Clock;
use std::time::{Duration, Instant};

/// How many bytes are gone through for each best time.
const BYTES: usize = 50_000_000;

/// The best times in picoseconds a byte, and the hash of the bytes.
#[derive(Clone, Copy)]
pub(crate) struct Times {
    pub plain: u64,
    pub read: u64,
    pub hash: u64,
}

impl Times {
    /// The better of each.
    fn best(self, other: Times) -> Times {
        Times {
            plain: self.plain.min(other.plain),
            read: self.read.min(other.read),
            hash: self.hash,
        }
    }
}

/// The times of a text in its two sizes.
#[derive(Clone, Copy)]
pub(crate) struct Sizes {
    pub small: Times,
    pub large: Times,
}

impl Sizes {
    /// The better of each.
    pub(crate) fn best(self, other: Sizes) -> Sizes {
        Sizes {
            small: self.small.best(other.small),
            large: self.large.best(other.large),
        }
    }
}

/// A hash of the bytes. Each step needs the one before, so that they are gone through one by one.
fn hash_of(bytes: &[u8]) -> u64 {
    let mut hash = 0u64;
    for byte in bytes {
        hash = hash.wrapping_mul(31).wrapping_add(u64::from(*byte));
    }
    hash
}

fn picoseconds_a_byte(time: Duration, bytes: usize) -> u64 {
    let nanoseconds = time.as_nanos().min(u128::from(u64::MAX)) as u64;
    nanoseconds.saturating_mul(1000) / (bytes.max(1) as u64)
}

/// The plain loop and the reading in turn.
fn time(clock: &impl Clock, alloc: Global, grammar: Grammar, text: &str) -> Result<Times> {
    let mut best = Times {
        plain: u64::MAX,
        read: u64::MAX,
        hash: 0,
    };
    for _ in 0..BYTES / text.len().max(1) {
        let start = Instant::now(clock)?;
        best.hash = hash_of(text.as_bytes());
        let plain = start.elapsed(clock)?;
        let start = Instant::now(clock)?;
        grammar.read(alloc, text)?;
        let read = start.elapsed(clock)?;
        best.plain = best.plain.min(picoseconds_a_byte(plain, text.len()));
        best.read = best.read.min(picoseconds_a_byte(read, text.len()));
    }
    Ok(best)
}

/// A text in both sizes.
pub(crate) fn time_sizes(clock: &impl Clock, alloc: Global, text: &Text) -> Result<Sizes> {
    let small = text.spelled(alloc, text.small)?;
    let large = text.spelled(alloc, text.large)?;
    Ok(Sizes {
        small: time(clock, alloc, text.grammar, small.as_str())?,
        large: time(clock, alloc, text.grammar, large.as_str())?,
    })
}
