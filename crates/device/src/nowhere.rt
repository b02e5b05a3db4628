//! A sink that keeps nothing.

use crate::count::Count;
use crate::sink::Sink;
use crate::source::Device;

/// Takes any bytes, keeps none, and never fails. Contracts don't know what it took.
#[derive(Drop)]
pub struct Nowhere {
    count: Count,
}

impl Nowhere {
    pub fn new() -> Nowhere {
        Nowhere {
            count: Count::new(),
        }
    }
}

impl Sink for Nowhere {
    ghost use Rattle.std.specs.Prelude.{None};

    ghost written = { λ s. record { bytes = None; count = s.count; failed = 0 } };

    fn failures(&self) -> u64 {
        0
    }

    fn push(&mut self, bytes: &[u8]) -> Result<usize, Device> {
        self.count.add(bytes.len());
        Ok(bytes.len())
    }
}
