//! A source and a sink over bytes in memory, which can fail: for tests of what uses a device.
#![tactic(auto)]

mod memory;

pub use memory::{TrySink, TrySource};
