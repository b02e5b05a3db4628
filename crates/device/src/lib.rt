//! Sources and sinks of bytes, whose contracts see the bytes and each failure.
#![tactic(auto)]

mod adapters;
mod count;
mod nowhere;
mod sink;
mod source;

pub use adapters::{OfRead, OfWrite};
pub use nowhere::Nowhere;
pub use sink::{Sink, push_all};
pub use source::{Device, Source};
