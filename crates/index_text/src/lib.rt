//! What an index shows under the keys of its slots, and the lines of its text.
#![tactic(auto)]

mod postings;
mod slot_key;
mod writing;

pub use postings::{Postings, slot_number};
pub use slot_key::{SlotKey, SlotNumber};
pub use writing::{put_end, put_header, put_key, put_slot};
