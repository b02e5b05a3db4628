//! An index that is read from its text.
//!
//! The functions of `laws` do nothing: a call of one is made for what it states alone.
#![tactic(auto)]

mod asked;
mod cuts;
mod draft;
mod fault;
mod fault_lines;
mod given;
mod header;
mod kept;
mod key_lines;
mod keys;
mod laws;
mod numbers;
mod ranks;
mod reading;
mod row;
mod slot_lines;
mod stored;
mod words;

pub use fault::{IndexFault, IndexFaultKind};
pub use fault_lines::{FaultLine, fault_line};
pub use laws::{
    faults_stand_at_lines, one_line_is_at_fault, read_texts_are_written,
    texts_at_fault_are_refused, written_texts_are_read,
};
pub use stored::StoredIndex;
