//! Search filters as text (RFC 4515): what they are, and their reader.
//!
//! The function of `laws` does nothing: a call of it is made for what it states alone.
#![tactic(auto)]

mod comparison;
mod cursor;
mod depth;
mod descent;
mod fault;
mod filter_fault;
mod filters;
mod item_text;
mod items;
mod joining;
mod laws;
mod pieces;
mod read;
mod values;
mod words;

pub use filter_fault::{FilterFault, FilterFaultKind};
pub use filters::Filter;
pub use items::Item;
pub use laws::one_reading;
pub use read::read_filter;
