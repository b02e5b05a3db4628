//! What holds of loading a text that was sorted.
//!
//! The functions of `loading` do nothing: a call of one is made for what it states alone.
#![tactic(auto)]

mod loading;

pub use loading::{parents_are_there_first, parents_come_first};
