//! The schema of another server as lines of a `dir.conf`: which definitions stand in its text, and what is printed of them.
#![tactic(auto)]

mod alike;
mod definition;
mod expanding;
mod fields;
mod growth;
mod kept;
mod lines;
mod macros;
mod remarks;
mod repair;
mod sources;
mod stated;
mod statements;
mod taking;
mod transfer;

pub use definition::{Definition, Sort};
pub use transfer::{Transfer, transfer_schema};
