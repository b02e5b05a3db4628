//! Sets of entry numbers: what each of them does, a walk through the members of one, and a set that is an ascending list.
#![tactic(auto)]

mod id_set;
mod list_set;
pub mod lists;
mod members;
pub mod words;

pub use id_set::IdSet;
pub use list_set::ListSet;
pub use members::Members;
