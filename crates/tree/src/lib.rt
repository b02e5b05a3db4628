//! The tree of a directory, and what a record does to it.
//!
//! The functions of `laws` do nothing, and neither do `Tree::entries_are_a_directory` and `entries_are_numbered`: a call of one is
//! made for what it states alone.
#![tactic(auto)]

mod cells;
mod laws;
mod lent;
mod moves;
mod names;
mod naming;
mod plan_add;
mod plan_delete;
mod plan_modify;
mod plan_rename;
mod planner;
mod plans;
mod range;
mod tree;

pub use entries::{Entry, Refusal};
pub use laws::{
    adding_keeps_a_directory, an_entry_adds_itself, empty_is_a_directory, moving_keeps_a_directory,
    moving_takes_all_along, own_content_is_written, removing_keeps_a_directory,
    replacing_keeps_a_directory,
};
pub use lent::LentTree;
pub use names::Names;
pub use planner::plan;
pub use plans::Plan;
pub use range::{Below, NumberedEntries};
pub use tree::Tree;
