//! Why a record is refused: which check of its operation fails first, and what that is of.
//!
//! The functions of `laws` do nothing: a call of one is made for what it states alone.
#![tactic(auto)]

mod changed_values;
mod draft;
mod explain_adds;
mod explain_entries;
mod explain_lines;
mod explain_modifies;
mod explain_names;
mod explain_renames;
mod explainer;
mod laws;
mod reason;
mod renamed_attributes;
mod seen_lines;

pub use explainer::{Explanation, explain, explain_in_place};
pub use laws::{a_change_has_no_flaw, a_refusal_is_of_the_first_flaw};
pub use reason::{
    AvaReason, BlockReason, EntryReason, LineReason, NameReason, Reason, ValueReason,
};
