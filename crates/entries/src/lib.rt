//! Entries: their attributes, what holds of each, and what lines, a modify and another RDN make of one.
//!
//! The functions of `laws` do nothing: a call of one is made for what it states alone.
#![tactic(auto)]

mod attributes;
mod attributes_draft;
mod class_checks;
mod entry;
mod entry_checks;
mod kept_attributes;
mod laws;
mod modified_values;
mod modifies;
mod rdn_values;
mod refusal;
mod renames;
mod type_hashes;
mod values_draft;

pub use attributes::attributes_of_lines;
pub use class_checks::has_its_classes;
pub use entry::Entry;
pub use entry_checks::are_single;
pub use kept_attributes::{Attributes, AttributesIter};
pub use laws::{classes_are_kept, modifying_keeps_an_entry, renaming_keeps_an_entry};
pub use modifies::modified;
pub use rdn_values::add_rdn;
pub use refusal::Refusal;
pub use renames::renamed;
pub use values::Values;
