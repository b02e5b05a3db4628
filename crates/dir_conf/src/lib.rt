//! Reading `dir.conf`: the configuration that its lines say, or the first of its faults.
//!
//! The functions of `laws` do nothing: a call of one is made for what it states alone.
//!
//! Of what `explain` tells, these parts are only tested: where a definition can't be read and what it is called by (`ConfFlaw::Unread`), the part of
//! a suffix (`ConfFlaw::BadSuffix`), and that a word is found which stands on a further line of its definition: else the first line is told.
#![tactic(auto)]

mod class_flaws;
mod class_lines;
mod conf_fault;
mod conf_lines;
mod configuration;
mod defined;
mod explaining;
mod index_flaws;
mod index_lines;
mod later_lines;
mod laws;
mod line_flaws;
mod line_numbers;
mod reason;
mod rule_names;
mod slots;
mod suffix_lines;
mod tokens;
mod type_flaws;
mod type_lines;
mod type_rules;
mod unread;
mod word_lines;

pub use conf_fault::{ConfFault, ConfFaultKind};
pub use configuration::{read_conf, read_definitions};
pub use defined::Defined;
pub use explaining::explain;
pub use laws::{conf_faults_stand_at_lines, types_inherit_from_the_nearest};
pub use line_numbers::line_at;
pub use reason::{ConfFlaw, ConfReason, NameField, SyntaxRule, UnreadPart};
