//! What may be wrong with a directory that no record is refused for: values that name entries that aren't there, and values that several
//! entries have; and how it is reported, in lines that scripts read.
//!
//! The functions of `laws` do nothing: a call of one is made for what it states alone.
#![tactic(auto)]

mod conf_faults;
mod entry_value;
mod file_names;
mod finder;
mod finding_faults;
mod holders;
mod index_differences;
mod known_rules;
mod laws;
mod lost_names;
mod near_names;
mod passwords;
mod references;
mod reports;
mod shared_value;
mod sharing;
mod type_names;
mod warnings;

pub use conf_faults::{ConfFaults, ConfLineFault, FoundFault, commented, report_faults};
pub use entry_value::EntryValue;
pub use finding_faults::find_faults;
pub use index_differences::slot_and_key_of_difference;
pub use laws::{
    dangling_values_are_told, known_rules_are_read, left_out_faults_are_counted,
    shared_values_are_told,
};
pub use passwords::has_passwords;
pub use references::find_dangling;
pub use reports::{put_report, report_dangling, report_refused, report_shared};
pub use shared_value::SharedValue;
pub use sharing::find_shared;
pub use type_names::{TypesFault, types_named};
pub use warnings::report_warnings;
