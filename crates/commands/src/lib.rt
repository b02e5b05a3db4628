//! The commands over a directory that is kept in files, whatever keeps the files.
#![tactic(auto)]

mod changes;
mod check;
mod conf_check;
mod conf_lines;
mod database;
mod dispatch;
mod excerpt;
mod file_warnings;
mod finding;
mod index_check;
mod index_file;
mod laws;
mod ldifdiff;
mod list_text;
mod listing;
mod messages;
mod moving;
mod query;
mod searching;
mod slapcat;
mod slapindex;
mod sort;
mod storing;
mod telling;

pub use databases::{Gauge, NoGauge, Tally};
pub use dispatch::{command, command_telling};
pub use laws::sound_folders_have_no_reports;
pub use messages::{CommandFault, Status, report_fault};
