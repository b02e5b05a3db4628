//! A folder in memory that tells its files, and of which one file can fail: for tests of what uses a folder.
#![tactic(auto)]

mod contents;
mod files;
mod folder;
mod run;

pub use contents::Contents;
pub use files::{Change, MemoryFiles};
pub use folder::{FileTrouble, MemoryDraft, MemoryFolder};
pub use run::run_command;
