//! Files by their paths, whatever keeps them: a folder, the lock of a file, texts that are stored, and the system's files as a folder.
#![tactic(auto)]

mod drafts;
mod folder;
mod last_failure;
mod paths;
mod placeholders;
mod reading;
mod system_files;
mod uninterrupted;

pub use folder::{Drafted, FileText, Folder, FolderFault, LockFault, Unpublished};
pub use last_failure::LastFailure;
pub use placeholders::Placeholders;
pub use reading::{Counted, Reading};
pub use system_files::{SystemDraft, SystemFiles};
pub use uninterrupted::Uninterrupted;
