//! Paths of files, and the names of drafts beside them.

use std::alloc::{AllocError, Global};

/// The path of the folder of a file, and the file's name in it.
pub fn parted(path: &str) -> (&str, &str) {
    match path.rsplit_once('/') {
        Some(("", name)) => ("/", name),
        Some((folder, name)) => (folder, name),
        None => (".", path),
    }
}

/// A file's name, or some 200 bytes of it where it is longer: a name has 255 bytes at most, and that of a draft has more behind it.
fn shortened(name: &str) -> &str {
    for end in [200, 199, 198, 197] {
        if let Some(beginning) = name.get(..end) {
            return beginning;
        }
    }
    name
}

/// How the names of all drafts of a file begin. A number stands behind it.
pub fn draft_stem(alloc: Global, name: &str) -> Result<String, AllocError> {
    let name = shortened(name);
    format!(in alloc; ".{name}.slaptools")
}

/// Whether this is the name of a draft: its stem, and a number.
pub fn is_draft_name(stem: &str, name: &str) -> bool {
    match name.strip_prefix(stem) {
        Some(number) => !number.is_empty() && number.bytes().all(|b| b.is_ascii_digit()),
        None => false,
    }
}
