//! Values, each with its entry.

use base::Bytes;
use schema::{Path, TypeId};

/// A value of an entry (RFC 4512, 2.2).
#[derive(Drop)]
pub struct EntryValue {
    /// The path of the entry.
    pub path: Path,
    /// The type of the value.
    pub type_id: TypeId,
    /// The value as written.
    pub value: Bytes,
}
