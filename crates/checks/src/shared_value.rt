//! Values, each with all entries that have it.

use base::{Bytes, Sequence};
use schema::Path;

/// A value that several entries have.
#[derive(Drop)]
pub struct SharedValue {
    /// The value as the first of the entries spells it.
    pub value: Bytes,
    /// The paths of the entries, in the order of the dump.
    pub paths: Sequence<Path>,
}
