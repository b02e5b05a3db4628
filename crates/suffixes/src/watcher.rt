//! Who takes note of an entry that can't be added.

use ldif::Record;
use schema::Code;
use std::alloc::Global;
use tree::LentTree;

/// Takes note of an entry that can't be added under another suffix. What becomes of the entries doesn't depend on it.
pub trait Watcher {
    /// Takes note of the record that an entry would be added by, and of its code. The entries are those that were added before it, under the
    /// configuration that they were added under.
    fn note(&mut self, alloc: Global, lent: LentTree<'_>, asked: &Record<'_>, code: Code);
}

/// Takes note of nothing.
#[derive(Drop)]
pub struct Unwatched;

impl Watcher for Unwatched {
    fn note(&mut self, _alloc: Global, _lent: LentTree<'_>, _asked: &Record<'_>, _code: Code) {}
}
