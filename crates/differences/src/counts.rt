//! How many changes there are, for people.

use crate::blocks::Block;
use ldif::Op;

/// How many entries and values are changed. No contract speaks of them.
#[derive(Clone, Copy)]
pub struct Counts {
    /// Entries that are added.
    pub added: u64,
    /// Entries that are deleted.
    pub deleted: u64,
    /// Entries whose RDN gets another spelling.
    pub renamed: u64,
    /// Entries of which attributes are changed.
    pub modified: u64,
    /// Values that modifies add by name.
    pub values_added: u64,
    /// Values that modifies delete by name.
    pub values_deleted: u64,
    /// Attributes that modifies delete whole.
    pub attributes_deleted: u64,
    /// Attributes that modifies replace.
    pub attributes_replaced: u64,
}

/// What was found between two directories.
#[derive(Clone, Copy)]
pub struct Difference {
    /// Whether there is something to change.
    pub differs: bool,
    /// What is changed.
    pub counts: Counts,
}

fn more(count: u64, by: usize) -> u64 {
    count.saturating_add(u64::try_from(by).unwrap_or(u64::MAX))
}

impl Counts {
    pub(crate) fn new() -> Counts {
        Counts {
            added: 0,
            deleted: 0,
            renamed: 0,
            modified: 0,
            values_added: 0,
            values_deleted: 0,
            attributes_deleted: 0,
            attributes_replaced: 0,
        }
    }

    fn count_block(&mut self, block: &Block<'_>) {
        let values = block.values.len();
        match block.op {
            Op::Add => self.values_added = more(self.values_added, values),
            Op::Delete if values == 0 => self.attributes_deleted = more(self.attributes_deleted, 1),
            Op::Delete => self.values_deleted = more(self.values_deleted, values),
            Op::Replace => self.attributes_replaced = more(self.attributes_replaced, 1),
        }
    }

    /// Counts a modify with these blocks.
    pub(crate) fn count_modify(&mut self, blocks: &[Block<'_>]) {
        self.modified = more(self.modified, 1);
        for i in 0..blocks.len() {
            self.count_block(&blocks[i]);
        }
    }

    pub(crate) fn count_rename(&mut self) {
        self.renamed = more(self.renamed, 1);
    }

    pub(crate) fn count_add(&mut self) {
        self.added = more(self.added, 1);
    }

    pub(crate) fn count_delete(&mut self) {
        self.deleted = more(self.deleted, 1);
    }
}
