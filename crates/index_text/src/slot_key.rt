//! Keys under slots.

use base::Bytes;

/// A slot, by its place among those of the configuration.
#[derive(Clone, Copy, PartialEq, Eq, PartialOrd, Ord)]
pub struct SlotNumber(pub usize);

/// A key under a slot. They are ordered by slot, and then by the bytes of the key.
#[derive(PartialEq, Eq, PartialOrd, Ord)]
pub struct SlotKey {
    pub slot: SlotNumber,
    pub key: Bytes,
}

// A call of its own, so that no other crate proves it anew.
impl Drop for SlotKey {
    fn drop(self) {
        let SlotKey { slot: _, key: _ } = self;
    }
}
