//! What is to be found quickly: slots for the values of a type.

use values::TypeId;

/// By what a value is found.
#[derive(Clone, Copy, PartialEq, Eq, PartialOrd, Ord)]
pub enum IndexKind {
    /// By an equal value (`eq`).
    Equality,
    /// By whether there is one at all (`pres`).
    Presence,
    /// By pieces of it (`sub`).
    Substrings,
}

/// A kind of index over the values of a type. Slots are in the order of the numbers of their types, and then of their kinds.
#[derive(Clone, Copy, PartialEq, Eq, PartialOrd, Ord)]
pub struct Slot {
    pub type_id: TypeId,
    pub kind: IndexKind,
}
