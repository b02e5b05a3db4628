//! Object classes.

use base::{Bytes, ClassKind, Sequence};
use values::TypeId;

/// An object class (RFC 4512, 4.1.1), with what its definition names.
pub struct ObjectClass {
    /// Its numeric OID.
    pub oid: Bytes,
    /// Its names.
    pub names: Sequence<Bytes>,
    /// What it is for; structural where its definition doesn't say.
    pub kind: ClassKind,
    /// The numbers of the classes that it is derived from (SUP), in the order written.
    pub superiors: Sequence<usize>,
    /// The types that an entry of it has (MUST), in the order written.
    pub must: Sequence<TypeId>,
    /// The types that an entry of it may have (MAY), in the order written.
    pub may: Sequence<TypeId>,
}

// A call of its own, so that no other crate proves it anew.
impl Drop for ObjectClass {
    fn drop(self) {
        let ObjectClass {
            oid: _,
            names: _,
            kind: _,
            superiors: _,
            must: _,
            may: _,
        } = self;
    }
}
