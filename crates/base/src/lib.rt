//! What every crate stands on. Byte strings and sequences that contracts see as lists; bytes by name; how byte strings begin and end;
//! whether a byte passes a test; what may be a name and an OID (RFC 4512, 1.4); and what a call answers against what its definition says.
#![tactic(auto)]

mod byte_tests;
mod bytes;
mod class_kind;
mod ends;
mod naming;
mod sequence;

pub use byte_tests::{ByteTest, any_byte};
pub use bytes::Bytes;
pub use class_kind::ClassKind;
pub use ends::{begins_with, ends_with, without_end, without_front};
pub use naming::{is_name, is_name_or_oid, is_oid, is_type_name};
pub use sequence::Sequence;
