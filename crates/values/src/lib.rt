//! Attribute types, and values as they are kept (RFC 4512).
#![tactic(auto)]

mod attribute_values;
mod many_values;
mod name_index;
mod shared_chunks;
mod table;
mod types;
mod value;
mod values_iter;

pub use attribute_values::Values;
pub use name_index::NameIndex;
pub use paths::TypeId;
pub use table::TypeTable;
pub use types::{AttributeType, EqualityRule, TypeSyntax};
pub use value::{Value, ValueFault, norm_by};
pub use values_iter::ValuesIter;
