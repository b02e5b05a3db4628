//! RDNs of types by their numbers; paths: where entries stand, in the order of a dump; and which of them a search looks at.
//!
//! The functions of `laws` do nothing: a call of one is made for what it states alone.
#![tactic(auto)]

mod draft;
mod laws;
mod packing;
mod path;
mod scope;
mod type_id;

pub use draft::PathDraft;
pub use laws::order_of_paths;
pub use path::{Path, RdnKey, TypedRdn};
pub use scope::Scope;
pub use type_id::TypeId;
