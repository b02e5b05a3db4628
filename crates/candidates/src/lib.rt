//! Candidates: of which entries a filter may be True, and of which it may be False, as far as an index shows. A search need test none but
//! the former.
//!
//! The functions of `laws` do nothing: a call of one is made for what it states alone.
#![tactic(auto)]

mod asked;
mod filters;
mod held;
mod items;
mod laws;
mod numbers;
mod side;

pub use asked::asked_keys;
pub use filters::{Bracket, candidates, may_match};
pub use laws::{asked_keys_suffice, brackets_hold, indexes_reflect_entries};
pub use numbers::Numbers;
