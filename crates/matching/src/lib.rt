//! Syntaxes and matching rules of attribute values (RFC 4517).
//!
//! The functions of `laws` do nothing: a call of one is made for what it states alone.
#![tactic(auto)]

mod family;
mod integer;
mod laws;
mod normal;
mod order;
mod spaces;
mod substrings;
mod syntax;
mod tested_bytes;
mod wide_gaps;

pub use family::Family;
pub use laws::{integers_are_spelled, normal_forms_stay, valid_values_are_bytes};
pub use normal::{Form, normal_form};
pub use order::is_less;
pub use substrings::{Pieces, contains_pieces};
pub use syntax::{Syntax, is_valid};
