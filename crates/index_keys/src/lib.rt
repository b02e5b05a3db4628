//! Which keys an entry has under the slots of a configuration, and those of all entries with their ranks, in order: the rows of an index text,
//! made without an index.
//!
//! The functions of `laws` do nothing: a call of one is made for what it states alone.
#![tactic(auto)]

mod gathering;
mod laws;
mod norm_key;
mod norms;
mod ranked_key;
mod ranked_norm;
mod ranked_window;
mod rows;
mod type_norms;
mod windows;

pub use gathering::{bytes_of, ranked_norms, ranked_presence, ranked_windows};
pub use laws::{keys_are_told, windows_stand_in_texts};
pub use norms::Norms;
pub use ranked_key::RankedKey;
pub use ranked_norm::RankedNorm;
pub use ranked_window::RankedWindow;
pub use rows::put_row;
pub use type_norms::{Numbered, NumberedNorm, TypeNorms, norms_for};
pub use windows::first_window;
