//! Sets of entry numbers for an index that is kept in memory: bits of words, and the set under a key, which is a list or words, whichever
//! serves.
#![tactic(auto)]

mod forms;
mod key_set;
mod merges;
mod word_set;
mod words;

pub use key_set::KeySet;
pub use word_set::WordSet;
