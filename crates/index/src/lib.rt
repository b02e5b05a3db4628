//! Indexes in memory: which entries have which keys, and how a change of an entry changes that.
#![tactic(auto)]

mod batches;
mod buckets;
mod changes;
mod distinct_keys;
mod edit_count;
mod entry_keys;
mod index;
mod key_lists;
mod key_sets;
mod keyed_sets;
mod norm_fronts;
mod rows;
mod short_key;
mod stored_key;
mod whole_entries;

pub use changes::{KeyChanges, key_changes, keys_of};
pub use dense_sets::{KeySet, WordSet};
pub use id_sets::{IdSet, ListSet};
pub use index::Index;
pub use index_text::{Postings, SlotKey, SlotNumber};
pub use key_sets::Keys;
