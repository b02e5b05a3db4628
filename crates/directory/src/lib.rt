//! A directory: entries under a configuration, with an index that is kept with them. Records are carried out on it, and it is searched, dumped and
//! loaded. What does without the index is handed on from `databases`.
#![tactic(auto)]

mod applying;
mod directory;
mod index_texts;
mod indexing;
mod loading;
mod ordered;
mod ranks;
mod searching;

pub use applying::Edits;
pub use databases::{
    Database, EntriesByRank, Hits, LoadFault, Outcome, RecordRefusal, RunFault, Scope, Selection,
    Stamp, Tally, Target, index_texts_reflect_dumps, kept_index_texts_are_read, load_tree,
    loading_a_dump, run, scan, search_ranked, search_ranked_with, search_with, stamp_of,
};
pub use directory::Directory;
pub use loading::load;
pub use ordered::OrderedDirectory;
