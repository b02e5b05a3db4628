//! Entries under a configuration, without an index that is kept with them: records carried out in turn, searches, the dump, loading it, and the
//! text of an index.
//!
//! The functions of `laws` do nothing: a call of one is made for what it states alone.
#![tactic(auto)]

mod applying;
mod database;
mod dump;
mod entries_by_rank;
mod found;
mod hits;
mod index_of_entries;
mod laws;
mod listening;
mod loading;
mod marked;
mod numbering;
mod picked;
mod placed_entries;
mod ranked_searches;
mod ranks;
mod reading_index;
mod refusal;
mod runs;
mod scanning;
mod searching;
mod selection;
mod stamps;
mod target;
mod teller;
mod untested;

pub use database::Database;
pub use dump::{pass_on, pass_on_long};
pub use entries_by_rank::EntriesByRank;
pub use found::{FoundCount, count_found};
pub use hits::Hits;
pub use laws::{
    candidates_suffice, folded_texts_fit, folded_texts_read_alike, index_texts_reflect_dumps,
    kept_index_texts_are_read, loading_a_dump, loading_a_folded_dump, ranks_are_places,
};
pub use loading::{LoadFault, load_tree, load_tree_telling};
pub use paths::Scope;
pub use ranked_searches::{search_ranked, search_ranked_with};
pub use refusal::{Outcome, RecordRefusal};
pub use runs::{RunFault, Tally, run, run_telling};
pub use scanning::{scan, search, search_by_ranks};
pub use searching::search_with;
pub use selection::Selection;
pub use stamps::{Stamp, stamp_of};
pub use target::Target;
pub use teller::{Gauge, NoGauge, NotedRecord, Silent, Teller};
