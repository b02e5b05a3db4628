//! Why a record or a file is refused, in sentences that a person can act on.
//!
//! Which check of a record fails is told by `reasons`, whose contract ties it to the record; what stands here is text. Each sentence is one line
//! behind two spaces: values and names are cut, and what can't be printed in them is escaped. That no control character is in a line, and that a line
//! feed ends it, is kept by the types of `lines`.
#![tactic(auto, using(crate::proofs::Pieces::shown_both, crate::proofs::Pieces::shown_decimal))]

mod class_values;
mod conf_words;
mod counts;
mod difference_words;
mod entry_words;
mod explainer;
mod failure_words;
mod index_words;
mod lacked_types;
mod ldif_words;
mod lines;
mod missing;
mod name_places;
mod name_words;
mod names;
mod obstacle_words;
mod part_words;
mod places;
mod record_parts;
mod record_words;
mod search_words;
mod shown;
mod summary;
mod telling;
mod value_words;

pub use explainer::Explainer;
pub use lines::Line;
pub use obstacle_words::obstacle_line;
