//! A directory under another suffix: its entries, their names, and the values of DN syntax that name something at the old suffix or below it.
//!
//! The functions of `laws` do nothing: a call of one is made for what it states alone.
#![tactic(auto)]

mod configurations;
mod copies;
mod directories;
mod laws;
mod left_values;
mod lines;
mod name_values;
mod names;
mod watcher;

pub use configurations::conf_under;
pub use directories::directory_under;
pub use laws::{
    each_entry_is_moved, entries_move_by_suffix_lines, moved_names_keep_their_places,
    suffix_lines_are_replaced, suffix_lines_say_the_suffix,
};
pub use watcher::{Unwatched, Watcher};
