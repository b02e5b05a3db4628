//! The changes between two directories: change records that make the second of the first.
//!
//! The functions of `laws` do nothing: a call of one is made for what it states alone.
#![tactic(auto)]

mod alike;
mod as_sets;
mod attributes;
mod blocks;
mod comments;
mod comparison;
mod counts;
mod differ;
mod fixed_types;
mod laws;
mod left_attributes;
mod obstacles;
mod rdns;
mod records;
mod value_changes;
mod walk;
mod writing;

pub use comparison::Comparison;
pub use counts::{Counts, Difference};
pub use laws::{
    a_goal_exists, agreeing_directories_may_lead, all_is_the_goal, changes_are_written,
    changes_lead, changes_lead_by_text, changes_lead_exactly, clear_changes_lead_by_text,
    closed_goals_are_directories, no_class_asks_for_fixed, nothing_is_between_alike,
    sets_are_the_goal,
};
pub use obstacles::{HinderedEntry, Obstacle};
pub use writing::{find_obstacles, write_difference};
