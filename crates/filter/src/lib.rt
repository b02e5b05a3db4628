//! Filters prepared against a configuration, and what they say of an entry (RFC 4511, 4.5.1.7).
//!
//! The functions of `laws` do nothing: a call of one is made for what it states alone.
#![tactic(auto)]

mod assertion;
mod laws;
mod meter;
mod prepare_item;
mod prepared;
mod prepared_filter;
mod prepared_item;
mod preparing;
mod truth;

pub use assertion::Assertion;
pub use filter_text::{Filter, FilterFault, FilterFaultKind, Item, read_filter};
pub use laws::{
    negating_twice_changes_nothing, orders_are_told, pieces_are_told, prepared_filters_say_the_same,
};
pub use meter::Meter;
pub use prepared::Prepared;
pub use prepared_filter::PreparedFilter;
pub use prepared_item::PreparedItem;
pub use preparing::prepare;
pub use truth::Truth;
