//! The records of an LDIF text in another order: each behind those of the entries above it.
//!
//! The functions of `laws` do nothing: a call of one is made for what it states alone.
#![tactic(auto)]

mod heads;
mod laws;
mod normal_names;
mod records;
mod sorted;
mod stanzas;
mod turns;

pub use laws::{
    names_are_above_what_ends_in_them, records_are_in_order, stanzas_are_read_by_themselves,
    stanzas_in_order_stay, those_above_come_first,
};
pub use sorted::sort_records;
