//! Names of entries as text (RFC 4514).
//!
//! The functions of `laws` do nothing: a call of one is made for what it states alone.
#![tactic(auto)]

mod avas;
mod ends;
mod faults;
mod laws;
mod names;
mod read;
mod split;
mod text;
mod value;
mod write;

pub use avas::Ava;
pub use ends::split_end;
pub use faults::{NameFault, NameFaultKind};
pub use laws::{
    faults_stand_where_reading_stops, spelled_names_are_read, texts_spell_one_name,
    written_names_are_read,
};
pub use names::{Name, Rdn};
pub use read::read_name;
pub use write::{put_value, write_name};
