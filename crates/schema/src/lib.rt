//! The configuration of a directory: its attribute types, object classes, suffix and indexes, and where names stand.
//!
//! The functions of `laws` do nothing, and neither does `Conf::rules_are_kept`: a call of one is made for what it states alone.
#![tactic(auto)]

mod class_readers;
mod class_table;
mod code;
mod conf;
mod derived;
mod dn_values;
mod fault;
mod laws;
mod locate;
mod names;
mod object_class;
mod rdns;
mod settled;
mod slots;
mod syntaxes;
mod type_readers;
mod type_set;
mod typed_values;

pub use base::ClassKind;
pub use class_table::ClassTable;
pub use code::Code;
pub use conf::Conf;
pub use dn::Name;
pub use dn_values::rdns_in;
pub use fault::PathFault;
pub use laws::{
    keys_are_sorted, located_rdns_are_good, name_codes_stand_at_avas,
    printed_names_name_their_types, subtypes_are_told, superclasses_are_listed,
    valid_values_are_bytes, written_names_are_located,
};
pub use locate::Located;
pub use matching::{Family, Pieces, Syntax, contains_pieces, is_less};
pub use names::read_dn;
pub use object_class::ObjectClass;
pub use paths::{Path, RdnKey, TypedRdn, order_of_paths};
pub use slots::{IndexKind, Slot};
pub use syntaxes::is_syntax;
pub use values::{AttributeType, EqualityRule, TypeId, TypeSyntax, Value, ValueFault};
