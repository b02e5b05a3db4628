//! Definitions of attribute types and object classes as text (RFC 4512, 4.1).
//!
//! The functions of `laws` do nothing: a call of one is made for what it states alone.
#![tactic(auto)]

mod class_definition;
mod element;
mod fault;
mod laws;
mod lines;
mod texts;
mod type_definition;
mod type_field;
mod words;

pub use class_definition::{ClassDefinition, read_class_definition};
pub use element::Element;
pub use fault::DefinitionFault;
pub use laws::{
    defined_types_have_names, fields_stand_in_any_order, lines_stand_in_texts,
    spelled_classes_are_read, spelled_types_are_read,
};
pub use lines::{Line, lines_of};
pub use type_definition::{TypeDefinition, read_type_definition};
pub use type_field::{Flag, Reference, Usage};
pub use words::{skip, split_first_word};
