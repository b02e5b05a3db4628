//! The command line: what its words ask for, and the text of the help.
#![tactic(auto)]

mod hints;
mod options;
mod reading;
mod request;

pub use reading::read;
pub use request::{
    AddOptions, CatOptions, CheckOptions, DiffOptions, IndexOptions, ModifyOptions, Request,
    SchemaOptions, SearchOptions, SortOptions, UsageFault,
};
