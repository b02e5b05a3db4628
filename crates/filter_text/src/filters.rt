//! Filters.
use crate::items::Item;

/// A search filter (RFC 4515, section 3; RFC 4511, section 4.5.1.7). One that was read is nested at most 512 deep.
pub enum Filter {
    /// `(&..)`: each of these, of which there may be none.
    And(Vec<Filter>),
    /// `(|..)`: one of these, of which there may be none.
    Or(Vec<Filter>),
    /// `(!..)`
    Not(Box<Filter>),
    Item(Item),
}

impl Drop for Filter {
    fn drop(self) {
        match self {
            Filter::And(filters) | Filter::Or(filters) => drop(filters),
            Filter::Not(filter) => drop(filter),
            Filter::Item(item) => drop(item),
        }
    }
}
