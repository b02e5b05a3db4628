//! What of two directories is compared.

use filter::Prepared;
use schema::Path;

/// What of two directories is compared.
#[derive(Clone, Copy, Drop)]
pub struct Comparison<'a> {
    /// Whether attributes and values are compared as sets, by their equality rules, so that neither order nor spelling counts.
    pub unordered: bool,
    /// The path at and below which entries are compared.
    pub base: &'a Path,
    /// The filter that has to be True of an entry in one of the two directories, or none for all entries.
    pub filter: Option<&'a Prepared>,
}
