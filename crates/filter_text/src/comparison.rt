//! Comparisons other than equality.

/// The filter types `~=`, `>=` and `<=`.
#[derive(Clone, Copy)]
pub enum Comparison {
    Approx,
    Greater,
    Less,
}
