//! How a filter joins others.

/// The filter types `&` and `|`.
#[derive(Clone, Copy)]
pub enum Joining {
    All,
    Any,
}
