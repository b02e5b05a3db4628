//! The three truths.

/// What a filter says of an entry (RFC 4511, 4.5.1.7).
#[derive(Clone, Copy, PartialEq, Eq)]
pub enum Truth {
    True,
    /// It can't be told, as of a type that isn't known.
    Undefined,
    False,
}
