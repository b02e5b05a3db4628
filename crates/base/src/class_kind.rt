//! Kinds of object classes.

/// What a class is for (RFC 4512, 2.4).
#[derive(Clone, Copy, PartialEq, Eq)]
pub enum ClassKind {
    /// ABSTRACT
    Abstract,
    /// STRUCTURAL
    Structural,
    /// AUXILIARY
    Auxiliary,
}
