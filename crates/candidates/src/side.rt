//! The two sides of a bracket.

ghost use Rattle.std.specs.Prelude.{◌≡◌};
ghost use Rattle.candidates.specs.inner.OneSide.{is_may_be_true, other};

/// What a filter may be of an entry: True, or False.
#[derive(Clone, Copy)]
pub(crate) enum Side {
    MayBeTrue,
    MayBeFalse,
}

impl Side {
    pub(crate) fn is_may_be_true(self) -> bool
        ensures { result ≡ is_may_be_true self }
    {
        match self {
            Side::MayBeTrue => true,
            Side::MayBeFalse => false,
        }
    }

    pub(crate) fn other(self) -> Side
        ensures { result ≡ other self }
    {
        match self {
            Side::MayBeTrue => Side::MayBeFalse,
            Side::MayBeFalse => Side::MayBeTrue,
        }
    }
}
