//! Numbers of attribute types.

ghost use Rattle.std.specs.Prelude.{◌≡◌};

use std::marker::Model;

/// The number of an attribute type in one configuration, 0 for `objectClass`. A contract sees it as that number.
#[derive(Clone, Copy, PartialEq, Eq, PartialOrd, Ord, Hash)]
pub struct TypeId {
    number: u16,
}

impl Model for TypeId {
    ghost use Rattle.std.specs.Prelude.{ℕ};

    ghost Value = { ℕ };

    ghost view = { λ t. t.number };

    ghost inverse = { λ n. record { number = n } };
}

impl TypeId {
    /// The type of `objectClass`, which every configuration has.
    pub const OBJECT_CLASS: TypeId = TypeId { number: 0 };

    /// The type of this number.
    pub fn from_number(number: u16) -> TypeId
        ensures { result ≡ number }
    {
        TypeId { number }
    }

    /// Its number.
    pub fn number(self) -> u16
        ensures { result ≡ self }
    {
        self.number
    }
}
