//! Attribute types.

ghost use Rattle.std.specs.Prelude.{◌≡◌, ◌<◌, length};
ghost use Rattle.values.specs.Types.{plain_family, printed_name, type_at};

use base::{Bytes, Sequence};
use matching::{Family, Syntax};
use paths::TypeId;

/// Which values an attribute type takes (RFC 4517, 3.3).
#[derive(Clone, Copy)]
pub enum TypeSyntax {
    /// DN: names. Which ones, attribute types tell.
    Name,
    /// A syntax whose values can be told without knowing types.
    Plain(Syntax),
}

/// How two values of an attribute type are equal (RFC 4517, 4.2).
#[derive(Clone, Copy)]
pub enum EqualityRule {
    /// distinguishedNameMatch: as names.
    Name,
    /// A rule that compares values without knowing types.
    Plain(Family),
}

/// An attribute type (RFC 4512, 4.1.2).
pub struct AttributeType {
    /// Its numeric OID.
    pub oid: Bytes,
    /// Its names, the first of which it is printed by.
    pub names: Sequence<Bytes>,
    /// The type above it, whose values its own are too (RFC 4512, 2.5.1).
    pub superior: Option<TypeId>,
    /// Which values it takes.
    pub syntax: TypeSyntax,
    /// How two of its values are equal; without a rule, where their bytes are.
    pub equality: Option<EqualityRule>,
    /// Whether its values are in the order of that family.
    pub is_ordered: bool,
    /// Whether its values can be searched for pieces by that family.
    pub has_substrings: bool,
    /// Whether an entry has at most one value of it.
    pub single_value: bool,
    /// Whether users can't change it (NO-USER-MODIFICATION).
    pub is_fixed: bool,
    /// Whether it is for the operation of servers (USAGE).
    pub is_operational: bool,
}

// A call of its own, so that no other crate proves it anew.
impl Drop for AttributeType {
    fn drop(self) {
        let AttributeType {
            oid: _,
            names: _,
            superior: _,
            syntax: _,
            equality: _,
            is_ordered: _,
            has_substrings: _,
            single_value: _,
            is_fixed: _,
            is_operational: _,
        } = self;
    }
}

impl AttributeType {
    /// The family of its equality rule, where that compares values without knowing types.
    pub fn plain_family(&self) -> Option<Family>
        ensures { result ≡ plain_family self.now.equality }
    {
        match self.equality {
            Some(EqualityRule::Plain(family)) => Some(family),
            Some(EqualityRule::Name) | None => None,
        }
    }

    /// Its first name, or its OID where it has none.
    pub fn printed_name(&self) -> &[u8]
        ensures { result.now ≡ printed_name self.now }
    {
        match self.names.as_slice() {
            [first, ..] => first.as_slice(),
            [] => self.oid.as_slice(),
        }
    }
}

pub(crate) fn type_at(types: &[AttributeType], t: TypeId) -> &AttributeType
    requires { t < length types.now }
    ensures { result.now ≡ type_at types.now t }
{
    &types[t.number() as usize]
}
