//! What a configuration says of an attribute type.

ghost use Rattle.std.specs.Prelude.{◌≡◌, ◌<◌, ◌↔◌, ◌&&◌, IsTrue, Some, length, nat_lt};
ghost use Rattle.std.specs.Str.{bytes_eq};
ghost use Rattle.values.specs.Types.{name_of, type_at, type_of};
ghost use Rattle.schema.specs.Subtypes.{IsSubtype};

use crate::conf::Conf;
use crate::laws::printed_names_name_their_types;
use values::{EqualityRule, TypeId};

impl Conf {
    /// The name that a type is printed by: its first NAME, or its OID where it has none.
    pub fn name(&self, t: TypeId) -> &[u8]
        requires { t < length self.now.types }
        ensures { result.now ≡ name_of self.now.types t }
    {
        self.at(t).printed_name()
    }

    /// Whether this is the number of a type that is printed by this name. So it is the one that the name names.
    pub fn is_printed_as(&self, t: TypeId, name: &[u8]) -> bool
        ensures test { result ≡ (nat_lt t (length self.now.types) && bytes_eq (name_of self.now.types t) name.now) }
        ensures named { IsTrue result → type_of self.now.types name.now ≡ Some t }
    {
        self.rules_are_kept();
        printed_names_name_their_types();
        usize::from(t.number()) < self.types().len() && self.name(t) == name
    }

    /// How two values of a type are equal (RFC 4517, 4.2); without a rule, where their bytes are.
    pub fn equality_rule(&self, t: TypeId) -> Option<EqualityRule>
        requires { t < length self.now.types }
        ensures { result ≡ (type_at self.now.types t).equality }
    {
        self.at(t).equality
    }

    /// Whether values of a type are in the order of its family (RFC 4512, 4.1.2, ORDERING).
    pub fn has_order(&self, t: TypeId) -> bool
        requires { t < length self.now.types }
        ensures { result ≡ (type_at self.now.types t).is_ordered }
    {
        self.at(t).is_ordered
    }

    /// Whether values of a type can be searched for pieces by its family (RFC 4512, 4.1.2, SUBSTR).
    pub fn has_sub(&self, t: TypeId) -> bool
        requires { t < length self.now.types }
        ensures { result ≡ (type_at self.now.types t).has_substrings }
    {
        self.at(t).has_substrings
    }

    /// Whether an entry has at most one value of a type (SINGLE-VALUE).
    pub fn single(&self, t: TypeId) -> bool
        requires { t < length self.now.types }
        ensures { result ≡ (type_at self.now.types t).single_value }
    {
        self.at(t).single_value
    }

    /// Whether users can't change a type's values (NO-USER-MODIFICATION).
    pub fn fixed(&self, t: TypeId) -> bool
        requires { t < length self.now.types }
        ensures { result ≡ (type_at self.now.types t).is_fixed }
    {
        self.at(t).is_fixed
    }

    /// Whether a type is there for the operation of servers (USAGE other than userApplications).
    pub fn operational(&self, t: TypeId) -> bool
        requires { t < length self.now.types }
        ensures { result ≡ (type_at self.now.types t).is_operational }
    {
        self.at(t).is_operational
    }

    /// Whether a type is another one, or stands below it (RFC 4512, 2.5.1).
    pub fn is_subtype(&self, t: TypeId, above: TypeId) -> bool
        requires { t < length self.now.types }
        ensures { IsTrue result ↔ IsSubtype self.now.types t above }
    {
        self.rules_are_kept();
        let mut at = t;
        while at != above {
            match self.at(at).superior {
                Some(superior) => at = superior,
                None => return false,
            }
        }
        true
    }
}
