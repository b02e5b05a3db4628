//! Laws of names and configurations, for the crates above.

ghost use Rattle.std.specs.Prelude.{◌≡◌, ◌<◌, ◌↔◌, ℕ, true, false, length, Err, Ok, Some, nat_lt, List, map};
ghost use Rattle.std.specs.List.{list_all, AllByRecursion};
ghost use Rattle.std.specs.List.Sorted.{IsNonDecreasingBy, IsPermutation};
ghost use Rattle.values.specs.Types.{type_of, name_of, is_known};
ghost use Rattle.base.specs.Naming.{is_reserved};
ghost use Rattle.values.specs.declared.types.AttributeType.{AttributeType};
ghost use Rattle.schema.specs.declared.code.Code.{Code};
ghost use Rattle.schema.specs.Rdns.{TypedRdn, type_of_pair, pair_of, rdn_key_of, typed};
ghost use Rattle.schema.specs.FaultyNames.{IsAvaFault};
ghost use Rattle.schema.specs.GoodRdns.{IsRdn};
ghost use Rattle.schema.specs.Values.{is_valid_at};
ghost use Rattle.dn.specs.Names.{Name, is_type};
ghost use Rattle.schema.specs.Conf.{Conf, IsConf, located, name_text, located_at};
ghost use Rattle.schema.specs.Superclasses.{has_number, with_superclasses, IsAtOrAboveOne};
ghost use Rattle.schema.specs.Subtypes.{IsSubtype, is_subtype};

use dn::{spelled_names_are_read, written_names_are_read};

/// The name that a type is printed by names it, and no other type before it; it is made of letters, digits, `-`, `_` and
/// `.`, and is no word that begins another kind of line.
pub fn printed_names_name_their_types()
    ensures names { (conf : Conf) (t : ℕ) → IsConf conf → is_known conf.types t ≡ true → type_of conf.types (name_of conf.types t) ≡ Some t }
    ensures texts { (conf : Conf) (t : ℕ) → IsConf conf → is_known conf.types t ≡ true → is_type (name_of conf.types t) ≡ true }
    ensures free { (conf : Conf) (t : ℕ) → IsConf conf → is_known conf.types t ≡ true → is_reserved (name_of conf.types t) ≡ false }
{}

/// The test for subtypes tells them.
pub fn subtypes_are_told()
    ensures { (conf : Conf) (t u : ℕ) → IsConf conf → t < length conf.types → (is_subtype conf.types t u ≡ true) ↔ IsSubtype conf.types t u }
{}

/// Valid values are bytes.
pub fn valid_values_are_bytes()
    ensures { (types : List AttributeType) (t : ℕ) (v : List ℕ) → is_valid_at types t v ≡ true → list_all (λ b. nat_lt b 256) v ≡ true }
{
    matching::valid_values_are_bytes();
}

/// The name that is written for RDNs stands where they say, and is ASCII.
pub fn written_names_are_located()
    ensures located { (conf : Conf) (rs : List TypedRdn) → IsConf conf → AllByRecursion (IsRdn conf.types) rs → located conf (name_text conf rs) ≡ located_at rs }
    ensures ascii { (conf : Conf) (rs : List TypedRdn) → IsConf conf → AllByRecursion (IsRdn conf.types) rs → list_all (λ b. nat_lt b 128) (name_text conf rs) ≡ true }
{
    written_names_are_read();
    matching::valid_values_are_bytes();
}

/// The step of a path that an RDN gives has the pair of each of its AVAs, by the numbers of their types, whatever order they are written in.
pub fn keys_are_sorted()
    ensures same { (types : List AttributeType) (r : TypedRdn) → IsPermutation (map (pair_of types) r) (rdn_key_of types r) }
    ensures sorted { (types : List AttributeType) (r : TypedRdn) → IsNonDecreasingBy type_of_pair (rdn_key_of types r) }
{}

/// The RDNs at which a name is located are good ones.
pub fn located_rdns_are_good()
    ensures { (conf : Conf) (text : List ℕ) (rs : List TypedRdn) → located conf text ≡ located_at rs → AllByRecursion (IsRdn conf.types) rs }
{
    spelled_names_are_read();
}

/// Which code a name has whose types aren't found: that of the first AVA that has a flaw, its own RDN first, and of its flaws the first
/// in a stated order. It has one such code at most.
pub fn name_codes_stand_at_avas()
    ensures fault { (types : List AttributeType) (n : Name) (code : Code) → (typed types n ≡ Err code) ↔ IsAvaFault types n code }
    ensures one { (types : List AttributeType) (n : Name) (c d : Code) → IsAvaFault types n c → IsAvaFault types n d → c ≡ d }
{}

/// Which classes stand in the list of some classes with their superclasses: those that one of them is derived from (RFC 4512, 2.4).
pub fn superclasses_are_listed()
    ensures { (conf : Conf) (named : List ℕ) (c : ℕ) → IsConf conf → (has_number (with_superclasses conf.classes named) c ≡ true) ↔ IsAtOrAboveOne conf.classes named c }
{}
