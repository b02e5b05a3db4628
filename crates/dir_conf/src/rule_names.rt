//! The syntaxes and matching rules that are known (RFC 4517, 3.3 and 4.2).

ghost use Rattle.std.specs.Prelude.{◌≡◌, ◌||◌};
ghost use Rattle.dir_conf.specs.RuleNames.{is_number, is_text_syntax, syntax_of, is_rule, plain_rule, or_else, text_equality_of, other_equality_of, equality_of, ordering_of, substrings_of};

use matching::{Family, Syntax};
use values::{EqualityRule, TypeSyntax};

const NUMBERED: &[u8] = b"1.3.6.1.4.1.1466.115.121.1.";

fn is_number(number: &[u8], oid: &[u8]) -> bool
    ensures { result ≡ is_number number.now oid.now }
{
    match oid.strip_prefix(NUMBERED) {
        Some(rest) => rest == number,
        None => false,
    }
}

fn is_text_syntax(oid: &[u8]) -> bool
    ensures { result ≡ is_text_syntax oid.now }
{
    is_number(b"11", oid)
        || (is_number(b"15", oid) || (is_number(b"44", oid) || is_number(b"50", oid)))
}

/// The syntax with this OID; one that isn't known takes any bytes.
#[tactic(auto, unfolding(crate::specs::RuleNames::syntax_of))]
pub(crate) fn syntax_of(oid: &[u8]) -> TypeSyntax
    ensures { result ≡ syntax_of oid.now }
{
    if is_text_syntax(oid) {
        TypeSyntax::Plain(Syntax::Text)
    } else if is_number(b"26", oid) {
        TypeSyntax::Plain(Syntax::Ascii)
    } else if is_number(b"36", oid) {
        TypeSyntax::Plain(Syntax::Numeric)
    } else if is_number(b"7", oid) {
        TypeSyntax::Plain(Syntax::Boolean)
    } else if is_number(b"27", oid) {
        TypeSyntax::Plain(Syntax::Integer)
    } else if is_number(b"12", oid) {
        TypeSyntax::Name
    } else if is_number(b"38", oid) {
        TypeSyntax::Plain(Syntax::Oid)
    } else {
        TypeSyntax::Plain(Syntax::Octet)
    }
}

fn is_either(known: &[u8], other: &[u8], name: &[u8]) -> bool
    ensures { result ≡ (is_rule known.now name.now || is_rule other.now name.now) }
{
    name.eq_ignore_ascii_case(known) || name.eq_ignore_ascii_case(other)
}

#[tactic(auto, unfolding(crate::specs::RuleNames::text_equality_of))]
fn text_equality_of(name: &[u8]) -> Option<Family>
    ensures { result ≡ text_equality_of name.now }
{
    if is_either(b"caseIgnoreMatch", b"caseIgnoreIA5Match", name) {
        Some(Family::Ignore)
    } else if is_either(b"caseExactMatch", b"caseExactIA5Match", name) {
        Some(Family::Exact)
    } else if name.eq_ignore_ascii_case(b"numericStringMatch") {
        Some(Family::Numeric)
    } else if name.eq_ignore_ascii_case(b"telephoneNumberMatch") {
        Some(Family::Telephone)
    } else {
        None
    }
}

#[tactic(auto, unfolding(crate::specs::RuleNames::other_equality_of))]
fn other_equality_of(name: &[u8]) -> Option<Family>
    ensures { result ≡ other_equality_of name.now }
{
    if name.eq_ignore_ascii_case(b"integerMatch") {
        Some(Family::Integer)
    } else if name.eq_ignore_ascii_case(b"booleanMatch") {
        Some(Family::Boolean)
    } else if name.eq_ignore_ascii_case(b"octetStringMatch") {
        Some(Family::Octet)
    } else if name.eq_ignore_ascii_case(b"objectIdentifierMatch") {
        Some(Family::Oid)
    } else {
        None
    }
}

fn plain_equality_of(name: &[u8]) -> Option<EqualityRule>
    ensures { result ≡ plain_rule (or_else (text_equality_of name.now) (other_equality_of name.now)) }
{
    if let Some(family) = text_equality_of(name) {
        return Some(EqualityRule::Plain(family));
    }
    match other_equality_of(name) {
        Some(family) => Some(EqualityRule::Plain(family)),
        None => None,
    }
}

/// The equality rule of this name; none where it isn't known.
#[tactic(auto, unfolding(crate::specs::RuleNames::equality_of))]
pub(crate) fn equality_of(name: &[u8]) -> Option<EqualityRule>
    ensures { result ≡ equality_of name.now }
{
    if name.eq_ignore_ascii_case(b"distinguishedNameMatch") {
        Some(EqualityRule::Name)
    } else {
        plain_equality_of(name)
    }
}

/// The family of an ordering rule; none for a rule that isn't known.
#[tactic(auto, unfolding(crate::specs::RuleNames::ordering_of))]
pub(crate) fn ordering_of(name: &[u8]) -> Option<Family>
    ensures { result ≡ ordering_of name.now }
{
    if name.eq_ignore_ascii_case(b"caseIgnoreOrderingMatch") {
        Some(Family::Ignore)
    } else if name.eq_ignore_ascii_case(b"caseExactOrderingMatch") {
        Some(Family::Exact)
    } else if name.eq_ignore_ascii_case(b"numericStringOrderingMatch") {
        Some(Family::Numeric)
    } else if name.eq_ignore_ascii_case(b"integerOrderingMatch") {
        Some(Family::Integer)
    } else if name.eq_ignore_ascii_case(b"octetStringOrderingMatch") {
        Some(Family::Octet)
    } else {
        None
    }
}

/// The family of a substrings rule; none for a rule that isn't known.
#[tactic(auto, unfolding(crate::specs::RuleNames::substrings_of))]
pub(crate) fn substrings_of(name: &[u8]) -> Option<Family>
    ensures { result ≡ substrings_of name.now }
{
    if is_either(
        b"caseIgnoreSubstringsMatch",
        b"caseIgnoreIA5SubstringsMatch",
        name,
    ) {
        Some(Family::Ignore)
    } else if is_either(
        b"caseExactSubstringsMatch",
        b"caseExactIA5SubstringsMatch",
        name,
    ) {
        Some(Family::Exact)
    } else if name.eq_ignore_ascii_case(b"numericStringSubstringsMatch") {
        Some(Family::Numeric)
    } else if name.eq_ignore_ascii_case(b"telephoneNumberSubstringsMatch") {
        Some(Family::Telephone)
    } else {
        None
    }
}
