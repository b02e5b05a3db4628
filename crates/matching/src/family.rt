//! Families of matching rules.

/// How values are compared: an equality rule and, where there are any, the ordering and the substrings rule that go with it
/// (RFC 4517, 4.2).
#[derive(Clone, Copy)]
pub enum Family {
    /// caseIgnoreMatch, caseIgnoreIA5Match
    Ignore,
    /// caseExactMatch, caseExactIA5Match
    Exact,
    /// numericStringMatch
    Numeric,
    /// telephoneNumberMatch
    Telephone,
    /// integerMatch
    Integer,
    /// booleanMatch
    Boolean,
    /// octetStringMatch
    Octet,
    /// objectIdentifierMatch
    Oid,
}
