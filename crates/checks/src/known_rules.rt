//! The matching rules and syntaxes that are known (RFC 4517, 3.3 and 4.2), by their names and OIDs.

pub(crate) const EQUALITY_RULES: [&[u8]; 11] = [
    b"distinguishedNameMatch",
    b"caseIgnoreMatch",
    b"caseIgnoreIA5Match",
    b"caseExactMatch",
    b"caseExactIA5Match",
    b"numericStringMatch",
    b"telephoneNumberMatch",
    b"integerMatch",
    b"booleanMatch",
    b"octetStringMatch",
    b"objectIdentifierMatch",
];

pub(crate) const ORDERING_RULES: [&[u8]; 5] = [
    b"caseIgnoreOrderingMatch",
    b"caseExactOrderingMatch",
    b"numericStringOrderingMatch",
    b"integerOrderingMatch",
    b"octetStringOrderingMatch",
];

pub(crate) const SUBSTRINGS_RULES: [&[u8]; 6] = [
    b"caseIgnoreSubstringsMatch",
    b"caseIgnoreIA5SubstringsMatch",
    b"caseExactSubstringsMatch",
    b"caseExactIA5SubstringsMatch",
    b"numericStringSubstringsMatch",
    b"telephoneNumberSubstringsMatch",
];

pub(crate) const SYNTAXES: [&[u8]; 11] = [
    b"1.3.6.1.4.1.1466.115.121.1.11",
    b"1.3.6.1.4.1.1466.115.121.1.15",
    b"1.3.6.1.4.1.1466.115.121.1.44",
    b"1.3.6.1.4.1.1466.115.121.1.50",
    b"1.3.6.1.4.1.1466.115.121.1.26",
    b"1.3.6.1.4.1.1466.115.121.1.36",
    b"1.3.6.1.4.1.1466.115.121.1.7",
    b"1.3.6.1.4.1.1466.115.121.1.27",
    b"1.3.6.1.4.1.1466.115.121.1.12",
    b"1.3.6.1.4.1.1466.115.121.1.38",
    b"1.3.6.1.4.1.1466.115.121.1.40",
];
