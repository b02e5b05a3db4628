//! Result codes of LDAP.

ghost use Rattle.std.specs.Prelude.{◌≡◌, Some};
ghost use Rattle.schema.specs.Codes.{code_number, code_name, code_report};

use std::fmt;

/// The result code of a refused operation (RFC 4511, 4.1.9 and appendix A), printed as `32 noSuchObject`.
#[derive(Clone, Copy, Debug, PartialEq, Eq)]
pub enum Code {
    ProtocolError,
    SizeLimitExceeded,
    AdminLimitExceeded,
    UnavailableCriticalExtension,
    NoSuchAttribute,
    UndefinedAttributeType,
    InappropriateMatching,
    ConstraintViolation,
    AttributeOrValueExists,
    InvalidAttributeSyntax,
    NoSuchObject,
    InvalidDnSyntax,
    UnwillingToPerform,
    NamingViolation,
    ObjectClassViolation,
    NotAllowedOnNonLeaf,
    NotAllowedOnRdn,
    EntryAlreadyExists,
}

impl Code {
    /// The number that RFC 4511 gives it.
    pub fn number(self) -> u16
        ensures { result ≡ code_number self }
    {
        match self {
            Code::ProtocolError => 2,
            Code::SizeLimitExceeded => 4,
            Code::AdminLimitExceeded => 11,
            Code::UnavailableCriticalExtension => 12,
            Code::NoSuchAttribute => 16,
            Code::UndefinedAttributeType => 17,
            Code::InappropriateMatching => 18,
            Code::ConstraintViolation => 19,
            Code::AttributeOrValueExists => 20,
            Code::InvalidAttributeSyntax => 21,
            Code::NoSuchObject => 32,
            Code::InvalidDnSyntax => 34,
            Code::UnwillingToPerform => 53,
            Code::NamingViolation => 64,
            Code::ObjectClassViolation => 65,
            Code::NotAllowedOnNonLeaf => 66,
            Code::NotAllowedOnRdn => 67,
            Code::EntryAlreadyExists => 68,
        }
    }

    /// The name that RFC 4511 gives it.
    pub fn name(self) -> &'static str
        ensures { result.now ≡ code_name self }
    {
        match self {
            Code::ProtocolError => "protocolError",
            Code::SizeLimitExceeded => "sizeLimitExceeded",
            Code::AdminLimitExceeded => "adminLimitExceeded",
            Code::UnavailableCriticalExtension => "unavailableCriticalExtension",
            Code::NoSuchAttribute => "noSuchAttribute",
            Code::UndefinedAttributeType => "undefinedAttributeType",
            Code::InappropriateMatching => "inappropriateMatching",
            Code::ConstraintViolation => "constraintViolation",
            Code::AttributeOrValueExists => "attributeOrValueExists",
            Code::InvalidAttributeSyntax => "invalidAttributeSyntax",
            Code::NoSuchObject => "noSuchObject",
            Code::InvalidDnSyntax => "invalidDNSyntax",
            Code::UnwillingToPerform => "unwillingToPerform",
            Code::NamingViolation => "namingViolation",
            Code::ObjectClassViolation => "objectClassViolation",
            Code::NotAllowedOnNonLeaf => "notAllowedOnNonLeaf",
            Code::NotAllowedOnRdn => "notAllowedOnRDN",
            Code::EntryAlreadyExists => "entryAlreadyExists",
        }
    }
}

impl fmt::Display for Code {
    ghost output = { λ c. Some (code_report c) };

    fn fmt<W: fmt::Write>(&self, f: &mut fmt::Formatter<W>) -> fmt::Result {
        write!(f, "{} {}", self.number(), self.name())
    }
}
