//! Items of filters.
use base::{Bytes, Sequence};

/// What a filter asks of an attribute (RFC 4515, section 3: simple, present, substring and extensible). Attributes are written as in
/// the text; values have their escapes undone.
#[derive(Drop)]
pub enum Item {
    /// `cn=Bob`
    Equality {
        attribute: Bytes,
        value: Bytes,
    },
    /// `cn~=Bob`
    Approx {
        attribute: Bytes,
        value: Bytes,
    },
    /// `cn>=Bob`
    GreaterOrEqual {
        attribute: Bytes,
        value: Bytes,
    },
    /// `cn<=Bob`
    LessOrEqual {
        attribute: Bytes,
        value: Bytes,
    },
    /// `cn=*`
    Present {
        attribute: Bytes,
    },
    /// `cn=B*o*b`: `initial` where no star comes first, `last` (`final` in RFC 4511) where none comes last, and `any` between stars.
    /// There is a piece, and none is empty.
    Substrings {
        attribute: Bytes,
        initial: Option<Bytes>,
        any: Sequence<Bytes>,
        last: Option<Bytes>,
    },
    /// `cn:dn:2.5.13.2:=Bob`: an attribute or none, and at most two words behind colons, at least one of which is there where no
    /// attribute is.
    Extensible {
        attribute: Option<Bytes>,
        words: Sequence<Bytes>,
        value: Bytes,
    },
}
