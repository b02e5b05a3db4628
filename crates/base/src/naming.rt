//! Names and OIDs (RFC 4512, 1.4).

ghost use Rattle.std.specs.Prelude.{◌≡◌};
ghost use Rattle.std.specs.List.{list_all};
ghost use Rattle.base.specs.Naming.{is_name_byte, is_name, is_reserved, is_type_name, due_after, is_oid, is_name_or_oid};

fn are_name_bytes(text: &[u8]) -> bool
    ensures { result ≡ list_all is_name_byte text.now }
{
    text.iter()
        .all(|b| b.is_ascii_alphanumeric() || *b == b'-' || *b == b'_')
}

/// Whether a text may be a name: a letter, and letters, digits, `-` and `_`.
pub fn is_name(text: &[u8]) -> bool
    ensures { result ≡ is_name text.now }
{
    match text {
        [] => false,
        [first, rest @ ..] => first.is_ascii_alphabetic() && are_name_bytes(rest),
    }
}

fn is_reserved(text: &[u8]) -> bool
    ensures { result ≡ is_reserved text.now }
{
    b"dn".eq_ignore_ascii_case(text)
        || (b"version".eq_ignore_ascii_case(text)
            || (b"control".eq_ignore_ascii_case(text) || b"changetype".eq_ignore_ascii_case(text)))
}

/// Whether an attribute type may have this name: not where it begins another kind of line in LDIF.
pub fn is_type_name(text: &[u8]) -> bool
    ensures { result ≡ is_type_name text.now }
{
    is_name(text) && !is_reserved(text)
}

// whether a digit is due after a byte, where one was due before it or not; none where the byte can't stand there
fn due_after(due: bool, b: u8) -> Option<bool>
    ensures { result ≡ due_after due b }
{
    if b.is_ascii_digit() {
        Some(false)
    } else if b == b'.' && !due {
        Some(true)
    } else {
        None
    }
}

/// Whether a text is a numeric OID: groups of digits joined by single dots.
pub fn is_oid(text: &[u8]) -> bool
    ensures { result ≡ is_oid text.now }
{
    let mut due = true;
    for b in text {
        match due_after(due, *b) {
            Some(next) => due = next,
            None => return false,
        }
    }
    !due
}

/// Whether a text may name a type, a class or a rule: as a name or as a numeric OID.
pub fn is_name_or_oid(text: &[u8]) -> bool
    ensures { result ≡ is_name_or_oid text.now }
{
    is_name(text) || is_oid(text)
}
