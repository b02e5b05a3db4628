//! Where a text that spells no name is at fault.

ghost use Rattle.std.specs.Prelude.{◌≡◌};
ghost use Rattle.dn.specs.Names.{is_type_byte};
ghost use Rattle.dn.specs.Spelling.{may_follow};
ghost use Rattle.sentences.specs.NamePlaces.{IsNameLike};
ghost use Rattle.sentences.specs.inner.Dues as dues;

/// What may come next in a text that is read as a name, from the left (RFC 4514, section 3).
#[derive(Clone, Copy)]
enum Due {
    /// Spaces or a type.
    Type,
    /// More of a type, spaces or an equals sign.
    RestOfType,
    /// Spaces or an equals sign.
    Equals,
    /// Spaces or a value.
    Value,
    /// More of a value, or what ends it.
    RestOfValue,
    /// What a backslash escapes.
    Escaped,
    /// The second digit behind a backslash.
    Digit,
}

fn is_type_byte(byte: u8) -> bool
    ensures { result ≡ is_type_byte byte }
{
    byte.is_ascii_alphanumeric() || matches!(byte, b'-' | b'_' | b'.')
}

/// Whether a backslash takes this byte as it is.
fn may_follow(byte: u8) -> bool
    ensures { result ≡ may_follow byte }
{
    matches!(
        byte,
        b' ' | b'"' | b'#' | b'+' | b',' | b';' | b'<' | b'=' | b'>' | b'\\'
    )
}

/// What may come behind a byte where a type or an equals sign is due; none where the byte can't stand there.
fn behind_type(byte: u8) -> Option<Due>
    ensures { result ≡ dues.behind_type byte }
{
    match byte {
        b' ' => Some(Due::Equals),
        b'=' => Some(Due::Value),
        _ if is_type_byte(byte) => Some(Due::RestOfType),
        _ => None,
    }
}

/// The same within a value.
fn within_value(byte: u8) -> Option<Due>
    ensures { result ≡ dues.within_value byte }
{
    match byte {
        b'\\' => Some(Due::Escaped),
        b',' | b'+' => Some(Due::Type),
        b'"' | b'<' | b'>' | b';' | 0 => None,
        _ => Some(Due::RestOfValue),
    }
}

/// The same behind a backslash.
fn escaped(byte: u8) -> Option<Due>
    ensures { result ≡ dues.escaped byte }
{
    if may_follow(byte) {
        Some(Due::RestOfValue)
    } else if byte.is_ascii_hexdigit() {
        Some(Due::Digit)
    } else {
        None
    }
}

impl Due {
    /// What may come behind a byte; none where the byte can't come now.
    fn behind(self, byte: u8) -> Option<Due>
        ensures { result ≡ dues.next_due self byte }
    {
        match self {
            Due::Type if byte == b' ' => Some(Due::Type),
            Due::Type if byte == b'=' => None,
            Due::Type | Due::RestOfType => behind_type(byte),
            Due::Equals if is_type_byte(byte) => None,
            Due::Equals => behind_type(byte),
            Due::Value if byte == b' ' => Some(Due::Value),
            Due::Value if byte == b'#' => None,
            Due::Value | Due::RestOfValue => within_value(byte),
            Due::Escaped => escaped(byte),
            Due::Digit if byte.is_ascii_hexdigit() => Some(Due::RestOfValue),
            Due::Digit => None,
        }
    }
}

/// How many bytes the longest beginning of a text takes that begins some name.
pub(crate) fn name_like_len(text: &[u8]) -> usize
    ensures { IsNameLike text.now result }
{
    let mut due = Due::Type;
    for (at, byte) in text.iter().enumerate() {
        match due.behind(*byte) {
            Some(next) => due = next,
            None => return at,
        }
    }
    text.len()
}
