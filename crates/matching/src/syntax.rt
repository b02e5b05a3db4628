//! Syntaxes of values.

ghost use Rattle.std.specs.Prelude.{◌≡◌};
ghost use Rattle.std.specs.List.{list_all};
ghost use Rattle.std.specs.Str.{is_utf8};
ghost use Rattle.matching.specs.Syntaxes.{is_byte, is_ascii, is_digit_or_space, is_oid_byte, is_boolean, is_valid};
ghost use Rattle.matching.specs.Integers.{is_integer};

use crate::integer::Integer;
use crate::tested_bytes::{NotAscii, NotOid};
use base::any_byte;

/// Which values an attribute type takes (RFC 4517, 3.3), where that can be told without knowing types. So DN isn't among these.
#[derive(Clone, Copy)]
pub enum Syntax {
    /// Country String, Directory String, Printable String and Telephone Number: UTF-8, not empty.
    Text,
    /// IA5 String: ASCII.
    Ascii,
    /// Numeric String: digits and spaces, not empty.
    Numeric,
    /// Boolean: `TRUE` or `FALSE`.
    Boolean,
    /// Integer: in decimal, without a zero before it, within 128 signed bits.
    Integer,
    /// OID: ASCII without spaces, not empty.
    Oid,
    /// Octet String, and each syntax that isn't among these: any bytes.
    Octet,
}

fn are_utf8(bytes: &[u8]) -> bool
    ensures { result ≡ is_utf8 bytes.now }
{
    str::from_utf8(bytes).is_ok()
}

fn are_ascii(bytes: &[u8]) -> bool
    ensures { result ≡ list_all is_ascii bytes.now }
{
    !any_byte::<NotAscii>(bytes)
}

// most texts are ASCII, which is soon seen
fn is_text(bytes: &[u8]) -> bool
    ensures { result ≡ is_utf8 bytes.now }
{
    are_ascii(bytes) || are_utf8(bytes)
}

fn are_digits_or_spaces(bytes: &[u8]) -> bool
    ensures { result ≡ list_all is_digit_or_space bytes.now }
{
    bytes.iter().all(|b| b.is_ascii_digit() || *b == b' ')
}

fn is_boolean(bytes: &[u8]) -> bool
    ensures { result ≡ is_boolean bytes.now }
{
    bytes == b"TRUE".as_slice() || bytes == b"FALSE".as_slice()
}

fn is_integer(bytes: &[u8]) -> bool
    ensures { result ≡ is_integer bytes.now }
{
    Integer::read(bytes).is_some()
}

fn are_oid_bytes(bytes: &[u8]) -> bool
    ensures { result ≡ list_all is_oid_byte bytes.now }
{
    !any_byte::<NotOid>(bytes)
}

// all bytes are: a contract sees them as numbers
fn are_bytes(bytes: &[u8]) -> bool
    ensures { result ≡ list_all is_byte bytes.now }
{
    let _ = bytes;
    true
}

/// Whether a syntax has this value.
#[tactic(auto, unfolding(crate::specs::Syntaxes::is_valid))]
pub fn is_valid(syntax: Syntax, bytes: &[u8]) -> bool
    ensures { result ≡ is_valid syntax bytes.now }
{
    match syntax {
        Syntax::Text => !bytes.is_empty() && is_text(bytes),
        Syntax::Ascii => are_ascii(bytes),
        Syntax::Numeric => !bytes.is_empty() && are_digits_or_spaces(bytes),
        Syntax::Boolean => is_boolean(bytes),
        Syntax::Integer => is_integer(bytes),
        Syntax::Oid => !bytes.is_empty() && are_oid_bytes(bytes),
        Syntax::Octet => are_bytes(bytes),
    }
}
