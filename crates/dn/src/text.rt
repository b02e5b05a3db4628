//! The bytes of an AVA.

ghost use Rattle.std.specs.Prelude.{◌≡◌, ◌≤◌, ◌+◌, [], ◌∷◌, ◌++◌, length, take, IfOk, IfSome};
ghost use Rattle.dn.specs.inner.Texts.{EndsAt};

use std::alloc::{AllocError, Global};
use std::marker::Model;

/// As many bytes as need no allocation.
const FEW: usize = 24;

#[derive(Drop)]
enum Place {
    // how many there are, in a word of their own: bytes behind an odd one are slow to move
    Few(u32, [u8; FEW]),
    Many(Vec<u8>),
}

/// Bytes in order; a few of them take no allocation. A contract sees the list of them.
pub(crate) struct AvaText {
    place: Place,
}

// A call of its own, so that a caller's proof need not tell the two places apart.
impl Drop for AvaText {
    fn drop(self) {
        let AvaText { place } = self;
        drop(place);
    }
}

impl Model for AvaText {
    ghost use Rattle.std.specs.Prelude.{List, ℕ};
    ghost use Rattle.dn.specs.inner.Places.{bytes_in, IsWithin};

    ghost Value = { List ℕ };

    ghost view = { λ t. bytes_in t.place };

    ghost invariant = { λ t. IsWithin t.place };
}

impl AvaText {
    /// The type `x` and an empty value: an AVA to be put in another's place.
    pub(crate) fn blank() -> AvaText
        ensures { result ≡ 120 ∷ 61 ∷ [] }
    {
        let mut bytes = [0; FEW];
        bytes[0] = b'x';
        bytes[1] = b'=';
        AvaText::few(bytes, 2)
    }

    /// The first bytes of these.
    #[inline(always)]
    fn few(bytes: [u8; FEW], len: usize) -> AvaText
        requires { len ≤ 24 }
        ensures { result ≡ take len bytes }
    {
        AvaText {
            place: Place::Few(len as u32, bytes),
        }
    }

    fn many(bytes: Vec<u8>) -> AvaText
        ensures { result ≡ bytes.items }
    {
        AvaText {
            place: Place::Many(bytes),
        }
    }

    pub(crate) fn as_slice(&self) -> &[u8]
        ensures { result.now ≡ self.now }
    {
        match &self.place {
            Place::Few(len, bytes) => &bytes[..*len as usize],
            Place::Many(bytes) => bytes.as_slice(),
        }
    }

    /// A type, an equals sign and a value.
    pub(crate) fn of_ava(
        alloc: Global,
        type_text: &[u8],
        value: &[u8],
    ) -> Result<AvaText, AllocError>
        ensures { IfOk result (λ text. text ≡ type_text.now ++ 61 ∷ value.now) }
    {
        let len = type_text.len() + 1 + value.len();
        if len <= FEW {
            return Ok(AvaText::few(joined(type_text, value), len));
        }
        let mut bytes = Vec::with_capacity(alloc, len)?;
        bytes.extend_from_slice(type_text)?;
        bytes.push(b'=')?;
        bytes.extend_from_slice(value)?;
        Ok(AvaText::many(bytes))
    }

    /// The same, where a few bytes suffice, of a text that goes on behind the value.
    #[inline(always)]
    pub(crate) fn of_few(text: &[u8], end: usize, type_text: &[u8], value: &[u8]) -> Option<AvaText>
        requires { EndsAt text.now type_text.now value.now end }
        ensures { IfSome result (λ text. text ≡ type_text.now ++ 61 ∷ value.now) }
    {
        let len = type_text.len() + 1 + value.len();
        if len > FEW {
            return None;
        }
        Some(AvaText::few(few_of(text, end, type_text, value), len))
    }
}

// Most AVAs are written without spaces round the equals sign: then a piece of a fixed length is copied.
#[inline(always)]
fn few_of(text: &[u8], end: usize, type_text: &[u8], value: &[u8]) -> [u8; FEW]
    requires few { length type_text.now + 1 + length value.now ≤ 24 }
    requires text { EndsAt text.now type_text.now value.now end }
    ensures { take (length type_text.now + 1 + length value.now) result ≡ type_text.now ++ 61 ∷ value.now }
{
    if end == type_text.len() + 1 + value.len() {
        if let Some(chunk) = text.first_chunk::<FEW>() {
            return *chunk;
        }
    }
    joined(type_text, value)
}

#[inline(never)]
fn joined(type_text: &[u8], value: &[u8]) -> [u8; FEW]
    requires { length type_text.now + 1 + length value.now ≤ 24 }
    ensures { take (length type_text.now + 1 + length value.now) result ≡ type_text.now ++ 61 ∷ value.now }
{
    let mut bytes = [0; FEW];
    let value_at = type_text.len() + 1;
    bytes[..type_text.len()].copy_from_slice(type_text);
    bytes[type_text.len()] = b'=';
    bytes[value_at..value_at + value.len()].copy_from_slice(value);
    bytes
}
