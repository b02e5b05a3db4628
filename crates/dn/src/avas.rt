//! AVAs of RDNs.

ghost use Rattle.std.specs.Prelude.{◌≡◌, ◌∷◌, ◌++◌, ◌&&◌, true, not, Some, None, if◌then◌else◌, IfOk, IfSome};
ghost use Rattle.std.specs.List.{list_all, prefix_len};
ghost use Rattle.dn.specs.Names.{is_type_byte, is_type, is_byte, is_ava};
ghost use Rattle.dn.specs.Reading.{type_in, after_type};
ghost use Rattle.dn.specs.inner.Texts.{EndsAt};

use crate::text::AvaText;
use std::alloc::{AllocError, Global};
use std::default::MadeWith;
use std::marker::Model;

fn is_type_byte(b: u8) -> bool
    ensures { result ≡ is_type_byte b }
{
    b.is_ascii_alphanumeric() || b == b'-' || b == b'_' || b == b'.'
}

fn are_type_bytes(text: &[u8]) -> bool
    ensures { result ≡ list_all is_type_byte text.now }
{
    text.iter().all(|b| is_type_byte(*b))
}

fn is_type(text: &[u8]) -> bool
    ensures { result ≡ is_type text.now }
{
    !text.is_empty() && are_type_bytes(text)
}

fn type_len(text: &[u8]) -> usize
    ensures { result ≡ prefix_len is_type_byte text.now }
{
    text.iter().take_while(|b| is_type_byte(**b)).count()
}

/// A type, which may be empty, and what follows it.
pub(crate) fn split_type(text: &[u8]) -> (&[u8], &[u8])
    ensures type_text { result.0.now ≡ type_in text.now }
    ensures rest { result.1.now ≡ after_type text.now }
    ensures bytes { list_all is_type_byte result.0.now ≡ true }
{
    text.split_at(type_len(text))
}

// The elements of a byte slice are bytes.
fn in_range(bytes: &[u8]) -> &[u8]
    ensures same { result.now ≡ bytes.now }
    ensures in_range { list_all is_byte bytes.now ≡ true }
{
    bytes
}

/// A type as written and a value: one AVA of an RDN (RFC 4512, 2.3.2). A contract sees the pair of them.
#[derive(Drop)]
pub struct Ava {
    // the type, an equals sign and the value
    text: AvaText,
}

impl Model for Ava {
    ghost use Rattle.std.specs.Prelude.{List, ℕ};
    ghost use Rattle.dn.specs.Texts.{ava_in};

    ghost Value = { List ℕ × List ℕ };

    ghost view = { λ a. ava_in a.text };
}

impl MadeWith<Global> for Ava {
    ghost use Rattle.std.specs.Prelude.{◌≡◌, true};
    ghost use Rattle.dn.specs.Names.{is_ava};

    ghost is_made_with = { λ a. is_ava a ≡ true };

    /// The AVA `x=`, to be put in another's place.
    fn made_with(_alloc: Global) -> Ava {
        Ava {
            text: AvaText::blank(),
        }
    }
}

impl Ava {
    /// The AVA of this type and this value; None where the text is no type. A type is one or more letters, digits, `-`, `_`
    /// and `.`, which takes in all names and OIDs of types (RFC 4512, 1.4); a value is any bytes.
    pub fn new(alloc: Global, type_text: &[u8], value: &[u8]) -> Result<Option<Ava>, AllocError>
        ensures { IfOk result (λ ava. ava ≡ (if is_type type_text.now then Some (type_text.now, value.now) else None)) }
    {
        if !is_type(type_text) {
            return Ok(None);
        }
        Ok(Some(Ava::of_type(alloc, type_text, value)?))
    }

    pub(crate) fn of_type(alloc: Global, type_text: &[u8], value: &[u8]) -> Result<Ava, AllocError>
        requires { is_type type_text.now ≡ true }
        ensures same { IfOk result (λ ava. ava ≡ (type_text.now, value.now)) }
        ensures good { IfOk result (λ ava. is_ava ava ≡ true) }
    {
        let text = AvaText::of_ava(alloc, type_text, value)?;
        Ok(Ava::of_text(text, type_text, value))
    }

    /// The AVA that stands at the front of a text, where it is short: it ends there, and spaces may stand round the equals sign.
    #[inline(always)]
    pub(crate) fn short(text: &[u8], end: usize, type_text: &[u8], value: &[u8]) -> Option<Ava>
        requires type_text { is_type type_text.now ≡ true }
        requires text { EndsAt text.now type_text.now value.now end }
        ensures same { IfSome result (λ ava. ava ≡ (type_text.now, value.now)) }
        ensures good { IfSome result (λ ava. is_ava ava ≡ true) }
    {
        let text = AvaText::of_few(text, end, type_text, value)?;
        Some(Ava::of_text(text, type_text, value))
    }

    #[inline(always)]
    fn of_text(text: AvaText, type_text: &[u8], value: &[u8]) -> Ava
        requires type_text { is_type type_text.now ≡ true }
        requires text { text ≡ type_text.now ++ 61 ∷ value.now }
        ensures same { result ≡ (type_text.now, value.now) }
        ensures good { is_ava result ≡ true }
    {
        let _ = type_text;
        in_range(value);
        Ava { text }
    }

    /// The type's text.
    pub fn type_text(&self) -> &[u8]
        ensures { result.now ≡ self.now.0 }
    {
        split_type(self.text.as_slice()).0
    }

    /// The bytes of the value.
    pub fn value(&self) -> &[u8]
        ensures { result.now ≡ self.now.1 }
    {
        match split_type(self.text.as_slice()).1 {
            [_, value @ ..] => value,
            none => none,
        }
    }

    pub(crate) fn is_ava(&self) -> bool
        ensures { result ≡ is_ava self.now }
    {
        in_range(self.value());
        is_type(self.type_text())
    }
}
