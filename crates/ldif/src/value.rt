//! Attributes as the lines of a record say them.

ghost use Rattle.std.specs.Prelude.{◌≡◌, IfOk};
ghost use Rattle.ldif.specs.LineValues.{bytes_in};

use base::Bytes;
use std::alloc::{AllocError, Global};
use std::marker::Model;

/// The value of a line.
#[derive(Drop)]
pub enum LineValue<'a> {
    /// A part of the line.
    Plain(&'a [u8]),
    /// What base64 in the line stands for.
    Decoded(Bytes),
}

impl<'a> LineValue<'a> {
    pub fn as_slice(&self) -> &[u8]
        ensures { result.now ≡ bytes_in self.now }
    {
        match self {
            LineValue::Plain(text) => text,
            LineValue::Decoded(bytes) => bytes.as_slice(),
        }
    }

    pub fn into_bytes(self, alloc: Global) -> Result<Bytes, AllocError>
        ensures { IfOk result (λ b. b ≡ bytes_in self.entry) }
    {
        match self {
            LineValue::Plain(text) => Bytes::from_slice(alloc, text),
            LineValue::Decoded(bytes) => Ok(bytes),
        }
    }
}

/// An attribute's name and one value of it, as a line has them. A contract sees the two as lists of bytes.
pub struct Attr<'a> {
    name: &'a [u8],
    value: LineValue<'a>,
}

// A call of its own, so that a caller's proof need not tell the forms of the value apart.
impl Drop for Attr<'_> {
    fn drop(self) {
        let Attr { name: _, value } = self;
        drop(value);
    }
}

impl<'a> Model for Attr<'a> {
    ghost use Rattle.ldif.specs.Attrs as attrs;
    ghost use Rattle.ldif.specs.LineValues.{bytes_in};

    ghost Value = { attrs.Attr };

    ghost coded = { attrs.attr_code };

    ghost view = { λ a. record { name = a.name.now; value = bytes_in a.value } };
}

impl<'a> Attr<'a> {
    /// The attribute with this name and this value.
    pub fn new(name: &'a [u8], value: &'a [u8]) -> Attr<'a>
        ensures { result ≡ record { name = name.now; value = value.now } }
    {
        Attr {
            name,
            value: LineValue::Plain(value),
        }
    }

    pub(crate) fn of_line(name: &'a [u8], value: LineValue<'a>) -> Attr<'a>
        ensures { result ≡ record { name = name.now; value = bytes_in value.entry } }
    {
        Attr { name, value }
    }

    pub fn name(&self) -> &[u8]
        ensures { result.now ≡ self.now.name }
    {
        self.name
    }

    pub fn value(&self) -> &[u8]
        ensures { result.now ≡ self.now.value }
    {
        self.value.as_slice()
    }

    pub(crate) fn into_value(self, alloc: Global) -> Result<Bytes, AllocError>
        ensures { IfOk result (λ b. b ≡ self.entry.value) }
    {
        let Attr { name: _, value } = self;
        value.into_bytes(alloc)
    }
}
