//! Macros: names that stand for OIDs.

ghost use Rattle.std.specs.Prelude.{◌≡◌, ◌<◌, ◌≤◌, ◌++◌, IfOk, IfSome, OnOk, position, length};
ghost use Rattle.std.specs.Option.{option_map};
ghost use Rattle.server_schema.specs.Sources.{is_colon};
ghost use Rattle.server_schema.specs.Macros.{name_end, suffix_in, macro_named, oid_for, macro_of, with_macro, macros_in};

use crate::statements::{Statement, Word};
use base::Bytes;
use definitions::{skip, split_first_word};
use std::alloc::{AllocError, Global};

/// A name that stands for an OID.
pub(crate) struct Macro {
    name: Bytes,
    oid: Bytes,
}

impl Drop for Macro {
    fn drop(self) {
        let Macro { name, oid } = self;
        drop(name);
        drop(oid);
    }
}

fn colon_in(word: &[u8]) -> Option<usize>
    ensures place { result ≡ position is_colon word.now }
    ensures bound { IfSome result (λ at. at < length word.now) }
{
    word.iter().position(|b| *b == b':')
}

// where the name of a macro ends in a word
fn name_end(word: &[u8]) -> usize
    ensures value { result ≡ name_end word.now }
    ensures bound { result ≤ length word.now }
{
    colon_in(word).unwrap_or(word.len())
}

// the first macro of this name
fn macro_named<'a>(macros: &'a [Macro], name: &[u8]) -> Option<&'a Macro>
    ensures { option_map (λ m. m.now) result ≡ macro_named macros.now name.now }
{
    macros
        .iter()
        .find(|known| known.name.as_slice().eq_ignore_ascii_case(name))
}

// what stands behind the colon, behind a full stop
fn put_suffix(out: &mut Vec<u8>, suffix: &[u8]) -> Result<(), AllocError>
    ensures { OnOk result (out.new.items ≡ out.old.items ++ suffix_in suffix.now) }
{
    match suffix {
        [] => Ok(()),
        [_, rest @ ..] => {
            out.push(b'.')?;
            out.extend_from_slice(rest)
        }
    }
}

/// Puts the OID that a word stands for at the end of a text: that of a macro, with what stands behind a colon; or else the word.
pub(crate) fn put_oid(macros: &[Macro], word: &[u8], out: &mut Vec<u8>) -> Result<(), AllocError>
    ensures { OnOk result (out.new.items ≡ out.old.items ++ oid_for macros.now word.now) }
{
    let (name, suffix) = word.split_at(name_end(word));
    match macro_named(macros, name) {
        Some(known) => {
            out.extend_from_slice(known.oid.as_slice())?;
            put_suffix(out, suffix)
        }
        None => out.extend_from_slice(word),
    }
}

fn oid_of(alloc: Global, macros: &[Macro], word: &[u8]) -> Result<Bytes, AllocError>
    ensures { IfOk result (λ b. b ≡ oid_for macros.now word.now) }
{
    let mut oid = Vec::new(alloc);
    put_oid(macros, word, &mut oid)?;
    Ok(Bytes::from_vec(oid))
}

fn macro_of(alloc: Global, macros: &[Macro], text: &[u8]) -> Result<Macro, AllocError>
    ensures { IfOk result (λ m. m ≡ macro_of macros.now text.now) }
{
    let (name, rest) = split_first_word(text);
    let (word, _) = split_first_word(skip(rest));
    let oid = oid_of(alloc, macros, word)?;
    let name = Bytes::from_slice(alloc, name)?;
    Ok(Macro { name, oid })
}

fn add_macro(
    alloc: Global,
    macros: &mut Vec<Macro>,
    statement: &Statement,
) -> Result<(), AllocError>
    ensures { OnOk result (macros.new.items ≡ with_macro macros.old.items statement.now) }
{
    match statement.word {
        Word::Macro => {
            let new = macro_of(alloc, &*macros, statement.text.as_slice())?;
            macros.push(new)?;
            Ok(())
        }
        Word::Definition(_) => Ok(()),
    }
}

/// The macros that statements say. One may name those above it.
#[tactic(auto, unfolding(crate::specs::Macros::macros_from))]
pub(crate) fn macros_in(alloc: Global, statements: &[Statement]) -> Result<Vec<Macro>, AllocError>
    ensures { IfOk result (λ v. v.items ≡ macros_in statements.now) }
{
    let mut macros = Vec::new(alloc);
    for statement in statements {
        add_macro(alloc, &mut macros, statement)?;
    }
    Ok(macros)
}
