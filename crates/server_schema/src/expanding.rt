//! OIDs in place of the macros of a definition.

ghost use Rattle.std.specs.Prelude.{◌≡◌, ◌<◌, ◌≤◌, ◌++◌, IfOk, IfSome, OnOk, position, length};
ghost use Rattle.server_schema.specs.Expanding.{ends_word, is_due, behind_word, behind_sign, is_left_brace, length_start, put_word, expanded};

use crate::macros::{Macro, put_oid};
use base::Bytes;
use std::alloc::{AllocError, Global};

/// What the next word of a definition is.
#[derive(Clone, Copy, PartialEq, Eq)]
pub(crate) enum Due {
    /// Nothing before the parenthesis that opens it.
    Opening,
    /// The OID of the definition.
    Oid,
    /// A word that is no OID.
    Other,
    /// The OID of a syntax, bare.
    Syntax,
    /// The OID of a syntax, in quotes.
    QuotedSyntax,
    /// Part of a text in quotes.
    Text,
}

fn ends_word(b: u8) -> bool
    ensures { result ≡ ends_word b }
{
    b == b' ' || b == b'\t' || b == b'\'' || b == b'(' || b == b')' || b == b'$'
}

impl Due {
    fn is_oid(self) -> bool
        ensures { result ≡ is_due self }
    {
        match self {
            Due::Oid | Due::Syntax | Due::QuotedSyntax => true,
            Due::Opening | Due::Other | Due::Text => false,
        }
    }

    // what is due behind a word
    fn behind_word(self, word: &[u8]) -> Due
        ensures { result ≡ behind_word self word.now }
    {
        if word.is_empty() {
            return self;
        }
        match self {
            Due::Oid | Due::Syntax => Due::Other,
            Due::Other => {
                if word.eq_ignore_ascii_case(b"SYNTAX") {
                    Due::Syntax
                } else {
                    Due::Other
                }
            }
            Due::Opening => Due::Opening,
            Due::QuotedSyntax => Due::QuotedSyntax,
            Due::Text => Due::Text,
        }
    }

    // what is due behind a blank or a sign
    fn behind_sign(self, sign: u8) -> Due
        ensures { result ≡ behind_sign self sign }
    {
        if sign == b'\'' {
            match self {
                Due::Text | Due::QuotedSyntax => Due::Other,
                Due::Syntax => Due::QuotedSyntax,
                Due::Opening => Due::Opening,
                Due::Oid | Due::Other => Due::Text,
            }
        } else if sign == b'(' {
            match self {
                Due::Opening => Due::Oid,
                _ => self,
            }
        } else {
            self
        }
    }
}

fn brace_in(word: &[u8]) -> Option<usize>
    ensures place { result ≡ position is_left_brace word.now }
    ensures bound { IfSome result (λ at. at < length word.now) }
{
    word.iter().position(|b| *b == b'{')
}

// where the length of a syntax begins, `{64}`, or the word ends
fn length_start(word: &[u8]) -> usize
    ensures value { result ≡ length_start word.now }
    ensures bound { result ≤ length word.now }
{
    brace_in(word).unwrap_or(word.len())
}

fn put_word(macros: &[Macro], due: Due, word: &[u8], out: &mut Vec<u8>) -> Result<(), AllocError>
    ensures { OnOk result (out.new.items ≡ out.old.items ++ put_word macros.now due word.now) }
{
    if !due.is_oid() || word.is_empty() {
        return out.extend_from_slice(word);
    }
    let (oid, length) = word.split_at(length_start(word));
    put_oid(macros, oid, out)?;
    out.extend_from_slice(length)
}

/// The text of a definition with OIDs in place of macros: as its own OID, and as that of its syntax.
#[tactic(auto, unfolding(crate::specs::Expanding::expanded_from))]
pub(crate) fn expanded(alloc: Global, macros: &[Macro], text: &[u8]) -> Result<Bytes, AllocError>
    ensures { IfOk result (λ b. b ≡ expanded macros.now text.now) }
{
    let mut out = Vec::with_capacity(alloc, text.len())?;
    let mut due = Due::Opening;
    let mut word = Vec::new(alloc);
    for b in text {
        if ends_word(*b) {
            put_word(macros, due, &word, &mut out)?;
            out.push(*b)?;
            due = due.behind_word(&word).behind_sign(*b);
            word = Vec::new(alloc);
        } else {
            word.push(*b)?;
        }
    }
    put_word(macros, due, &word, &mut out)?;
    Ok(Bytes::from_vec(out))
}
