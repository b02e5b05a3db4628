//! Words for values that a type doesn't have.

ghost use Rattle.std.specs.Prelude.{◌≡◌, OnOk};
ghost use Rattle.sentences.specs.Putting.{IsPut};
ghost use Rattle.sentences.specs.Sentence.{IsShown};
ghost use Rattle.sentences.specs.PartWords.{syntax_words, no_such_value};

use crate::lines::ShownText;
use crate::names::push_type;
use crate::shown::push_quoted;
use schema::{Conf, Syntax, TypeId, TypeSyntax};
use std::alloc::AllocError;

/// The syntax that a value isn't of, with its OID (RFC 4517, 3.3).
fn syntax_words(syntax: TypeSyntax) -> &'static str
    ensures words { result.now ≡ syntax_words syntax }
    ensures shown { IsShown result.now }
{
    match syntax {
        TypeSyntax::Name => {
            "no DN (1.3.6.1.4.1.1466.115.121.1.12) by its form or the types of dir.conf"
        }
        TypeSyntax::Plain(Syntax::Text) => {
            "no Directory String (1.3.6.1.4.1.1466.115.121.1.15): UTF-8, not empty"
        }
        TypeSyntax::Plain(Syntax::Ascii) => "no IA5 String (1.3.6.1.4.1.1466.115.121.1.26)",
        TypeSyntax::Plain(Syntax::Numeric) => "no Numeric String (1.3.6.1.4.1.1466.115.121.1.36)",
        TypeSyntax::Plain(Syntax::Boolean) => "no Boolean (1.3.6.1.4.1.1466.115.121.1.7)",
        TypeSyntax::Plain(Syntax::Integer) => "no Integer (1.3.6.1.4.1.1466.115.121.1.27)",
        TypeSyntax::Plain(Syntax::Oid) => "no OID (1.3.6.1.4.1.1466.115.121.1.38)",
        TypeSyntax::Plain(Syntax::Octet) => "no value",
    }
}

/// Puts that a type has no such value behind a text.
#[tactic(auto, unfolding(crate::specs::PartWords::no_such_value))]
pub(crate) fn push_no_such_value(
    out: &mut ShownText,
    conf: &Conf,
    t: TypeId,
    value: &[u8],
) -> Result<(), AllocError>
    ensures { OnOk result (IsPut out.old out.new (no_such_value conf.now t value.now)) }
{
    push_type(out, conf, t)?;
    out.push_str(": ")?;
    push_quoted(out, value)?;
    out.push_str(" is ")?;
    match conf.types().get(t.number() as usize) {
        Some(found) => out.push_str(syntax_words(found.syntax)),
        None => out.push_str("no value"),
    }
}
