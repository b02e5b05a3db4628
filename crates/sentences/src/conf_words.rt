//! Sentences for texts that are no configuration (RFC 4512, 4.1).

ghost use Rattle.sentences.specs.Sentence.{IsShown};

use crate::lines::{Sentence, ShownText};
use crate::shown::{named, quoted};
use base::Bytes;
use dir_conf::{ConfFlaw, ConfReason, NameField, SyntaxRule, UnreadPart, explain};
use schema::IndexKind;
use std::alloc::{AllocError, Global};

/// U+FEFF in UTF-8.
const BYTE_ORDER_MARK: &[u8] = b"\xEF\xBB\xBF";

fn field_word(field: NameField) -> &'static str
    ensures { IsShown result.now }
{
    match field {
        NameField::Superior => "SUP",
        NameField::Must => "MUST",
        NameField::May => "MAY",
    }
}

/// Which rule a type lacks for a kind of index.
fn lacking(kind: IndexKind) -> &'static str
    ensures { IsShown result.now }
{
    match kind {
        IndexKind::Equality => "equality rule for eq",
        IndexKind::Presence => "rule for pres",
        IndexKind::Substrings => "substring rule for sub",
    }
}

/// What can't be read of a definition.
fn unread_part(alloc: Global, part: &UnreadPart) -> Result<ShownText, AllocError> {
    match part {
        UnreadPart::Head => ShownText::fixed(alloc, "it begins with ( and a numeric OID"),
        UnreadPart::NoField { word } => {
            let word = quoted(alloc, word.as_slice())?;
            ShownText::of(format!(in alloc; "no field is called {word}"))
        }
        UnreadPart::Field { word } => {
            let word = named(alloc, word.as_slice())?;
            ShownText::of(format!(in alloc;
                "what stands behind {word} can't be read, or is not allowed"
            ))
        }
        UnreadPart::Again { word } => {
            let word = named(alloc, word.as_slice())?;
            ShownText::of(format!(in alloc; "{word} stands twice"))
        }
        UnreadPart::NoSyntax => ShownText::fixed(alloc, "an attribute type has SYNTAX or SUP"),
        UnreadPart::End => ShownText::fixed(
            alloc,
            "it ends with ), and nothing stands behind that",
        ),
    }
}

/// A definition that can't be read.
fn unread_words(
    alloc: Global,
    of: &Option<Bytes>,
    part: &UnreadPart,
) -> Result<ShownText, AllocError> {
    let part = unread_part(alloc, part)?;
    match of {
        Some(of) => {
            let of = named(alloc, of.as_slice())?;
            ShownText::of(format!(in alloc; "{of}: {part}"))
        }
        None => Ok(part),
    }
}

/// A matching rule that needs another syntax.
fn rule_words(alloc: Global, of: &[u8], rule: SyntaxRule) -> Result<ShownText, AllocError> {
    let of = named(alloc, of)?;
    match rule {
        SyntaxRule::Integer => ShownText::of(format!(in alloc;
            "{of}: integerMatch needs the syntax Integer (1.3.6.1.4.1.1466.115.121.1.27)"
        )),
        SyntaxRule::Name => ShownText::of(format!(in alloc;
            "{of}: distinguishedNameMatch needs the syntax DN (1.3.6.1.4.1.1466.115.121.1.12)"
        )),
    }
}

/// What is wrong with a suffix line or an index line.
fn later_words(alloc: Global, flaw: &ConfFlaw) -> Result<ShownText, AllocError> {
    match flaw {
        ConfFlaw::NoSuffix => {
            ShownText::fixed(
                alloc,
                "no suffix line; the suffix is the name of the first entry",
            )
        }
        ConfFlaw::SecondSuffix => ShownText::fixed(alloc, "a suffix stands above; one is kept"),
        ConfFlaw::BadSuffix { part } => {
            let part = quoted(alloc, part.as_slice())?;
            ShownText::of(format!(in alloc;
                "{part} is no name of attribute types that are defined"
            ))
        }
        ConfFlaw::Lists => ShownText::fixed(
            alloc,
            "an index line has a list of types and a list of kinds, each without spaces",
        ),
        ConfFlaw::UnknownIndexed { word } => {
            let word = named(alloc, word.as_slice())?;
            ShownText::of(format!(in alloc; "index: {word} isn't defined"))
        }
        ConfFlaw::UnknownKind { word } => {
            let word = named(alloc, word.as_slice())?;
            ShownText::of(format!(in alloc; "index: {word} is no kind; eq, pres and sub are"))
        }
        ConfFlaw::NoRule { word, kind } => {
            let word = named(alloc, word.as_slice())?;
            let rule = lacking(*kind);
            ShownText::of(format!(in alloc; "index: {word} has no {rule}"))
        }
        _ => ShownText::fixed(
            alloc,
            "a line that begins with a space continues the one before, and here is none",
        ),
    }
}

/// What is wrong with a line.
fn flaw_words(alloc: Global, flaw: &ConfFlaw) -> Result<ShownText, AllocError> {
    match flaw {
        ConfFlaw::Keyword { word } if word.as_slice().starts_with(BYTE_ORDER_MARK) => {
            ShownText::fixed(
                alloc,
                "the line begins with a byte order mark; take it away",
            )
        }
        ConfFlaw::Keyword { word } => {
            let word = quoted(alloc, word.as_slice())?;
            ShownText::of(format!(in alloc;
                "{word} is no keyword; suffix, index, attributetype and objectclass are"
            ))
        }
        ConfFlaw::Unread { of, part } => unread_words(alloc, of, part),
        ConfFlaw::Twice { of, word } => {
            let of = named(alloc, of.as_slice())?;
            let word = named(alloc, word.as_slice())?;
            ShownText::of(format!(in alloc; "{of}: {word} is taken already"))
        }
        ConfFlaw::UnknownName { of, field, word } => {
            let of = named(alloc, of.as_slice())?;
            let word = named(alloc, word.as_slice())?;
            let field = field_word(*field);
            ShownText::of(format!(in alloc; "{of}'s {field}: {word} isn't defined above"))
        }
        ConfFlaw::Subtype { of, superior } => {
            let of = named(alloc, of.as_slice())?;
            let superior = named(alloc, superior.as_slice())?;
            ShownText::of(format!(in alloc;
                "{of} has another syntax or equality rule than its SUP {superior}"
            ))
        }
        ConfFlaw::RuleSyntax { of, rule, .. } => rule_words(alloc, of.as_slice(), *rule),
        ConfFlaw::Collective { of } => {
            let of = named(alloc, of.as_slice())?;
            ShownText::of(format!(in alloc; "{of}: collective attributes aren't kept"))
        }
        ConfFlaw::TooManyTypes { of } => {
            let of = named(alloc, of.as_slice())?;
            ShownText::of(format!(in alloc; "{of}: 65,535 attribute types stand above"))
        }
        _ => later_words(alloc, flaw),
    }
}

/// What is wrong with a line, and on which line of the text the word stands that is at fault.
fn reason_sentence(alloc: Global, reason: &ConfReason) -> Result<Sentence, AllocError> {
    let words = flaw_words(alloc, &reason.flaw)?;
    match reason.word_line {
        0 => Sentence::of(words),
        line => {
            let words = ShownText::of(format!(in alloc; "line {line}: {words}"))?;
            Sentence::of(words)
        }
    }
}

/// Why a text is no configuration; nothing where it is one.
pub(crate) fn configuration_sentence(
    alloc: Global,
    text: &[u8],
) -> Result<Option<Sentence>, AllocError> {
    match explain(alloc, text)? {
        Some(reason) => Ok(Some(reason_sentence(alloc, &reason)?)),
        None => Ok(None),
    }
}
