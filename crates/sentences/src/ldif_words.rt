//! Sentences for records whose lines are no record (RFC 2849).

ghost use Rattle.std.specs.Prelude.{IfSome};
ghost use Rattle.sentences.specs.Sentence.{IsShown};

use crate::lines::{Sentence, ShownText};
use crate::shown::quoted;
use ldif::{FaultPlace, LdifFaultKind, Mode, RawRecord, fault_place};
use std::alloc::{AllocError, Global};

/// What is wrong with a line, or with the end of a record, behind the line itself.
fn fault_words(kind: LdifFaultKind) -> &'static str
    ensures { IsShown result.now }
{
    match kind {
        LdifFaultKind::DnMissing => "a record begins with dn:",
        LdifFaultKind::Continuation =>
            "a line that begins with a space continues the one before it, and here is none",
        LdifFaultKind::Version => "version 1 alone is known",
        LdifFaultKind::Base64 => "what stands behind :: is no padded base64 (RFC 4648)",
        LdifFaultKind::Url => "values aren't read from URLs; write the value itself",
        LdifFaultKind::ColonMissing => "a line is a name, a colon and a value",
        LdifFaultKind::ChangetypeUnknown => "changetype is add, delete, modify, modrdn or moddn",
        LdifFaultKind::OtherAttribute =>
            "the lines of a block are of the attribute that its first line names; a line - ends the block",
        LdifFaultKind::PartMissing =>
            "newrdn: and then deleteoldrdn: are due behind changetype: modrdn",
        LdifFaultKind::StrayLine => "the record has no place for this line",
        LdifFaultKind::ChangetypeMissing =>
            "changetype: is due; ldapmodify -a adds records without it",
        LdifFaultKind::ChangetypeInContent => "slapadd takes entries, and ldapmodify takes changes",
        LdifFaultKind::Word => "deleteoldrdn is 0 or 1; a control is an OID and then true or false",
    }
}

/// What is wrong with a text that begins so, where it is no LDIF as a whole.
fn text_words(beginning: &[u8]) -> Option<&'static str>
    ensures { IfSome result (λ words. IsShown words.now) }
{
    match beginning {
        [0xEF, 0xBB, 0xBF, ..] => Some("the text begins with a byte order mark; take it away"),
        [0xFF, 0xFE, ..] | [0xFE, 0xFF, ..] | [0, _, 0, ..] | [_, 0, _, 0, ..] => {
            Some("the text is UTF-16; LDIF is UTF-8")
        }
        [0x1F, 0x8B, ..] => Some("the text is compressed (gzip); unpack it"),
        _ => None,
    }
}

/// What is wrong with the line of this number: with the text as a whole, or with the line.
fn line_words(number: u64, line: &[u8], kind: LdifFaultKind) -> &'static str
    ensures { IsShown result.now }
{
    match text_words(line) {
        Some(words) if number == 1 => words,
        _ => fault_words(kind),
    }
}

/// The line of a record that has this index; nothing where it has none.
fn line_at<'a>(raw: &'a RawRecord, index: usize) -> Option<&'a [u8]> {
    let mut rest = raw.lines.all();
    for _ in 0..index {
        let (_, after) = rest.split_first()?;
        rest = after;
    }
    let (line, _) = rest.split_first()?;
    Some(line)
}

/// Why the lines of a record are none: the line at fault, or the end, and what is due there.
fn words_at(
    alloc: Global,
    raw: &RawRecord,
    index: usize,
    kind: LdifFaultKind,
) -> Result<ShownText, AllocError> {
    match line_at(raw, index) {
        Some(line) => {
            let number = raw.number_of(index).unwrap_or(raw.line);
            let words = line_words(number, line, kind);
            let line = quoted(alloc, line)?;
            ShownText::of(format!(in alloc; "line {number}: {line}: {words}"))
        }
        None => {
            let words = fault_words(kind);
            let number = raw.numbers.last().copied().unwrap_or(raw.line);
            ShownText::of(format!(in alloc; "behind line {number}: {words}"))
        }
    }
}

/// The same as a sentence.
pub(crate) fn fault_sentence(
    alloc: Global,
    raw: &RawRecord,
    mode: Mode,
    kind: LdifFaultKind,
) -> Result<Sentence, AllocError> {
    let index = match fault_place(alloc, raw, mode)? {
        Some(FaultPlace { index, .. }) => index,
        None => 0,
    };
    let words = words_at(alloc, raw, index, kind)?;
    Sentence::of(words)
}
