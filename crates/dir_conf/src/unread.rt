//! Where a definition can't be read. It is gone through field by field, and each field is read by itself in a definition that has no other.

ghost use Rattle.std.specs.Prelude.{IfOk};
ghost use Rattle.dir_conf.specs.Flaws.{IsUnread};

use crate::reason::{ConfFlaw, UnreadPart};
use crate::tokens::{Token, next_token};
use base::{Bytes, is_oid};
use definitions::{DefinitionFault, read_class_definition, read_type_definition};
use std::alloc::{AllocError, Global};

/// What is defined.
#[derive(Clone, Copy)]
enum Sort {
    Type,
    Class,
}

/// Why going through a definition stopped.
#[derive(Clone, Copy)]
enum Stop<'a> {
    Head,
    NoField(&'a [u8]),
    Field(&'a [u8]),
    Again(&'a [u8]),
    NoSyntax,
    End,
}

/// A field that was gone through, or why it wasn't.
#[derive(Clone, Copy)]
enum Step<'a> {
    // the word of a field, and what stands behind the field
    Field(&'a [u8], &'a [u8]),
    Stop(Stop<'a>),
}

const FLAGS_OF_TYPES: [&[u8]; 4] = [
    b"OBSOLETE",
    b"SINGLE-VALUE",
    b"COLLECTIVE",
    b"NO-USER-MODIFICATION",
];

const FLAGS_OF_CLASSES: [&[u8]; 4] = [b"OBSOLETE", b"ABSTRACT", b"STRUCTURAL", b"AUXILIARY"];

const KINDS: [&[u8]; 3] = [b"ABSTRACT", b"STRUCTURAL", b"AUXILIARY"];

const FIELDS_OF_TYPES: [&[u8]; 8] = [
    b"NAME",
    b"DESC",
    b"SUP",
    b"EQUALITY",
    b"ORDERING",
    b"SUBSTR",
    b"SYNTAX",
    b"USAGE",
];

const FIELDS_OF_CLASSES: [&[u8]; 5] = [b"NAME", b"DESC", b"SUP", b"MUST", b"MAY"];

fn is_one_of(word: &[u8], words: &[&[u8]]) -> bool {
    words.iter().any(|other| word.eq_ignore_ascii_case(other))
}

// whether a field stands alone
fn is_flag(sort: Sort, word: &[u8]) -> bool {
    match sort {
        Sort::Type => is_one_of(word, &FLAGS_OF_TYPES),
        Sort::Class => is_one_of(word, &FLAGS_OF_CLASSES),
    }
}

fn is_extension(word: &[u8]) -> bool {
    match word {
        [b'X' | b'x', b'-', _, ..] => true,
        _ => false,
    }
}

// whether something stands behind the word of a field
fn takes_more(sort: Sort, word: &[u8]) -> bool {
    is_extension(word)
        || match sort {
            Sort::Type => is_one_of(word, &FIELDS_OF_TYPES),
            Sort::Class => is_one_of(word, &FIELDS_OF_CLASSES),
        }
}

// `( OID`: the OID, and what follows
fn head_in(text: &[u8]) -> Option<(&[u8], &[u8])> {
    match next_token(text)? {
        (Token::Opening, inside) => match next_token(inside)? {
            (Token::Word(oid), rest) if is_oid(oid) => Some((oid, rest)),
            _ => None,
        },
        _ => None,
    }
}

// what stands behind the next `)`
fn behind_closing(text: &[u8]) -> Option<&[u8]> {
    let mut rest = text;
    for _ in text {
        match next_token(rest)? {
            (Token::Closing, behind) => return Some(behind),
            (_, behind) => rest = behind,
        }
    }
    None
}

// what stands behind a word, a quoted text or a list in parentheses
fn behind_item(text: &[u8]) -> Option<&[u8]> {
    match next_token(text)? {
        (Token::Word(_) | Token::Quoted(_), behind) => Some(behind),
        (Token::Opening, inside) => behind_closing(inside),
        _ => None,
    }
}

// what stands before the end of a text
fn before<'a>(text: &'a [u8], end: &[u8]) -> &'a [u8] {
    text.split_at(text.len().saturating_sub(end.len())).0
}

// a definition that has this field, and what else it must have
fn definition_with(
    alloc: Global,
    sort: Sort,
    word: &[u8],
    field: &[u8],
) -> Result<Vec<u8>, AllocError> {
    let mut text = Vec::from_slice(alloc, b"( 0 ")?;
    text.extend_from_slice(field)?;
    match sort {
        Sort::Type => {
            if word.eq_ignore_ascii_case(b"SYNTAX") {
                text.extend_from_slice(b" SUP a )")?;
            } else {
                text.extend_from_slice(b" SYNTAX 0 )")?;
            }
        }
        Sort::Class => text.extend_from_slice(b" )")?,
    }
    Ok(text)
}

fn is_definition(alloc: Global, sort: Sort, text: &[u8]) -> Result<bool, AllocError> {
    let fault = match sort {
        Sort::Type => read_type_definition(alloc, text).err(),
        Sort::Class => read_class_definition(alloc, text).err(),
    };
    match fault {
        None => Ok(true),
        Some(DefinitionFault::Form) => Ok(false),
        Some(DefinitionFault::OutOfMemory) => Err(AllocError),
    }
}

// the field with this word; `text` begins before the word, `behind` stands behind it
fn step_over<'a>(
    alloc: Global,
    sort: Sort,
    text: &'a [u8],
    word: &'a [u8],
    behind: &'a [u8],
) -> Result<Step<'a>, AllocError> {
    if is_flag(sort, word) {
        return Ok(Step::Field(word, behind));
    }
    if !takes_more(sort, word) {
        return Ok(Step::Stop(Stop::NoField(word)));
    }
    let Some(rest) = behind_item(behind) else {
        return Ok(Step::Stop(Stop::Field(word)));
    };
    let field = definition_with(alloc, sort, word, before(text, rest))?;
    if is_definition(alloc, sort, &field)? {
        Ok(Step::Field(word, rest))
    } else {
        Ok(Step::Stop(Stop::Field(word)))
    }
}

// where no field stands: the end of the definition, or what isn't due behind the field of this word
fn stop_at<'a>(sort: Sort, last: Option<&'a [u8]>, text: &'a [u8]) -> Stop<'a> {
    match (next_token(text), sort, last) {
        (Some((Token::Closing, behind)), Sort::Type, _) if next_token(behind).is_none() => {
            Stop::NoSyntax
        }
        (Some((Token::Closing, _)), _, _) | (None, _, _) => Stop::End,
        (_, _, Some(word)) => Stop::Field(word),
        _ => Stop::Head,
    }
}

fn is_kind(word: &[u8]) -> bool {
    is_one_of(word, &KINDS)
}

// whether a field stands among those of these words; all kinds of a class are one field
fn is_again(word: &[u8], seen: &[&[u8]]) -> bool {
    is_one_of(word, seen) || (is_kind(word) && seen.iter().any(|other| is_kind(other)))
}

fn next_step<'a>(
    alloc: Global,
    sort: Sort,
    seen: &[&'a [u8]],
    text: &'a [u8],
) -> Result<Step<'a>, AllocError> {
    match next_token(text) {
        Some((Token::Word(word), behind)) => {
            if is_again(word, seen) {
                Ok(Step::Stop(Stop::Again(word)))
            } else {
                step_over(alloc, sort, text, word, behind)
            }
        }
        _ => Ok(Step::Stop(stop_at(sort, seen.last().copied(), text))),
    }
}

// why going through the fields stops
fn stop_in(alloc: Global, sort: Sort, fields: &[u8]) -> Result<Stop<'_>, AllocError> {
    let mut seen = Vec::new(alloc);
    let mut rest = fields;
    for _ in fields {
        match next_step(alloc, sort, &seen, rest)? {
            Step::Field(word, behind) => {
                seen.push(word)?;
                rest = behind;
            }
            Step::Stop(stop) => return Ok(stop),
        }
    }
    Ok(Stop::End)
}

// the first text in quotes behind the word NAME
fn name_in(fields: &[u8]) -> Option<&[u8]> {
    let mut rest = fields;
    let mut is_name = false;
    for _ in fields {
        let (token, behind) = next_token(rest)?;
        match token {
            Token::Quoted(name) if is_name => return Some(name),
            Token::Word(word) => is_name = word.eq_ignore_ascii_case(b"NAME"),
            _ => {}
        }
        rest = behind;
    }
    None
}

fn part_of(alloc: Global, stop: Stop<'_>) -> Result<UnreadPart, AllocError> {
    Ok(match stop {
        Stop::Head => UnreadPart::Head,
        Stop::NoField(word) => UnreadPart::NoField {
            word: Bytes::from_slice(alloc, word)?,
        },
        Stop::Field(word) => UnreadPart::Field {
            word: Bytes::from_slice(alloc, word)?,
        },
        Stop::Again(word) => UnreadPart::Again {
            word: Bytes::from_slice(alloc, word)?,
        },
        Stop::NoSyntax => UnreadPart::NoSyntax,
        Stop::End => UnreadPart::End,
    })
}

fn unread(alloc: Global, sort: Sort, text: &[u8]) -> Result<ConfFlaw, AllocError>
    ensures { IfOk result (λ flaw. IsUnread flaw) }
{
    match head_in(text) {
        Some((oid, fields)) => {
            let stop = stop_in(alloc, sort, fields)?;
            let of = Bytes::from_slice(alloc, name_in(fields).unwrap_or(oid))?;
            let part = part_of(alloc, stop)?;
            Ok(ConfFlaw::Unread { of: Some(of), part })
        }
        None => Ok(ConfFlaw::Unread {
            of: None,
            part: UnreadPart::Head,
        }),
    }
}

/// Why a text can't be read as the definition of a type.
pub(crate) fn unread_type(alloc: Global, text: &[u8]) -> Result<ConfFlaw, AllocError>
    ensures { IfOk result (λ flaw. IsUnread flaw) }
{
    unread(alloc, Sort::Type, text)
}

/// Why a text can't be read as the definition of a class.
pub(crate) fn unread_class(alloc: Global, text: &[u8]) -> Result<ConfFlaw, AllocError>
    ensures { IfOk result (λ flaw. IsUnread flaw) }
{
    unread(alloc, Sort::Class, text)
}
