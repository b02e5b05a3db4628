//! On which line of a text a word of a definition stands.

ghost use Rattle.std.specs.Prelude.{◌≡◌, ◌++◌, ℕ, true, List, IsTrue};
ghost use Rattle.std.specs.Option.{option_map};
ghost use Rattle.std.specs.Str.{str_eq_ignore_ascii_case};
ghost use Rattle.dir_conf.specs.WordLines.{field_word, keyword_of, word_in, word_of, sought, IsWordLine};

use crate::line_numbers::line_feeds_in;
use crate::reason::{ConfFlaw, NameField, UnreadPart};
use crate::tokens::{Token, next_token};
use base::Bytes;

// the place behind the next line feed
fn behind_line(text: &[u8]) -> Option<&[u8]> {
    match text.iter().position(|b| *b == b'\n') {
        Some(at) => Some(text.split_at(at).1.split_at(1).1),
        None => None,
    }
}

// the text from the line of this number on
fn from_line(text: &[u8], line: u64) -> &[u8] {
    let mut rest = text;
    for _ in 1..line {
        match behind_line(rest) {
            Some(behind) => rest = behind,
            None => return rest,
        }
    }
    rest
}

fn begins_blank(text: &[u8]) -> bool {
    match text {
        [b' ' | b'\t', ..] => true,
        _ => false,
    }
}

// what stands before the end of a text
fn before<'a>(text: &'a [u8], end: &[u8]) -> &'a [u8] {
    text.split_at(text.len().saturating_sub(end.len())).0
}

// the first line of a text and those that it goes on on
fn whole_line(text: &[u8]) -> &[u8] {
    let mut rest = text;
    for _ in text {
        match behind_line(rest) {
            Some(behind) => {
                if !begins_blank(behind) {
                    return before(text, behind);
                }
                rest = behind;
            }
            None => return text,
        }
    }
    text
}

// how many bytes are left of a text from the text of this token on, where it is this word, in any case
fn left_from(token: Token<'_>, word: &[u8], behind: &[u8]) -> Option<usize> {
    match token {
        Token::Word(text) if text.eq_ignore_ascii_case(word) => {
            Some(text.len().saturating_add(behind.len()))
        }
        Token::Quoted(text) if text.eq_ignore_ascii_case(word) => Some(
            text.len().saturating_add(1).saturating_add(behind.len()),
        ),
        _ => None,
    }
}

/// A word in a text: how many bytes are left from it on, and what stands behind it.
#[derive(Clone, Copy)]
struct Found<'a> {
    left: usize,
    behind: &'a [u8],
}

// the first token that is this word
fn find_word<'a>(word: &[u8], text: &'a [u8]) -> Option<Found<'a>> {
    let mut rest = text;
    for _ in text {
        let (token, behind) = next_token(rest)?;
        if let Some(left) = left_from(token, word, behind) {
            return Some(Found { left, behind });
        }
        rest = behind;
    }
    None
}

fn field_word(field: NameField) -> &'static [u8]
    ensures { result.now ≡ field_word field }
{
    match field {
        NameField::Superior => b"SUP",
        NameField::Must => b"MUST",
        NameField::May => b"MAY",
    }
}

// the word of the field that a flaw is of, where it is known; else nothing
fn keyword_of(flaw: &ConfFlaw) -> &'static [u8]
    ensures { result.now ≡ keyword_of flaw.now }
{
    match flaw {
        ConfFlaw::UnknownName { field, .. } => field_word(*field),
        ConfFlaw::Subtype { .. } => b"SUP",
        ConfFlaw::RuleSyntax { .. } => b"EQUALITY",
        ConfFlaw::Collective { .. } => b"COLLECTIVE",
        _ => b"",
    }
}

fn word_in(part: &UnreadPart) -> Option<&Bytes>
    ensures { option_map (λ w. w.now) result ≡ word_in part.now }
{
    match part {
        UnreadPart::NoField { word } => Some(word),
        UnreadPart::Field { word } => Some(word),
        UnreadPart::Again { word } => Some(word),
        _ => None,
    }
}

// the word that a flaw is of, if it is of one that may stand on another line than the first
fn word_of(flaw: &ConfFlaw) -> Option<&Bytes>
    ensures { option_map (λ w. w.now) result ≡ word_of flaw.now }
{
    match flaw {
        ConfFlaw::Unread { part, .. } => word_in(part),
        ConfFlaw::UnknownName { word, .. } => Some(word),
        ConfFlaw::Subtype { superior, .. } => Some(superior),
        ConfFlaw::Twice { word, .. } => Some(word),
        ConfFlaw::UnknownIndexed { word } => Some(word),
        ConfFlaw::UnknownKind { word } => Some(word),
        ConfFlaw::NoRule { word, .. } => Some(word),
        _ => None,
    }
}

// whether it is the second time that this word stands there
fn is_again(flaw: &ConfFlaw) -> bool {
    match flaw {
        ConfFlaw::Unread {
            part: UnreadPart::Again { .. },
            ..
        } => true,
        _ => false,
    }
}

// a word that stands twice: its second place, or else the first
fn find_again<'a>(word: &[u8], text: &'a [u8]) -> Option<Found<'a>> {
    let first = find_word(word, text)?;
    match find_word(word, first.behind) {
        Some(second) => Some(second),
        None => Some(first),
    }
}

// what stands behind a keyword, if there is one
fn behind_keyword<'a>(keyword: &[u8], text: &'a [u8]) -> Option<&'a [u8]> {
    if keyword.is_empty() {
        return Some(text);
    }
    let found = find_word(keyword, text)?;
    Some(found.behind)
}

// how many bytes are left of a line from the word of a flaw on
fn left_of_line(flaw: &ConfFlaw, line: &[u8]) -> Option<usize> {
    let keyword = keyword_of(flaw);
    let found = match word_of(flaw) {
        Some(word) => {
            let rest = behind_keyword(keyword, line)?;
            if is_again(flaw) {
                find_again(word.as_slice(), rest)
            } else {
                find_word(word.as_slice(), rest)
            }
        }
        None => find_word(keyword, line),
    };
    Some(found?.left)
}

// where the word of a flaw is to be looked for, that a line of this number has
fn place_of(text: &[u8], line: u64, flaw: &ConfFlaw) -> Option<usize> {
    let rest = from_line(text, line);
    let whole = whole_line(rest);
    let left = left_of_line(flaw, whole)?;
    let before = text.len().saturating_sub(rest.len());
    Some(before.saturating_add(whole.len().saturating_sub(left)))
}

// whether a text begins with a word, in any case
fn begins_with_word(text: &[u8], word: &[u8]) -> bool
    ensures { IsTrue result → (found : List ℕ) × (behind : List ℕ) × (text.now ≡ found ++ behind) × (str_eq_ignore_ascii_case found word.now ≡ true) }
{
    text.len() >= word.len() && text.split_at(word.len()).0.eq_ignore_ascii_case(word)
}

// the line on which a word stands at this place, where that is no line before this one; else this one
fn line_there(text: &[u8], at: usize, word: &[u8], line: u64) -> u64
    ensures { IsWordLine text.now word.now line result }
{
    let (front, rest) = text.split_at(at.min(text.len()));
    let there = line_feeds_in(front) + 1;
    if !word.is_empty() && line <= there && begins_with_word(rest, word) {
        there
    } else {
        line
    }
}

/// The line of a text on which the word of a flaw stands, that a line of this number has; this number where it isn't found.
pub(crate) fn word_line(text: &[u8], line: u64, flaw: &ConfFlaw) -> u64
    ensures { IsWordLine text.now (sought flaw.now) line result }
{
    let Some(at) = place_of(text, line, flaw) else {
        return line;
    };
    match word_of(flaw) {
        Some(word) => line_there(text, at, word.as_slice(), line),
        None => line_there(text, at, keyword_of(flaw), line),
    }
}
