//! The fields of a definition as they stand in its text.

use crate::definition::Sort;
use std::alloc::{AllocError, Global};

/// A word, a sign or a text in quotes: where it begins and ends.
#[derive(Clone, Copy)]
pub(crate) struct Token {
    pub(crate) kind: TokenKind,
    pub(crate) start: usize,
    pub(crate) end: usize,
}

#[derive(Clone, Copy, PartialEq, Eq)]
pub(crate) enum TokenKind {
    Opening,
    Closing,
    Dollar,
    Quoted,
    Word,
}

/// A field of a definition: its word, and the tokens of its value.
#[derive(Clone, Copy)]
pub(crate) struct Field<'a> {
    pub(crate) word: Token,
    pub(crate) value: &'a [Token],
}

const FLAGS: [&[u8]; 7] = [
    b"OBSOLETE",
    b"SINGLE-VALUE",
    b"COLLECTIVE",
    b"NO-USER-MODIFICATION",
    b"ABSTRACT",
    b"STRUCTURAL",
    b"AUXILIARY",
];

/// The bytes of a text from one place up to another.
pub(crate) fn part(text: &[u8], start: usize, end: usize) -> &[u8] {
    let front = text.split_at(end.min(text.len())).0;
    front.split_at(start.min(front.len())).1
}

fn is_blank(b: u8) -> bool {
    b == b' ' || b == b'\t'
}

fn ends_word(b: u8) -> bool {
    is_blank(b) || b == b'\'' || b == b'(' || b == b')' || b == b'$'
}

fn quoted_len(inside: &[u8]) -> usize {
    match inside.iter().position(|b| *b == b'\'') {
        Some(at) => at.saturating_add(2),
        None => inside.len().saturating_add(1),
    }
}

fn word_len(text: &[u8]) -> usize {
    text.iter()
        .position(|b| ends_word(*b))
        .unwrap_or(text.len())
}

// what stands at the front of a text, and how long it is
fn front_of(text: &[u8]) -> Option<(TokenKind, usize)> {
    match text.split_first() {
        Some((b'(', _)) => Some((TokenKind::Opening, 1)),
        Some((b')', _)) => Some((TokenKind::Closing, 1)),
        Some((b'$', _)) => Some((TokenKind::Dollar, 1)),
        Some((b'\'', inside)) => Some((TokenKind::Quoted, quoted_len(inside))),
        Some(_) => Some((TokenKind::Word, word_len(text))),
        None => None,
    }
}

fn blanks_in(text: &[u8]) -> usize {
    text.iter()
        .position(|b| !is_blank(*b))
        .unwrap_or(text.len())
}

/// The tokens of a definition.
pub(crate) fn tokens_of(alloc: Global, text: &[u8]) -> Result<Vec<Token>, AllocError> {
    let mut tokens = Vec::new(alloc);
    let mut at = 0usize;
    for _ in text {
        let start = at.saturating_add(blanks_in(part(text, at, text.len())));
        match front_of(part(text, start, text.len())) {
            Some((kind, len)) => {
                let end = start.saturating_add(len);
                tokens.push(Token { kind, start, end })?;
                at = end;
            }
            None => return Ok(tokens),
        }
    }
    Ok(tokens)
}

/// The text of a token; of one in quotes what stands between them.
pub(crate) fn text_of<'a>(text: &'a [u8], token: Token) -> &'a [u8] {
    match token.kind {
        TokenKind::Quoted => part(
            text,
            token.start.saturating_add(1),
            token.end.saturating_sub(1),
        ),
        _ => part(text, token.start, token.end),
    }
}

fn is_flag(word: &[u8]) -> bool {
    FLAGS.iter().any(|flag| word.eq_ignore_ascii_case(flag))
}

// how many tokens a value has that stands at the front of these
fn value_len(tokens: &[Token]) -> usize {
    match tokens.split_first() {
        Some((first, _)) => {
            if first.kind != TokenKind::Opening {
                return 1;
            }
            match tokens
                .iter()
                .position(|token| token.kind == TokenKind::Closing)
            {
                Some(at) => at.saturating_add(1),
                None => tokens.len(),
            }
        }
        None => 0,
    }
}

/// The first field with this word, of the tokens of a definition.
pub(crate) fn field_named<'a>(text: &[u8], tokens: &'a [Token], word: &[u8]) -> Option<Field<'a>> {
    let mut rest = tokens.split_at(tokens.len().min(2)).1;
    for _ in tokens {
        let (first, behind) = rest.split_first()?;
        let name = text_of(text, *first);
        let len = if is_flag(name) { 0 } else { value_len(behind) };
        let (value, others) = behind.split_at(len.min(behind.len()));
        if name.eq_ignore_ascii_case(word) {
            return Some(Field {
                word: *first,
                value,
            });
        }
        rest = others;
    }
    None
}

/// The words of a value, without the signs of its list.
pub(crate) fn words_of<'a>(
    alloc: Global,
    text: &'a [u8],
    value: &[Token],
) -> Result<Vec<&'a [u8]>, AllocError> {
    let mut words = Vec::new(alloc);
    for token in value {
        if token.kind == TokenKind::Word || token.kind == TokenKind::Quoted {
            words.push(text_of(text, *token))?;
        }
    }
    Ok(words)
}

/// What a definition is called: its first name, or else its OID.
pub(crate) fn called(alloc: Global, text: &[u8]) -> Result<&[u8], AllocError> {
    let tokens = tokens_of(alloc, text)?;
    if let Some(field) = field_named(text, &tokens, b"NAME") {
        let words = words_of(alloc, text, field.value)?;
        if let Some(name) = words.first() {
            return Ok(name);
        }
    }
    match tokens.get(1) {
        Some(token) => Ok(text_of(text, *token)),
        None => Ok(b"a definition"),
    }
}

/// The words for a sort of definition.
pub(crate) fn sort_name(sort: Sort) -> &'static [u8] {
    match sort {
        Sort::AttributeType => b"attributetype",
        Sort::ObjectClass => b"objectclass",
    }
}
