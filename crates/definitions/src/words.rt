//! Words, signs and quoted texts of a definition (RFC 4512, 4.1).

ghost use Rattle.std.specs.Prelude.{◌≡◌, ◌<◌, IfSome, length, position};
ghost use Rattle.std.specs.Option.{option_map};
ghost use Rattle.definitions.specs.Words.{is_blank, is_no_blank, end_of, skip, first_word, after_word, ends_word, word_at, sign_at, is_quote, cut_quoted, quoted_at, plain_or_quoted_at, plain_or_named_at, named, ◌>>>◌};

use base::{begins_with, is_name_or_oid};

fn is_blank(b: u8) -> bool
    ensures { result ≡ is_blank b }
{
    b == b' ' || b == b'\t'
}

fn ends_word(b: u8) -> bool
    ensures { result ≡ ends_word b }
{
    is_blank(b) || b == b'\'' || b == b'(' || b == b')' || b == b'$'
}

fn no_blank_in(text: &[u8]) -> Option<usize>
    ensures place { result ≡ position is_no_blank text.now }
    ensures bound { IfSome result (λ at. at < length text.now) }
{
    text.iter().position(|b| !is_blank(*b))
}

fn blank_in(text: &[u8]) -> Option<usize>
    ensures place { result ≡ position is_blank text.now }
    ensures bound { IfSome result (λ at. at < length text.now) }
{
    text.iter().position(|b| is_blank(*b))
}

fn word_end_in(text: &[u8]) -> Option<usize>
    ensures place { result ≡ position ends_word text.now }
    ensures bound { IfSome result (λ at. at < length text.now) }
{
    text.iter().position(|b| ends_word(*b))
}

fn quote_in(text: &[u8]) -> Option<usize>
    ensures place { result ≡ position is_quote text.now }
    ensures bound { IfSome result (λ at. at < length text.now) }
{
    text.iter().position(|b| *b == b'\'')
}

/// The text without the spaces and tabs at its front.
pub fn skip(text: &[u8]) -> &[u8]
    ensures { result.now ≡ skip text.now }
{
    let start = no_blank_in(text).unwrap_or(text.len());
    text.split_at(start).1
}

/// A line's first word, up to the first space or tab, and what follows it.
pub fn split_first_word(line: &[u8]) -> (&[u8], &[u8])
    ensures word { result.0.now ≡ first_word line.now }
    ensures rest { result.1.now ≡ after_word line.now }
{
    let end = blank_in(line).unwrap_or(line.len());
    line.split_at(end)
}

/// A word, and what follows it.
#[tactic(auto, unfolding(crate::specs::Words::word_at))]
pub(crate) fn word_at(text: &[u8]) -> Option<(&[u8], &[u8])>
    ensures { option_map (λ w. (w.0.now, w.1.now)) result ≡ word_at text.now }
{
    let text = skip(text);
    let end = word_end_in(text).unwrap_or(text.len());
    if end == 0 {
        None
    } else {
        Some(text.split_at(end))
    }
}

/// What follows a sign.
#[tactic(auto, unfolding(crate::specs::Words::sign_at))]
pub(crate) fn sign_at(sign: u8, text: &[u8]) -> Option<&[u8]>
    ensures { option_map (λ r. r.now) result ≡ sign_at sign text.now }
{
    match skip(text) {
        [first, rest @ ..] if *first == sign => Some(rest),
        _ => None,
    }
}

fn cut_quoted(text: &[u8]) -> Option<(&[u8], &[u8])>
    ensures { option_map (λ w. (w.0.now, w.1.now)) result ≡ cut_quoted (end_of is_quote text.now) text.now }
{
    let end = quote_in(text).unwrap_or(text.len());
    if end < text.len() {
        Some((&text[..end], &text[end + 1..]))
    } else {
        None
    }
}

/// A text between two quotes, and what follows it.
#[tactic(auto, unfolding(crate::specs::Words::quoted_at))]
pub(crate) fn quoted_at(text: &[u8]) -> Option<(&[u8], &[u8])>
    ensures { option_map (λ w. (w.0.now, w.1.now)) result ≡ quoted_at text.now }
{
    match sign_at(b'\'', text) {
        Some(inside) => cut_quoted(inside),
        None => None,
    }
}

/// A word or a text between two quotes, and what follows it.
#[tactic(auto, unfolding(crate::specs::Words::plain_or_quoted_at))]
pub(crate) fn plain_or_quoted_at(text: &[u8]) -> Option<(&[u8], &[u8])>
    ensures { option_map (λ w. (w.0.now, w.1.now)) result ≡ plain_or_quoted_at text.now }
{
    if begins_with(skip(text), b'\'') {
        quoted_at(text)
    } else {
        word_at(text)
    }
}

fn named_at(text: &[u8]) -> Option<(&[u8], &[u8])>
    ensures { option_map (λ w. (w.0.now, w.1.now)) result ≡ (quoted_at text.now >>> named) }
{
    match quoted_at(text) {
        Some((name, rest)) if is_name_or_oid(name) => Some((name, rest)),
        _ => None,
    }
}

/// A word, or a name or an OID between two quotes, and what follows it.
#[tactic(auto, unfolding(crate::specs::Words::plain_or_named_at))]
pub(crate) fn plain_or_named_at(text: &[u8]) -> Option<(&[u8], &[u8])>
    ensures { option_map (λ w. (w.0.now, w.1.now)) result ≡ plain_or_named_at text.now }
{
    if begins_with(skip(text), b'\'') {
        named_at(text)
    } else {
        word_at(text)
    }
}
