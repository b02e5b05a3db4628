//! The tokens of definitions, one after the other, in text that may be broken into lines.

ghost use Rattle.std.specs.Prelude.{◌<◌, ◌≤◌, ◌≡◌, IfSome, length};

use base::Bytes;

/// A token, with its text where it has one. What a quote that nothing closes begins is a word.
#[derive(Clone, Copy)]
pub(crate) enum Token<'a> {
    Opening,
    Closing,
    Dollar,
    Quoted(&'a [u8]),
    Word(&'a [u8]),
}

fn is_blank(byte: u8) -> bool {
    byte == b' ' || byte == b'\t' || byte == b'\r' || byte == b'\n' || byte == b','
}

fn ends_word(byte: u8) -> bool {
    is_blank(byte) || byte == b'\'' || byte == b'(' || byte == b')' || byte == b'$'
}

// the place of the first byte that is no blank
fn start_in(text: &[u8]) -> usize
    ensures { result ≤ length text.now }
{
    match text.iter().position(|b| !is_blank(*b)) {
        Some(at) => at,
        None => text.len(),
    }
}

// the place of the first byte that ends a word
fn word_end_in(text: &[u8]) -> usize
    ensures { result ≤ length text.now }
{
    match text.iter().position(|b| ends_word(*b)) {
        Some(at) => at,
        None => text.len(),
    }
}

fn quote_in(text: &[u8]) -> Option<usize>
    ensures { IfSome result (λ at. at < length text.now) }
{
    text.iter().position(|b| *b == b'\'')
}

// what stands behind an opening quote
fn quoted(inside: &[u8]) -> (Token<'_>, &[u8])
    ensures { length result.1.now ≤ length inside.now }
{
    match quote_in(inside) {
        Some(end) => (Token::Quoted(&inside[..end]), &inside[end + 1..]),
        None => (Token::Word(inside), inside.split_at(inside.len()).1),
    }
}

fn word(text: &[u8]) -> (Token<'_>, &[u8])
    ensures { length result.1.now ≤ length text.now }
{
    let (word, rest) = text.split_at(word_end_in(text));
    (Token::Word(word), rest)
}

/// The next token, and what stands behind it.
pub(crate) fn next_token(text: &[u8]) -> Option<(Token<'_>, &[u8])>
    ensures { IfSome result (λ t. length t.1.now ≤ length text.now) }
{
    match text.split_at(start_in(text)).1 {
        [] => None,
        [b'(', rest @ ..] => Some((Token::Opening, rest)),
        [b')', rest @ ..] => Some((Token::Closing, rest)),
        [b'$', rest @ ..] => Some((Token::Dollar, rest)),
        [b'\'', rest @ ..] => Some(quoted(rest)),
        begun => Some(word(begun)),
    }
}
