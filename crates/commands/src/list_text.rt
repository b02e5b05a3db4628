//! The text of a list, and what stands for a line of it.
ghost use Rattle.std.specs.Prelude.{◌≡◌, ◌<◌, ◌≤◌, ◌∷◌, ◌++◌, [], IfOk, OnOk, IfSome, IsTrue, MatchOption, length};
ghost use Rattle.std.specs.List.{flat_map};
ghost use Rattle.std.specs.Option.{option_copied};
ghost use Rattle.commands.specs.Lists.{lines, begins_with_mark, filled, filter_text, comment_byte, comment, count_tail};
ghost use Rattle.commands.specs.inner.Lists.{without_return};

use base::ends_with;
use memchr::memchr;
use std::alloc::{AllocError, Global};

/// A line without the CR at its end, if one stands there.
fn without_return(line: &[u8]) -> &[u8]
    ensures { result.now ≡ without_return line.now }
{
    if ends_with(line, b'\r') {
        &line[..line.len() - 1]
    } else {
        line
    }
}

/// The first line of a list, without its end, and what stands behind that. None where there is no line.
pub fn first_line(text: &[u8]) -> Option<(&[u8], &[u8])>
    ensures line { MatchOption result (lines text.now ≡ []) (λ l. lines text.now ≡ l.0.now ∷ lines l.1.now) }
    ensures shorter { IfSome result (λ l. length l.1.now < length text.now) }
{
    if text.is_empty() {
        return None;
    }
    match memchr(b'\n', text) {
        Some(at) => Some((without_return(&text[..at]), &text[at + 1..])),
        None => Some((text, &[])),
    }
}

/// Whether a text begins with `%s`.
fn begins_with_mark(text: &[u8]) -> bool
    ensures begins { result ≡ begins_with_mark text.now }
    ensures long { IsTrue result → 2 ≤ length text.now }
{
    text.len() >= 2 && text[0] == b'%' && text[1] == b's'
}

/// A pattern with the line in place of its first `%s`.
fn filled(alloc: Global, pattern: &[u8], line: &[u8]) -> Result<Vec<u8>, AllocError>
    ensures { IfOk result (λ text. text.items ≡ filled line.now pattern.now) }
{
    let mut text = Vec::new(alloc);
    let mut rest = pattern;
    'bytes: while !rest.is_empty() {
        if begins_with_mark(rest) {
            text.extend_from_slice(line)?;
            text.extend_from_slice(&rest[2..])?;
            return Ok(text);
        }
        text.push(rest[0])?;
        rest = &rest[1..];
    }
    Ok(text)
}

/// The text of a line's filter: the line in place of the first `%s` of the pattern, or, without a pattern, the line.
pub fn filter_text(alloc: Global, pattern: Option<&str>, line: &[u8]) -> Result<Vec<u8>, AllocError>
    ensures { IfOk result (λ text. text.items ≡ filter_text (option_copied pattern.entry) line.now) }
{
    match pattern {
        Some(pattern) => filled(alloc, pattern.as_bytes(), line),
        None => Vec::from_slice(alloc, line),
    }
}

/// Puts a byte of a filter into a comment.
fn put_comment_byte(out: &mut Vec<u8>, byte: u8) -> Result<(), AllocError>
    ensures { OnOk result (out.new.items ≡ out.old.items ++ comment_byte byte) }
{
    match byte {
        b'\n' => out.extend_from_slice(b"\\0A"),
        b'\r' => out.extend_from_slice(b"\\0D"),
        _ => {
            out.push(byte)?;
            Ok(())
        }
    }
}

/// The comment that stands before the entries which a filter of this text finds (RFC 2849, note 5).
pub fn comment(alloc: Global, text: &[u8]) -> Result<Vec<u8>, AllocError>
    ensures { IfOk result (λ line. line.items ≡ comment text.now) }
{
    let mut line = Vec::new(alloc);
    line.extend_from_slice(b"# filter: ")?;
    for byte in text {
        put_comment_byte(&mut line, *byte)?;
    }
    line.push(b'\n')?;
    Ok(line)
}

/// What stands behind how many entries a line finds.
pub fn count_tail(alloc: Global, line: &[u8]) -> Result<Vec<u8>, AllocError>
    ensures { IfOk result (λ tail. tail.items ≡ count_tail line.now) }
{
    let mut tail = Vec::new(alloc);
    tail.push(b'\t')?;
    tail.extend_from_slice(line)?;
    tail.push(b'\n')?;
    Ok(tail)
}
