//! Lines, and words in a line.

ghost use Rattle.std.specs.Prelude.{◌≡◌, ◌<◌, ◌∷◌, IfSome, MatchOption, length};
ghost use Rattle.stored_index.specs.FaultyLines.{HasNoLineFeed};
ghost use Rattle.stored_index.specs.inner.Lines.{IsCutAt};
ghost use Rattle.stored_index.specs.Cuts.{parts, parts_if};

use memchr::memchr;

/// What stands before the first such byte, and what stands behind it.
pub(crate) fn cut(byte: u8, text: &[u8]) -> (&[u8], Option<&[u8]>)
    ensures parts { parts byte text.now ≡ result.0.now ∷ parts_if byte result.1 }
    ensures shorter { IfSome result.1 (λ rest. length rest.now < length text.now) }
{
    match memchr(byte, text) {
        Some(at) => (&text[..at], Some(&text[at + 1..])),
        None => (text, None),
    }
}

/// The first line, and what stands behind its LF, if it has one.
pub(crate) fn first_line(text: &[u8]) -> Option<(&[u8], &[u8])>
    ensures cut { MatchOption result (HasNoLineFeed text.now) (λ c. IsCutAt text.now c.0.now c.1.now) }
    ensures shorter { IfSome result (λ c. length c.1.now < length text.now) }
{
    match memchr(b'\n', text) {
        Some(at) => Some((&text[..at], &text[at + 1..])),
        None => None,
    }
}
