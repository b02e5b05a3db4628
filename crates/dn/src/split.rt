//! Texts cut at separators.

ghost use Rattle.std.specs.Prelude.{◌≡◌, ◌≤◌, ◌∷◌, ◌&&◌, not, false, length, take, drop, IfSome, IfNone};
ghost use Rattle.std.specs.Option.{option_map};
ghost use Rattle.dn.specs.Reading.{escapes};
ghost use Rattle.base.specs.Ascii.{plus_sign};
ghost use Rattle.base.specs.Ends.{begins_with};
ghost use Rattle.dn.specs.inner.Cuts.{piece, behind, ends_piece, after_first};
ghost use Rattle.dn.specs.NameFaults.{is_separator};

fn escapes(escaped: bool, b: u8) -> bool
    ensures { result ≡ escapes escaped b }
{
    !escaped && b == b'\\'
}

fn is_separator(b: u8) -> bool
    ensures { result ≡ is_separator b }
{
    b == b'+' || b == b','
}

fn separates(escaped: bool, b: u8) -> bool
    ensures { result ≡ (not escaped && is_separator b) }
{
    !escaped && is_separator(b)
}

/// How many bytes stand before the first plus sign or comma that is not escaped.
fn piece_len(text: &[u8]) -> usize
    ensures piece { take result text.now ≡ piece is_separator false text.now }
    ensures behind { drop result text.now ≡ behind is_separator false text.now }
    ensures bound { result ≤ length text.now }
{
    let mut escaped = false;
    for i in 0..text.len() {
        if separates(escaped, text[i]) {
            return i;
        }
        escaped = escapes(escaped, text[i]);
    }
    text.len()
}

/// The text before the first plus sign or comma that is not escaped, and the text from there on.
pub(crate) fn split_piece(text: &[u8]) -> (&[u8], &[u8])
    ensures piece { result.0.now ≡ piece is_separator false text.now }
    ensures behind { result.1.now ≡ behind is_separator false text.now }
{
    text.split_at(piece_len(text))
}

/// Whether a text is empty or begins with a plus sign or a comma.
pub(crate) fn ends_piece(text: &[u8]) -> bool
    ensures { result ≡ ends_piece text.now }
{
    match text {
        [] => true,
        [first, ..] => is_separator(*first),
    }
}

pub(crate) fn begins_with_plus(text: &[u8]) -> bool
    ensures { result ≡ begins_with plus_sign text.now }
{
    match text {
        [] => false,
        [first, ..] => *first == b'+',
    }
}

/// What stands behind the plus sign that a text begins with.
pub(crate) fn after_plus(text: &[u8]) -> Option<&[u8]>
    ensures some { IfSome result (λ more. text.now ≡ plus_sign ∷ more.now) }
    ensures none { IfNone result (begins_with plus_sign text.now ≡ false) }
{
    match text {
        [first, more @ ..] if *first == b'+' => Some(more),
        _ => None,
    }
}

/// What stands behind the first byte of a text.
pub(crate) fn after_first(text: &[u8]) -> Option<&[u8]>
    ensures { option_map (λ s. s.now) result ≡ after_first text.now }
{
    match text {
        [_, more @ ..] => Some(more),
        [] => None,
    }
}
