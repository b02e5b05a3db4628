//! Names whose end is known.

ghost use Rattle.std.specs.Prelude.{◌≡◌, ◌≢◌, ◌<◌, ◌∷◌, ◌++◌, List, ℕ, MatchOption, IfSome, IfNone, false, length, Ok};
ghost use Rattle.std.specs.List.{list_all};
ghost use Rattle.base.specs.Ends.{is_space};
ghost use Rattle.dn.specs.Apart.{may_end, read_apart};
ghost use Rattle.dn.specs.Names.{Name};
ghost use Rattle.dn.specs.Reading.{name_of};

use base::{begins_with, ends_with};

// what stands before an end
fn before<'a>(text: &'a [u8], end: &[u8]) -> Option<&'a [u8]>
    ensures { MatchOption result ((front : List ℕ) → text.entry.now ≢ front ++ end.now) (λ front. text.entry.now ≡ front.now ++ end.now) }
{
    text.strip_suffix(end)
}

// what stands before a comma and an end
fn before_comma<'a>(text: &'a [u8], end: &[u8]) -> Option<&'a [u8]>
    ensures { MatchOption result ((front : List ℕ) → text.entry.now ≢ front ++ 44 ∷ end.now) (λ front. text.entry.now ≡ front.now ++ 44 ∷ end.now) }
{
    match before(text, end) {
        Some(front) => before(front, b","),
        None => None,
    }
}

// whether a comma behind this separates RDNs, and an RDN stands before it, as is plain to see
fn may_end(front: &[u8]) -> bool
    ensures { result ≡ may_end front.now }
{
    !front.is_empty() && !begins_with(front, b' ') && !ends_with(front, b'\\')
}

/// The front of a text that ends with a comma and this end, where that comma separates RDNs (RFC 4514, section 3). The text then spells the RDNs
/// of the front, one or more, and those of the end. Where it spells no name, its fault is the front's, or else the end's. `None` where the text
/// ends otherwise, and where the front is empty, begins with a space, or ends with a backslash.
pub fn split_end<'a>(text: &'a [u8], end: &[u8]) -> Option<&'a [u8]>
    ensures text { IfSome result (λ front. text.now ≡ front.now ++ 44 ∷ end.now) }
    ensures read { IfSome result (λ front. list_all is_space end.now ≡ false → name_of text.now ≡ read_apart front.now end.now) }
    ensures some { IfSome result (λ front. (n : Name) → name_of front.now ≡ Ok n → 0 < length n) }
    ensures none { IfNone result ((front : List ℕ) → text.now ≡ front ++ 44 ∷ end.now → may_end front ≡ false) }
{
    let front = before_comma(text, end)?;
    if !may_end(front) {
        return None;
    }
    Some(front)
}
