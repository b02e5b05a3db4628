//! A text cut into stanzas, each a record with what stands before it.

ghost use Rattle.std.specs.Prelude.{◌≡◌, ◌<◌, ◌≤◌, ◌∷◌, ◌++◌, [], IfOk, length, map};
ghost use Rattle.sorting.specs.Stanzas.{ended_lines, is_empty, is_kept, behind, ends_stanza, unbegun, stanzas};
ghost use Rattle.sorting.specs.inner.Stanzas.{IsFirstStanza};

use base::begins_with;
use memchr::memchr;
use std::alloc::{AllocError, Global};

/// The first line of a text with its end, and what stands behind that.
pub(crate) fn split_line(text: &[u8]) -> (&[u8], &[u8])
    requires { 0 < length text.now }
    ensures lines { ended_lines text.now ≡ result.0.now ∷ ended_lines result.1.now }
    ensures text { text.now ≡ result.0.now ++ result.1.now }
    ensures shorter { length result.1.now < length text.now }
{
    match memchr(b'\n', text) {
        Some(at) => text.split_at(at + 1),
        None => text.split_at(text.len()),
    }
}

/// Whether a line has nothing but its end.
pub(crate) fn is_empty(line: &[u8]) -> bool
    ensures { result ≡ is_empty line.now }
{
    line == b"\n".as_slice() || line == b"\r\n".as_slice()
}

/// Whether a line is one of a record that no other goes on with; `first` says whether a block begins with it.
pub(crate) fn is_kept(first: bool, line: &[u8]) -> bool
    ensures { result ≡ is_kept first line.now }
{
    !is_empty(line) && !begins_with(line, b'#') && (first || !begins_with(line, b' '))
}

/// What is known of a stanza behind some of its lines.
#[derive(Clone, Copy, Drop)]
struct Begun {
    /// Whether a line of a record was among them.
    has_record: bool,
    /// Whether a block begins with the next line.
    at_block: bool,
}

impl Begun {
    fn new() -> Begun
        ensures { result ≡ unbegun }
    {
        Begun {
            has_record: false,
            at_block: true,
        }
    }

    /// Whether the stanza ends with this line.
    fn ends_with(self, line: &[u8]) -> bool
        ensures { result ≡ ends_stanza self line.now }
    {
        self.has_record && is_empty(line)
    }

    /// What is known behind one more line.
    fn behind(self, line: &[u8]) -> Begun
        ensures { result ≡ behind self line.now }
    {
        Begun {
            has_record: self.has_record || is_kept(self.at_block, line),
            at_block: is_empty(line),
        }
    }
}

/// How long the first stanza of a text is.
fn stanza_len(text: &[u8]) -> usize
    ensures within { result ≤ length text.now }
    ensures first { 0 < length text.now → IsFirstStanza text.now result }
{
    let mut begun = Begun::new();
    let mut rest = text;
    'lines: while !rest.is_empty() {
        let (line, others) = split_line(rest);
        rest = others;
        if begun.ends_with(line) {
            return text.len() - rest.len();
        }
        begun = begun.behind(line);
    }
    text.len()
}

/// The stanzas of a text.
#[tactic(auto, unfolding(crate::specs::Stanzas::stanzas_from, crate::specs::Stanzas::ended_lines))]
pub(crate) fn stanzas(alloc: Global, text: &[u8]) -> Result<Vec<&[u8]>, AllocError>
    ensures { IfOk result (λ ps. map (λ p. p.now) ps.items ≡ stanzas text.now) }
{
    let mut found = Vec::new(alloc);
    let mut rest = text;
    'stanzas: while !rest.is_empty() {
        let (stanza, others) = rest.split_at(stanza_len(rest));
        found.push(stanza)?;
        rest = others;
    }
    Ok(found)
}
