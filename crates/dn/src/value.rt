//! Values as text.

ghost use Rattle.std.specs.Prelude.{◌≡◌, ◌<◌, ◌&&◌, ◌==◌, ◌++◌, ◌≤◌, [], true, false, length, take, drop, Ok, IfOk, OnOk, IfSome, Some, None, if◌then◌else◌};
ghost use Rattle.std.specs.List.{list_all, prefix_len};
ghost use Rattle.dn.specs.Spelling.{may_stand, may_follow, is_hex, hex};
ghost use Rattle.base.specs.Ascii.{space};
ghost use Rattle.base.specs.Ends.{is_space};
ghost use Rattle.dn.specs.Reading.{raw_fault, octets_from, begins_form, value_from, value_of};
ghost use Rattle.dn.specs.inner.Cuts.{first_value, ends_in_space};
ghost use Rattle.dn.specs.inner.Drafts.{draft_after, IsInRange};
ghost use Rattle.dn.specs.inner.Octets.{octet_seen, any_seen, state_seen, step, step_seen};
ghost use Rattle.dn.specs.Gives.{Gives};
ghost use Rattle.dn.specs.Reading as reading;

use crate::faults::{NameFault, NameFaultKind};
use crate::split::ends_piece;
use smallvec::SmallVec;
use std::alloc::{AllocError, Global};

/// An octet of a value, and whether it stands in the text by itself.
#[derive(Clone, Copy)]
pub(crate) struct Octet {
    raw: bool,
    byte: u8,
}

/// What was read of an escape.
#[derive(Clone, Copy)]
enum State {
    Plain,
    Backslash,
    HalfPair(u8),
}

pub(crate) fn may_stand(b: u8) -> bool
    ensures { result ≡ may_stand b }
{
    // letters first: most bytes are letters
    if b > b'>' {
        return b != b'\\';
    }
    !matches!(b, 0 | b'"' | b'+' | b',' | b';' | b'<' | b'>')
}

fn may_follow(b: u8) -> bool
    ensures { result ≡ may_follow b }
{
    matches!(
        b,
        b' ' | b'"' | b'#' | b'+' | b',' | b';' | b'<' | b'=' | b'>' | b'\\'
    )
}

fn hex(b: u8) -> Option<u8>
    ensures value { result ≡ (if is_hex b then Some (hex b) else None) }
    ensures digit { IfSome result (λ d. d < 16) }
{
    let digit = char::from(b).to_digit(16)?;
    Some(digit as u8)
}

fn raw_fault(b: u8) -> NameFaultKind
    ensures { result ≡ raw_fault b }
{
    if b == b';' {
        NameFaultKind::FormNotSupported
    } else {
        NameFaultKind::NotEscaped
    }
}

#[tactic(auto, unfolding(crate::specs::inner::Octets::step))]
fn step(state: State, byte: u8) -> Result<(State, Option<Octet>), NameFaultKind>
    requires { IsInRange (state_seen state) }
    ensures next { step_seen result ≡ step (state_seen state) byte }
    ensures in_range { IfOk result (λ r. IsInRange (state_seen r.0)) }
{
    match state {
        State::Plain => {
            if may_stand(byte) {
                Ok((State::Plain, Some(Octet { raw: true, byte })))
            } else if byte == b'\\' {
                Ok((State::Backslash, None))
            } else {
                Err(raw_fault(byte))
            }
        }
        State::Backslash => {
            if may_follow(byte) {
                return Ok((State::Plain, Some(Octet { raw: false, byte })));
            }
            match hex(byte) {
                Some(high) => Ok((State::HalfPair(high), None)),
                None => Err(NameFaultKind::Escape),
            }
        }
        State::HalfPair(high) => match hex(byte) {
            Some(low) => Ok((
                State::Plain,
                Some(Octet {
                    raw: false,
                    byte: 16 * high + low,
                }),
            )),
            None => Err(NameFaultKind::Escape),
        },
    }
}

/// The bytes of a value so far, and how many of them stay where it ends here.
#[derive(Drop)]
struct ValueDraft {
    bytes: SmallVec<u8, 24>,
    kept: usize,
}

fn kept_after(octet: Octet, kept: usize, len: usize) -> usize
    ensures { result ≡ (if octet.raw && octet.byte == space then kept else len) }
{
    if octet.raw && octet.byte == b' ' {
        kept
    } else {
        len
    }
}

impl ValueDraft {
    fn new(alloc: Global, room: usize) -> Result<ValueDraft, AllocError>
        ensures bytes { IfOk result (λ d. d.bytes.items ≡ []) }
        ensures kept { IfOk result (λ d. d.kept ≡ 0) }
    {
        Ok(ValueDraft {
            bytes: SmallVec::with_capacity(alloc, room)?,
            kept: 0,
        })
    }

    fn add(&mut self, octet: Octet) -> Result<(), AllocError>
        ensures { OnOk result ((self.new.bytes.items, self.new.kept) ≡ draft_after self.old.bytes.items self.old.kept (Some (octet_seen octet))) }
    {
        self.bytes.push(octet.byte)?;
        self.kept = kept_after(octet, self.kept, self.bytes.len());
        Ok(())
    }

    fn add_any(&mut self, octet: Option<Octet>) -> Result<(), AllocError>
        ensures { OnOk result ((self.new.bytes.items, self.new.kept) ≡ draft_after self.old.bytes.items self.old.kept (any_seen octet)) }
    {
        match octet {
            Some(octet) => self.add(octet),
            None => Ok(()),
        }
    }

    fn finish(self) -> SmallVec<u8, 24>
        ensures { result.items ≡ take self.kept self.bytes.items }
    {
        let ValueDraft { mut bytes, kept } = self;
        bytes.truncate(kept);
        bytes
    }
}

/// Puts the octets that a text spells into a draft that has none.
fn put_octets(draft: &mut ValueDraft, text: &[u8]) -> Result<(), NameFault>
    requires bytes { draft.old.bytes.items ≡ [] }
    requires kept { draft.old.kept ≡ 0 }
    ensures { Gives (λ _. take draft.new.kept draft.new.bytes.items) result (value_from (octets_from reading.Plain text.now)) }
{
    let mut state = State::Plain;
    for byte in text {
        match step(state, *byte) {
            Ok((next, octet)) => {
                draft.add_any(octet)?;
                state = next;
            }
            Err(fault) => return Err(NameFault::Fault(fault)),
        }
    }
    match state {
        State::Plain => Ok(()),
        _ => Err(NameFault::Fault(NameFaultKind::Escape)),
    }
}

fn octets_of(alloc: Global, text: &[u8]) -> Result<SmallVec<u8, 24>, NameFault>
    ensures { Gives (λ v. v.items) result (value_from (octets_from reading.Plain text.now)) }
{
    let mut draft = ValueDraft::new(alloc, text.len())?;
    put_octets(&mut draft, text)?;
    Ok(draft.finish())
}

fn begins_form(text: &[u8]) -> bool
    ensures { result ≡ begins_form text.now }
{
    match text {
        [] => false,
        [first, ..] => *first == b'"' || *first == b'#',
    }
}

fn plain_len(text: &[u8]) -> usize
    ensures { result ≡ prefix_len may_stand text.now }
{
    text.iter().take_while(|b| may_stand(**b)).count()
}

fn ends_in_space(text: &[u8]) -> bool
    ensures { result ≡ ends_in_space text.now }
{
    match text {
        [] => false,
        [.., last] => *last == b' ',
    }
}

/// How many bytes a text has without the spaces at its end.
fn kept_len(text: &[u8]) -> usize
    ensures kept { ends_in_space (take result text.now) ≡ false }
    ensures spaces { list_all is_space (drop result text.now) ≡ true }
    ensures bound { result ≤ length text.now }
{
    let mut len = text.len();
    while ends_in_space(&text[..len]) {
        len -= 1;
    }
    len
}

/// A value that is spelled without an escape, what follows it, and what of that follows the spaces.
#[derive(Clone, Copy)]
pub(crate) struct Plain<'a> {
    pub(crate) value: &'a [u8],
    pub(crate) after: &'a [u8],
    pub(crate) behind: &'a [u8],
}

/// The value that a text without spaces at its front begins with, where it is spelled without an escape.
#[inline(always)]
pub(crate) fn split_plain(text: &[u8]) -> Option<Plain<'_>>
    ensures read { IfSome result (λ s. first_value text.now ≡ Ok (s.value.now, s.behind.now)) }
    ensures split { IfSome result (λ s. text.now ≡ s.value.now ++ s.after.now) }
{
    let (plain, behind) = text.split_at(plain_len(text));
    if !ends_piece(behind) || begins_form(plain) {
        return None;
    }
    let (value, after) = text.split_at(kept_len(plain));
    Some(Plain {
        value,
        after,
        behind,
    })
}

/// The value that a text without spaces at its front spells.
#[tactic(auto, unfolding(crate::specs::Reading::value_of))]
pub(crate) fn value_of(alloc: Global, text: &[u8]) -> Result<SmallVec<u8, 24>, NameFault>
    ensures { Gives (λ v. v.items) result (value_of text.now) }
{
    if begins_form(text) {
        return Err(NameFault::Fault(NameFaultKind::FormNotSupported));
    }
    octets_of(alloc, text)
}
