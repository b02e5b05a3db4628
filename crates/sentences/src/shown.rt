//! Bytes as they are shown to people.

ghost use Rattle.std.specs.Prelude.{◌≡◌, ◌<◌, ◌≤◌, not, length, map, if◌then◌else◌, OnOk, IfOk};
ghost use Rattle.std.specs.Fmt.{decimal};
ghost use Rattle.std.specs.List.{list_all};
ghost use Rattle.std.specs.Str.{chars};
ghost use Rattle.std.specs.String.{string_bytes};
ghost use Rattle.sentences.specs.Putting.{IsPut};
ghost use Rattle.sentences.specs.Sentence.{IsShown};
ghost use Rattle.sentences.specs.Cuts.{fitting, goes_on, front, end_of};
ghost use Rattle.sentences.specs.Shown.{is_plain, hex_digit, escape, is_escaped, shown_char, shown_byte, shown, quoted, shown_type, shown_name};

use crate::lines::{REST, ShownText};
use std::alloc::{AllocError, Global};

/// The most bytes that a value takes, without its quotation marks.
const VALUE_LIMIT: usize = 40;

/// The most bytes that the name of an attribute type or a class takes.
const TYPE_LIMIT: usize = 64;

/// The most bytes that another name takes.
const NAME_LIMIT: usize = 160;

/// The bytes of a backslash and two digits.
const ESCAPE_LEN: usize = 3;

/// How bytes are shown.
#[derive(Clone, Copy)]
pub(crate) enum Form {
    /// In quotation marks.
    Quoted,
    /// By itself.
    Bare,
}

/// Whether a byte is a character of ASCII that stands for itself: it is printed, and can't be taken for the quotation mark at the end or for an
/// escape.
fn is_plain(byte: u8, form: Form) -> bool
    ensures { result ≡ is_plain form byte }
{
    match form {
        Form::Quoted => byte >= b' ' && byte < 127 && byte != b'"' && byte != b'\\',
        Form::Bare => byte >= b' ' && byte < 127,
    }
}

/// Whether each byte stands for itself, as almost always.
fn are_plain(bytes: &[u8], form: Form) -> bool
    ensures { result ≡ list_all (is_plain form) bytes.now }
{
    let mut plain = true;
    for byte in bytes {
        plain &= is_plain(*byte, form);
    }
    plain
}

/// Whether a character goes on with this byte, which so is none that it begins with.
fn goes_on(byte: u8) -> bool
    ensures { result ≡ goes_on byte }
{
    byte >= 0x80 && byte < 0xC0
}

/// The first bytes, at most so many, that end with a whole character where they are text.
#[tactic(auto, using(crate::proofs::Cut::near_stops, crate::proofs::Cut::near_down, crate::proofs::Cut::near_none, crate::proofs::Cut::front_all, crate::proofs::Cut::front_cut))]
fn front(bytes: &[u8], most: usize) -> &[u8]
    ensures { result.now ≡ front most bytes.now }
{
    if bytes.len() <= most {
        return bytes;
    }
    let mut place = most;
    for _passed in 0..4u8 {
        if !goes_on(bytes[place]) {
            return &bytes[..place];
        }
        place = place.saturating_sub(1);
    }
    &bytes[..most]
}

/// A hexadecimal digit.
fn digit(value: u8) -> char
    requires { value < 16 }
    ensures { result ≡ hex_digit value }
{
    if value < 10 {
        char::from(b'0' + value)
    } else {
        char::from(b'A' + (value - 10))
    }
}

/// Puts a byte behind a text as a backslash and two hexadecimal digits.
fn push_escape(out: &mut ShownText, byte: u8) -> Result<(), AllocError>
    ensures { OnOk result (IsPut out.old out.new (escape byte)) }
{
    out.push('\\')?;
    out.push(digit(byte / 16))?;
    out.push(digit(byte % 16))
}

/// The byte by whose digits a character is shown; none where it is shown as it is.
fn escaped(c: char, form: Form) -> Option<u8>
    ensures { result ≡ (if is_escaped form c then Some c else None) }
{
    match u8::try_from(c) {
        Ok(byte) if byte < 160 && !is_plain(byte, form) => Some(byte),
        _ => None,
    }
}

pub(crate) fn push_char(out: &mut ShownText, c: char, form: Form) -> Result<(), AllocError>
    ensures { OnOk result (IsPut out.old out.new (shown_char form c)) }
{
    match escaped(c, form) {
        Some(byte) => push_escape(out, byte),
        None => out.push(c),
    }
}

/// How many bytes a character takes as it is shown.
fn shown_len(c: char, form: Form) -> usize
    ensures { result ≡ length (shown_char form c) }
{
    match escaped(c, form) {
        Some(_) => ESCAPE_LEN,
        None => c.len_utf8(),
    }
}

/// Puts the characters of a text behind another, and then its end. Of what takes more than `most` bytes as it is shown it puts the first, and dots.
fn push_chars(
    out: &mut ShownText,
    text: &str,
    most: usize,
    form: Form,
    end: &str,
) -> Result<(), AllocError>
    requires { IsShown end.now }
    ensures { OnOk result (IsPut out.old out.new (fitting most (map (shown_char form) (chars text.now)) end.now)) }
{
    let mut room = most;
    for c in text.chars() {
        let taken = shown_len(c, form);
        if taken > room {
            return out.push_str(REST);
        }
        room -= taken;
        push_char(out, c, form)?;
    }
    out.push_str(end)
}

/// The same; a text in which each character stands for itself is put at once.
fn push_text(
    out: &mut ShownText,
    text: &str,
    most: usize,
    form: Form,
    end: &str,
) -> Result<(), AllocError>
    requires { IsShown end.now }
    ensures { OnOk result (IsPut out.old out.new (fitting most (map (shown_char form) (chars text.now)) end.now)) }
{
    if text.len() <= most && are_plain(text.as_bytes(), form) {
        out.push_str(text)?;
        out.push_str(end)
    } else {
        push_chars(out, text, most, form, end)
    }
}

/// Puts a byte that is no part of a text behind one.
fn push_byte(out: &mut ShownText, byte: u8, form: Form) -> Result<(), AllocError>
    ensures { OnOk result (IsPut out.old out.new (shown_byte form byte)) }
{
    if is_plain(byte, form) {
        out.push(char::from(byte))
    } else {
        push_escape(out, byte)
    }
}

/// The same of bytes that are no text.
fn push_bytes(
    out: &mut ShownText,
    bytes: &[u8],
    most: usize,
    form: Form,
    end: &str,
) -> Result<(), AllocError>
    requires { IsShown end.now }
    ensures { OnOk result (IsPut out.old out.new (fitting most (map (shown_byte form) bytes.now) end.now)) }
{
    let mut room = most;
    for byte in bytes {
        let taken = if is_plain(*byte, form) { 1 } else { ESCAPE_LEN };
        if taken > room {
            return out.push_str(REST);
        }
        room -= taken;
        push_byte(out, *byte, form)?;
    }
    out.push_str(end)
}

/// What stands behind the first bytes, at most so many.
fn end_of(bytes: &[u8], most: usize) -> &'static str
    ensures end { result.now ≡ end_of most bytes.now }
    ensures shown { IsShown result.now }
{
    if bytes.len() <= most { "" } else { REST }
}

/// Puts bytes behind a text, on its line: text as it is, and what can't be printed as a backslash and two hexadecimal digits. Of what takes more
/// than `most` bytes so the first are shown, and two dots behind them.
fn push_shown(out: &mut ShownText, bytes: &[u8], most: usize, form: Form) -> Result<(), AllocError>
    ensures { OnOk result (IsPut out.old out.new (shown form most bytes.now)) }
{
    let front = front(bytes, most);
    let end = end_of(bytes, most);
    match str::from_utf8(front) {
        Ok(text) => push_text(out, text, most, form, end),
        Err(_) => push_bytes(out, front, most, form, end),
    }
}

/// Puts a value in quotation marks behind a text; such marks and backslashes in it are shown by their digits, too.
#[tactic(auto, using(std::proofs::lemmas::Str::encode_ascii), unfolding(crate::specs::Shown::quoted))]
pub(crate) fn push_quoted(out: &mut ShownText, bytes: &[u8]) -> Result<(), AllocError>
    ensures { OnOk result (IsPut out.old out.new (quoted bytes.now)) }
{
    out.push('"')?;
    push_shown(out, bytes, VALUE_LIMIT, Form::Quoted)?;
    out.push('"')
}

/// A value in quotation marks by itself.
pub(crate) fn quoted(alloc: Global, bytes: &[u8]) -> Result<ShownText, AllocError>
    ensures { IfOk result (λ made. string_bytes made.text ≡ quoted bytes.now) }
{
    let mut out = ShownText::with_capacity(alloc, bytes.len().min(VALUE_LIMIT) + 2)?;
    push_quoted(&mut out, bytes)?;
    Ok(out)
}

/// Puts the name of an attribute type or a class behind a text, as it is written.
pub(crate) fn push_type_name(out: &mut ShownText, name: &[u8]) -> Result<(), AllocError>
    ensures { OnOk result (IsPut out.old out.new (shown_type name.now)) }
{
    push_shown(out, name, TYPE_LIMIT, Form::Bare)
}

/// Puts another name, as of an entry, behind a text, as it is written.
pub(crate) fn push_name(out: &mut ShownText, name: &[u8]) -> Result<(), AllocError>
    ensures { OnOk result (IsPut out.old out.new (shown_name name.now)) }
{
    push_shown(out, name, NAME_LIMIT, Form::Bare)
}

/// A name by itself.
pub(crate) fn named(alloc: Global, name: &[u8]) -> Result<ShownText, AllocError>
    ensures { IfOk result (λ made. string_bytes made.text ≡ shown_name name.now) }
{
    let mut out = ShownText::new(alloc);
    push_name(&mut out, name)?;
    Ok(out)
}

/// Puts a number in decimal behind a text.
#[tactic(auto, using(crate::proofs::Numbers::decimal_last, std::proofs::lemmas::Fmt::decimal_digit))]
pub(crate) fn push_number(out: &mut ShownText, number: u64) -> Result<(), AllocError>
    ensures { OnOk result (IsPut out.old out.new (decimal number)) }
{
    if number >= 10 {
        push_number(out, number / 10)?;
    }
    out.push(char::from(b'0' + (number % 10) as u8))
}
