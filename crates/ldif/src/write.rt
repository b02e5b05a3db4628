//! Lines that are written.

ghost use Rattle.std.specs.Prelude.{ℕ, ◌≡◌, ◌<◌, ◌≤◌, ◌+◌, ◌-◌, ◌^◌, ◌++◌, ◌∷◌, [], length, IfOk, OnErr, OnOk, IsTrue};
ghost use Rattle.std.specs.List.{list_all};
ghost use Rattle.base64.specs.GeneralPurpose.{encode_of};
ghost use Rattle.base64.specs.Engines.{standard};
ghost use Rattle.base.specs.Ascii.{line_feed, space};
ghost use Rattle.base.specs.Extends.{Extends};
ghost use Rattle.device.specs.Device.{Took, Broke};
ghost use Rattle.ldif_lines.specs.Folding.{folded_line, folded_to};
ghost use Rattle.ldif.specs.Writing.{is_safe_byte, is_common_byte, has_plain_ends, is_plain, line_text, written_line, written_line_to};
ghost use Rattle.ldif.specs.declared.write.WriteFault.TheVariants as faults;

use crate::line_width::LineWidth;
use base::{ByteTest, any_byte, begins_with, ends_with};
use base64::engine::general_purpose::STANDARD;
use device::{Device, Sink, push_all};
use std::alloc::{AllocError, Global};
use thiserror::Error;

/// Why a line was not written whole.
#[derive(Clone, Copy, Debug, PartialEq, Eq, Error)]
pub enum WriteFault {
    #[error("cannot write")]
    Device,
    #[error("out of memory")]
    OutOfMemory,
}

impl From<AllocError> for WriteFault {
    ghost from_gives = { λ _ e. e ≡ faults.OutOfMemory };

    fn from(_e: AllocError) -> WriteFault {
        WriteFault::OutOfMemory
    }
}

impl From<Device> for WriteFault {
    ghost from_gives = { λ _ e. e ≡ faults.Device };

    fn from(_e: Device) -> WriteFault {
        WriteFault::Device
    }
}

fn is_safe_byte(b: u8) -> bool
    ensures { result ≡ is_safe_byte b }
{
    1 <= b && b <= 127 && !(b == b'\n') && !(b == b'\r')
}

fn are_safe(value: &[u8]) -> bool
    ensures { result ≡ list_all is_safe_byte value.now }
{
    let mut safe = true;
    for b in value {
        safe &= is_safe_byte(*b);
    }
    safe
}

fn has_plain_ends(value: &[u8]) -> bool
    ensures { result ≡ has_plain_ends value.now }
{
    !(begins_with(value, b' ') || begins_with(value, b':') || begins_with(value, b'<'))
        && !ends_with(value, b' ')
}

#[tactic(auto, using(crate::proofs::Ends::plain_by_ends))]
fn is_plain(value: &[u8]) -> bool
    ensures { result ≡ is_plain value.now }
{
    are_safe(value) && has_plain_ends(value)
}

// A value with other bytes may be plain, too.
#[tactic(auto, using(crate::proofs::Ends::surely))]
fn is_surely_plain(value: &[u8]) -> bool
    ensures { IsTrue result → IsTrue (is_plain value.now) }
{
    are_common(value) && has_plain_ends(value)
}

fn is_common_byte(b: u8) -> bool
    ensures { result ≡ is_common_byte b }
{
    b' ' <= b && b <= 127
}

/// Whether a byte is not common.
struct Uncommon;

impl ByteTest for Uncommon {
    ghost use Rattle.std.specs.Prelude.{not};
    ghost use Rattle.ldif.specs.Writing.{is_common_byte};

    ghost holds = { λ b. not (is_common_byte b) };

    fn test(byte: u8) -> bool {
        !is_common_byte(byte)
    }
}

fn are_common(value: &[u8]) -> bool
    ensures { result ≡ list_all is_common_byte value.now }
{
    !any_byte::<Uncommon>(value)
}

// Kept apart, since most values are plain, and its tables would be laid out for them too.
#[inline(never)]
fn put_encoded(alloc: Global, out: &mut Vec<u8>, value: &[u8]) -> Result<(), AllocError>
    ensures put { OnOk result (out.new.items ≡ out.old.items ++ encode_of standard value.now) }
    ensures kept { OnErr result (out.new.items ≡ out.old.items) }
{
    let code = STANDARD.encode(alloc, value)?;
    out.extend_from_slice(code.as_bytes())
}

// Puts the line, before it is folded, at the end.
#[tactic(auto, unfolding(crate::specs::Writing::line_text))]
fn put_text(alloc: Global, out: &mut Vec<u8>, name: &[u8], value: &[u8]) -> Result<(), AllocError>
    ensures put { OnOk result (out.new.items ≡ out.old.items ++ line_text name.now value.now) }
    ensures kept { OnErr result (Extends out.old.items out.new.items) }
{
    out.extend_from_slice(name)?;
    if value.is_empty() {
        out.extend_from_slice(b":")
    } else if is_plain(value) {
        out.extend_from_slice(b": ")?;
        out.extend_from_slice(value)
    } else {
        out.extend_from_slice(b":: ")?;
        put_encoded(alloc, out, value)
    }
}

/// What fits into the room, and the rest.
fn split_piece(text: &[u8], room: usize) -> (&[u8], &[u8])
    ensures piece { (width : ℕ) → folded_to width room text.now ≡ result.0.now ++ folded_to width 0 result.1.now }
    ensures fewer { 0 < room → 0 < length text.now → length result.1.now < length text.now }
{
    if text.len() <= room {
        text.split_at(text.len())
    } else {
        text.split_at(room)
    }
}

fn push_piece(out: &mut Vec<u8>, piece: &[u8]) -> Result<(), AllocError>
    ensures put { OnOk result (out.new.items ≡ out.old.items ++ line_feed ∷ space ∷ piece.now) }
    ensures kept { OnErr result (Extends out.old.items out.new.items) }
{
    out.extend_from_slice(b"\n ")?;
    out.extend_from_slice(piece)
}

// Puts the line, folded, at the end.
fn put_folded(out: &mut Vec<u8>, width: LineWidth, text: &[u8]) -> Result<(), AllocError>
    ensures put { OnOk result (out.new.items ≡ out.old.items ++ folded_line width text.now) }
    ensures kept { OnErr result (Extends out.old.items out.new.items) }
{
    let bytes = width.bytes();
    let (front, after) = split_piece(text, bytes);
    out.extend_from_slice(front)?;
    let mut rest = after;
    'pieces: while !rest.is_empty() {
        let (piece, after) = split_piece(rest, bytes - 1);
        push_piece(out, piece)?;
        rest = after;
    }
    out.push(b'\n')?;
    Ok(())
}

// Puts the line at the end. Where memory runs out, a beginning of it may stand there.
fn put_some(
    alloc: Global,
    out: &mut Vec<u8>,
    width: LineWidth,
    name: &[u8],
    value: &[u8],
) -> Result<(), AllocError>
    ensures put { OnOk result (out.new.items ≡ out.old.items ++ written_line_to width name.now value.now) }
    ensures kept { OnErr result (Extends out.old.items out.new.items) }
{
    let start = out.len();
    put_text(alloc, out, name, value)?;
    if out.len() - start <= width.bytes() {
        out.push(b'\n')?;
        return Ok(());
    }
    let text = Vec::from_slice(alloc, &out[start..])?;
    out.truncate(start);
    put_folded(out, width, &text)
}

// Puts any line at the end. Where memory runs out, nothing is put.
#[inline(never)]
fn put_any(
    alloc: Global,
    out: &mut Vec<u8>,
    width: LineWidth,
    name: &[u8],
    value: &[u8],
) -> Result<(), AllocError>
    ensures put { OnOk result (out.new.items ≡ out.old.items ++ written_line_to width name.now value.now) }
    ensures kept { OnErr result (out.new.items ≡ out.old.items) }
{
    let before = out.len();
    let put = put_some(alloc, out, width, name, value);
    if put.is_err() {
        out.truncate(before);
    }
    put
}

// The same of a line that has its value as it is and is not folded.
fn put_short(out: &mut Vec<u8>, name: &[u8], value: &[u8]) -> Result<(), AllocError>
    requires room { length name.now + length value.now < 2 ^ 63 }
    requires some { 0 < length value.now }
    requires plain { IsTrue (is_plain value.now) }
    ensures put { OnOk result (out.new.items ≡ out.old.items ++ (line_text name.now value.now ++ line_feed ∷ [])) }
    ensures kept { OnErr result (out.new.items ≡ out.old.items) }
{
    out.reserve(name.len() + value.len() + 3)?;
    out.extend_from_slice(name)?;
    out.push_reserved(b':');
    out.push_reserved(b' ');
    out.extend_from_slice(value)?;
    out.push_reserved(b'\n');
    Ok(())
}

/// Puts the line of a name and a value at the end, folded to a width, where [`write_line`] folds to 76 bytes. Where memory runs out,
/// nothing is put.
pub fn put_line_to(
    alloc: Global,
    out: &mut Vec<u8>,
    width: LineWidth,
    name: &[u8],
    value: &[u8],
) -> Result<(), AllocError>
    ensures put { OnOk result (out.new.items ≡ out.old.items ++ written_line_to width name.now value.now) }
    ensures kept { OnErr result (out.new.items ≡ out.old.items) }
{
    // As most lines are: the colon and the space stand in the piece, too.
    if !value.is_empty()
        && name.len() + value.len() <= width.bytes() - 2
        && is_surely_plain(value)
    {
        return put_short(out, name, value);
    }
    put_any(alloc, out, width, name, value)
}

/// Puts the line of a name and a value at the end, as [`write_line`] writes it. Where memory runs out, nothing is put.
pub fn put_line(
    alloc: Global,
    out: &mut Vec<u8>,
    name: &[u8],
    value: &[u8],
) -> Result<(), AllocError>
    ensures put { OnOk result (out.new.items ≡ out.old.items ++ written_line name.now value.now) }
    ensures kept { OnErr result (out.new.items ≡ out.old.items) }
{
    put_line_to(alloc, out, LineWidth::STANDARD, name, value)
}

fn written_line(alloc: Global, name: &[u8], value: &[u8]) -> Result<Vec<u8>, AllocError>
    ensures { IfOk result (λ v. v.items ≡ written_line name.now value.now) }
{
    let room = name.len().saturating_add(value.len()).saturating_add(3);
    let mut line = Vec::with_capacity(alloc, room)?;
    put_line(alloc, &mut line, name, value)?;
    Ok(line)
}

/// Writes the line of a name and a value, folded to 76 bytes (RFC 2849, notes 2 and 4).
///
/// The value stands as it is where its bytes are ASCII without NUL, LF and CR, it begins with none of space, `:` and
/// `<`, and does not end with a space; else it is written as base64. On `Device` a beginning of the line was written, on
/// `OutOfMemory` nothing.
pub fn write_line<W: Sink>(
    alloc: Global,
    sink: &mut W,
    name: &[u8],
    value: &[u8],
) -> Result<(), WriteFault>
    requires { (W.written sink.old).failed < 2 ^ 64 - 1 }
    ensures ok { OnOk result (Took (W.written sink.old) (W.written sink.new) (written_line name.now value.now)) }
    ensures device { result ≡ Err WriteFault.Device → Broke (W.written sink.old) (W.written sink.new) (written_line name.now value.now) }
    ensures memory { result ≡ Err WriteFault.OutOfMemory → W.written sink.new ≡ W.written sink.old }
{
    let line = written_line(alloc, name, value)?;
    push_all(sink, &line)?;
    Ok(())
}
