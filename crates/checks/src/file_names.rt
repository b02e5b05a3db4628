//! The name of a file, as a report has it: in one field of one line.

ghost use Rattle.std.specs.Prelude.{◌≡◌, ◌<◌, ◌++◌, IfOk, OnOk};
ghost use Rattle.dn.specs.Writing.{digit};
ghost use Rattle.checks.specs.Reports.{is_control, name_byte, shown_name};

use std::alloc::{AllocError, Global};

/// A hexadecimal digit, in upper case.
fn digit(value: u8) -> u8
    requires { value < 16 }
    ensures { result ≡ digit value }
{
    if value < 10 {
        value + b'0'
    } else {
        value - 10 + b'A'
    }
}

fn is_control(byte: u8) -> bool
    ensures { result ≡ is_control byte }
{
    byte < 32 || byte == 127
}

/// Puts a byte of a name at the end of a text: a control character as a backslash and two hexadecimal digits, any other as it is.
fn put_name_byte(out: &mut Vec<u8>, byte: u8) -> Result<(), AllocError>
    ensures { OnOk result (out.new.items ≡ out.old.items ++ name_byte byte) }
{
    if is_control(byte) {
        return out.extend_from_slice(&[b'\\', digit(byte / 16), digit(byte % 16)]);
    }
    out.extend_from_slice(&[byte])
}

/// The name of a file without control characters.
pub(crate) fn shown_name(alloc: Global, name: &[u8]) -> Result<Vec<u8>, AllocError>
    ensures { IfOk result (λ shown. shown.items ≡ shown_name name.now) }
{
    let mut shown = Vec::new(alloc);
    for byte in name {
        put_name_byte(&mut shown, *byte)?;
    }
    Ok(shown)
}
