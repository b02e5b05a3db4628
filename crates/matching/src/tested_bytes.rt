//! Tests of bytes.

use base::ByteTest;

/// Whether a byte is a space.
pub(crate) struct Space;

impl ByteTest for Space {
    ghost use Rattle.base.specs.Ends.{is_space};

    ghost holds = { is_space };

    fn test(byte: u8) -> bool {
        byte == b' '
    }
}

/// Whether a byte is an ASCII capital.
pub(crate) struct Capital;

impl ByteTest for Capital {
    ghost use Rattle.std.specs.Char.{is_ascii_uppercase};

    ghost holds = { is_ascii_uppercase };

    fn test(byte: u8) -> bool {
        byte.is_ascii_uppercase()
    }
}

/// Whether a byte is not ASCII.
pub(crate) struct NotAscii;

impl ByteTest for NotAscii {
    ghost use Rattle.std.specs.Prelude.{not};
    ghost use Rattle.matching.specs.Syntaxes.{is_ascii};

    ghost holds = { λ b. not (is_ascii b) };

    fn test(byte: u8) -> bool {
        128 <= byte
    }
}

/// Whether a byte is a space or not ASCII.
pub(crate) struct NotOid;

impl ByteTest for NotOid {
    ghost use Rattle.std.specs.Prelude.{not};
    ghost use Rattle.matching.specs.Syntaxes.{is_oid_byte};

    ghost holds = { λ b. not (is_oid_byte b) };

    fn test(byte: u8) -> bool {
        (128 <= byte) | (byte == b' ')
    }
}
