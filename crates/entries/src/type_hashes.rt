//! How an index table finds types.

ghost use Rattle.std.specs.Prelude.{◌+◌, ◌*◌, ◌%◌, ◌^◌, if◌then◌else◌, nat_eq, length, slice_index};

use std::hash::{BuildHasher, Hasher};

/// Takes the number of a type as it is.
#[derive(Clone, Copy)]
pub(crate) struct TypeHasher {
    number: u64,
}

/// Starts the hash of each type. It takes no memory in a map.
#[derive(Clone, Copy)]
pub(crate) struct TypeHashes;

impl Hasher for TypeHasher {
    ghost write = { λ s bytes. if nat_eq (length bytes) 2 then record { number = slice_index bytes 0 + slice_index bytes 1 * 256 } else s };

    ghost finish = { λ s. (s.number * 16777217) % 2 ^ 64 };

    // A table tells entries apart by the bits 24 to 31, and begins to search where the lowest ones say: both have the number's lowest bits.
    #[inline(always)]
    fn finish(&self) -> u64 {
        self.number.wrapping_mul(0x100_0001)
    }

    #[inline(always)]
    fn write(&mut self, bytes: &[u8]) {
        if bytes.len() == 2 {
            self.number = u64::from(u16::from_le_bytes([bytes[0], bytes[1]]));
        }
    }
}

impl BuildHasher for TypeHashes {
    type Hasher = TypeHasher;

    ghost build_hasher = { λ _. record { number = 0 } };

    #[inline(always)]
    fn build_hasher(&self) -> TypeHasher {
        TypeHasher { number: 0 }
    }
}
