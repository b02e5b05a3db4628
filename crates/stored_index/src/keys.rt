//! Keys in an index text: bytes in lower-case hexadecimal.

ghost use Rattle.std.specs.Prelude.{◌≡◌, is_ok};
ghost use Rattle.std.specs.List.{list_all};
ghost use Rattle.stored_index.specs.Words.{is_hex_byte, bytes_in, key_in};
ghost use Rattle.stored_index.specs.Gives.{Gives};

use crate::fault::{LineFault, form};
use base::{ByteTest, any_byte};
use std::alloc::Global;

/// Whether a byte is no hexadecimal digit, or is a capital.
struct NotHex;

impl ByteTest for NotHex {
    ghost use Rattle.std.specs.Prelude.{not};
    ghost use Rattle.stored_index.specs.Words.{is_hex_byte};

    ghost holds = { λ b. not (is_hex_byte b) };

    fn test(byte: u8) -> bool {
        (byte < b'0') | ((b'9' < byte) & (byte < b'a')) | (b'f' < byte)
    }
}

/// Whether all bytes are hexadecimal digits, and none is a capital.
pub(crate) fn are_hex_bytes(word: &[u8]) -> bool
    ensures { result ≡ list_all is_hex_byte word.now }
{
    !any_byte::<NotHex>(word)
}

// whether these are two digits a byte
fn are_pairs(word: &[u8]) -> bool
    ensures { result ≡ is_ok (bytes_in word.now) }
{
    (word.len() % 2 == 0) & are_hex_bytes(word)
}

/// Whether a word writes a key.
#[tactic(auto, unfolding(crate::specs::Words::key_in))]
pub(crate) fn is_key(word: &[u8]) -> bool
    ensures { result ≡ is_ok (key_in word.now) }
{
    match word {
        [] => false,
        [b'-'] => true,
        _ => are_pairs(word),
    }
}

// the bytes of which each is two digits
fn read_bytes(alloc: Global, word: &[u8]) -> Result<Vec<u8>, LineFault>
    ensures { Gives (λ bytes. bytes.items) result (bytes_in word.now) }
{
    if !are_hex_bytes(word) {
        return Err(form());
    }
    let bytes = hex::decode(alloc, word)?;
    Ok(bytes)
}

/// The bytes of the key that a word writes.
#[tactic(auto, unfolding(crate::specs::Words::key_in))]
pub(crate) fn read_key(alloc: Global, word: &[u8]) -> Result<Vec<u8>, LineFault>
    ensures { Gives (λ bytes. bytes.items) result (key_in word.now) }
{
    match word {
        [] => Err(form()),
        [b'-'] => Ok(Vec::new(alloc)),
        _ => read_bytes(alloc, word),
    }
}
