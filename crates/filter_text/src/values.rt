//! Values with escapes (RFC 4515, section 3: `assertionvalue`).
ghost use Rattle.std.specs.Prelude.{◌≡◌, ℕ, ◌<◌, ◌≤◌, ◌==◌, List, [], length, ◌++◌, ◌∷◌, IfOk, IfErr, IfSome, MatchOption, MatchResult, Some, None};
ghost use Rattle.filter_text.specs.inner.Begins.{IsMemory, Faulty};
ghost use Rattle.filter_text.specs.Runs.{Stops};
ghost use Rattle.filter_text.specs.Values.{digit_of, is_raw, is_value_byte, ByteAt, SomeByte, IsValue, SomeValue};

use crate::fault::{Fault, read_whole};
use base::Bytes;
use std::alloc::Global;

fn is_raw(byte: u8) -> bool
    ensures { result ≡ is_raw byte }
{
    byte != 0 && byte != b'(' && byte != b')' && byte != b'*' && byte != b'\\'
}

/// The hexadecimal digit at the front, and the rest.
fn digit_at(bytes: &[u8]) -> Option<(u8, &[u8])>
    ensures read { MatchOption result ((h : ℕ) (rest : List ℕ) → bytes.now ≡ h ∷ rest → digit_of h ≡ None)
        (λ x. (h : ℕ) × (bytes.now ≡ h ∷ x.1.now) × (digit_of h ≡ Some x.0)) }
    ensures small { IfSome result (λ x. x.0 < 16) }
{
    let [first, rest @ ..] = bytes else {
        return None;
    };
    let digit = char::from(*first).to_digit(16)?;
    Some((digit as u8, rest))
}

/// The byte that is spelled at the front, where a byte of a value begins there.
fn byte_at(bytes: &[u8]) -> Result<Option<(u8, &[u8])>, Fault>
    ensures shorter { IfOk result (λ o. IfSome o (λ x. length x.1.now < length bytes.now)) }
    ensures found { IfOk result (λ o. MatchOption o (Stops is_value_byte bytes.now) (λ x. ByteAt x.0 bytes.now x.1.now)) }
    ensures none { IfErr result (λ e. (b : ℕ) (rest : List ℕ) → ByteAt b bytes.now rest → IsMemory e) }
    ensures begins { IfErr result (λ _. Stops is_value_byte bytes.now → ⊥) }
    ensures front { IfErr result (Faulty SomeByte bytes.now) }
{
    let Some((first, more)) = bytes.split_first() else {
        return Ok(None);
    };
    if *first != b'\\' {
        if is_raw(*first) {
            return Ok(Some((*first, more)));
        }
        return Ok(None);
    }
    let Some((tens, low)) = digit_at(more) else {
        return Err(Fault::Syntax(more.len()));
    };
    let Some((ones, rest)) = digit_at(low) else {
        return Err(Fault::Syntax(low.len()));
    };
    Ok(Some((tens * 16 + ones, rest)))
}

/// The bytes of a value at the front, as many as there are.
pub fn value_at(alloc: Global, bytes: &[u8]) -> Result<(Bytes, &[u8]), Fault>
    ensures no_longer { IfOk result (λ x. length x.1.now ≤ length bytes.now) }
    ensures found { IfOk result (λ x. (text : List ℕ) × IsValue x.0 text × (bytes.now ≡ text ++ x.1.now)) }
    ensures stops { IfOk result (λ x. Stops is_value_byte x.1.now) }
    ensures none { IfErr result (λ e. (v text more : List ℕ) → IsValue v text → Stops is_value_byte more → bytes.now ≡ text ++ more → IsMemory e) }
    ensures front { IfErr result (Faulty SomeValue bytes.now) }
{
    let mut value = Vec::new(alloc);
    let mut rest = bytes;
    'bytes: while let Some((byte, more)) = byte_at(rest)? {
        value.push(byte)?;
        rest = more;
    }
    Ok((Bytes::from_vec(value), rest))
}

/// The value that the whole text spells.
pub fn value_of(alloc: Global, text: &[u8]) -> Result<Bytes, Fault>
    ensures found { IfOk result (λ v. IsValue v text.now) }
    ensures only { (v : List ℕ) → IsValue v text.now → MatchResult result (λ w. w ≡ v) IsMemory }
    ensures front { IfErr result (Faulty SomeValue text.now) }
{
    let (value, rest) = value_at(alloc, text)?;
    read_whole(value, rest)
}
