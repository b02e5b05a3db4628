//! Where a reader stands in a text.
ghost use Rattle.std.specs.Prelude.{◌≡◌, ℕ, ◌≤◌, ◌==◌, List, length, ◌++◌, ◌∷◌, MatchOption, IsTrue, false};
ghost use Rattle.base.specs.Ends.{is_space};
ghost use Rattle.filter_text.specs.Runs.{Run, Stops, is_plain, is_name_byte};

use base::without_front;

/// What follows this byte, where it comes first.
pub fn after(bytes: &[u8], byte: u8) -> Option<&[u8]>
    ensures { MatchOption result (Stops (λ b. b == byte) bytes.now) (λ rest. bytes.now ≡ byte ∷ rest.now) }
{
    match bytes {
        [first, rest @ ..] => { if *first == byte { Some(rest) } else { None } }
        [] => None,
    }
}

/// Whether a parenthesis opens.
pub fn opens(bytes: &[u8]) -> bool
    ensures yes { IsTrue result → (inside : List ℕ) × (bytes.now ≡ 40 ∷ inside) }
    ensures no { result ≡ false → Stops (λ b. b == 40) bytes.now }
{
    match after(bytes, b'(') {
        Some(_) => true,
        None => false,
    }
}

/// What follows the spaces at the front.
pub fn after_spaces(bytes: &[u8]) -> &[u8]
    ensures run { (s : List ℕ) × Run is_space s × (bytes.now ≡ s ++ result.now) }
    ensures stops { Stops is_space result.now }
    ensures no_longer { length result.now ≤ length bytes.now }
{
    without_front(bytes)
}

/// The bytes before the first parenthesis, and the rest.
pub fn to_parenthesis(bytes: &[u8]) -> (&[u8], &[u8])
    ensures run { Run is_plain result.0.now }
    ensures stops { Stops is_plain result.1.now }
    ensures all { bytes.now ≡ result.0.now ++ result.1.now }
{
    let mut len = 0;
    while len < bytes.len() && bytes[len] != b'(' && bytes[len] != b')' {
        len += 1;
    }
    bytes.split_at(len)
}

fn is_name_byte(byte: u8) -> bool
    ensures { result ≡ is_name_byte byte }
{
    match byte {
        b'a'..=b'z' | b'A'..=b'Z' | b'0'..=b'9' | b'-' | b'.' | b';' | b'_' => true,
        _ => false,
    }
}

/// The name at the front, perhaps empty, and the rest.
pub fn name_at(bytes: &[u8]) -> (&[u8], &[u8])
    ensures run { Run is_name_byte result.0.now }
    ensures stops { Stops is_name_byte result.1.now }
    ensures all { bytes.now ≡ result.0.now ++ result.1.now }
{
    let mut len = 0;
    while len < bytes.len() && is_name_byte(bytes[len]) {
        len += 1;
    }
    bytes.split_at(len)
}
