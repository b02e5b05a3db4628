//! Whole numbers in decimal.

ghost use Rattle.std.specs.Prelude.{◌≡◌, ◌≤◌, ◌↔◌, ◌<ℤ◌, ◌^◌, IsTrue, MatchOption, true, false};
ghost use Rattle.std.specs.Str.{all_ascii_digits};
ghost use Rattle.std.specs.Char.{is_ascii_digit};
ghost use Rattle.std.specs.List.{list_all};
ghost use Rattle.std.specs.Str.Parse.{digits_value};
ghost use Rattle.matching.specs.Integers.{are_plain_digits, is_minus, after_minus, fits, is_integer, value};
ghost use Rattle.matching.specs.inner.Numbers.{number};

/// The magnitude of the least number of 128 signed bits.
const LIMIT: u128 = 1 << 127;

/// A whole number of 128 signed bits.
#[derive(Clone, Copy)]
pub(crate) struct Integer {
    negative: bool,
    magnitude: u128,
}

fn all_pass(text: &[u8]) -> bool
    ensures { result ≡ list_all is_ascii_digit text.now }
{
    text.iter().all(|b| b.is_ascii_digit())
}

fn are_digits(text: &[u8]) -> bool
    ensures { result ≡ all_ascii_digits text.now }
{
    all_pass(text)
}

fn are_plain(digits: &[u8]) -> bool
    ensures { result ≡ are_plain_digits digits.now }
{
    are_digits(digits) && !digits.is_empty() && (digits.len() == 1 || digits[0] != b'0')
}

// the number that digits stand for, where it has no more than 128 bits
fn magnitude_of(digits: &[u8]) -> Option<u128>
    requires { all_ascii_digits digits.now ≡ true }
    ensures { MatchOption result (2 ^ 128 ≤ digits_value 10 digits.now) (λ n. n ≡ digits_value 10 digits.now) }
{
    let mut total: u128 = 0;
    for b in digits {
        let digit = (*b - b'0') as u128;
        total = total.checked_mul(10)?.checked_add(digit)?;
    }
    Some(total)
}

fn starts_with_minus(text: &[u8]) -> bool
    ensures { result ≡ is_minus text.now }
{
    match text {
        [b'-', ..] => true,
        _ => false,
    }
}

fn without_minus(text: &[u8]) -> &[u8]
    ensures { result.now ≡ after_minus text.now }
{
    match text {
        [b'-', rest @ ..] => rest,
        _ => text,
    }
}

fn fits(negative: bool, magnitude: u128) -> bool
    ensures { result ≡ fits negative magnitude }
{
    if negative {
        0 < magnitude && magnitude <= LIMIT
    } else {
        magnitude < LIMIT
    }
}

impl Integer {
    /// The number that a text spells: a minus perhaps, and digits without a zero before them.
    pub(crate) fn read(text: &[u8]) -> Option<Integer>
        ensures { MatchOption result (is_integer text.now ≡ false) (λ n. (is_integer text.now ≡ true) × (number n ≡ value text.now)) }
    {
        let negative = starts_with_minus(text);
        let digits = without_minus(text);
        if !are_plain(digits) {
            return None;
        }
        let magnitude = magnitude_of(digits)?;
        if fits(negative, magnitude) {
            Some(Integer {
                negative,
                magnitude,
            })
        } else {
            None
        }
    }

    /// Whether this number is less than another.
    pub(crate) fn is_less(self, other: Integer) -> bool
        ensures { IsTrue result ↔ (number self <ℤ number other) }
    {
        match (self.negative, other.negative) {
            (true, true) => other.magnitude < self.magnitude,
            (true, false) => 0 < self.magnitude || 0 < other.magnitude,
            (false, true) => false,
            (false, false) => self.magnitude < other.magnitude,
        }
    }
}
