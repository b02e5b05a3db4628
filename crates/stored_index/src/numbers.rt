//! Numbers in an index text.

ghost use Rattle.std.specs.Prelude.{◌≡◌, ◌+◌, ◌<◌, ◌≤◌, ◌^◌, ◌∷◌, [], true, Ok, IfOk, IfErr, IfSome, length, take};
ghost use Rattle.std.specs.Char.{is_ascii_digit};
ghost use Rattle.base.specs.Ascii.{space};
ghost use Rattle.stored_index.specs.Cuts.{parts, parts_if};
ghost use Rattle.stored_index.specs.Words.{has_number_form, number_after, number_in};
ghost use Rattle.stored_index.specs.Gives.{Gives};
ghost use Rattle.stored_index.specs.declared.fault.LineFault.TheVariants.{Fault};
ghost use Rattle.stored_index.specs.declared.fault.IndexFaultKind.TheVariants.{Form};

use crate::cuts::cut;
use crate::fault::{LineFault, form};

fn has_number_form(word: &[u8]) -> bool
    ensures { result ≡ has_number_form word.now }
{
    match word {
        [] => false,
        [b'0', rest @ ..] => rest.is_empty(),
        [_, rest @ ..] => rest.len() < 10,
    }
}

// the number that so few digits write
fn number_of(word: &[u8]) -> Result<u64, LineFault>
    requires { length word.now ≤ 10 }
    ensures number { Gives (λ n. n) result (number_after 0 word.now) }
    ensures small { IfOk result (λ n. n < 10 ^ 10) }
    ensures fault { IfErr result (λ e. e ≡ Fault Form) }
{
    let mut number: u64 = 0;
    for digit in word {
        if !digit.is_ascii_digit() {
            return Err(form());
        }
        number = number * 10 + (*digit - b'0') as u64;
    }
    Ok(number)
}

/// The number that a word writes, in decimal without leading zeros and of at most ten digits.
#[tactic(auto, unfolding(crate::specs::Words::number_in))]
pub(crate) fn number_in(word: &[u8]) -> Result<u64, LineFault>
    ensures number { Gives (λ n. n) result (number_in word.now) }
    ensures small { IfOk result (λ n. n < 10 ^ 10) }
    ensures fault { IfErr result (λ e. e ≡ Fault Form) }
{
    if has_number_form(word) {
        number_of(word)
    } else {
        Err(form())
    }
}

// how many digits a text begins with, of ten at most, and the number that they write
fn digits(text: &[u8]) -> (usize, u64)
    ensures few { result.0 ≤ 10 }
    ensures fits { result.0 ≤ length text.now }
    ensures number { number_after 0 (take result.0 text.now) ≡ Ok result.1 }
    ensures small { result.1 < 10 ^ 10 }
{
    let mut number: u64 = 0;
    let mut at = 0;
    while at < text.len() && at < 10 && text[at].is_ascii_digit() {
        number = number * 10 + (text[at] - b'0') as u64;
        at += 1;
    }
    (at, number)
}

// what `cut_number` answers, for any text; a word of a few digits is read in one pass
fn cut_any(text: &[u8]) -> (&[u8], Result<u64, LineFault>, Option<&[u8]>)
    ensures parts { parts space text.now ≡ result.0.now ∷ parts_if space result.2 }
    ensures number { Gives (λ n. n) result.1 (number_in result.0.now) }
    ensures small { IfOk result.1 (λ n. n < 10 ^ 10) }
    ensures shorter { IfSome result.2 (λ rest. length rest.now < length text.now) }
{
    let (at, number) = digits(text);
    let word = &text[..at];
    if has_number_form(word) {
        match text.get(at) {
            None => return (word, Ok(number), None),
            Some(b' ') => return (word, Ok(number), Some(&text[at + 1..])),
            Some(_) => {}
        }
    }
    let (word, rest) = cut(b' ', text);
    (word, number_in(word), rest)
}

// what a digit stands for; what another byte comes to is none
#[inline(always)]
fn worth(byte: u8) -> u64
    ensures digit { result < 10 → (is_ascii_digit byte ≡ true) × (byte ≡ 48 + result) }
    ensures small { result < 256 }
{
    byte.wrapping_sub(b'0') as u64
}

// the number that five digits write, of which the first is no zero
#[inline(always)]
fn of_five(a: u8, b: u8, c: u8, d: u8, e: u8) -> Option<u64>
    ensures number { IfSome result (λ n. number_after 0 (a ∷ b ∷ c ∷ d ∷ e ∷ []) ≡ Ok n) }
    ensures form { IfSome result (λ n. has_number_form (a ∷ b ∷ c ∷ d ∷ e ∷ []) ≡ true) }
    ensures small { IfSome result (λ n. n < 10 ^ 10) }
{
    let (a, b, c, d, e) = (worth(a), worth(b), worth(c), worth(d), worth(e));
    if (a < 10) & (b < 10) & (c < 10) & (d < 10) & (e < 10) & (a != 0) {
        Some((((a * 10 + b) * 10 + c) * 10 + d) * 10 + e)
    } else {
        None
    }
}

// a word of five digits, the first no zero: the word, its number, and what stands behind the space that ends it
#[inline(always)]
fn cut_five(text: &[u8]) -> Option<(&[u8], u64, Option<&[u8]>)>
    ensures parts { IfSome result (λ c. parts space text.now ≡ c.0.now ∷ parts_if space c.2) }
    ensures number { IfSome result (λ c. number_in c.0.now ≡ Ok c.1) }
    ensures small { IfSome result (λ c. c.1 < 10 ^ 10) }
    ensures shorter { IfSome result (λ c. IfSome c.2 (λ rest. length rest.now < length text.now)) }
{
    match text {
        [a, b, c, d, e] => {
            let number = of_five(*a, *b, *c, *d, *e)?;
            Some((text, number, None))
        }
        [a, b, c, d, e, b' ', rest @ ..] => {
            let number = of_five(*a, *b, *c, *d, *e)?;
            Some((&text[..5], number, Some(rest)))
        }
        _ => None,
    }
}

/// The first word of a text, the number that it writes, and what stands behind the space that ends it. Most have five digits.
#[inline(always)]
pub(crate) fn cut_number(text: &[u8]) -> (&[u8], Result<u64, LineFault>, Option<&[u8]>)
    ensures parts { parts space text.now ≡ result.0.now ∷ parts_if space result.2 }
    ensures number { Gives (λ n. n) result.1 (number_in result.0.now) }
    ensures small { IfOk result.1 (λ n. n < 10 ^ 10) }
    ensures shorter { IfSome result.2 (λ rest. length rest.now < length text.now) }
{
    match cut_five(text) {
        Some((word, number, rest)) => (word, Ok(number), rest),
        None => cut_any(text),
    }
}
