//! Normal forms of values, by family of matching rules (RFC 4517, 4.2).

ghost use Rattle.std.specs.Prelude.{◌≡◌, ◌≢◌, [], true, IfOk, IsTrue, OnOk, filter};
ghost use Rattle.std.specs.List.{list_any};
ghost use Rattle.std.specs.Char.{is_ascii_uppercase};
ghost use Rattle.matching.specs.Forms.{norm, tidy, lower, is_no_space, is_no_filler};
ghost use Rattle.matching.specs.inner.Gaps.{with_gap};

use crate::family::Family;
use crate::tested_bytes::{Capital, Space};
use crate::wide_gaps::has_wide_gap;
use base::{Bytes, any_byte};
use std::alloc::{AllocError, Global};

fn put_gap(out: &mut Vec<u8>, gap: bool) -> Result<(), AllocError>
    ensures { OnOk result (out.new.items ≡ with_gap out.old.items gap) }
{
    if gap && !out.is_empty() {
        out.push(b' ')?;
    }
    Ok(())
}

fn tidy_text(alloc: Global, bytes: &[u8]) -> Result<Vec<u8>, AllocError>
    ensures { IfOk result (λ v. v.items ≡ tidy bytes.now) }
{
    let mut out = Vec::with_capacity(alloc, bytes.len())?;
    let mut gap = false;
    for b in bytes {
        if *b == b' ' {
            gap = true;
        } else {
            put_gap(&mut out, gap)?;
            gap = false;
            out.push(*b)?;
        }
    }
    Ok(out)
}

// whether no space stands at an end or behind another
fn has_single_spaces(bytes: &[u8]) -> bool
    ensures { IsTrue result → tidy bytes.now ≡ bytes.now }
{
    if bytes.is_empty() || bytes[0] == b' ' || bytes[bytes.len() - 1] == b' ' {
        return false;
    }
    !has_wide_gap(bytes)
}

// most texts have no space
fn is_tidy(bytes: &[u8]) -> bool
    ensures { IsTrue result → tidy bytes.now ≡ bytes.now }
{
    if any_byte::<Space>(bytes) {
        has_single_spaces(bytes)
    } else {
        true
    }
}

/// How the normal form of a value differs from the value.
#[derive(Clone, Copy)]
pub enum Form {
    /// Not at all.
    AsWritten,
    /// It is in ASCII lower case.
    LowerCase,
    /// In other bytes too.
    Other,
}

impl Form {
    ghost use Rattle.matching.specs.Differences.{Differs};

    fn of_case(bytes: &[u8]) -> Form
        ensures { Differs result bytes.now (lower bytes.now) }
    {
        if any_byte::<Capital>(bytes) {
            Form::LowerCase
        } else {
            Form::AsWritten
        }
    }

    fn of_tidy(bytes: &[u8]) -> Form
        ensures { Differs result bytes.now (tidy bytes.now) }
    {
        if is_tidy(bytes) {
            Form::AsWritten
        } else {
            Form::Other
        }
    }

    fn of_tidy_case(bytes: &[u8]) -> Form
        ensures { Differs result bytes.now (lower (tidy bytes.now)) }
    {
        if is_tidy(bytes) {
            Form::of_case(bytes)
        } else {
            Form::Other
        }
    }

    /// How a value differs from its normal form; of some values that need no change it isn't found out.
    #[tactic(auto, unfolding(crate::specs::Forms::norm))]
    pub fn of(family: Family, bytes: &[u8]) -> Form
        ensures { Differs result bytes.now (norm family bytes.now) }
    {
        match family {
            Family::Ignore => Form::of_tidy_case(bytes),
            Family::Exact => Form::of_tidy(bytes),
            Family::Oid => Form::of_case(bytes),
            Family::Integer | Family::Boolean | Family::Octet => Form::AsWritten,
            Family::Numeric | Family::Telephone => Form::Other,
        }
    }
}

fn lower(alloc: Global, bytes: &[u8]) -> Result<Bytes, AllocError>
    ensures { IfOk result (λ v. v ≡ lower bytes.now) }
{
    let mut text = Bytes::from_slice(alloc, bytes)?;
    text.make_ascii_lowercase();
    Ok(text)
}

fn tidy_bytes(alloc: Global, bytes: &[u8]) -> Result<Bytes, AllocError>
    ensures { IfOk result (λ v. v ≡ tidy bytes.now) }
{
    Ok(Bytes::from_vec(tidy_text(alloc, bytes)?))
}

fn tidy_and_lower(alloc: Global, bytes: &[u8]) -> Result<Bytes, AllocError>
    ensures { IfOk result (λ v. v ≡ lower (tidy bytes.now)) }
{
    let mut text = tidy_bytes(alloc, bytes)?;
    text.make_ascii_lowercase();
    Ok(text)
}

fn without_spaces(alloc: Global, bytes: &[u8]) -> Result<Bytes, AllocError>
    ensures { IfOk result (λ v. v ≡ filter is_no_space bytes.now) }
{
    let digits = bytes.iter().copied().filter(|b| *b != b' ').collect(alloc)?;
    Ok(Bytes::from_vec(digits))
}

fn without_fillers(alloc: Global, bytes: &[u8]) -> Result<Bytes, AllocError>
    ensures { IfOk result (λ v. v ≡ filter is_no_filler bytes.now) }
{
    let kept = bytes
        .iter()
        .copied()
        .filter(|b| *b != b' ' && *b != b'-')
        .collect(alloc)?;
    Ok(Bytes::from_vec(kept))
}

fn telephone_number(alloc: Global, bytes: &[u8]) -> Result<Bytes, AllocError>
    ensures { IfOk result (λ v. v ≡ lower (filter is_no_filler bytes.now)) }
{
    let mut number = without_fillers(alloc, bytes)?;
    number.make_ascii_lowercase();
    Ok(number)
}

/// The normal form of a value: two values of a type are equal where their normal forms are.
#[tactic(auto, unfolding(crate::specs::Forms::norm))]
pub fn normal_form(alloc: Global, family: Family, bytes: &[u8]) -> Result<Bytes, AllocError>
    ensures { IfOk result (λ v. v ≡ norm family bytes.now) }
{
    match family {
        Family::Ignore => tidy_and_lower(alloc, bytes),
        Family::Exact => tidy_bytes(alloc, bytes),
        Family::Numeric => without_spaces(alloc, bytes),
        Family::Telephone => telephone_number(alloc, bytes),
        Family::Integer | Family::Boolean | Family::Octet => { Bytes::from_slice(alloc, bytes) }
        Family::Oid => lower(alloc, bytes),
    }
}
