//! How counts are shown.

ghost use Rattle.std.specs.Prelude.{◌≡◌, ◌∷◌, ◌<◌, ◌+◌, ◌/◌, ◌%◌, [], OnOk, IfOk};
ghost use Rattle.std.specs.String.{string_bytes};
ghost use Rattle.sentences.specs.Counts.{grouped};
ghost use Rattle.sentences.specs.Putting.{IsPut};

use crate::lines::ShownText;
use crate::shown::push_number;
use std::alloc::{AllocError, Global};

/// Puts the last digit of a number behind a text.
fn push_last(out: &mut ShownText, number: u64) -> Result<(), AllocError>
    ensures { OnOk result (IsPut out.old out.new ((48 + number % 10) ∷ [])) }
{
    out.push(char::from(b'0' + (number % 10) as u8))
}

/// Puts a comma and the last three digits of a number behind a text.
fn push_three(out: &mut ShownText, number: u64) -> Result<(), AllocError>
    ensures { OnOk result (IsPut out.old out.new (44 ∷ (48 + number / 100 % 10) ∷ (48 + number / 10 % 10) ∷ (48 + number % 10) ∷ [])) }
{
    out.push(',')?;
    push_last(out, number / 100)?;
    push_last(out, number / 10)?;
    push_last(out, number)
}

/// Puts a number in decimal behind a text, its digits in groups of three: `5,000`.
#[tactic(auto, using(crate::proofs::Groups::grouped_few, crate::proofs::Groups::put_more))]
pub(crate) fn push_grouped(out: &mut ShownText, number: u64) -> Result<(), AllocError>
    ensures { OnOk result (IsPut out.old out.new (grouped number)) }
{
    if number < 1000 {
        return push_number(out, number);
    }
    push_grouped(out, number / 1000)?;
    push_three(out, number)
}

/// Such a number by itself.
pub(crate) fn grouped(alloc: Global, number: u64) -> Result<ShownText, AllocError>
    ensures { IfOk result (λ made. string_bytes made.text ≡ grouped number) }
{
    let mut out = ShownText::new(alloc);
    push_grouped(&mut out, number)?;
    Ok(out)
}
