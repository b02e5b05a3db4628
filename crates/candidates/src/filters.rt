//! The candidates of a filter.

ghost use Rattle.std.specs.Prelude.{◌≡◌, IfOk};
ghost use Rattle.filter.specs.Prepared.{prepared_view, prepared_views};
ghost use Rattle.candidates.specs.Candidates.{may_be_true, may_be_false};
ghost use Rattle.candidates.specs.Numbers.{HasExactly};
ghost use Rattle.candidates.specs.Sides.{sides, sides_each};
ghost use Rattle.candidates.specs.inner.Held.{HoldExactly};
ghost use Rattle.candidates.specs.inner.OneSide.{on, all_or_one};

use crate::held::{Held, all_or_none, both_or_either, owned_numbers};
use crate::items::item_numbers;
use crate::numbers::Numbers;
use crate::side::Side;
use filter::{Prepared, PreparedFilter};
use index_text::Postings;
use std::alloc::{AllocError, Global};

/// The numbers of the entries of which a filter may be True, and of those of which it may be False. Where it is Undefined, either may have
/// the entry, or neither.
#[derive(Drop)]
pub struct Bracket<S> {
    pub may: Numbers<S>,
    pub may_not: Numbers<S>,
}

// The numbers of the entries of which a filter may be what the side says. An And may be True where all of its operands may be, and False where
// one of them may be; of an Or it is the other way round.
#[cycle(operands)]
fn numbers_on<'p, P: Postings>(
    alloc: Global,
    filter: &PreparedFilter,
    postings: &'p P,
    side: Side,
) -> Result<Numbers<Held<'p, P::Set>>, AllocError>
    ensures { IfOk result (HoldExactly P.Set.members (λ n. on side (sides (P.shown postings.now) n (prepared_view filter.now)))) }
{
    match filter {
        PreparedFilter::And(operands) => {
            let all = side.is_may_be_true();
            operands_on(alloc, operands.as_slice(), postings, side, all)
        }
        PreparedFilter::Or(operands) => {
            let all = !side.is_may_be_true();
            operands_on(alloc, operands.as_slice(), postings, side, all)
        }
        PreparedFilter::Not(operand) => numbers_on(alloc, operand, postings, side.other()),
        PreparedFilter::Item(item) => item_numbers(alloc, item, postings, side),
    }
}

// The numbers of the entries of which all operands may be what the side says, or else one of them.
#[cycle(operands)]
fn operands_on<'p, P: Postings>(
    alloc: Global,
    operands: &[PreparedFilter],
    postings: &'p P,
    side: Side,
    all: bool,
) -> Result<Numbers<Held<'p, P::Set>>, AllocError>
    ensures { IfOk result (HoldExactly P.Set.members (λ n. all_or_one all side (sides_each (P.shown postings.now) n (prepared_views operands.now)))) }
{
    let mut numbers = all_or_none(postings, all);
    for operand in operands {
        let next = numbers_on(alloc, operand, postings, side)?;
        numbers = both_or_either(alloc, all, numbers, next)?;
    }
    Ok(numbers)
}

// the same, with no set lent
fn owned_on<P: Postings>(
    alloc: Global,
    filter: &PreparedFilter,
    postings: &P,
    side: Side,
) -> Result<Numbers<P::Set>, AllocError>
    ensures { IfOk result (HasExactly P.Set.members (λ n. on side (sides (P.shown postings.now) n (prepared_view filter.now)))) }
{
    let numbers = numbers_on(alloc, filter, postings, side)?;
    owned_numbers(alloc, numbers)
}

/// The candidates of a filter: of which entries it may be True, and of which it may be False, by what the postings show.
pub fn candidates<P: Postings>(
    alloc: Global,
    filter: &Prepared,
    postings: &P,
) -> Result<Bracket<P::Set>, AllocError>
    ensures may { IfOk result (λ b. HasExactly P.Set.members (may_be_true (P.shown postings.now) filter.now) b.may) }
    ensures may_not { IfOk result (λ b. HasExactly P.Set.members (may_be_false (P.shown postings.now) filter.now) b.may_not) }
{
    let root = filter.root();
    let may = owned_on(alloc, root, postings, Side::MayBeTrue)?;
    let may_not = owned_on(alloc, root, postings, Side::MayBeFalse)?;
    Ok(Bracket { may, may_not })
}

/// The numbers of the entries of which a filter may be True: `may` of its candidates, without the work for the other side.
pub fn may_match<P: Postings>(
    alloc: Global,
    filter: &Prepared,
    postings: &P,
) -> Result<Numbers<P::Set>, AllocError>
    ensures { IfOk result (HasExactly P.Set.members (may_be_true (P.shown postings.now) filter.now)) }
{
    owned_on(alloc, filter.root(), postings, Side::MayBeTrue)
}
