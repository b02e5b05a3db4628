//! Sets that postings lend, and sets that are made of them.

ghost use Rattle.std.specs.Prelude.{◌≡◌, ◌&&◌, ◌||◌, not, ℕ, IfOk, MatchOption};
ghost use Rattle.std.specs.FinSet as set;
ghost use Rattle.candidates.specs.Numbers.{HasExactly};
ghost use Rattle.candidates.specs.inner.Held.{members_of, held_contains, hold, owned, HoldExactly};
ghost use Rattle.candidates.specs.inner.Numbers.{only, all_but, others};
ghost use Rattle.candidates.specs.inner.OneSide.{both_or_either};

use crate::numbers::Numbers;
use id_sets::IdSet;
use index_text::Postings;
use std::alloc::{AllocError, Global};

/// A set of numbers. One that is lent is handed on as it is, and copied at the end, if at all.
#[derive(Drop)]
pub(crate) enum Held<'p, S> {
    Nothing,
    Lent(&'p S),
    Owned(S),
}

impl<'p, S: IdSet> Held<'p, S> {
    // the set; none where it has no member
    fn set(&self) -> Option<&S>
        ensures { MatchOption result (members_of S.members self.now ≡ set.empty) (λ s. S.members s.now ≡ members_of S.members self.now) }
    {
        match self {
            Held::Nothing => None,
            Held::Lent(set) => Some(*set),
            Held::Owned(set) => Some(set),
        }
    }
}

// the same set, not lent
fn into_owned<S: IdSet>(alloc: Global, held: Held<S>) -> Result<S, AllocError>
    ensures { IfOk result (λ s. S.members s ≡ members_of S.members held.entry) }
{
    match held {
        Held::Nothing => Ok(S::new(alloc)),
        Held::Lent(set) => set.copy(alloc),
        Held::Owned(set) => Ok(set),
    }
}

// a set that was made, as one that isn't lent
fn owned<'p, S: IdSet>(set: Result<S, AllocError>) -> Result<Held<'p, S>, AllocError>
    ensures { result ≡ owned set }
{
    match set {
        Ok(set) => Ok(Held::Owned(set)),
        Err(error) => Err(error),
    }
}

// the numbers in both sets
fn meet<'p, S: IdSet>(
    alloc: Global,
    a: Held<'p, S>,
    b: Held<'p, S>,
) -> Result<Held<'p, S>, AllocError>
    ensures { IfOk result (λ both. (n : ℕ) → held_contains S.members both n ≡ (held_contains S.members a.entry n && held_contains S.members b.entry n)) }
{
    match a.set() {
        None => Ok(Held::Nothing),
        Some(left) => match b.set() {
            None => Ok(Held::Nothing),
            Some(right) => owned(left.meet(alloc, right)),
        },
    }
}

// the numbers in one of the sets
fn join<'p, S: IdSet>(
    alloc: Global,
    a: Held<'p, S>,
    b: Held<'p, S>,
) -> Result<Held<'p, S>, AllocError>
    ensures { IfOk result (λ all. (n : ℕ) → held_contains S.members all n ≡ (held_contains S.members a.entry n || held_contains S.members b.entry n)) }
{
    match a.set() {
        None => Ok(b),
        Some(left) => match b.set() {
            None => Ok(a),
            Some(right) => owned(left.join(alloc, right)),
        },
    }
}

// the numbers in the first set that aren't in the second
fn minus<'p, S: IdSet>(
    alloc: Global,
    a: Held<'p, S>,
    b: Held<'p, S>,
) -> Result<Held<'p, S>, AllocError>
    ensures { IfOk result (λ left. (n : ℕ) → held_contains S.members left n ≡ (held_contains S.members a.entry n && not (held_contains S.members b.entry n))) }
{
    match a.set() {
        None => Ok(Held::Nothing),
        Some(left) => match b.set() {
            None => Ok(a),
            Some(right) => owned(left.minus(alloc, right)),
        },
    }
}

/// All numbers, or none. They count as lent by the postings, so that they can stand in for what these lend.
pub(crate) fn all_or_none<'p, P: Postings>(_postings: &'p P, all: bool) -> Numbers<Held<'p, P::Set>>
    ensures { HoldExactly P.Set.members (λ n. all) result }
{
    if all {
        Numbers::AllBut(Held::Nothing)
    } else {
        Numbers::Only(Held::Nothing)
    }
}

// the members of a set, where it was made
fn only<S: Drop>(set: Result<S, AllocError>) -> Result<Numbers<S>, AllocError>
    ensures { result ≡ only set }
{
    match set {
        Ok(set) => Ok(Numbers::Only(set)),
        Err(error) => Err(error),
    }
}

// all numbers but the members of a set, where it was made
fn all_but<S: Drop>(set: Result<S, AllocError>) -> Result<Numbers<S>, AllocError>
    ensures { result ≡ all_but set }
{
    match set {
        Ok(set) => Ok(Numbers::AllBut(set)),
        Err(error) => Err(error),
    }
}

// all numbers but these
fn others<S: Drop>(numbers: Numbers<S>) -> Numbers<S>
    ensures { result ≡ others numbers }
{
    match numbers {
        Numbers::Only(set) => Numbers::AllBut(set),
        Numbers::AllBut(set) => Numbers::Only(set),
    }
}

/// The numbers that are among both.
pub(crate) fn meet_numbers<'p, S: IdSet>(
    alloc: Global,
    left: Numbers<Held<'p, S>>,
    right: Numbers<Held<'p, S>>,
) -> Result<Numbers<Held<'p, S>>, AllocError>
    ensures { IfOk result (HoldExactly S.members (λ n. hold S.members left.entry n && hold S.members right.entry n)) }
{
    match left {
        Numbers::Only(a) => match right {
            Numbers::Only(b) => only(meet(alloc, a, b)),
            Numbers::AllBut(b) => only(minus(alloc, a, b)),
        },
        Numbers::AllBut(a) => match right {
            Numbers::Only(b) => only(minus(alloc, b, a)),
            Numbers::AllBut(b) => all_but(join(alloc, a, b)),
        },
    }
}

// The numbers that are among one of them: all but those that are among the others of both.
fn join_numbers<'p, S: IdSet>(
    alloc: Global,
    left: Numbers<Held<'p, S>>,
    right: Numbers<Held<'p, S>>,
) -> Result<Numbers<Held<'p, S>>, AllocError>
    ensures { IfOk result (HoldExactly S.members (λ n. hold S.members left.entry n || hold S.members right.entry n)) }
{
    match meet_numbers(alloc, others(left), others(right)) {
        Ok(numbers) => Ok(others(numbers)),
        Err(error) => Err(error),
    }
}

/// The numbers that are among both, or else those that are among one of them.
pub(crate) fn both_or_either<'p, S: IdSet>(
    alloc: Global,
    both: bool,
    left: Numbers<Held<'p, S>>,
    right: Numbers<Held<'p, S>>,
) -> Result<Numbers<Held<'p, S>>, AllocError>
    ensures { IfOk result (HoldExactly S.members (λ n. both_or_either both (hold S.members left.entry n) (hold S.members right.entry n))) }
{
    if both {
        meet_numbers(alloc, left, right)
    } else {
        join_numbers(alloc, left, right)
    }
}

/// The same numbers, with no set lent.
pub(crate) fn owned_numbers<S: IdSet>(
    alloc: Global,
    numbers: Numbers<Held<S>>,
) -> Result<Numbers<S>, AllocError>
    ensures { IfOk result (HasExactly S.members (λ n. hold S.members numbers.entry n)) }
{
    match numbers {
        Numbers::Only(held) => only(into_owned(alloc, held)),
        Numbers::AllBut(held) => all_but(into_owned(alloc, held)),
    }
}
