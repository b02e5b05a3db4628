//! The forms in which a key has its members.
ghost use Rattle.std.specs.Prelude.{◌≡◌, ℕ, true, false, IfOk};
ghost use Rattle.std.proofs.Math.Bool.{beq};
ghost use Rattle.std.specs.List.{filter};
ghost use Rattle.std.specs.FinSet as set;
ghost use Rattle.id_sets.specs.Ascending.{IsAscending};

use crate::WordSet;
use id_sets::{IdSet, ListSet, lists};
use std::alloc::{AllocError, Global};
use std::slice;

/// The members of a key as they are kept.
#[derive(Drop)]
pub enum Form {
    Empty,
    One(u32),
    List(Box<ListSet>),
    Words(Box<WordSet>),
}

/// The same, lent. None, one and a list are an ascending slice.
pub enum Lent<'a> {
    List(&'a [u32]),
    Words(&'a WordSet),
}

/// Words with the numbers of a list too.
pub fn with_all(mut words: WordSet, ids: &[u32]) -> Result<WordSet, AllocError>
    ensures { IfOk result (λ all. all ≡ set.union words (set.from_list ids.now)) }
{
    for id in ids {
        words.insert(*id)?;
    }
    Ok(words)
}

/// Words without the numbers of a list.
fn without_all(mut words: WordSet, ids: &[u32]) -> WordSet
    ensures { result ≡ set.difference words (set.from_list ids.now) }
{
    for id in ids {
        words.remove(*id);
    }
    words
}

/// The numbers of a list that words have, or those that they haven't.
fn sift(alloc: Global, ids: &[u32], words: &WordSet, wanted: bool) -> Result<Vec<u32>, AllocError>
    ensures { IfOk result (λ kept. kept.items ≡ filter (λ q. beq (set.contains words.now q) wanted) ids.now) }
{
    ids.iter()
        .copied()
        .filter(|id| words.contains(*id) == wanted)
        .collect(alloc)
}

impl Form {
    ghost use Rattle.dense_sets.specs.inner.Forms.{kept_as, lent_as, members_of, IsInOrder};

    /// An ascending list, in the form that its length asks for.
    pub fn of_list(alloc: Global, ids: Vec<u32>) -> Result<Form, AllocError>
        requires { IsAscending ids.items }
        ensures { IfOk result (λ form. kept_as form ≡ record { members = set.from_list ids.items; is_words = false }) }
    {
        match ids.as_slice() {
            [] => Ok(Form::Empty),
            [id] => Ok(Form::One(*id)),
            _ => Ok(Form::List(Box::new(alloc, ListSet::of_list(ids))?)),
        }
    }

    /// Words, which stay words.
    pub fn of_words(alloc: Global, words: WordSet) -> Result<Form, AllocError>
        ensures { IfOk result (λ form. kept_as form ≡ record { members = words; is_words = true }) }
    {
        Ok(Form::Words(Box::new(alloc, words)?))
    }

    /// The members, to look at.
    pub fn lend(&self) -> Lent<'_>
        ensures same { lent_as result ≡ kept_as self.now }
        ensures ascending { IsInOrder result }
    {
        match self {
            Form::Empty => Lent::List(&[]),
            Form::One(id) => Lent::List(slice::from_ref(id)),
            Form::List(list) => Lent::List(list.as_slice()),
            Form::Words(words) => Lent::Words(words),
        }
    }

    /// The numbers that both have.
    pub fn meet(&self, alloc: Global, other: &Form) -> Result<Form, AllocError>
        ensures { IfOk result (λ both. members_of both ≡ set.intersection (members_of self.now) (members_of other.now)) }
    {
        match self.lend() {
            Lent::List(ids) => match other.lend() {
                Lent::List(others) => Form::of_list(alloc, lists::meet(alloc, ids, others)?),
                Lent::Words(words) => Form::of_list(alloc, sift(alloc, ids, words, true)?),
            },
            Lent::Words(words) => match other.lend() {
                Lent::List(ids) => Form::of_list(alloc, sift(alloc, ids, words, true)?),
                Lent::Words(others) => Form::of_words(alloc, words.meet(alloc, others)?),
            },
        }
    }

    /// The numbers that one of them has.
    pub fn join(&self, alloc: Global, other: &Form) -> Result<Form, AllocError>
        ensures { IfOk result (λ all. members_of all ≡ set.union (members_of self.now) (members_of other.now)) }
    {
        match self.lend() {
            Lent::List(ids) => match other.lend() {
                Lent::List(others) => Form::of_list(alloc, lists::join(alloc, ids, others)?),
                Lent::Words(words) => Form::of_words(alloc, with_all(words.copy(alloc)?, ids)?),
            },
            Lent::Words(words) => match other.lend() {
                Lent::List(ids) => Form::of_words(alloc, with_all(words.copy(alloc)?, ids)?),
                Lent::Words(others) => Form::of_words(alloc, words.join(alloc, others)?),
            },
        }
    }

    /// The numbers that this one has and the other hasn't.
    pub fn minus(&self, alloc: Global, other: &Form) -> Result<Form, AllocError>
        ensures { IfOk result (λ left. members_of left ≡ set.difference (members_of self.now) (members_of other.now)) }
    {
        match self.lend() {
            Lent::List(ids) => match other.lend() {
                Lent::List(others) => Form::of_list(alloc, lists::minus(alloc, ids, others)?),
                Lent::Words(words) => Form::of_list(alloc, sift(alloc, ids, words, false)?),
            },
            Lent::Words(words) => match other.lend() {
                Lent::List(ids) => Form::of_words(alloc, without_all(words.copy(alloc)?, ids)),
                Lent::Words(others) => Form::of_words(alloc, words.minus(alloc, others)?),
            },
        }
    }
}
