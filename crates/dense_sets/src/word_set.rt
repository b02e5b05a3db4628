//! A set as the bits of words.
ghost use Rattle.std.specs.Prelude.{◌≡◌};

use crate::words::{clear_bit, count, grow, join, meet, minus, set_bit, test_bit};
use id_sets::words::next_bit;
use id_sets::{IdSet, Members};
use std::alloc::{AllocError, Global};
use std::marker::Model;

/// A set as the bits of words, from 0 up to its greatest member at least.
#[derive(Drop)]
pub struct WordSet {
    words: Vec<u64>,
}

impl Model for WordSet {
    ghost use Rattle.std.specs.Ordering.{nat_cmp};
    ghost use Rattle.std.specs.FinSet as set;
    ghost use Rattle.std.specs.Coded.{coded_ℕ};
    ghost use Rattle.id_sets.specs.Words.{FitsIds, set_of_words};

    ghost Value = { set.FinSet nat_cmp };

    ghost coded = { set.code coded_ℕ };

    ghost view = { λ a. set_of_words a.words.items };

    ghost invariant = { λ a. FitsIds a.words.items };
}

impl IdSet for WordSet {
    ghost members = { λ s. s };

    fn new(alloc: Global) -> Self {
        WordSet {
            words: Vec::new(alloc),
        }
    }

    fn len(&self) -> u64 {
        count(&self.words)
    }

    fn contains(&self, id: u32) -> bool {
        test_bit(&self.words, id)
    }

    fn next_from(&self, from: u32) -> Option<u32> {
        next_bit(&self.words, from)
    }

    fn walk(&self) -> Members<'_> {
        Members::of_words(&self.words)
    }

    fn insert(&mut self, id: u32) -> Result<bool, AllocError> {
        if test_bit(&self.words, id) {
            return Ok(false);
        }
        grow(&mut self.words, (id / 64) as usize + 1)?;
        set_bit(self.words.as_mut_slice(), id);
        Ok(true)
    }

    fn remove(&mut self, id: u32) -> bool {
        if !test_bit(&self.words, id) {
            return false;
        }
        clear_bit(self.words.as_mut_slice(), id);
        true
    }

    fn copy(&self, alloc: Global) -> Result<Self, AllocError> {
        let words = Vec::from_slice(alloc, &self.words)?;
        Ok(WordSet { words })
    }

    fn meet(&self, alloc: Global, other: &Self) -> Result<Self, AllocError> {
        let words = meet(alloc, &self.words, &other.words)?;
        Ok(WordSet { words })
    }

    fn join(&self, alloc: Global, other: &Self) -> Result<Self, AllocError> {
        let words = join(alloc, &self.words, &other.words)?;
        Ok(WordSet { words })
    }

    fn minus(&self, alloc: Global, other: &Self) -> Result<Self, AllocError> {
        let words = minus(alloc, &self.words, &other.words)?;
        Ok(WordSet { words })
    }
}
