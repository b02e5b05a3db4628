//! In which order stanzas are printed, by their names.

ghost use Rattle.std.specs.Prelude.{◌≡◌, ℕ, List, Option, if◌then◌else◌, IfOk, OnOk};
ghost use Rattle.sorting.specs.Turns.{is_named, greatest_last, turn_of, turns};
ghost use Rattle.sorting.specs.declared.normal_names.NormalName.{NormalName};
ghost use Rattle.sorting.specs.inner.Numbers.{number_at, AreLastNumbers};

use crate::normal_names::NormalName;
use base::Bytes;
use std::alloc::{AllocError, Global};
use std::collections::{BTreeMap, BTreeSet};

/// When a stanza is printed: by its position, at one position by its depth, and then by its number.
#[derive(Clone, Copy, Drop, PartialEq, Eq, PartialOrd, Ord)]
pub(crate) struct Turn {
    /// The number of the last stanza that is above it, or its own where that is greater.
    position: usize,
    /// How many RDNs its name has, 0 where it has none.
    depth: usize,
    /// Which stanza it is, from 0.
    pub(crate) number: usize,
}

/// Makes the number of a stanza that of its name, if it has one.
fn put_number(
    alloc: Global,
    numbers: &mut BTreeMap<Bytes, usize>,
    number: usize,
    name: &Option<NormalName>,
) -> Result<(), AllocError>
    ensures { OnOk result ((text : List ℕ) → number_at numbers.new text
        ≡ (if is_named text name.now then number else number_at numbers.old text)) }
{
    let Some(name) = name else {
        return Ok(());
    };
    numbers.insert(name.text.copy(alloc)?, number)?;
    Ok(())
}

/// The number of the last stanza of each name.
#[tactic(auto, unfolding(crate::specs::Turns::last_from))]
fn last_numbers(
    alloc: Global,
    names: &[Option<NormalName>],
) -> Result<BTreeMap<Bytes, usize>, AllocError>
    ensures { IfOk result (AreLastNumbers names.now) }
{
    let mut numbers = BTreeMap::new(alloc);
    for number in 0..names.len() {
        put_number(alloc, &mut numbers, number, &names[number])?;
    }
    Ok(numbers)
}

/// The greatest of a number and of those of the last stanzas with these names.
fn greatest_last(last_numbers: &BTreeMap<Bytes, usize>, number: usize, texts: &[Bytes]) -> usize
    ensures { (names : List (Option NormalName)) → AreLastNumbers names last_numbers.now
        → result ≡ greatest_last names number texts.now }
{
    let mut greatest = number;
    for text in texts {
        if let Some(last) = last_numbers.get(text) {
            greatest = greatest.max(*last);
        }
    }
    greatest
}

/// The turn of the stanza with this number and this name.
fn turn_of(last_numbers: &BTreeMap<Bytes, usize>, number: usize, name: &Option<NormalName>) -> Turn
    ensures { (names : List (Option NormalName)) → AreLastNumbers names last_numbers.now
        → result ≡ turn_of names number name.now }
{
    match name {
        None => Turn {
            position: number,
            depth: 0,
            number,
        },
        Some(name) => Turn {
            position: greatest_last(last_numbers, number, name.above.as_slice()),
            depth: name.above.len() + 1,
            number,
        },
    }
}

/// The turns of stanzas with these names, in order.
#[tactic(auto, unfolding(crate::specs::Turns::turns, crate::specs::Turns::with_turns, crate::specs::Turns::turns_from))]
pub(crate) fn turns(
    alloc: Global,
    names: &[Option<NormalName>],
) -> Result<BTreeSet<Turn>, AllocError>
    ensures { IfOk result (λ s. s.keys ≡ turns names.now) }
{
    let last_numbers = last_numbers(alloc, names)?;
    let mut found = BTreeSet::new(alloc);
    for number in 0..names.len() {
        found.insert(turn_of(&last_numbers, number, &names[number]))?;
    }
    Ok(found)
}
