//! Sets of entry numbers: each form of them has what is wanted, and the same as a list has.

use dense_sets::{KeySet, WordSet};
use id_sets::{IdSet, ListSet};
use std::alloc::{AllocError, Global};
use std::test::Fail;

#[derive(Clone, Copy)]
enum Call {
    Meet,
    Join,
    Minus,
}

/// A call, the numbers of the set that it is made on and of the other one, and those of its answer.
type Row = (Call, &'static [u32], &'static [u32], &'static [u32]);

const ROWS: [Row; 12] = [
    (
        Call::Meet,
        &[0, 63, 64, 511, 512],
        &[63, 512, 600],
        &[63, 512],
    ),
    (
        Call::Minus,
        &[0, 63, 64, 511, 512],
        &[63, 512, 600],
        &[0, 64, 511],
    ),
    (
        Call::Join,
        &[0, 63, 64, 511, 512],
        &[63, 512, 600],
        &[0, 63, 64, 511, 512, 600],
    ),
    // none, one and two numbers
    (Call::Meet, &[], &[7], &[]),
    (Call::Join, &[], &[7], &[7]),
    (Call::Minus, &[7], &[], &[7]),
    (Call::Meet, &[7], &[7], &[7]),
    (Call::Join, &[7], &[7], &[7]),
    (Call::Minus, &[7], &[7], &[]),
    (Call::Join, &[8], &[7], &[7, 8]),
    // a number that is put in twice, and numbers that don't come in order
    (Call::Minus, &[9, 1, 5, 9, 1], &[5], &[1, 9]),
    (Call::Join, &[9, 1], &[100_000, 5, 9], &[1, 5, 9, 100_000]),
];

/// The lengths in words of the sets that are compared with lists.
const LENGTHS: [u32; 6] = [0, 1, 7, 8, 9, 17];

#[derive(Clone, Copy)]
enum Change {
    Insert,
    Remove,
}

/// A change with each number from one up to another, how often the set of a key changes, whether it has words then, and how many members.
type Step = (Change, u32, u32, u64, bool, u64);

const STEPS: [Step; 3] = [
    (Change::Insert, 0, 64, 64, false, 64),
    (Change::Insert, 64, 65, 1, true, 65),
    (Change::Remove, 0, 64, 64, true, 1),
];

/// A set that is sparse at first: 66,560 isn't below 1,024 times 65, and 66,559 is.
const SPARSE_STEPS: [Step; 4] = [
    (Change::Insert, 66_560, 66_561, 1, false, 1),
    (Change::Insert, 0, 64, 64, false, 65),
    (Change::Remove, 66_560, 66_561, 1, false, 64),
    (Change::Insert, 66_559, 66_560, 1, true, 65),
];

/// A list that is dense once a number is taken out. It stays a list up to the next insert, also of a number that it has.
const LATE_STEPS: [Step; 4] = [
    (Change::Insert, 100_000, 100_001, 1, false, 1),
    (Change::Insert, 0, 65, 65, false, 66),
    (Change::Remove, 100_000, 100_001, 1, false, 65),
    (Change::Insert, 0, 1, 0, true, 65),
];

fn rows() -> &'static [Row] {
    &ROWS
}

fn set_of<S: IdSet>(alloc: Global, numbers: &[u32]) -> Result<S, AllocError> {
    let mut set = S::new(alloc);
    for number in numbers {
        set.insert(*number)?;
    }
    Ok(set)
}

/// The members, by a walk.
fn listed<S: IdSet>(alloc: Global, set: &S) -> Result<Vec<u32>, AllocError> {
    let mut numbers = Vec::new(alloc);
    for number in set.walk() {
        numbers.push(number)?;
    }
    Ok(numbers)
}

/// Whether the calls that look at a set find these members, which are ascending.
fn has_exactly<S: IdSet>(set: &S, numbers: &[u32]) -> bool {
    let mut found = set.len() == numbers.len() as u64;
    let mut from = 0;
    for number in numbers {
        found &= set.contains(*number) && set.next_from(from) == Some(*number);
        from = number.saturating_add(1);
    }
    found && !set.contains(from) && set.next_from(from).is_none()
}

fn answer<S: IdSet>(
    alloc: Global,
    call: Call,
    left: &[u32],
    right: &[u32],
) -> Result<S, AllocError> {
    let left: S = set_of(alloc, left)?;
    let right: S = set_of(alloc, right)?;
    match call {
        Call::Meet => left.meet(alloc, &right),
        Call::Join => left.join(alloc, &right),
        Call::Minus => left.minus(alloc, &right),
    }
}

/// Whether an answer, and a copy of it, have the members that are wanted.
fn answers<S: IdSet>(
    alloc: Global,
    call: Call,
    left: &[u32],
    right: &[u32],
    want: &[u32],
) -> Result<bool, AllocError> {
    let set: S = answer(alloc, call, left, right)?;
    let walked = listed(alloc, &set.copy(alloc)?)?;
    Ok(has_exactly(&set, want) && walked.as_slice() == want)
}

fn rows_hold<S: IdSet>(alloc: Global) -> Result<bool, AllocError> {
    let mut hold = true;
    for (call, left, right, want) in rows() {
        hold &= answers::<S>(alloc, *call, left, right, want)?;
    }
    Ok(hold)
}

/// Some numbers below the end of so many words, the last one there among them.
fn spread(alloc: Global, words: u32, step: u32) -> Result<Vec<u32>, AllocError> {
    let mut numbers = Vec::new(alloc);
    let end = words.saturating_mul(64);
    for number in 0..end {
        if number.wrapping_mul(step) & 5 == 1 || number == end - 1 {
            numbers.push(number)?;
        }
    }
    Ok(numbers)
}

/// Whether each call answers what it answers on lists.
fn agrees<S: IdSet>(alloc: Global, left: &[u32], right: &[u32]) -> Result<bool, AllocError> {
    let mut same = true;
    for call in [Call::Meet, Call::Join, Call::Minus] {
        let want: ListSet = answer(alloc, call, left, right)?;
        let want = listed(alloc, &want)?;
        same &= answers::<S>(alloc, call, left, right, want.as_slice())?;
    }
    Ok(same)
}

/// The same of sets of each length beside each length.
fn all_agree<S: IdSet>(alloc: Global) -> Result<bool, AllocError> {
    let mut same = true;
    for words in LENGTHS {
        for others in LENGTHS {
            let left = spread(alloc, words, 3)?;
            let right = spread(alloc, others, 7)?;
            same &= agrees::<S>(alloc, left.as_slice(), right.as_slice())?;
        }
    }
    Ok(same)
}

/// Makes a change with each number, and answers how often the set changes.
fn make(set: &mut KeySet, change: Change, from: u32, end: u32) -> Result<u64, AllocError> {
    let mut changes = 0u64;
    for number in from..end {
        let changed = match change {
            Change::Insert => set.insert(number)?,
            Change::Remove => set.remove(number),
        };
        changes = changes.saturating_add(u64::from(changed));
    }
    Ok(changes)
}

fn steps_hold(alloc: Global, steps: &[Step]) -> Result<bool, AllocError> {
    let mut set = KeySet::new(alloc);
    let mut hold = true;
    for (change, from, end, changes, is_words, len) in steps {
        hold &= make(&mut set, *change, *from, *end)? == *changes;
        hold &= set.is_words() == *is_words && set.len() == *len;
    }
    Ok(hold)
}

#[test]
fn rows_hold_in_each_form(rt: HostRuntime) -> Result<(), Fail> {
    assert!(rt; rows_hold::<ListSet>(rt.alloc())?);
    assert!(rt; rows_hold::<WordSet>(rt.alloc())?);
    assert!(rt; rows_hold::<KeySet>(rt.alloc())?);
    Ok(())
}

#[test]
fn words_agree_with_lists(rt: HostRuntime) -> Result<(), Fail> {
    assert!(rt; all_agree::<WordSet>(rt.alloc())?);
    assert!(rt; all_agree::<KeySet>(rt.alloc())?);
    Ok(())
}

#[test]
fn a_short_list_meets_a_long_one(rt: HostRuntime) -> Result<(), Fail> {
    let long = spread(rt.alloc(), 17, 1)?;
    let long = long.as_slice();
    assert!(rt; answers::<ListSet>(rt.alloc(), Call::Meet, &[2, 9, 1_087], long, &[9, 1_087])?);
    assert!(rt; answers::<ListSet>(rt.alloc(), Call::Meet, long, &[2, 9, 1_087], &[9, 1_087])?);
    Ok(())
}

#[test]
fn a_key_with_many_numbers_turns_to_words(rt: HostRuntime) -> Result<(), Fail> {
    assert!(rt; steps_hold(rt.alloc(), &STEPS)?);
    assert!(rt; steps_hold(rt.alloc(), &SPARSE_STEPS)?);
    assert!(rt; steps_hold(rt.alloc(), &LATE_STEPS)?);
    Ok(())
}
