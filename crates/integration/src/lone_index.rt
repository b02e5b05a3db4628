//! An index by itself: numbers under keys.

ghost use Rattle.std.specs.Prelude.{◌≡◌};

use crate::indexes::conf;
use id_sets::IdSet;
use index::Index;
use index_text::Postings;
use schema::{Conf, IndexKind};
use std::alloc::Global;
use std::test::Fail;

// a type, a kind of index, a key, and a number
type Row = (&'static str, IndexKind, &'static str, u32);

// the keys of the entries in `indexes`, with their numbers
const ROWS: [Row; 18] = [
    ("cn", IndexKind::Equality, "aba", 1),
    ("cn", IndexKind::Equality, "abba", 2),
    ("cn", IndexKind::Equality, "abc bcd", 3),
    ("cn", IndexKind::Equality, "bob", 4),
    ("cn", IndexKind::Presence, "", 1),
    ("cn", IndexKind::Presence, "", 2),
    ("cn", IndexKind::Presence, "", 3),
    ("cn", IndexKind::Presence, "", 4),
    ("cn", IndexKind::Substrings, " bc", 3),
    ("cn", IndexKind::Substrings, "aba", 1),
    ("cn", IndexKind::Substrings, "abb", 2),
    ("cn", IndexKind::Substrings, "abc", 3),
    ("cn", IndexKind::Substrings, "bba", 2),
    ("cn", IndexKind::Substrings, "bc ", 3),
    ("cn", IndexKind::Substrings, "bcd", 3),
    ("cn", IndexKind::Substrings, "bob", 4),
    ("cn", IndexKind::Substrings, "c b", 3),
    ("uidNumber", IndexKind::Equality, "7", 4),
];

// adds a number under a key, and answers whether it is new there
fn insert(index: &mut Index, conf: &Conf, row: &Row) -> Result<bool, Fail>
    requires { index.old.conf ≡ conf.now }
    ensures { index.new.conf ≡ index.old.conf }
{
    let (name, kind, key, number) = row;
    let Some(type_id) = conf.type_of(name.as_bytes()) else {
        return Err(Fail::from("the type is there"));
    };
    let Some(slot) = index.slot(type_id, *kind) else {
        return Err(Fail::from("the slot is there"));
    };
    Ok(index.insert(slot, key.as_bytes(), *number)?)
}

// whether each is as new as is wanted
fn insert_all(index: &mut Index, conf: &Conf, new: bool) -> Result<bool, Fail>
    requires { index.old.conf ≡ conf.now }
    ensures { index.new.conf ≡ index.old.conf }
{
    for row in &ROWS {
        if insert(index, conf, row)? != new {
            return Ok(false);
        }
    }
    Ok(true)
}

// whether each is new, and not when it is added again
fn insert_twice(index: &mut Index, conf: &Conf) -> Result<bool, Fail>
    requires { index.old.conf ≡ conf.now }
{
    Ok(insert_all(index, conf, true)? && insert_all(index, conf, false)?)
}

fn are_new_once_under(alloc: Global, conf: &Conf) -> Result<bool, Fail> {
    let mut index = Index::new(alloc, conf)?;
    insert_twice(&mut index, conf)
}

fn are_new_once(alloc: Global) -> Result<bool, Fail> {
    let conf = conf(alloc)?;
    are_new_once_under(alloc, &conf)
}

#[test]
fn a_number_is_new_under_a_key_once(rt: HostRuntime) -> Result<(), Fail> {
    assert!(rt; are_new_once(rt.alloc())?);
    Ok(())
}

// whether the numbers under a key are words
fn are_words(index: &Index, conf: &Conf) -> Option<bool> {
    let type_id = conf.type_of(b"cn")?;
    let slot = index.slot(type_id, IndexKind::Presence)?;
    let numbers = index.lookup(slot, b"")?;
    Some(numbers.is_words())
}

// adds a number under that key, and answers whether the numbers are words from the last one on
fn insert_one_of_many(index: &mut Index, conf: &Conf, number: u32) -> Result<bool, Fail>
    requires { index.old.conf ≡ conf.now }
    ensures { index.new.conf ≡ index.old.conf }
{
    let row = ("cn", IndexKind::Presence, "", number);
    Ok(insert(index, conf, &row)? && are_words(index, conf) == Some(number == 64))
}

fn insert_many(index: &mut Index, conf: &Conf) -> Result<bool, Fail>
    requires { index.old.conf ≡ conf.now }
{
    for number in 0..65u32 {
        if !insert_one_of_many(index, conf, number)? {
            return Ok(false);
        }
    }
    Ok(true)
}

fn many_turn_to_words_under(alloc: Global, conf: &Conf) -> Result<bool, Fail> {
    let mut index = Index::new(alloc, conf)?;
    insert_many(&mut index, conf)
}

fn many_turn_to_words(alloc: Global) -> Result<bool, Fail> {
    let conf = conf(alloc)?;
    many_turn_to_words_under(alloc, &conf)
}

#[test]
fn many_numbers_under_a_key_turn_to_words(rt: HostRuntime) -> Result<(), Fail> {
    assert!(rt; many_turn_to_words(rt.alloc())?);
    Ok(())
}
