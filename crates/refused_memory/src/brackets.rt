//! Both sides of the candidates of filters: of which entries a filter may be True, and of which it may be False.

use crate::searches::{IndexText, prepared_once, stored_for};
use anyhow::{Error, Result};
use candidates::{Bracket, Numbers, candidates};
use directory::Directory;
use id_sets::{IdSet, ListSet};
use std::alloc::Global;
use std::io::Print;

/// Of each kind: no entry, some, all but some, and all.
const FILTERS: [&str; 9] = [
    "(cn=BOB)",
    "(!(cn=BOB))",
    "(uidNumber=abc)",
    "(cn=*abcd*)",
    "(cn=*ob*)",
    "(&(cn=*)(!(uidNumber=7)))",
    "(|(cn=aba)(uidNumber=7))",
    "(&(!(cn=aba))(!(cn=BOB)))",
    "(|(name=bob)(uidNumber=abc))",
];

/// The entries of the directory by their places in its dump.
const ENTRIES: u32 = 5;

fn print_members<S: IdSet>(rt: &impl Print, set: &S) -> Result<()> {
    for number in 0..ENTRIES {
        if set.contains(number) {
            print!(rt; " {number}")?;
        }
    }
    Ok(())
}

/// `only 1 2`, or `all but 1 2`.
fn print_side<S: IdSet>(rt: &impl Print, numbers: &Numbers<S>) -> Result<()> {
    match numbers {
        Numbers::Only(set) => {
            print!(rt; " only")?;
            print_members(rt, set)
        }
        Numbers::AllBut(set) => {
            print!(rt; " all but")?;
            print_members(rt, set)
        }
    }
}

fn print_bracket<S: IdSet>(rt: &impl Print, bracket: &Bracket<S>) -> Result<()> {
    print!(rt; " may be True of")?;
    print_side(rt, &bracket.may)?;
    print!(rt; ", False of")?;
    print_side(rt, &bracket.may_not)?;
    println!(rt; "")?;
    Ok(())
}

fn bracket_once(
    alloc: Global,
    dir: &Directory,
    text: &str,
    index: IndexText<'_>,
) -> Result<Option<Bracket<ListSet>>> {
    let Some(filter) = prepared_once(alloc, dir, text)? else {
        return Ok(None);
    };
    match stored_for(alloc, dir, &filter, index)? {
        Some(stored) => Ok(candidates(alloc, &filter, &stored).ok()),
        None => Ok(None),
    }
}

fn bracket_of(
    alloc: Global,
    dir: &Directory,
    text: &str,
    index: IndexText<'_>,
) -> Result<Bracket<ListSet>> {
    match bracket_once(alloc, dir, text, index)? {
        Some(bracket) => Ok(bracket),
        None => match bracket_once(alloc, dir, text, index)? {
            Some(bracket) => Ok(bracket),
            None => Err(Error::msg("candidates are refused memory twice")),
        },
    }
}

/// Prints both sides for each filter, by an index text.
pub(crate) fn print(
    rt: &impl Print,
    alloc: Global,
    dir: &Directory,
    index: IndexText<'_>,
) -> Result<()> {
    for text in FILTERS {
        print!(rt; "{text}")?;
        let bracket = bracket_of(alloc, dir, text, index)?;
        print_bracket(rt, &bracket)?;
    }
    Ok(())
}
