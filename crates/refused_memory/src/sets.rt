//! A key's set that grows from nothing to words.

use anyhow::{Error, Result};
use dense_sets::KeySet;
use id_sets::IdSet;
use std::alloc::Global;
use std::io::Print;

/// Puts in the number of members, once more where memory is refused: the set is as it was then.
fn put(set: &mut KeySet, count: u32) -> Result<()> {
    let is_words = set.is_words();
    if let Ok(_) = set.insert(count) {
        return Ok(());
    }
    if set.len() != u64::from(count) || set.contains(count) || set.is_words() != is_words {
        return Err(Error::msg("an insert that is refused memory changes the set"));
    }
    match set.insert(count) {
        Ok(_) => Ok(()),
        Err(_) => Err(Error::msg("an insert is refused memory twice")),
    }
}

fn is_up_to(set: &KeySet, count: u32) -> bool {
    for n in 0..count {
        if !set.contains(n) {
            return false;
        }
    }
    set.len() == u64::from(count)
}

/// Prints with how many members a set changes its form.
pub(crate) fn print(rt: &impl Print, alloc: Global) -> Result<()> {
    let mut set = KeySet::new(alloc);
    for count in 0..70 {
        if !is_up_to(&set, count) {
            return Err(Error::msg("the set has lost a member"));
        }
        let was_words = set.is_words();
        put(&mut set, count)?;
        if set.is_words() && !was_words {
            println!(rt; "words from {} members on", set.len())?;
        }
    }
    Ok(())
}
