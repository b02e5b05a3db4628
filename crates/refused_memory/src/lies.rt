//! Index texts that lie: each can be read and has the right stamp, so it is used, but a row of it names another entry than the one that has its key.

use crate::searches::{By, IndexText, print_search};
use anyhow::{Error, Result};
use directory::Directory;
use std::alloc::{AllocError, Global};
use std::io::Print;

/// A row of an index text, what stands in its place, and a filter that asks for its key.
struct Lie {
    row: &'static str,
    other: &'static str,
    filter: &'static str,
}

/// By each of them the key of `Bob` is that of `abc bcd`. No entry is printed of which the filter isn't True, and none is tested that the text leaves
/// out: so `Bob` isn't found by his name, and of a not `abc bcd` is left out.
const LIES: [Lie; 2] = [
    Lie {
        row: "\n626f62 4\n",
        other: "\n626f62 3\n",
        filter: "(cn=bob)",
    },
    Lie {
        row: "\n37 4\n",
        other: "\n37 3\n",
        filter: "(!(uidNumber=7))",
    },
];

/// A text with the other row in place of the first such one; `None` where there is none.
fn with_lie_once(alloc: Global, text: &str, lie: &Lie) -> Result<Option<Vec<u8>>, AllocError> {
    let Some((front, rest)) = text.split_once(lie.row) else {
        return Ok(None);
    };
    let mut out = Vec::new(alloc);
    out.extend_from_slice(front.as_bytes())?;
    out.extend_from_slice(lie.other.as_bytes())?;
    out.extend_from_slice(rest.as_bytes())?;
    Ok(Some(out))
}

fn with_lie(alloc: Global, text: &[u8], lie: &Lie) -> Result<Vec<u8>> {
    let Ok(text) = str::from_utf8(text) else {
        return Err(Error::msg("no text"));
    };
    let lying = match with_lie_once(alloc, text, lie) {
        Ok(lying) => lying,
        Err(AllocError) => with_lie_once(alloc, text, lie)?,
    };
    lying.ok_or(Error::msg("no such row"))
}

fn print_lie(
    rt: &impl Print,
    alloc: Global,
    dir: &Directory,
    index: IndexText<'_>,
    lie: &Lie,
) -> Result<()> {
    let text = with_lie(alloc, index.text, lie)?;
    let lying = IndexText {
        text: text.as_slice(),
        stamp: index.stamp,
    };
    print!(rt; "by a lie, ")?;
    print_search(rt, alloc, dir, lie.filter, By::Text(lying))
}

/// Prints what a search by each of these texts finds, and how many entries it tests.
pub(crate) fn print(
    rt: &impl Print,
    alloc: Global,
    dir: &Directory,
    index: IndexText<'_>,
) -> Result<()> {
    for lie in &LIES {
        print_lie(rt, alloc, dir, index, lie)?;
    }
    Ok(())
}
