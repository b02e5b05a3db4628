//! What is seen of a directory.

ghost use Rattle.std.specs.Prelude.{◌<◌};

use anyhow::{Error, Result};
use directory::Directory;
use std::alloc::Global;
use std::io::Print;
use try_device::TrySink;

/// Its dump, and the text of its index.
#[derive(Drop)]
pub(crate) struct Shown {
    dump: TrySink,
    index: TrySink,
}

impl Shown {
    pub(crate) fn dump(&self) -> &[u8] {
        self.dump.bytes()
    }

    pub(crate) fn index(&self) -> &[u8] {
        self.index.bytes()
    }

    pub(crate) fn is(&self, other: &Shown) -> bool {
        self.dump.bytes() == other.dump.bytes() && self.index.bytes() == other.index.bytes()
    }
}

/// The dump; one that is refused memory has written a beginning of it.
fn dump_of(alloc: Global, dir: &Directory) -> Result<TrySink> {
    let mut begun = TrySink::new(alloc, 8192, None);
    if dir.dump(alloc, &mut begun).is_ok() {
        return Ok(begun);
    }
    let mut whole = TrySink::new(alloc, 8192, None);
    if dir.dump(alloc, &mut whole).is_err() {
        return Err(Error::msg("a dump is refused memory twice"));
    }
    if !whole.bytes().starts_with(begun.bytes()) {
        return Err(Error::msg("a refused dump has written something else"));
    }
    Ok(whole)
}

/// The index text; one that is refused memory has written a beginning of it.
fn index_of(alloc: Global, dir: &Directory) -> Result<TrySink> {
    let mut begun = TrySink::new(alloc, 8192, None);
    if dir.index_text(alloc, &mut begun).is_ok() {
        return Ok(begun);
    }
    let mut whole = TrySink::new(alloc, 8192, None);
    if dir.index_text(alloc, &mut whole).is_err() {
        return Err(Error::msg("an index text is refused memory twice"));
    }
    if !whole.bytes().starts_with(begun.bytes()) {
        return Err(Error::msg("a refused index text has written something else"));
    }
    Ok(whole)
}

/// What is seen of a directory now.
pub(crate) fn shown_by(alloc: Global, dir: &Directory) -> Result<Shown> {
    Ok(Shown {
        dump: dump_of(alloc, dir)?,
        index: index_of(alloc, dir)?,
    })
}

/// Prints bytes that are a text.
pub(crate) fn print_text(rt: &impl Print, text: &[u8]) -> Result<()> {
    match str::from_utf8(text) {
        Ok(text) => Ok(print!(rt; "{text}")?),
        Err(_) => Err(Error::msg("no text")),
    }
}

/// Prints the dump and the index text.
pub(crate) fn print_directory(rt: &impl Print, alloc: Global, dir: &Directory) -> Result<()> {
    let shown = shown_by(alloc, dir)?;
    print_text(rt, shown.dump.bytes())?;
    print_text(rt, shown.index.bytes())
}
