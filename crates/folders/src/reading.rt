//! How much was read.

use std::cell::Cell;
use std::fs::File;
use std::io::{self, Read};

/// How much was read of the file or stream that was read last, and how much there is of it. It is for people: no contract speaks of it.
#[derive(Drop)]
pub struct Reading {
    is_wanted: bool,
    bytes: Cell<u64>,
    size: Cell<Option<u64>>,
}

impl Reading {
    /// Nothing was read. The sizes of files are looked up only where they are wanted.
    pub fn new(is_wanted: bool) -> Reading {
        Reading {
            is_wanted,
            bytes: Cell::new(0),
            size: Cell::new(None),
        }
    }

    pub fn is_wanted(&self) -> bool {
        self.is_wanted
    }

    pub fn bytes(&self) -> u64 {
        self.bytes.get()
    }

    /// How many bytes there are, where that is known.
    pub fn size(&self) -> Option<u64> {
        self.size.get()
    }

    /// The size of a plain file, if it is wanted.
    pub(crate) fn size_of(&self, file: &File) -> Option<u64> {
        if !self.is_wanted {
            return None;
        }
        match file.metadata() {
            Ok(found) if found.is_file() => Some(found.len()),
            _ => None,
        }
    }
}

/// A reader of which it is seen how much was read.
#[derive(Drop)]
pub struct Counted<'f, F> {
    inner: F,
    reading: &'f Reading,
    bytes: u64,
    size: Option<u64>,
}

impl<'f, F> Counted<'f, F> {
    /// Nothing of it was read. `size` is how many bytes it has, where that is known.
    pub fn new(inner: F, reading: &'f Reading, size: Option<u64>) -> Counted<'f, F> {
        Counted {
            inner,
            reading,
            bytes: 0,
            size,
        }
    }
}

impl<F: Read> Read for Counted<'_, F> {
    fn read(&mut self, buffer: &mut [u8]) -> io::Result<usize> {
        let count = self.inner.read(buffer)?;
        self.bytes = self.bytes.saturating_add(count as u64);
        self.reading.bytes.set(self.bytes);
        self.reading.size.set(self.size);
        Ok(count)
    }
}
