//! Readers and writers of the system, where signals come.

use crate::last_failure::LastFailure;
use std::io::{self, ErrorKind, Read, Write};

/// A reader or a writer that is asked again where a signal interrupts it, and that keeps why it fails.
#[derive(Drop)]
pub struct Uninterrupted<'f, F> {
    inner: F,
    failure: &'f LastFailure,
}

impl<'f, F> Uninterrupted<'f, F> {
    pub fn new(inner: F, failure: &'f LastFailure) -> Uninterrupted<'f, F> {
        Uninterrupted { inner, failure }
    }
}

impl<F: Read> Read for Uninterrupted<'_, F> {
    fn read(&mut self, buffer: &mut [u8]) -> io::Result<usize> {
        for _ in 0..u64::MAX {
            match self.inner.read(buffer) {
                Err(error) if error.kind() == ErrorKind::Interrupted => {}
                answer => return self.failure.noted(answer),
            }
        }
        Err(io::Error::from(ErrorKind::Interrupted))
    }
}

impl<F: Write> Write for Uninterrupted<'_, F> {
    fn write(&mut self, bytes: &[u8]) -> io::Result<usize> {
        for _ in 0..u64::MAX {
            match self.inner.write(bytes) {
                Err(error) if error.kind() == ErrorKind::Interrupted => {}
                answer => return self.failure.noted(answer),
            }
        }
        Err(io::Error::from(ErrorKind::Interrupted))
    }

    fn flush(&mut self) -> io::Result<()> {
        self.inner.flush()
    }
}
