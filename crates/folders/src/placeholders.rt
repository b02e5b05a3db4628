//! What stands in the place of standard streams that are closed.

use std::fs::{self, File};
use std::io;
use std::rt::Files;

/// Open files that have the numbers of the standard streams (0, 1 and 2) that are closed.
///
/// The system gives a new file the least number that is free. Without these a file of the directory could get that of a closed stream, and be
/// read as the input, or have reports written into it. A folder is open here: to read it or to write to it fails, as it should.
#[derive(Drop)]
pub struct Placeholders {
    first: File,
    second: File,
    third: File,
}

/// A folder, or else a file that is empty and can't be written to.
fn placeholder<R: Files<File = File>>(rt: &R) -> io::Result<File> {
    match fs::open(rt, "/") {
        Ok(folder) => Ok(folder),
        Err(_) => fs::open(rt, "/dev/null"),
    }
}

impl Placeholders {
    /// Opens them. The error is that of `/dev/null`, where `/` can't be opened either.
    pub fn open<R: Files<File = File>>(rt: &R) -> io::Result<Placeholders> {
        Ok(Placeholders {
            first: placeholder(rt)?,
            second: placeholder(rt)?,
            third: placeholder(rt)?,
        })
    }
}
