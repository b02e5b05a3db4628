//! The bytes of a file in memory, of which reading can break off.
ghost use Rattle.std.specs.Prelude.{◌≡◌, ◌≤◌, ◌-◌, ◌↔◌, None, Some, IfSome, IfOk, IsErr, OnErr};
ghost use Rattle.std.specs.Io.{ReadsAtMost};
ghost use Rattle.std.specs.Io.KnownBytes.{ReadConsumes};
ghost use Rattle.memory_folder.specs.Memory.{left_of, readable};

use std::alloc::Global;
use std::io::{self, Cursor, ErrorKind, Read};

/// The bytes of a file that are left to read.
#[derive(Drop)]
pub struct Contents {
    cursor: Cursor<Vec<u8>>,
    /// How many bytes can still be read before reading fails, where it does.
    readable: Option<usize>,
}

impl Contents {
    /// These bytes. Where `limit` is given, reading fails behind so many of them.
    pub fn new(bytes: Vec<u8>, limit: Option<usize>) -> Contents
        ensures left { left_of result ≡ Some bytes.items }
        ensures limit { readable result ≡ limit }
    {
        Contents {
            cursor: Cursor::new(bytes),
            readable: limit,
        }
    }
}

impl Read for Contents {
    ghost use Rattle.memory_folder.specs.Memory.{left_of};

    ghost remaining = { left_of };

    fn read(&mut self, buffer: &mut [u8]) -> io::Result<usize>
        ensures bound { ReadsAtMost result buffer.new }
        ensures bytes { ReadConsumes (left_of self.old) (left_of self.new) result buffer.new }

        // Beside what the trait says: when it fails.
        ensures fails { IsErr result ↔ (readable self.old ≡ Some 0) }
        ensures within { IfSome (readable self.old) (λ limit. IfOk result (λ n. (n ≤ limit) × (readable self.new ≡ Some (limit - n)))) }
        ensures unlimited { readable self.old ≡ None → readable self.new ≡ None }
        ensures err { OnErr result (readable self.new ≡ readable self.old) }
    {
        let Some(readable) = self.readable else {
            return self.cursor.read(buffer);
        };
        if readable == 0 {
            return Err(io::Error::from(ErrorKind::Other));
        }
        let most = buffer.len().min(readable);
        let given = self.cursor.read(&mut buffer[..most])?;
        self.readable = Some(readable - given);
        Ok(given)
    }
}
