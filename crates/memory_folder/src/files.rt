//! Files in memory, by their names.
ghost use Rattle.std.specs.Prelude.{◌≡◌, IfOk, OnOk, OnErr};
ghost use Rattle.std.specs.FinMap as finite;
ghost use Rattle.std.specs.Option.{option_map};
ghost use Rattle.memory_folder.specs.Memory.{files_in, files_of, appended, changed};

use std::alloc::{AllocError, Global};
use std::collections::BTreeMap;

/// What becomes of a file.
#[derive(Clone, Copy)]
pub enum Change<'b> {
    /// It is there, and has these bytes.
    Put(&'b [u8]),
    /// It has these bytes behind its own, if it is there.
    Append(&'b [u8]),
    /// It isn't there.
    Remove,
}

/// Files in memory, by their names.
#[derive(Drop)]
pub struct MemoryFiles {
    alloc: Global,
    files: BTreeMap<String, Vec<u8>>,
}

impl MemoryFiles {
    /// No file.
    pub fn new(alloc: Global) -> MemoryFiles
        ensures { files_of result ≡ finite.empty }
    {
        MemoryFiles {
            alloc,
            files: BTreeMap::new(alloc),
        }
    }

    /// The same files once more, or `AllocError` where memory runs out.
    pub fn copy(&self) -> Result<MemoryFiles, AllocError>
        ensures { IfOk result (λ copy. files_of copy ≡ files_of self.now) }
    {
        Ok(MemoryFiles {
            alloc: self.alloc,
            files: self.files.clone()?,
        })
    }

    /// The bytes of the file of this name, or `None` where there is no such file.
    pub fn get(&self, name: &str) -> Option<&[u8]>
        ensures { option_map (λ bytes. bytes.now) result ≡ finite.get (files_of self.now) name.now }
    {
        match self.files.get(name) {
            Some(bytes) => Some(bytes.as_slice()),
            None => None,
        }
    }

    /// All of them, in the order of their names.
    pub fn all(&self) -> &BTreeMap<String, Vec<u8>>
        ensures { files_in result.now ≡ files_of self.now }
    {
        &self.files
    }

    /// Puts a file there, in place of the one of its name, if there is one. Where memory runs out, all files stay as they were.
    pub(crate) fn put(&mut self, name: &str, bytes: &[u8]) -> Result<(), AllocError>
        ensures ok { OnOk result (files_of self.new ≡ finite.insert (files_of self.old) name.now bytes.now) }
        ensures err { OnErr result (files_of self.new ≡ files_of self.old) }
    {
        let name = String::from_str(self.alloc, name)?;
        let bytes = Vec::from_slice(self.alloc, bytes)?;
        match self.files.insert(name, bytes) {
            Ok(_) => Ok(()),
            Err(_) => Err(AllocError),
        }
    }

    fn append(&mut self, name: &str, bytes: &[u8]) -> Result<(), AllocError>
        ensures ok { OnOk result (files_of self.new ≡ appended name.now bytes.now (files_of self.old)) }
        ensures err { OnErr result (files_of self.new ≡ files_of self.old) }
    {
        match self.files.get_mut(name) {
            Some(file) => file.extend_from_slice(bytes),
            None => Ok(()),
        }
    }

    fn remove(&mut self, name: &str)
        ensures { files_of self.new ≡ finite.remove (files_of self.old) name.now }
    {
        let _ = self.files.remove(name);
    }

    /// Changes the file of this name, and no other. Where memory runs out, all files stay as they were.
    pub fn change(&mut self, name: &str, change: Change<'_>) -> Result<(), AllocError>
        ensures ok { OnOk result (files_of self.new ≡ changed change.entry name.now (files_of self.old)) }
        ensures err { OnErr result (files_of self.new ≡ files_of self.old) }
    {
        match change {
            Change::Put(bytes) => self.put(name, bytes),
            Change::Append(bytes) => self.append(name, bytes),
            Change::Remove => {
                self.remove(name);
                Ok(())
            }
        }
    }
}
