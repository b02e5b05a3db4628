//! What fails while a command runs.

use crate::fault::CaseFault;
use crate::pattern::text_of;
use memory_folder::FileTrouble;
use std::alloc::Global;

/// One file that fails, and after how many bytes each stream does, if they do.
#[derive(Drop)]
pub struct Troubles {
    alloc: Global,
    file: Option<(String, FileTrouble)>,
    pub input: Option<usize>,
    pub output: Option<usize>,
    pub messages: Option<usize>,
}

fn count_of(text: &str) -> Result<usize, CaseFault> {
    match text.parse::<usize>() {
        Ok(count) => Ok(count),
        Err(_) => Err(CaseFault::Code),
    }
}

impl Troubles {
    pub fn none(alloc: Global) -> Troubles {
        Troubles {
            alloc,
            file: None,
            input: None,
            output: None,
            messages: None,
        }
    }

    /// The name of the file that fails, and how it does, if one does.
    pub fn file(&self) -> Option<(&str, FileTrouble)> {
        match &self.file {
            Some((name, trouble)) => Some((name.as_str(), *trouble)),
            None => None,
        }
    }

    fn set_file(&mut self, name: &str, trouble: FileTrouble) -> Result<(), CaseFault> {
        if self.file.is_some() {
            return Err(CaseFault::Place);
        }
        self.file = Some((text_of(self.alloc, name)?, trouble));
        Ok(())
    }

    /// Adds what these words say.
    pub fn add(&mut self, text: &str) -> Result<(), CaseFault> {
        let words: Vec<&str> = text.split(' ').collect(self.alloc)?;
        match words.as_slice() {
            ["input", count] => self.input = Some(count_of(count)?),
            ["output", count] => self.output = Some(count_of(count)?),
            ["messages", count] => self.messages = Some(count_of(count)?),
            ["open", name] => self.set_file(name, FileTrouble::Open)?,
            ["open", name, "memory"] => self.set_file(name, FileTrouble::OpenMemory)?,
            ["in", "use", name] => self.set_file(name, FileTrouble::InUse)?,
            ["lock", name] => self.set_file(name, FileTrouble::Lock)?,
            ["lock", name, "memory"] => self.set_file(name, FileTrouble::LockMemory)?,
            ["read", name, count] => self.set_file(name, FileTrouble::Read(count_of(count)?))?,
            ["store", name, "memory"] => self.set_file(name, FileTrouble::StoreMemory)?,
            ["store", name, count] => self.set_file(name, FileTrouble::Store(count_of(count)?))?,
            ["publish", name] => self.set_file(name, FileTrouble::Publish)?,
            _ => return Err(CaseFault::Code),
        }
        Ok(())
    }
}
