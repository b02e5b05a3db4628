//! A case: files, and commands that run over them in turn.

use crate::fault::CaseFault;
use crate::indexes::NamedIndexes;
use crate::mark::Mark;
use crate::pattern::{bytes_of, put_lines};
use crate::trouble::Troubles;
use memory_folder::{Change, MemoryFiles};
use std::alloc::{AllocError, Global};

/// What a stream of a command is to hold.
#[derive(Drop)]
pub enum Wanted {
    /// These bytes.
    Bytes(Vec<u8>),
    /// Any that aren't empty.
    Any,
}

impl Wanted {
    /// `%{*}` as the only line wants any bytes.
    fn set_any(&mut self) -> Result<(), CaseFault> {
        if self.is_met_by(b"") {
            *self = Wanted::Any;
            Ok(())
        } else {
            Err(CaseFault::Place)
        }
    }

    fn add_lines(&mut self, alloc: Global, text: &str) -> Result<(), CaseFault> {
        if text == "%{*}" {
            return self.set_any();
        }
        match self {
            Wanted::Bytes(bytes) => put_lines(alloc, text, bytes),
            Wanted::Any => Err(CaseFault::Place),
        }
    }

    pub fn is_met_by(&self, found: &[u8]) -> bool {
        match self {
            Wanted::Bytes(bytes) => bytes.as_slice() == found,
            Wanted::Any => !found.is_empty(),
        }
    }
}

/// A command of a case, and what it is to answer.
#[derive(Drop)]
pub struct Step {
    alloc: Global,
    /// The command as the case spells it.
    pub command: String,
    /// Its words, or `None` where one isn't UTF-8.
    pub words: Option<Vec<String>>,
    pub troubles: Troubles,
    pub input: Vec<u8>,
    /// The exit status, where the case says it.
    status: Option<u8>,
    pub output: Wanted,
    pub messages: Wanted,
    /// What it tells behind its messages.
    pub told: Wanted,
    /// All files that are there afterwards.
    pub files: MemoryFiles,
}

fn words_of(alloc: Global, command: &str) -> Result<Option<Vec<String>>, CaseFault> {
    let mut words = Vec::new(alloc);
    words.push(String::from_str(alloc, "slaptools")?)?;
    if command.is_empty() {
        return Ok(Some(words));
    }
    for word in command.split(' ') {
        match String::from_utf8(bytes_of(alloc, word)?) {
            Ok(word) => words.push(word)?,
            Err(_) => return Ok(None),
        }
    }
    Ok(Some(words))
}

impl Step {
    /// A command of which nothing is said as yet: so nothing fails, it prints nothing and leaves the files as they were.
    fn new(alloc: Global, command: &str, files: MemoryFiles) -> Result<Step, CaseFault> {
        Ok(Step {
            alloc,
            command: String::from_str(alloc, command)?,
            words: words_of(alloc, command)?,
            troubles: Troubles::none(alloc),
            input: Vec::new(alloc),
            status: None,
            output: Wanted::Bytes(Vec::new(alloc)),
            messages: Wanted::Bytes(Vec::new(alloc)),
            told: Wanted::Bytes(Vec::new(alloc)),
            files,
        })
    }

    /// The exit status that it is to have.
    pub fn status(&self) -> u8 {
        self.status.unwrap_or(0)
    }

    fn set_status(&mut self, text: &str) -> Result<(), CaseFault> {
        if self.status.is_some() {
            return Err(CaseFault::Place);
        }
        match text.parse::<u8>() {
            Ok(status) => {
                self.status = Some(status);
                Ok(())
            }
            Err(_) => Err(CaseFault::Code),
        }
    }

    fn add(&mut self, mark: Mark, text: &str) -> Result<(), CaseFault> {
        match mark {
            Mark::Input => put_lines(self.alloc, text, &mut self.input),
            Mark::Output => self.output.add_lines(self.alloc, text),
            Mark::Message => self.messages.add_lines(self.alloc, text),
            Mark::Told => self.told.add_lines(self.alloc, text),
            Mark::Status => self.set_status(text),
            Mark::Trouble => self.troubles.add(text),
            _ => Err(CaseFault::Place),
        }
    }
}

/// A case of a case file.
#[derive(Drop)]
pub struct Case {
    alloc: Global,
    pub title: String,
    /// The line with its title.
    pub line: usize,
    /// The files that it begins with.
    pub files: MemoryFiles,
    pub indexes: NamedIndexes,
    pub steps: Vec<Step>,
}

impl Case {
    /// A case without a command as yet.
    pub fn new(
        alloc: Global,
        title: &str,
        line: usize,
        files: MemoryFiles,
        indexes: NamedIndexes,
    ) -> Result<Case, AllocError> {
        Ok(Case {
            alloc,
            title: String::from_str(alloc, title)?,
            line,
            files,
            indexes,
            steps: Vec::new(alloc),
        })
    }

    /// Changes a file that its last command is to leave, or that it begins with.
    pub fn change(&mut self, name: &str, change: Change<'_>) -> Result<(), AllocError> {
        self.indexes.add(name)?;
        match self.steps.last_mut() {
            Some(step) => step.files.change(name, change),
            None => self.files.change(name, change),
        }
    }

    /// The files as its last command is to leave them, or those that it begins with.
    pub fn last_files(&self) -> &MemoryFiles {
        match self.steps.last() {
            Some(step) => &step.files,
            None => &self.files,
        }
    }

    /// Adds a command.
    pub fn begin_step(&mut self, command: &str) -> Result<(), CaseFault> {
        let step = Step::new(self.alloc, command, self.last_files().copy()?)?;
        self.steps.push(step)?;
        Ok(())
    }

    /// Adds a line to what its last command takes or answers.
    pub fn add_to_step(&mut self, mark: Mark, text: &str) -> Result<(), CaseFault> {
        match self.steps.last_mut() {
            Some(step) => step.add(mark, text),
            None => Err(CaseFault::Place),
        }
    }
}
