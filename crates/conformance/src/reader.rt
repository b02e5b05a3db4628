//! Reads the cases of a case file.

use crate::case::Case;
use crate::fault::{CaseFault, LineFault};
use crate::indexes::NamedIndexes;
use crate::mark::Mark;
use crate::pattern::{put_file_lines, text_of};
use memory_folder::{Change, MemoryFiles};
use std::alloc::{AllocError, Global};

/// What was read of a case file.
#[derive(Drop)]
struct Reader {
    alloc: Global,
    /// The files that each case begins with.
    files: MemoryFiles,
    /// The index texts that are looked at in all of them.
    indexes: NamedIndexes,
    cases: Vec<Case>,
    /// The file whose lines are being read.
    name: Option<String>,
}

impl Reader {
    fn new(alloc: Global) -> Reader {
        Reader {
            alloc,
            files: MemoryFiles::new(alloc),
            indexes: NamedIndexes::none(alloc),
            cases: Vec::new(alloc),
            name: None,
        }
    }

    /// Changes a file of the last case, or of all of them.
    fn change(&mut self, name: &str, change: Change<'_>) -> Result<(), AllocError> {
        match self.cases.last_mut() {
            Some(case) => case.change(name, change),
            None => {
                self.indexes.add(name)?;
                self.files.change(name, change)
            }
        }
    }

    /// The files at this place.
    fn files(&self) -> &MemoryFiles {
        match self.cases.last() {
            Some(case) => case.last_files(),
            None => &self.files,
        }
    }

    fn begin_case(&mut self, title: &str, line: usize) -> Result<(), CaseFault> {
        let (files, indexes) = (self.files.copy()?, self.indexes.copy()?);
        let case = Case::new(self.alloc, title, line, files, indexes)?;
        self.cases.push(case)?;
        Ok(())
    }

    fn begin_file(&mut self, text: &str) -> Result<(), CaseFault> {
        let name = text_of(self.alloc, text)?;
        self.change(name.as_str(), Change::Put(b""))?;
        self.name = Some(name);
        Ok(())
    }

    fn add_to_file(&mut self, text: &str) -> Result<(), CaseFault> {
        let Some(name) = self.name.take() else {
            return Err(CaseFault::Place);
        };
        let mut lines = Vec::new(self.alloc);
        put_file_lines(self.alloc, text, self.files(), &mut lines)?;
        self.change(name.as_str(), Change::Append(lines.as_slice()))?;
        self.name = Some(name);
        Ok(())
    }

    fn remove_file(&mut self, text: &str) -> Result<(), CaseFault> {
        let name = text_of(self.alloc, text)?;
        self.change(name.as_str(), Change::Remove)?;
        Ok(())
    }

    fn begin_step(&mut self, command: &str) -> Result<(), CaseFault> {
        match self.cases.last_mut() {
            Some(case) => case.begin_step(command),
            None => Err(CaseFault::Place),
        }
    }

    fn add_to_step(&mut self, mark: Mark, text: &str) -> Result<(), CaseFault> {
        match self.cases.last_mut() {
            Some(case) => case.add_to_step(mark, text),
            None => Err(CaseFault::Place),
        }
    }

    fn mark(&mut self, mark: Mark, text: &str, number: usize) -> Result<(), CaseFault> {
        if mark != Mark::Line {
            self.name = None;
        }
        match mark {
            Mark::Comment => Ok(()),
            Mark::Case => self.begin_case(text, number),
            Mark::File => self.begin_file(text),
            Mark::Line => self.add_to_file(text),
            Mark::NoFile => self.remove_file(text),
            Mark::Command => self.begin_step(text),
            _ => self.add_to_step(mark, text),
        }
    }

    fn line(&mut self, line: &str, number: usize) -> Result<(), CaseFault> {
        if line.is_empty() {
            self.name = None;
            return Ok(());
        }
        if line.ends_with(' ') || line.ends_with('\r') {
            return Err(CaseFault::End);
        }
        let (spelled, text) = line.split_once(' ').unwrap_or((line, ""));
        match Mark::of(spelled) {
            Some(mark) => self.mark(mark, text, number),
            None => Err(CaseFault::Mark),
        }
    }

    /// Each case has a command.
    fn finish(self) -> Result<Vec<Case>, LineFault> {
        for case in self.cases.iter() {
            if case.steps.is_empty() {
                return Err(LineFault {
                    line: case.line,
                    fault: CaseFault::NoCommand,
                });
            }
        }
        Ok(self.cases)
    }
}

/// The cases of a text.
pub fn read(alloc: Global, text: &str) -> Result<Vec<Case>, LineFault> {
    let mut reader = Reader::new(alloc);
    let mut number = 0usize;
    for line in text.split('\n') {
        number = number.saturating_add(1);
        if let Err(fault) = reader.line(line, number) {
            return Err(LineFault {
                line: number,
                fault,
            });
        }
    }
    reader.finish()
}
