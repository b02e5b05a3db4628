//! Runs the cases of case files, and prints where a command does otherwise than they say.
//!
//! The files are those that the words name, or else all of the folder that end in `.case`.
#![tactic(auto)]

mod case;
mod fault;
mod indexes;
mod mark;
mod pattern;
mod reader;
mod report;
mod run;
mod trouble;

use case::Case;
use reader::read;
use run::run;
use std::process::ExitCode;
use std::{env, fs, io};

/// How many cases did as they say, and how many cases and files did not.
#[derive(Clone, Copy)]
struct Tally {
    passed: u64,
    failed: u64,
}

impl Tally {
    fn pass(&mut self) {
        self.passed = self.passed.saturating_add(1);
    }

    fn fail(&mut self) {
        self.failed = self.failed.saturating_add(1);
    }

    fn is_empty(&self) -> bool {
        self.passed == 0 && self.failed == 0
    }

    fn is_good(&self) -> bool {
        !self.is_empty() && self.failed == 0
    }
}

fn case_files(rt: &HostRuntime) -> io::Result<Vec<String>> {
    let mut names = Vec::new(rt.alloc());
    for entry in fs::read_dir(rt, ".")? {
        let entry = entry?;
        if entry.file_name().ends_with(".case") {
            names.push(String::from_str(rt.alloc(), entry.file_name())?)?;
        }
    }
    names.sort()?;
    Ok(names)
}

fn names_of(rt: &HostRuntime) -> io::Result<Vec<String>> {
    let words: Vec<String> = env::args(rt)?.skip(1).collect(rt.alloc())?;
    if words.is_empty() {
        case_files(rt)
    } else {
        Ok(words)
    }
}

fn run_cases(rt: &HostRuntime, name: &str, cases: &[Case], tally: &mut Tally) -> io::Result<()> {
    for case in cases {
        let report = run(rt.alloc(), case)?;
        if report.is_empty() {
            tally.pass();
        } else {
            tally.fail();
            print!(rt; "{name} {report}")?;
        }
    }
    Ok(())
}

fn run_file(rt: &HostRuntime, name: &str, tally: &mut Tally) -> io::Result<()> {
    let text = match fs::read_to_string(rt, name) {
        Ok(text) => text,
        Err(error) => {
            tally.fail();
            return println!(rt; "{name}: {error}");
        }
    };
    match read(rt.alloc(), text.as_str()) {
        Ok(cases) => run_cases(rt, name, cases.as_slice(), tally),
        Err(fault) => {
            tally.fail();
            println!(rt; "{name} {fault}")
        }
    }
}

fn run_all(rt: &HostRuntime) -> io::Result<Tally> {
    let mut tally = Tally {
        passed: 0,
        failed: 0,
    };
    let names = names_of(rt)?;
    for name in names.iter() {
        run_file(rt, name.as_str(), &mut tally)?;
    }
    if tally.is_empty() {
        println!(rt; "no case")?;
    }
    println!(rt; "{} cases passed, {} failed", tally.passed, tally.failed)?;
    Ok(tally)
}

fn main(rt: HostRuntime) -> io::Result<ExitCode> {
    let tally = run_all(&rt)?;
    Ok(ExitCode::from(if tally.is_good() { 0 } else { 1 }))
}
