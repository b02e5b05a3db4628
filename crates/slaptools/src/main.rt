//! Tools for an LDAP directory that is kept as LDIF, without a server.
#![tactic(auto)]

mod origin;
mod progress;
mod standard_error;

use commands::{CommandFault, command_telling, report_fault};
use device::{OfRead, OfWrite};
use folders::{Counted, LastFailure, Placeholders, Reading, SystemFiles, Uninterrupted};
use origin::VERSION;
use progress::ProgressLine;
use standard_error::{Behind, Reports, StandardError, Tellings};
use std::io::{self, ErrorKind, IsTerminal};
use std::process::ExitCode;
use std::{env, fs};

fn fault_of(error: io::Error) -> CommandFault {
    match error.kind() {
        ErrorKind::OutOfMemory => CommandFault::OutOfMemory,
        _ => CommandFault::Words,
    }
}

fn words_of(rt: &HostRuntime) -> Result<Vec<String>, CommandFault> {
    match env::args(rt) {
        Ok(words) => Ok(words.collect(rt.alloc())?),
        Err(error) => Err(fault_of(error)),
    }
}

/// Nothing else may be opened before.
fn placeholders_of(rt: &HostRuntime) -> Result<Placeholders, CommandFault> {
    match Placeholders::open(rt) {
        Ok(placeholders) => Ok(placeholders),
        Err(_) => Err(CommandFault::cannot_read(rt.alloc(), "/")),
    }
}

/// What the program has at its start.
#[derive(Drop)]
struct Start {
    placeholders: Placeholders,
    words: Vec<String>,
}

fn start_of(rt: &HostRuntime) -> Result<Start, CommandFault> {
    Ok(Start {
        placeholders: placeholders_of(rt)?,
        words: words_of(rt)?,
    })
}

/// How many bytes standard input has, if that is wanted and it is a plain file.
fn input_size(rt: &HostRuntime, reading: &Reading) -> Option<u64> {
    if !reading.is_wanted() {
        return None;
    }
    match fs::metadata(rt, "/dev/stdin") {
        Ok(found) if found.is_file() => Some(found.len()),
        _ => None,
    }
}

/// Carries out the command that the words spell, and answers its exit status.
fn run(rt: &HostRuntime, failure: &LastFailure, words: &[String]) -> u8 {
    let reading = Reading::new(rt.stderr().is_terminal());
    let error = StandardError::new(rt, failure, ProgressLine::new(rt, &reading));
    let mut folder = SystemFiles::new(rt, failure, &reading);
    let size = input_size(rt, &reading);
    let input = Counted::new(Uninterrupted::new(rt.stdin(), failure), &reading, size);
    let out = Uninterrupted::new(rt.stdout(), failure);
    let status = command_telling(
        rt.alloc(),
        words,
        VERSION,
        &mut folder,
        &mut OfRead::new(Behind::new(input, &error)),
        &mut OfWrite::new(Behind::new(out, &error)),
        &mut OfWrite::new(Reports { to: &error }),
        &mut OfWrite::new(Tellings { to: &error }),
        &error,
    );
    error.settle();
    status
}

fn main(rt: HostRuntime) -> ExitCode {
    let failure = LastFailure::new();
    match start_of(&rt) {
        Ok(start) => ExitCode::from(run(&rt, &failure, start.words.as_slice())),
        Err(fault) => {
            let mut err = OfWrite::new(Uninterrupted::new(rt.stderr(), &failure));
            ExitCode::from(report_fault(rt.alloc(), &mut err, &fault).number())
        }
    }
}
