//! Runs a case.

use crate::case::{Case, Step};
use crate::report::{put_files, put_stream};
use commands::{CommandFault, report_fault};
use memory_folder::{MemoryFolder, run_command};
use std::alloc::{AllocError, Global};
use try_device::{TrySink, TrySource};

/// How many bytes a stream gives or takes at a time: few, so that most texts come and go in several pieces.
const PIECE: usize = 7;

/// What a command answered.
#[derive(Drop)]
struct Answer {
    status: u8,
    output: TrySink,
    messages: TrySink,
    told: TrySink,
}

fn answer_of(alloc: Global, step: &Step, folder: &mut MemoryFolder<'_>) -> Answer {
    let troubles = &step.troubles;
    let mut input = TrySource::new(step.input.as_slice(), PIECE, troubles.input);
    let mut output = TrySink::new(alloc, PIECE, troubles.output);
    let mut messages = TrySink::new(alloc, PIECE, troubles.messages);
    let mut told = TrySink::new(alloc, PIECE, None);
    let status = match &step.words {
        Some(words) => run_command(
            alloc,
            words.as_slice(),
            folder,
            &mut input,
            &mut output,
            &mut messages,
            &mut told,
        ),
        None => report_fault(alloc, &mut messages, &CommandFault::Words).number(),
    };
    Answer {
        status,
        output,
        messages,
        told,
    }
}

/// Says what is otherwise in an answer than a command is to give.
fn put_answer(
    alloc: Global,
    answer: &Answer,
    step: &Step,
    into: &mut String,
) -> Result<(), AllocError> {
    if answer.status != step.status() {
        let line = format!(in alloc; "  status is {} and not {}\n", answer.status, step.status())?;
        into.push_str(line.as_str())?;
    }
    let output = answer.output.bytes();
    put_stream(alloc, "standard output", '>', output, &step.output, into)?;
    let messages = answer.messages.bytes();
    put_stream(alloc, "standard error", '!', messages, &step.messages, into)?;
    let told = answer.told.bytes();
    put_stream(alloc, "what -v tells", ':', told, &step.told, into)
}

/// Runs a command over a folder, and answers what is otherwise than the case says, or nothing.
fn run_step(
    alloc: Global,
    case: &Case,
    step: &Step,
    folder: &mut MemoryFolder<'_>,
) -> Result<String, AllocError> {
    let answer = answer_of(alloc, step, folder);
    // Each command is a process of its own, which has ended.
    folder.unlock();
    let mut report = String::new(alloc);
    put_answer(alloc, &answer, step, &mut report)?;
    put_files(
        alloc,
        folder.files(),
        &step.files,
        &case.indexes,
        &mut report,
    )?;
    Ok(report)
}

/// Runs a case up to the first command that does otherwise than it says, and answers what that did, or nothing.
pub fn run(alloc: Global, case: &Case) -> Result<String, AllocError> {
    let mut folder = MemoryFolder::new(alloc, case.files.copy()?);
    for step in case.steps.iter() {
        folder.set_trouble(step.troubles.file());
        let report = run_step(alloc, case, step, &mut folder)?;
        if !report.is_empty() {
            return format!(in alloc;
                "line {}: {}\n $ {}\n{report}",
                case.line, case.title, step.command
            );
        }
    }
    Ok(String::new(alloc))
}
