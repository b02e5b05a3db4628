//! Makes calls that take memory, and makes each once more where it was refused some. It prints what they answer and what stands then.
//! `tests/refuse_memory` has each request for memory refused in turn: all that is printed stays as it is.
//!
//! With a word, as the gate runs it, it prints more: what every beginning of some texts comes to, of which no request is refused.
#![tactic(auto)]

mod beginnings;
mod brackets;
mod changes;
mod counts;
mod directories;
mod lies;
mod record_text;
mod runs;
mod searches;
mod sets;
mod shown;
mod texts;
mod words;
mod written_filter;

use anyhow::Result;
use std::alloc::Global;
use std::io::Print;
use std::{env, io};

fn print_all(rt: &impl Print, alloc: Global) -> Result<()> {
    texts::print(rt, alloc)?;
    sets::print(rt, alloc)?;
    searches::print(rt, alloc)?;
    changes::print(rt, alloc)?;
    runs::print(rt, alloc)
}

fn has_word_once(rt: &HostRuntime) -> io::Result<bool> {
    Ok(env::args(rt)?.len() > 1)
}

/// Whether the program has a word, asked once more where memory is refused.
fn has_word(rt: &HostRuntime) -> Result<bool> {
    match has_word_once(rt) {
        Ok(has) => Ok(has),
        Err(_) => Ok(has_word_once(rt)?),
    }
}

fn print_as_asked(rt: &HostRuntime) -> Result<()> {
    print_all(rt, rt.alloc())?;
    if has_word(rt)? {
        beginnings::print(rt, rt.alloc())?;
    }
    Ok(())
}

fn main(rt: HostRuntime) -> Result<()> {
    if let Err(wrong) = print_as_asked(&rt) {
        println!(rt; "{wrong}")?;
    }
    Ok(())
}
