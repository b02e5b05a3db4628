//! Times the reading of names and filters against a plain loop over the same bytes.
#![tactic(auto)]

mod texts;
mod timing;

use anyhow::Result;
use std::alloc::{AllocError, Global};
use std::env;
use std::io::Print;
use std::rt::Clock;
use texts::{Text, texts};
use timing::{Sizes, Times, time_sizes};

/// How often all texts are timed.
const ROUNDS: usize = 6;

/// Hundredths as a decimal number.
fn decimal(alloc: Global, hundredths: u64) -> Result<String, AllocError> {
    format!(in alloc; "{}.{:02}", hundredths / 100, hundredths % 100)
}

/// How many hundredths of b are in a.
fn ratio(a: u64, b: u64) -> u64 {
    a.saturating_mul(100) / b.max(1)
}

/// A line with the bytes of a text, the nanoseconds a byte of the plain loop and of reading, the second in times of the first,
/// and reading in times of that of the smaller text; then the hash, so that the loop is not left out.
fn print_row(
    rt: &impl Print,
    alloc: Global,
    label: &str,
    bytes: usize,
    times: Times,
    smaller: Times,
) -> Result<()> {
    println!(rt;
        "{:<13}{:>9}{:>8}{:>8}{:>8}{:>8}  {:x}",
        label,
        bytes,
        decimal(alloc, times.plain / 10)?.as_str(),
        decimal(alloc, times.read / 10)?.as_str(),
        decimal(alloc, ratio(times.read, times.plain))?.as_str(),
        decimal(alloc, ratio(times.read, smaller.read))?.as_str(),
        times.hash
    )?;
    Ok(())
}

fn print_rows(rt: &impl Print, alloc: Global, text: &Text, sizes: Sizes) -> Result<()> {
    let small = text.len(text.small);
    let large = text.len(text.large);
    print_row(rt, alloc, text.label, small, sizes.small, sizes.small)?;
    print_row(rt, alloc, text.label, large, sizes.large, sizes.small)
}

/// Each text once.
fn time_texts(clock: &impl Clock, alloc: Global) -> Result<Vec<Sizes>> {
    let mut all = Vec::new(alloc);
    for text in texts() {
        all.push(time_sizes(clock, alloc, &text)?)?;
    }
    Ok(all)
}

/// All texts in turn, so that what else a machine does for a while spoils no text, and the best times of each.
fn print_times(rt: &(impl Clock + Print), alloc: Global) -> Result<()> {
    let mut best = time_texts(rt, alloc)?;
    for _ in 1..ROUNDS {
        let again = time_texts(rt, alloc)?;
        best = best
            .iter()
            .zip(again.iter())
            .map(|(best, sizes)| best.best(*sizes))
            .collect(alloc)?;
    }
    println!(rt; "text             bytes    loop    read   times  growth  hash")?;
    for (text, sizes) in texts().iter().zip(best.iter()) {
        print_rows(rt, alloc, text, *sizes)?;
    }
    Ok(())
}

/// That a text is read in its smaller size.
fn print_count(rt: &impl Print, alloc: Global, text: &Text) -> Result<()> {
    let spelled = text.spelled(alloc, text.small)?;
    text.grammar.read(alloc, spelled.as_str())?;
    println!(rt; "{}: {} bytes", text.label, spelled.len())?;
    Ok(())
}

fn main(rt: HostRuntime) -> Result<()> {
    let words: Vec<String> = env::args(&rt)?.collect(rt.alloc())?;
    if words.len() > 1 {
        return print_times(&rt, rt.alloc());
    }
    println!(rt; "reading_bench run times the reading of these, and of ten times as much:")?;
    for text in texts() {
        print_count(&rt, rt.alloc(), &text)?;
    }
    Ok(())
}
