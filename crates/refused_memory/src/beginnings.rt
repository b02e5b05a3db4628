//! Every beginning of a text, loaded or carried out. What comes of it is what the records make that an empty line closes in it, and of one more at
//! most, the one that is cut off. Only that one can be refused: where its lines make no record, or one that has no place.

use crate::counts::Counts;
use crate::directories::{PEOPLE, conf, directory};
use crate::shown::{Shown, shown_by};
use anyhow::{Error, Result};
use directory::{Directory, LoadFault, RecordRefusal, Tally, load, run};
use ldif::Mode;
use std::alloc::Global;
use std::io::Print;
use try_device::{TrySink, TrySource};

/// How many records the empty lines of a text close, and how many bytes and lines these have.
#[derive(Clone, Copy)]
struct Closed {
    records: u64,
    bytes: usize,
    lines: u64,
}

/// Of a text in which one empty line stands behind each record, and no other.
fn closed_in(text: &[u8]) -> Closed {
    let mut closed = Closed {
        records: 0,
        bytes: 0,
        lines: 0,
    };
    let mut lines = 0u64;
    let mut before = b' ';
    for (at, byte) in text.iter().enumerate() {
        if *byte == b'\n' {
            lines = lines.saturating_add(1);
            if before == b'\n' {
                closed = Closed {
                    records: closed.records.saturating_add(1),
                    bytes: at.saturating_add(1),
                    lines,
                };
            }
        }
        before = *byte;
    }
    closed
}

/// Whether so many records are those that are closed, or these and the one that is cut off.
fn are_closed_or_cut(records: u64, text: &[u8], closed: Closed) -> bool {
    let one_more = closed.bytes < text.len() && records == closed.records.saturating_add(1);
    records == closed.records || one_more
}

fn wrong<T>() -> Result<T> {
    Err(Error::msg("a beginning comes to something else"))
}

// ---- loads

/// The closed records stand in front of the dump; there is at most one entry more.
fn see_loaded(alloc: Global, dir: &Directory, text: &[u8], closed: Closed) -> Result<()> {
    let entries = dir.tree().len() as u64;
    let shown = shown_by(alloc, dir)?;
    match text.get(..closed.bytes) {
        Some(front)
            if are_closed_or_cut(entries, text, closed) && shown.dump().starts_with(front) => {
            Ok(())
        }
        _ => wrong(),
    }
}

fn loaded_kind(alloc: Global, dir: &Directory, text: &[u8]) -> Result<String> {
    let closed = closed_in(text);
    see_loaded(alloc, dir, text, closed)?;
    Ok(format!(in alloc; "loaded, {} entries", dir.tree().len())?)
}

/// The record that is refused is the one that is cut off.
fn refused_kind(alloc: Global, line: u64, refusal: RecordRefusal, text: &[u8]) -> Result<String> {
    if line != closed_in(text).lines.saturating_add(1) {
        return wrong();
    }
    Ok(format!(in alloc; "refused, {refusal}")?)
}

/// What a beginning of a dump comes to.
fn load_kind(alloc: Global, text: &[u8]) -> Result<String> {
    let conf = conf(alloc)?;
    let mut source = TrySource::new(text, 100, None);
    match load(alloc, conf, &mut source) {
        Ok(dir) => loaded_kind(alloc, &dir, text),
        Err(LoadFault::Refused { line, refusal }) => refused_kind(alloc, line, refusal, text),
        Err(LoadFault::OutOfMemory | LoadFault::Read) => wrong(),
    }
}

fn print_loads(rt: &impl Print, alloc: Global) -> Result<()> {
    let mut counts = Counts::new(alloc);
    let text = PEOPLE.as_bytes();
    for end in 0..=text.len() {
        match text.get(..end) {
            Some(begun) => counts.add(load_kind(alloc, begun)?)?,
            None => return wrong(),
        }
    }
    counts.print(rt, "beginnings of a dump")
}

// ---- runs

/// What a run begins with, and its text.
struct Run {
    title: &'static str,
    mode: Mode,
    start: &'static str,
    text: &'static str,
}

const RUNS: [Run; 3] = [
    Run {
        title: "beginnings of a record with a comment and a folded value",
        mode: Mode::Content,
        start: "dn: dc=ex\nobjectClass: domain\n",
        text: "dn: cn=a,dc=ex\n# note\n more\ncn: a\ndescription: fol\n ded\nobjectClass: person\n",
    },
    Run {
        title: "beginnings of a change whose last block is refused",
        mode: Mode::Changes { add: false },
        start: "dn: dc=ex\nobjectClass: domain\n\ndn: cn=a b,dc=ex\nobjectClass: person\n",
        text: "dn: cn=a b,dc=ex\nchangetype: modify\nadd: description\ndescription: x\n-\nadd: cn\ncn: A  b\n-\n",
    },
    Run {
        title: "beginnings of two records, the second with base64 that breaks off",
        mode: Mode::Content,
        start: "dn: dc=ex\nobjectClass: domain\n",
        text: "dn: cn=x,dc=ex\nobjectClass: person\n\ndn: cn=y,dc=ex\nobjectClass: person\ncn:: YSA",
    },
];

/// What a run over a beginning comes to.
#[derive(Drop)]
struct Ran {
    tally: Tally,
    report: TrySink,
}

fn run_over(alloc: Global, dir: &mut Directory, text: &[u8], mode: Mode) -> Result<Ran> {
    let mut source = TrySource::new(text, 100, None);
    let mut report = TrySink::new(alloc, 8192, None);
    match run(alloc, dir, &mut source, &mut report, mode, true) {
        Ok(tally) => Ok(Ran { tally, report }),
        Err(_) => wrong(),
    }
}

/// The refusal of the record that is cut off, which the only line of the report tells.
fn refusal_in<'a>(alloc: Global, report: &'a [u8], closed: Closed) -> Result<&'a str> {
    let line = format!(in alloc; "line {}: ", closed.lines.saturating_add(1))?;
    let Ok(report) = str::from_utf8(report) else {
        return wrong();
    };
    match report.strip_prefix(line.as_str()) {
        Some(refusal) => Ok(refusal.trim_end()),
        None => wrong(),
    }
}

/// Where no record was accepted, all is as it was.
fn see_kept(tally: Tally, before: &Shown, after: &Shown) -> Result<()> {
    if tally.accepted > 0 || after.is(before) {
        Ok(())
    } else {
        wrong()
    }
}

fn ran_kind(alloc: Global, ran: &Ran, text: &[u8], shown: &Shown) -> Result<String> {
    let closed = closed_in(text);
    let Tally { accepted, refused } = ran.tally;
    if !are_closed_or_cut(accepted.saturating_add(refused), text, closed) || refused > 1 {
        return wrong();
    }
    let bytes = shown.dump().len();
    if refused == 0 {
        return Ok(format!(in alloc; "{accepted} accepted, a dump of {bytes} bytes")?);
    }
    let refusal = refusal_in(alloc, ran.report.bytes(), closed)?;
    Ok(format!(in alloc; "{accepted} accepted, a dump of {bytes} bytes, {refusal}")?)
}

fn run_kind_on(alloc: Global, dir: &mut Directory, text: &[u8], mode: Mode) -> Result<String> {
    let before = shown_by(alloc, dir)?;
    let ran = run_over(alloc, dir, text, mode)?;
    let after = shown_by(alloc, dir)?;
    see_kept(ran.tally, &before, &after)?;
    ran_kind(alloc, &ran, text, &after)
}

fn run_kind(alloc: Global, run: &Run, text: &[u8]) -> Result<String> {
    let mut dir = directory(alloc, run.start)?;
    run_kind_on(alloc, &mut dir, text, run.mode)
}

fn print_run(rt: &impl Print, alloc: Global, run: &Run) -> Result<()> {
    let mut counts = Counts::new(alloc);
    let text = run.text.as_bytes();
    for end in 0..=text.len() {
        match text.get(..end) {
            Some(begun) => counts.add(run_kind(alloc, run, begun)?)?,
            None => return wrong(),
        }
    }
    counts.print(rt, run.title)
}

/// Prints how many beginnings of each text come to what.
pub(crate) fn print(rt: &impl Print, alloc: Global) -> Result<()> {
    print_loads(rt, alloc)?;
    for run in &RUNS {
        print_run(rt, alloc, run)?;
    }
    Ok(())
}
