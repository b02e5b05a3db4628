//! Runs: one that is refused memory has carried out the records that it counts, and the others can be carried out then.

use crate::directories::{PEOPLE, directory};
use crate::shown::{Shown, print_directory, shown_by};
use anyhow::{Error, Result};
use directory::{Directory, RunFault, Tally, run};
use ldif::Mode;
use std::alloc::Global;
use std::io::Print;
use try_device::{TrySink, TrySource};

/// What a run begins with, and its records.
struct Run {
    mode: Mode,
    start: &'static str,
    records: &'static [&'static str],
}

/// Three of the records are accepted; one has no entry above it, and one can't be read.
const CONTENT: Run = Run {
    mode: Mode::Content,
    start: "dn: dc=ex\nobjectClass: domain\n",
    records: &[
        "dn: cn=x,dc=ex\nobjectClass: person\n\n",
        "dn: cn=y,cn=no,dc=ex\nobjectClass: person\n\n",
        "dn: cn=z,dc=ex\nobjectClass: person\n\n",
        "dn: cn=d,dc=ex\nobjectClass: person\ncn:: YSA\n\n",
        "dn: cn=e,dc=ex\nobjectClass: person\n",
    ],
};

/// Changes of each kind; one would leave an entry without the one above it, and one would move an entry below itself.
const CHANGES: Run = Run {
    mode: Mode::Changes { add: false },
    start: PEOPLE,
    records: &[
        "dn: cn=a value of more than a few bytes,cn=Bob,dc=ex\nchangetype: add\nobjectClass: person\n\n",
        "dn: cn=aba,dc=ex\nchangetype: modify\nadd: description\ndescription: first\ndescription: a second one of more than a few bytes\n-\n\n",
        "dn: cn=Bob,dc=ex\nchangetype: delete\n\n",
        "dn: cn=Bob,dc=ex\nchangetype: modrdn\nnewrdn: cn=any longer name of more bytes\ndeleteoldrdn: 1\nnewsuperior: cn=aba,dc=ex\n\n",
        "dn: cn=aba,dc=ex\nchangetype: modrdn\nnewrdn: cn=aba\ndeleteoldrdn: 0\nnewsuperior: cn=aba,dc=ex\n\n",
        "dn: cn=abba,dc=ex\nchangetype: delete\n",
    ],
};

/// Where a run ended.
#[derive(Drop)]
struct Ran {
    tally: Tally,
    whole: bool,
    report: TrySink,
}

fn joined(alloc: Global, records: &[&str]) -> Result<String> {
    match records.concat(alloc) {
        Ok(text) => Ok(text),
        Err(_) => Ok(records.concat(alloc)?),
    }
}

fn run_once(alloc: Global, dir: &mut Directory, text: &[u8], mode: Mode) -> Result<Ran> {
    let mut source = TrySource::new(text, 8192, None);
    let mut report = TrySink::new(alloc, 8192, None);
    let (tally, whole) = match run(alloc, dir, &mut source, &mut report, mode, true) {
        Ok(tally) => (tally, true),
        // the sink takes memory too, and fails where it gets none
        Err(RunFault::OutOfMemory(tally) | RunFault::Write(tally)) => (tally, false),
        Err(RunFault::Read(_)) => return Err(Error::msg("the source doesn't fail")),
    };
    Ok(Ran {
        tally,
        whole,
        report,
    })
}

fn ran_through(alloc: Global, dir: &mut Directory, records: &[&str], mode: Mode) -> Result<Ran> {
    let text = joined(alloc, records)?;
    whole_of(run_once(alloc, dir, text.as_bytes(), mode)?)
}

fn whole_of(ran: Ran) -> Result<Ran> {
    if ran.whole {
        Ok(ran)
    } else {
        Err(Error::msg("a run is refused memory twice"))
    }
}

fn lines_of(text: &[u8]) -> u64 {
    let mut lines = 0u64;
    for byte in text {
        if *byte == b'\n' {
            lines = lines.saturating_add(1);
        }
    }
    lines
}

/// Whether a run that was broken off wrote the report of the refused records that it counts, or all of it but the end of its last line.
fn is_reported(broken: &Ran, wanted: &Ran) -> bool {
    wanted.report.bytes().starts_with(broken.report.bytes())
        && lines_of(broken.report.bytes()) >= broken.tally.refused.saturating_sub(1)
}

fn see_report(broken: &Ran, wanted: &Ran) -> Result<()> {
    if wanted.tally == broken.tally && is_reported(broken, wanted) {
        Ok(())
    } else {
        Err(Error::msg("a run that is refused memory reports something else"))
    }
}

fn see_that_both_show(one: &Shown, other: &Shown) -> Result<()> {
    if one.is(other) {
        Ok(())
    } else {
        Err(Error::msg("a run that is refused memory leaves something else"))
    }
}

fn see_alike(alloc: Global, one: &Directory, other: &Directory) -> Result<()> {
    let shown = shown_by(alloc, one)?;
    see_that_both_show(&shown, &shown_by(alloc, other)?)
}

/// Carries out the records that a run counts on what it began with, and sees that it reported the same.
fn count_anew(
    alloc: Global,
    run: &Run,
    broken: &Ran,
    anew: &mut Directory,
    counted: &[&str],
) -> Result<()> {
    let wanted = ran_through(alloc, anew, counted, run.mode)?;
    see_report(broken, &wanted)
}

/// Sees that what stands behind a run that was broken off is what the records that it counts make alone, when they are carried out anew.
fn look(alloc: Global, run: &Run, broken: &Ran, dir: &Directory, counted: &[&str]) -> Result<()> {
    let mut anew = directory(alloc, run.start)?;
    count_anew(alloc, run, broken, &mut anew, counted)?;
    see_alike(alloc, dir, &anew)
}

fn sum(one: Tally, other: Tally) -> Tally {
    Tally {
        accepted: one.accepted.saturating_add(other.accepted),
        refused: one.refused.saturating_add(other.refused),
    }
}

/// Carries out the records that a run didn't count, and answers what both have counted.
fn carry_on(alloc: Global, run: &Run, broken: &Ran, dir: &mut Directory) -> Result<Tally> {
    let counted = broken.tally.accepted.saturating_add(broken.tally.refused) as usize;
    let (Some(front), Some(rest)) = (run.records.get(..counted), run.records.get(counted..)) else {
        return Err(Error::msg("a run counts more records than there are"));
    };
    look(alloc, run, broken, dir, front)?;
    let ran = ran_through(alloc, dir, rest, run.mode)?;
    Ok(sum(ran.tally, broken.tally))
}

fn counted_by(alloc: Global, run: &Run, dir: &mut Directory) -> Result<Tally> {
    let text = joined(alloc, run.records)?;
    let ran = run_once(alloc, dir, text.as_bytes(), run.mode)?;
    counted_in_all(alloc, run, &ran, dir)
}

fn counted_in_all(alloc: Global, run: &Run, ran: &Ran, dir: &mut Directory) -> Result<Tally> {
    if ran.whole {
        Ok(ran.tally)
    } else {
        carry_on(alloc, run, ran, dir)
    }
}

fn print_count(rt: &impl Print, alloc: Global, run: &Run, dir: &mut Directory) -> Result<()> {
    let Tally { accepted, refused } = counted_by(alloc, run, dir)?;
    println!(rt; "{accepted} accepted, {refused} refused")?;
    print_directory(rt, alloc, dir)
}

fn print_run(rt: &impl Print, alloc: Global, run: &Run) -> Result<()> {
    let mut dir = directory(alloc, run.start)?;
    print_count(rt, alloc, run, &mut dir)
}

/// Prints what runs count, and what stands behind them.
pub(crate) fn print(rt: &impl Print, alloc: Global) -> Result<()> {
    print_run(rt, alloc, &CONTENT)?;
    print_run(rt, alloc, &CHANGES)
}
