//! Runs and dumps over sources and sinks that fail behind each number of bytes.

use crate::directories::{Devices, ROOT, has_dump, loaded, run_over};
use crate::indexes::{INDEX, TURNED, indexed};
use directory::{Directory, RunFault, Tally};
use ldif::{Mode, WriteFault};
use std::alloc::Global;
use std::test::Fail;
use try_device::TrySink;

// the record on line 4 is refused
const TEXT: &str =
    "dn: cn=x,dc=ex\nobjectClass: person\n\ndn: cn=y,cn=no,dc=ex\nobjectClass: person\n\ndn: cn=z,dc=ex\nobjectClass: person\n";

const REPORT: &str = "line 4: 32 noSuchObject\n";

const X: &str = "dn: cn=x,dc=ex\nobjectClass: person\ncn: x\n\n";

const Z: &str = "dn: cn=z,dc=ex\nobjectClass: person\ncn: z\n\n";

// what a run comes to, how many bytes of the report are written, and how many records are carried out
#[derive(Drop)]
struct End {
    outcome: Result<Tally, RunFault>,
    written: usize,
    accepted: usize,
}

// whether these bytes of the report were written, and the suffix's entry and those that were accepted stand
fn is_left(alloc: Global, dir: &Directory, report: &[u8], end: &End) -> Result<bool, Fail> {
    let Some(entries) = [ROOT, X, Z].as_slice().get(..=end.accepted) else {
        return Ok(false);
    };
    let dump = entries.concat(alloc)?;
    Ok(
        REPORT.as_bytes().get(..end.written) == Some(report)
            && has_dump(alloc, dir, dump.as_bytes())?,
    )
}

// whether a run that goes on, by one byte a call, comes to this
fn comes_to(
    alloc: Global,
    dir: &mut Directory,
    source_limit: Option<usize>,
    sink_limit: Option<usize>,
    end: &End,
) -> Result<bool, Fail> {
    let devices = Devices {
        pull: 1,
        source_limit,
        push: 1,
        sink_limit,
    };
    let (outcome, report) = run_over(alloc, dir, TEXT.as_bytes(), Mode::Content, devices)?;
    Ok(outcome == end.outcome && is_left(alloc, dir, &report, end)?)
}

// where the source fails behind so many bytes: the last record has no empty line
fn read_until(limit: usize) -> End {
    let (accepted, refused, written) = match limit {
        0..36 => (0, 0, 0),
        36..78 => (1, 0, 0),
        _ => (1, 1, 24),
    };
    End {
        outcome: Err(RunFault::Read(Tally { accepted, refused })),
        written,
        accepted: accepted as usize,
    }
}

fn is_read_until(alloc: Global, limit: usize) -> Result<bool, Fail> {
    let mut dir = loaded(alloc, ROOT)?;
    comes_to(alloc, &mut dir, Some(limit), None, &read_until(limit))
}

#[test]
fn records_before_a_failed_read_are_carried_out(rt: HostRuntime) -> Result<(), Fail> {
    for limit in 0..=TEXT.len() {
        assert!(rt; is_read_until(rt.alloc(), limit)?, "{limit}");
    }
    Ok(())
}

// where the sink fails behind so many bytes
fn written_until(limit: usize) -> End {
    let refused = 1;
    if limit < 24 {
        let accepted = 1;
        return End {
            outcome: Err(RunFault::Write(Tally { accepted, refused })),
            written: limit,
            accepted: 1,
        };
    }
    let accepted = 2;
    End {
        outcome: Ok(Tally { accepted, refused }),
        written: 24,
        accepted: 2,
    }
}

fn is_written_until(alloc: Global, limit: usize) -> Result<bool, Fail> {
    let mut dir = loaded(alloc, ROOT)?;
    comes_to(alloc, &mut dir, None, Some(limit), &written_until(limit))
}

#[test]
fn records_before_a_failed_write_are_carried_out(rt: HostRuntime) -> Result<(), Fail> {
    for limit in 0..27 {
        assert!(rt; is_written_until(rt.alloc(), limit)?, "{limit}");
    }
    Ok(())
}

const DUMP: &str =
    "dn: dc=ex\nobjectClass: domain\ndc: ex\n\ndn: cn=aba,dc=ex\nobjectClass: person\ncn: aba\n\ndn: cn=abba,dc=ex\nobjectClass: person\ncn: abba\n\ndn: cn=abc bcd,dc=ex\nobjectClass: person\ncn: abc bcd\n\ndn: cn=Bob,dc=ex\nobjectClass: person\ndescription: 7\ncn: Bob\n\n";

// whether the first so many bytes are written, and then the sink fails
fn breaks_off(alloc: Global, dir: &Directory, limit: usize) -> bool {
    let mut sink = TrySink::new(alloc, 4, Some(limit));
    dir.dump(alloc, &mut sink) == Err(WriteFault::Device)
        && Some(sink.bytes()) == DUMP.as_bytes().get(..limit)
}

fn each_breaks_off(alloc: Global, dir: &Directory) -> bool {
    for limit in 0..DUMP.len() {
        if !breaks_off(alloc, dir, limit) {
            return false;
        }
    }
    true
}

fn each_dump_breaks_off(alloc: Global) -> Result<bool, Fail> {
    let dir = loaded(alloc, DUMP)?;
    Ok(each_breaks_off(alloc, &dir))
}

#[test]
fn a_dump_breaks_off_where_its_sink_fails(rt: HostRuntime) -> Result<(), Fail> {
    assert!(rt; each_dump_breaks_off(rt.alloc())?);
    Ok(())
}

// the same of the text of its index
fn index_breaks_off(alloc: Global, dir: &Directory, limit: usize) -> bool {
    let mut sink = TrySink::new(alloc, 4, Some(limit));
    dir.index_text(alloc, &mut sink) == Err(WriteFault::Device)
        && Some(sink.bytes()) == INDEX.as_bytes().get(..limit)
}

fn each_length_breaks_off(alloc: Global, dir: &Directory) -> bool {
    for limit in 0..INDEX.len() {
        if !index_breaks_off(alloc, dir, limit) {
            return false;
        }
    }
    true
}

fn each_index_breaks_off(alloc: Global) -> Result<bool, Fail> {
    let dir = indexed(alloc, TURNED)?;
    Ok(each_length_breaks_off(alloc, &dir))
}

#[test]
fn an_index_text_breaks_off_where_its_sink_fails(rt: HostRuntime) -> Result<(), Fail> {
    assert!(rt; each_index_breaks_off(rt.alloc())?);
    Ok(())
}
