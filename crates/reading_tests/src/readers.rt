//! Records of sources that give few bytes at a time, and of sources that fail.

ghost use Rattle.std.specs.Prelude.{◌≡◌, ◌<◌};
ghost use Rattle.ldif_lines.specs.Reader.{source_of, loan_of};

use crate::texts::{push_words, repeated};
use device::{Device, Source};
use ldif::{RawRecord, ReadFault, Reader};
use std::alloc::{AllocError, Global};
use std::process::Abort;
use std::test::Fail;
use try_device::TrySource;

/// How many bytes a pull gives at most.
const PULLS: [usize; 4] = [1, 2, 7, 8192];

/// ` <dn: x> <cn: a>`
fn push_lines(out: &mut Vec<u8>, raw: &RawRecord) -> Result<(), AllocError> {
    let mut rest = raw.lines.all();
    'lines: while let Some((line, after)) = rest.split_first() {
        push_words(out, &[b" <", line, b">"])?;
        rest = after;
    }
    Ok(())
}

/// `1! <dn: x> <cn: a>;`, where the number is that of its first line, and `!` says that it is the first of its text.
fn push_record(alloc: Global, out: &mut Vec<u8>, raw: &RawRecord) -> Result<(), AllocError> {
    let number = format!(in alloc; "{}", raw.line)?;
    push_words(
        out,
        &[number.as_bytes(), if raw.first { b"!" } else { b"" }],
    )?;
    push_lines(out, raw)?;
    out.extend_from_slice(b";")
}

/// Puts behind what a call answers, and the lines of the record that the reader is in then: whether it is a record.
fn push_answer(
    alloc: Global,
    out: &mut Vec<u8>,
    answer: &Result<Option<RawRecord>, ReadFault>,
    begun: &RawRecord,
) -> Result<bool, AllocError> {
    match answer {
        Ok(Some(raw)) => {
            push_record(alloc, out, raw)?;
            push_lines(out, begun)?;
            Ok(true)
        }
        Ok(None) => {
            push_lines(out, begun)?;
            Ok(false)
        }
        Err(ReadFault::OutOfMemory) => Err(AllocError),
        Err(fault) => {
            let text = format!(in alloc; "{fault};")?;
            out.extend_from_slice(text.as_bytes())?;
            Ok(false)
        }
    }
}

/// What a reader answers, until three calls after its first end or fault: each record, and its faults.
fn answers<S: Source>(alloc: Global, reader: &mut Reader<'_, S>) -> Result<Vec<u8>, AllocError>
    requires { (S.seen (source_of reader.old)).failed ≡ 0 }
    ensures { loan_of reader.new ≡ loan_of reader.old }
{
    let mut out = Vec::new(alloc);
    let mut ended = 0u32;
    'calls: for _call in 0..1000u64 {
        let answer = reader.next();
        let pushed = push_answer(alloc, &mut out, &answer, reader.begun());
        drop(answer);
        if pushed? {
            continue;
        }
        if ended == 3 {
            break;
        }
        ended += 1;
    }
    Ok(out)
}

/// What a reader answers, how many bytes it holds at the end, and the lines of the record that it is in then.
fn answers_over<S: Source>(alloc: Global, source: &mut S) -> Result<Vec<u8>, AllocError>
    requires { (S.seen source.old).failed ≡ 0 }
{
    let mut reader = Reader::new(alloc, source);
    let mut out = answers(alloc, &mut reader)?;
    let held = format!(in alloc; "{} held", reader.held())?;
    out.extend_from_slice(held.as_bytes())?;
    push_lines(&mut out, reader.begun())?;
    Ok(out)
}

/// Has a text read, of which a pull gives at most so many bytes, and which fails behind so many: how often the source failed.
fn reads(
    rt: &impl Abort,
    alloc: Global,
    text: &[u8],
    most: usize,
    fails_after: Option<usize>,
    want: &[u8],
) -> Result<u64, AllocError>
    requires { 0 < most }
{
    let mut source = TrySource::new(text, most, fails_after);
    let found = answers_over(alloc, &mut source)?;
    assert_eq!(rt; found.as_slice(), want, "{most}");
    Ok(source.failures())
}

/// The same text with a carriage return before each line feed.
fn with_returns(alloc: Global, text: &[u8]) -> Result<Vec<u8>, AllocError> {
    let mut out = Vec::new(alloc);
    for byte in text {
        if *byte == b'\n' {
            out.push(b'\r')?;
        }
        out.push(*byte)?;
    }
    Ok(out)
}

// texts, and what a reader answers over each, however many bytes a pull gives, and whether its lines end in CR LF or in LF
const TEXTS: [(&str, &str); 6] = [
    // a comment that goes on, and a folded line
    (
        "dn: cn=a,dc=ex\n# note\n more\ncn: a\nd: fol\n ded\no: p\n",
        "1! <dn: cn=a,dc=ex> <cn: a> <d: folded> <o: p>;0 held",
    ),
    // three records, a last line without its end, and an empty line at the end
    (
        "dn: a\no: p\n\ndn: cn=b,c=no\no: p\n\ndn: c\no: p\n",
        "1! <dn: a> <o: p>;4 <dn: cn=b,c=no> <o: p>;7 <dn: c> <o: p>;0 held",
    ),
    (
        "dn: a\no: p\n\ndn: b\no: p\nc:: YSA",
        "1! <dn: a> <o: p>;4 <dn: b> <o: p> <c:: YSA>;0 held",
    ),
    (
        "dn: a\no: d\nd: e\n\ndn: b\no: p\n\n",
        "1! <dn: a> <o: d> <d: e>;5 <dn: b> <o: p>;0 held",
    ),
    // a block of comments is no record; a block's first line stays as it is, also one that begins with a space
    ("\n#c\n d\n\n\n x\n y\n", "6! < xy>;0 held"),
    // a line of one space ends no record
    ("dn: x\n \n#c\n\n", "1! <dn: x>;0 held"),
];

fn texts() -> &'static [(&'static str, &'static str)] {
    &TEXTS
}

#[test]
fn records_come_in_pieces(rt: HostRuntime) -> Result<(), Fail> {
    for (text, want) in texts() {
        let returned = with_returns(rt.alloc(), text.as_bytes())?;
        for most in PULLS {
            reads(
                &rt,
                rt.alloc(),
                text.as_bytes(),
                most,
                None,
                want.as_bytes(),
            )?;
            reads(&rt, rt.alloc(), &returned, most, None, want.as_bytes())?;
        }
    }
    Ok(())
}

/// A carriage return belongs to a line but for one at its end that a line feed follows.
#[test]
fn carriage_returns_come_in_pieces(rt: HostRuntime) -> Result<(), Fail> {
    let text = b"a\r\r\n\r\r\nb\rc\r\n\r\nd\r";
    let want = b"1! <a\r> <\r> <b\rc>;5 <d\r>;0 held";
    for most in PULLS {
        reads(&rt, rt.alloc(), text, most, None, want)?;
    }
    Ok(())
}

/// Two records, the first of them with a line of so many bytes.
fn long_text(alloc: Global, len: usize) -> Result<Vec<u8>, AllocError> {
    repeated(alloc, b"dn: x\r\n", b"c", len, b"\r\n\r\ndn: y\r\n")
}

/// The first 8,192 bytes end before, within and behind both line ends that end the first record.
#[test]
fn line_ends_are_cut_where_the_reader_is_full(rt: HostRuntime) -> Result<(), Fail> {
    for len in 8180..8187 {
        let text = long_text(rt.alloc(), len)?;
        let want = repeated(
            rt.alloc(),
            b"1! <dn: x> <",
            b"c",
            len,
            b">;4 <dn: y>;0 held",
        )?;
        reads(&rt, rt.alloc(), &text, 8192, None, &want)?;
    }
    Ok(())
}

/// How many bytes a source still gives.
fn left_in<S: Source>(rt: &impl Abort, source: &mut S) -> usize {
    let mut buffer = [0; 8192];
    let mut left = 0usize;
    for _ in 0..10_000 {
        assert!(rt; source.failures() < u64::MAX);
        match source.pull(&mut buffer) {
            Ok(0) => return left,
            Ok(n) => left = left.wrapping_add(n),
            Err(Device) => panic!(rt; "the source doesn't fail"),
        }
    }
    panic!(rt; "no end")
}

/// How many bytes a reader holds when it has given a record.
fn held_behind_a_record<S: Source>(alloc: Global, source: &mut S) -> Option<u64>
    requires { (S.seen source.old).failed ≡ 0 }
{
    let mut reader = Reader::new(alloc, source);
    match reader.next() {
        Ok(Some(_)) => Some(reader.held()),
        _ => None,
    }
}

/// How many bytes a reader holds when it has given a record, and how many its source still gives.
fn held_and_left(rt: &impl Abort, alloc: Global, text: &[u8], most: usize) -> (Option<u64>, usize)
    requires { 0 < most }
{
    let mut source = TrySource::new(text, most, None);
    let held = held_behind_a_record(alloc, &mut source);
    (held, left_in(rt, &mut source))
}

/// A record and an empty line of 10,030 bytes, and 8,000 bytes behind them.
fn long_record_and_more(alloc: Global) -> Result<Vec<u8>, AllocError> {
    let front = b"dn: cn=a,dc=ex\ndescription: ";
    let text = repeated(alloc, front, b"x", 10_000, b"\n\n")?;
    repeated(alloc, &text, b"dn: cn=b,dc=ex\n\n", 500, b"")
}

/// What was pulled is the first record, the empty line behind it, and what is held.
#[test]
fn little_is_held_behind_a_long_record(rt: HostRuntime) -> Result<(), Fail> {
    let text = long_record_and_more(rt.alloc())?;
    for (most, held, left) in [(1, 0, 8000), (2, 0, 8000), (7, 1, 7999), (8192, 6354, 1646)] {
        let found = held_and_left(&rt, rt.alloc(), &text, most);
        assert_eq!(rt; found, (Some(held), left), "{most}");
    }
    Ok(())
}

/// A text whose source fails in the middle.
const BREAKS: &str = "dn: x\n#c\n d\ncn: a\n b\n\n\ndn: y\nsn";

// the records that are whole where the source fails behind so many bytes, and what is held then
const BROKEN: [(usize, &str, &str); 13] = [
    (0, "", "0 held"),
    (3, "", "3 held <dn:>"),
    (5, "", "5 held <dn: x>"),
    (6, "", "5 held <dn: x>"),
    (8, "", "5 held <dn: x>"),
    (11, "", "5 held <dn: x>"),
    (14, "", "7 held <dn: x> <cn>"),
    (19, "", "10 held <dn: x> <cn: a>"),
    (21, "", "11 held <dn: x> <cn: ab>"),
    (22, "1! <dn: x> <cn: ab>;", "0 held"),
    (23, "1! <dn: x> <cn: ab>;", "0 held"),
    (26, "1! <dn: x> <cn: ab>;", "3 held <dn:>"),
    (31, "1! <dn: x> <cn: ab>;", "7 held <dn: y> <sn>"),
];

fn breaks() -> &'static [u8] {
    BREAKS.as_bytes()
}

fn broken() -> &'static [(usize, &'static str, &'static str)] {
    &BROKEN
}

/// What a reader answers where the source fails behind so many bytes.
fn broken_answers(alloc: Global, records: &str, held: &str) -> Result<String, AllocError> {
    let failed =
        "the source failed;an earlier read failed;an earlier read failed;an earlier read failed;";
    format!(in alloc; "{records}{failed}{held}")
}

/// Each record that is whole comes before the failure is told, and none that isn't. The later calls leave the source alone.
#[test]
fn a_failed_source_is_no_end(rt: HostRuntime) -> Result<(), Fail> {
    for (limit, records, held) in broken() {
        let want = broken_answers(rt.alloc(), records, held)?;
        for most in PULLS {
            let failures = reads(
                &rt,
                rt.alloc(),
                breaks(),
                most,
                Some(*limit),
                want.as_bytes(),
            )?;
            assert_eq!(rt; failures, 1);
        }
    }
    Ok(())
}

#[test]
fn a_text_that_ends_before_its_source_fails_is_whole(rt: HostRuntime) -> Result<(), Fail> {
    let want = b"1! <dn: x> <cn: ab>;8 <dn: y> <sn>;0 held";
    reads(&rt, rt.alloc(), breaks(), 7, Some(32), want)?;
    Ok(())
}

#[test]
fn a_fault_of_a_device_has_its_text(rt: HostRuntime) -> Result<(), Fail> {
    let text = format!(in rt.alloc(); "{Device}")?;
    assert_eq!(rt; text.as_str(), "the device failed");
    Ok(())
}
