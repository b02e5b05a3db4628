//! Records that are carried out: what each answers, and that one which is refused memory changes nothing.

ghost use Rattle.std.specs.Prelude.{◌<◌, ◌-◌, ◌^◌};

use crate::directories::{PEOPLE, directory};
use crate::shown::{Shown, print_directory, shown_by};
use anyhow::{Error, Result};
use device::Source;
use directory::Directory;
use entries::Refusal;
use ldif::{LdifFault, Mode, RawRecord, Reader, read_record};
use ldif_lines::ReadFault;
use schema::Code;
use std::alloc::Global;
use std::io::Print;
use try_device::TrySource;

const MODE: Mode = Mode::Changes { add: false };

/// Each kind of record: an entry that goes and comes again, one that comes, a value that shares a window with another one and goes, moves with
/// and without entries below, renames with and without the old RDN, refused ones, and an entry that goes.
const RECORDS: [&str; 18] = [
    "dn: cn=Bob,dc=ex\nchangetype: delete\n",
    "dn: cn=Bob,dc=ex\nchangetype: add\nobjectClass: person\nuidNumber: 7\n",
    "dn: cn=new,dc=ex\nchangetype: add\nobjectClass: person\n",
    "dn: cn=new,dc=ex\nchangetype: modify\nadd: description\ndescription: abcd\ndescription: bcde\n-\nadd: sn\nsn: a name of more than a few bytes, which is longer than thirty\n-\n",
    "dn: cn=new,dc=ex\nchangetype: modify\ndelete: description\ndescription: abcd\n-\n",
    "dn: cn=new,dc=ex\nchangetype: modify\nreplace: description\ndescription: xyz\ndescription: a\ndescription: another value of more than a few bytes\n-\nadd: member\nmember: cn=Some One+sn=One,dc=ex\n-\n",
    "dn: cn=new,dc=ex\nchangetype: modify\nadd: sn\nsn: b\n-\nadd: description\ndescription: XYZ\n-\n",
    "dn: cn=aba,dc=ex\nchangetype: modrdn\nnewrdn: cn=aba\ndeleteoldrdn: 0\nnewsuperior: cn=Bob,dc=ex\n",
    "dn: cn=below,cn=aba,cn=Bob,dc=ex\nchangetype: add\nobjectClass: person\nuidNumber: 12345678901234567890\n",
    "dn: cn=Bob,dc=ex\nchangetype: delete\n",
    "dn: cn=Bob,dc=ex\nchangetype: modrdn\nnewrdn: cn=Robert+sn=Smith\ndeleteoldrdn: 1\n",
    "dn: cn=aba,cn=Robert+sn=Smith,dc=ex\nchangetype: modrdn\nnewrdn: cn=abacus\ndeleteoldrdn: 0\nnewsuperior: cn=new,dc=ex\n",
    "dn: cn=new,dc=ex\nchangetype: modrdn\nnewrdn: cn=new\ndeleteoldrdn: 0\nnewsuperior: cn=abacus,cn=new,dc=ex\n",
    "dn: cn=Robert+sn=Smith,dc=ex\nchangetype: delete\n",
    "dn: cn=abba,dc=ex\nchangetype: add\nobjectClass: person\n",
    "dn: cn=abc bcd,dc=ex\nchangetype: modify\ndelete: description\n-\n",
    "dn: cn=last,dc=ex\nchangetype: add\nobjectClass: person\ncn: a second name of more than a few bytes\nuidNumber: 7\n",
    "dn: cn=abba,dc=ex\nchangetype: delete\n",
];

/// What a record is answered.
#[derive(Clone, Copy)]
enum Answer {
    /// So many keys of the index were edited.
    Edits(u128),
    Refused(Code),
}

/// Reads a record from its lines and carries it out; `None` where memory is refused.
fn carried_out(alloc: Global, dir: &mut Directory, raw: &RawRecord) -> Result<Option<Answer>> {
    let record = match read_record(alloc, raw, MODE) {
        Ok(record) => record,
        Err(LdifFault::OutOfMemory) => return Ok(None),
        Err(LdifFault::Fault(_)) => return Err(Error::msg("no record")),
    };
    match dir.apply(&record, MODE) {
        Ok(edits) => Ok(Some(Answer::Edits(edits.count))),
        Err(Refusal::Code(code)) => Ok(Some(Answer::Refused(code))),
        Err(Refusal::OutOfMemory) => Ok(None),
    }
}

/// Takes the first record of a source; `None` where memory is refused.
fn taken<S: Source>(alloc: Global, source: &mut S) -> Result<Option<RawRecord>>
    requires { (S.seen source.old).failed < 2 ^ 64 - 1 }
{
    let mut reader = Reader::new(alloc, source);
    match reader.next() {
        Ok(Some(raw)) => Ok(Some(raw)),
        Err(ReadFault::OutOfMemory) => Ok(None),
        _ => Err(Error::msg("no lines")),
    }
}

/// Reads a text and carries out its record; `None` where memory is refused.
fn change_once(alloc: Global, dir: &mut Directory, text: &str) -> Result<Option<Answer>> {
    let mut source = TrySource::new(text.as_bytes(), 100, None);
    match taken(alloc, &mut source)? {
        Some(raw) => carried_out(alloc, dir, &raw),
        None => Ok(None),
    }
}

fn see_unchanged(alloc: Global, dir: &Directory, before: &Shown) -> Result<()> {
    let now = shown_by(alloc, dir)?;
    if now.is(before) {
        Ok(())
    } else {
        Err(Error::msg("a record that is refused memory changes something"))
    }
}

fn change_again(alloc: Global, dir: &mut Directory, text: &str) -> Result<Answer> {
    match change_once(alloc, dir, text)? {
        Some(answer) => Ok(answer),
        None => Err(Error::msg("a record is refused memory twice")),
    }
}

fn change_from(alloc: Global, dir: &mut Directory, text: &str, before: &Shown) -> Result<Answer> {
    if let Some(answer) = change_once(alloc, dir, text)? {
        return Ok(answer);
    }
    see_unchanged(alloc, dir, before)?;
    change_again(alloc, dir, text)
}

/// The same, once more where memory is refused: nothing has changed then.
fn change(alloc: Global, dir: &mut Directory, text: &str) -> Result<Answer> {
    let before = shown_by(alloc, dir)?;
    change_from(alloc, dir, text, &before)
}

fn print_change(rt: &impl Print, alloc: Global, dir: &mut Directory, text: &str) -> Result<()> {
    match change(alloc, dir, text)? {
        Answer::Edits(count) => println!(rt; "{count} keys edited")?,
        Answer::Refused(code) => println!(rt; "{code}")?,
    }
    Ok(())
}

fn print_changes(rt: &impl Print, alloc: Global, dir: &mut Directory) -> Result<()> {
    print_directory(rt, alloc, dir)?;
    for text in RECORDS {
        print_change(rt, alloc, dir, text)?;
    }
    print_directory(rt, alloc, dir)
}

/// Prints the answer to each record, and what stands in the end.
pub(crate) fn print(rt: &impl Print, alloc: Global) -> Result<()> {
    let mut dir = directory(alloc, PEOPLE)?;
    print_changes(rt, alloc, &mut dir)
}
