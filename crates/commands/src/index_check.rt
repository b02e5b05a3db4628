//! Whether index.txt is the text that slapindex writes of the directory.
ghost use Rattle.std.specs.Prelude.{◌≡◌, ◌++◌, ◌<◌, ◌-◌, ◌^◌, Some, IfOk, IfErr, IfSome, IsTrue, OnOk, codes};
ghost use Rattle.std.specs.FinMap as finite;
ghost use Rattle.checks.specs.IndexDifferences.{difference_of};
ghost use Rattle.checks.specs.Reports.{report};
ghost use Rattle.databases.specs.IndexTexts.{index_text, stamp as stamp_by};
ghost use Rattle.stored_index.specs.Faults.{fault_report};
ghost use Rattle.stored_index.specs.Stored.{index_in};
ghost use Rattle.folders.specs.Folders.{Finds};
ghost use Rattle.commands.specs.DirectoryFiles.{index_name};
ghost use Rattle.commands.specs.Failures.{FailsToRead};
ghost use Rattle.commands.specs.Checks.{line_of_difference, fault_in, in_brackets, other_conf, index_what, index_fault, index_report};
ghost use Rattle.commands.specs.inner.Checked.{ReportsIndex};

use crate::database::{contents, open, open_present, path};
use crate::index_file::{PIECE, own_text};
use crate::messages::CommandFault;
use checks::{put_report, slot_and_key_of_difference};
use databases::Database;
use device::{Device, Source};
use folders::Folder;
use std::alloc::{AllocError, Global};
use stored_index::{IndexFault, IndexFaultKind};
use try_device::TrySource;

/// The line on which two texts first differ, from 1.
#[tactic(auto, unfolding(crate::specs::Checks::line_of_difference))]
fn line_of_difference(text: &[u8], other: &[u8]) -> u64
    ensures { result ≡ line_of_difference text.now other.now }
{
    let mut line: u64 = 1;
    let mut ours = text;
    let mut theirs = other;
    'bytes: while !ours.is_empty() && !theirs.is_empty() && ours[0] == theirs[0] {
        if ours[0] == b'\n' {
            line += 1;
        }
        ours = &ours[1..];
        theirs = &theirs[1..];
    }
    line
}

/// What is wrong with the text of an index of a directory, where it can't be read as one.
fn fault_of(
    alloc: Global,
    database: &Database,
    text: &[u8],
) -> Result<Option<IndexFaultKind>, AllocError>
    ensures { IfOk result (λ fault. fault ≡ fault_in (index_in database.now.conf
        (finite.len database.now.entries) (stamp_by database.now.conf database.now.entries) text.now)) }
{
    let stamp = database.stamp(alloc)?;
    let mut source = TrySource::new(text, PIECE, None);
    match database.read_index(alloc, &mut source, &stamp) {
        Ok(_) => Ok(None),
        Err(IndexFault::Fault(kind)) => Ok(Some(kind)),
        Err(_) => Err(AllocError),
    }
}

/// Puts a slot and a key, if there is one, in brackets at the end of a text.
fn put_place(what: &mut Vec<u8>, place: &[u8]) -> Result<(), AllocError>
    ensures { OnOk result (what.new.items ≡ what.old.items ++ in_brackets place.now) }
{
    if place.is_empty() {
        return Ok(());
    }
    what.extend_from_slice(b" (")?;
    what.extend_from_slice(place)?;
    what.extend_from_slice(b")")
}

/// That index.txt is of another dir.conf: the line on which it isn't the text that slapindex writes, and the slot and the key.
fn other_conf(alloc: Global, line: u64, place: &[u8]) -> Result<Vec<u8>, AllocError>
    ensures { IfOk result (λ v. v.items ≡ other_conf line place.now) }
{
    let text = format!(in alloc; "line {line}: of another dir.conf: run slapindex")?;
    let mut what = Vec::from_slice(alloc, text.as_bytes())?;
    put_place(&mut what, place)?;
    Ok(what)
}

fn fault_text(alloc: Global, kind: IndexFaultKind) -> Result<Vec<u8>, AllocError>
    ensures { IfOk result (λ v. v.items ≡ fault_report kind) }
{
    let text = format!(in alloc; "{kind}")?;
    Vec::from_slice(alloc, text.as_bytes())
}

/// What is said of this text of index.txt: its fault, or where it isn't `own`.
fn what_of(
    alloc: Global,
    fault: Option<IndexFaultKind>,
    text: &[u8],
    own: &[u8],
) -> Result<Vec<u8>, AllocError>
    ensures { IfOk result (λ v. v.items
        ≡ index_what fault (line_of_difference text.now own.now) (difference_of text.now own.now)) }
{
    if let Some(kind) = fault {
        return fault_text(alloc, kind);
    }
    let place = slot_and_key_of_difference(alloc, text, own)?;
    other_conf(alloc, line_of_difference(text, own), place.as_slice())
}

/// Puts the report of a text of index.txt that isn't `own` at the end of a text.
fn put_index_report(
    alloc: Global,
    database: &Database,
    own: &[u8],
    text: &[u8],
    out: &mut Vec<u8>,
) -> Result<(), AllocError>
    ensures { OnOk result (out.new.items ≡ out.old.items ++ report (codes "faulty") (codes "index.txt")
        (index_what (index_fault database.now.conf database.now.entries text.now) (line_of_difference text.now own.now) (difference_of text.now own.now))) }
{
    let fault = fault_of(alloc, database, text)?;
    let what = what_of(alloc, fault, text, own)?;
    put_report(out, "faulty", b"index.txt", what.as_slice())
}

/// Puts a report at the end of a text where this text of index.txt isn't `own`, which slapindex writes of the directory.
fn report_text(
    alloc: Global,
    database: &Database,
    own: &[u8],
    text: &[u8],
    out: &mut Vec<u8>,
) -> Result<(), AllocError>
    requires { own.now ≡ index_text database.now.conf database.now.entries }
    ensures { OnOk result (out.new.items ≡ out.old.items ++ index_report database.now.conf database.now.entries text.now) }
{
    if text == own {
        return Ok(());
    }
    put_index_report(alloc, database, own, text, out)
}

/// What stands behind the bytes that a text begins with, if it does.
fn behind<'a>(text: &'a [u8], front: &[u8]) -> Option<&'a [u8]>
    ensures { IfSome result (λ rest. text.now ≡ front.now ++ rest.now) }
{
    if text.len() < front.len() {
        return None;
    }
    let (begin, rest) = text.split_at(front.len());
    if begin == front { Some(rest) } else { None }
}

/// Whether the bytes of a source that has this name are these. They are looked at as they come, since an index may be large.
fn has_bytes<S: Source>(
    alloc: Global,
    source: &mut S,
    name: &str,
    bytes: &[u8],
) -> Result<bool, CommandFault>
    requires { (S.seen source.old).failed < 2 ^ 64 - 1 }
    ensures same { IfOk result (λ same. IsTrue same → IfSome (S.seen source.old).left (λ bs. bytes.now ≡ bs)) }
    ensures err { IfErr result (FailsToRead name.now) }
{
    let mut piece = [0; PIECE];
    let mut rest = bytes;
    'pulls: loop {
        match source.pull(&mut piece) {
            Ok(0) => return Ok(rest.is_empty()),
            Ok(n) => {
                let Some(others) = behind(rest, &piece[..n]) else {
                    return Ok(false);
                };
                rest = others;
            }
            Err(Device) => return Err(CommandFault::cannot_read(alloc, name)),
        }
    }
}

/// Puts a report where the file of this name, which is there, isn't `own`. It is read whole.
fn report_whole<F: Folder>(
    alloc: Global,
    folder: &F,
    name: &str,
    database: &Database,
    own: &[u8],
    out: &mut Vec<u8>,
) -> Result<(), CommandFault>
    requires { own.now ≡ index_text database.now.conf database.now.entries }
    ensures reported { OnOk result (ReportsIndex (F.files folder.now) name.now database.now.conf database.now.entries out.old.items out.new.items) }
    ensures err { IfErr result (FailsToRead name.now) }
{
    match open_present(alloc, folder, name) {
        Ok(mut source) => match contents(alloc, &mut source, name) {
            Ok(text) => match report_text(alloc, database, own, text.as_slice(), out) {
                Ok(()) => Ok(()),
                Err(_) => Err(CommandFault::OutOfMemory),
            },
            Err(fault) => Err(fault),
        },
        Err(fault) => Err(fault),
    }
}

/// Puts a report where a source, which is the file of this name, doesn't have the text that slapindex writes of the directory.
fn report_source<F: Folder, S: Source>(
    alloc: Global,
    folder: &F,
    source: &mut S,
    name: &str,
    database: &Database,
    out: &mut Vec<u8>,
) -> Result<(), CommandFault>
    requires can_fail { (S.seen source.old).failed < 2 ^ 64 - 1 }
    requires there { Finds (F.files folder.now) name.now (Some (S.seen source.old).left) }
    ensures reported { OnOk result (ReportsIndex (F.files folder.now) name.now database.now.conf database.now.entries out.old.items out.new.items) }
    ensures err { IfErr result (FailsToRead name.now) }
{
    let own = own_text(alloc, database)?;
    match has_bytes(alloc, source, name, own.bytes()) {
        Ok(true) => Ok(()),
        Ok(false) => report_whole(alloc, folder, name, database, own.bytes(), out),
        Err(fault) => Err(fault),
    }
}

/// Puts a report at the end of a text where index.txt in the folder `db`, if it is there, isn't the text that slapindex writes of the directory.
pub fn report_index_file<F: Folder>(
    alloc: Global,
    folder: &F,
    db: &str,
    database: &Database,
    out: &mut Vec<u8>,
) -> Result<(), CommandFault>
    ensures reported { OnOk result (ReportsIndex (F.files folder.now) (index_name db.now) database.now.conf database.now.entries out.old.items out.new.items) }
    ensures err { IfErr result (FailsToRead (index_name db.now)) }
{
    let name = path(alloc, db, "index.txt")?;
    match open(alloc, folder, name.as_str()) {
        Ok(Some(mut source)) => {
            report_source(alloc, folder, &mut source, name.as_str(), database, out)
        }
        Ok(None) => Ok(()),
        Err(fault) => Err(fault),
    }
}
