//! index.txt of a directory, as a search reads it.
ghost use Rattle.std.specs.Prelude.{◌≡◌, ℕ, ◌<◌, ◌-◌, ◌^◌, List, Option, Some, IfOk, IfErr, OnOk, string_bytes};
ghost use Rattle.std.specs.List.{AllByRecursion};
ghost use Rattle.device.specs.Device.{Took};
ghost use Rattle.candidates.specs.Asked.{asked_keys};
ghost use Rattle.candidates.specs.Candidates.{prepared_of};
ghost use Rattle.databases.specs.IndexTexts.{stamp as stamp_by, index_text};
ghost use Rattle.databases.specs.Searches.{ShowsIndexText};
ghost use Rattle.stored_index.specs.Stored.{shown_by};
ghost use Rattle.index_text.specs.Postings.{slot_in};
ghost use Rattle.stored_index.specs.Rows.{IsByte};
ghost use Rattle.try_device.specs.Memory.{sink_written};
ghost use Rattle.commands.specs.Failures.{FailsToRead};
ghost use Rattle.folders.specs.Folders.{Files, Finds};
ghost use Rattle.commands.specs.DirectoryFiles.{index_name};
ghost use Rattle.commands.specs.IndexFiles.{Said, index_fault_text, ReportsFault};
ghost use Rattle.commands.specs.Messages.{line_of};
ghost use Rattle.commands.specs.inner.IndexFiles.{IsKindOf, HasRead, HasReadWhole, FailsToReportFault, FailsToReport};
ghost use Rattle.commands.specs.inner.Stopped.{CanReport};

use crate::database::{open, path};
use crate::messages::{CommandFault, Stop};
use crate::telling::CommandTeller;
use candidates::asked_keys;
use databases::{Database, Stamp, index_texts_reflect_dumps, kept_index_texts_are_read};
use device::{Sink, Source, push_all};
use filter::Prepared;
use folders::Folder;
use index_text::SlotKey;
use std::alloc::{AllocError, Global};
use stored_index::{IndexFault, IndexFaultKind, StoredIndex};
use try_device::{TrySink, TrySource};

/// How many bytes of a text in memory are read at a time.
pub const PIECE: usize = 65536;

/// What index.txt says of a directory.
#[derive(Drop)]
pub enum IndexFile {
    /// There is no such file.
    Missing,
    /// It can be read, and is of this directory as far as its stamp tells. These are the keys of it that a filter asks for.
    Read(StoredIndex),
    /// This is the first thing wrong with it.
    Faulty(IndexFaultKind),
}

// what a contract sees of bytes: each is below 256
fn are_bytes(bytes: &[u8])
    ensures { AllByRecursion IsByte bytes.now }
{}

/// Reads an index text of a directory from a source that has this name, and keeps of it these keys, which are those that a filter asks for.
fn read_keys<S: Source>(
    alloc: Global,
    source: &mut S,
    name: &str,
    database: &Database,
    filter: &Prepared,
    asked: &[SlotKey],
    stamp: Stamp,
) -> Result<IndexFile, CommandFault>
    requires can_fail { (S.seen source.old).failed < 2 ^ 64 - 1 }
    requires asked { asked.now ≡ asked_keys (slot_in database.now.conf.slots) (prepared_of filter.now) }
    requires stamp { stamp ≡ stamp_by database.now.conf database.now.entries }
    ensures read { IfOk result (λ file. (files : Option Files) (db : List ℕ)
        → Finds files (index_name db) (Some (S.seen source.old).left)
        → HasRead files db database.now filter.now file) }
    ensures err { IfErr result (FailsToRead name.now) }
{
    let conf = database.conf();
    let tree = database.tree();
    conf.rules_are_kept();
    tree.entries_are_a_directory();
    index_texts_reflect_dumps();
    kept_index_texts_are_read();
    are_bytes(&stamp);
    match StoredIndex::read_asked(alloc, source, conf, &stamp, tree.len(), asked) {
        Ok(stored) => Ok(IndexFile::Read(stored)),
        Err(IndexFault::Fault(kind)) => Ok(IndexFile::Faulty(kind)),
        Err(IndexFault::Device) => Err(CommandFault::cannot_read(alloc, name)),
        Err(IndexFault::OutOfMemory) => Err(CommandFault::OutOfMemory),
    }
}

/// Reads an index text of a directory from a source that has this name, and keeps of it what a filter asks for.
fn read_source<S: Source>(
    alloc: Global,
    source: &mut S,
    name: &str,
    database: &Database,
    filter: &Prepared,
) -> Result<IndexFile, CommandFault>
    requires { (S.seen source.old).failed < 2 ^ 64 - 1 }
    ensures read { IfOk result (λ file. (files : Option Files) (db : List ℕ)
        → Finds files (index_name db) (Some (S.seen source.old).left)
        → HasRead files db database.now filter.now file) }
    ensures err { IfErr result (FailsToRead name.now) }
{
    let Ok(stamp) = database.stamp(alloc) else {
        return Err(CommandFault::OutOfMemory);
    };
    let Ok(asked) = asked_keys(alloc, filter, database.conf().slots()) else {
        return Err(CommandFault::OutOfMemory);
    };
    read_keys(
        alloc,
        source,
        name,
        database,
        filter,
        asked.as_slice(),
        stamp,
    )
}

/// Reads the index text of a directory in the file of this name, and keeps of it what a filter asks for.
fn read_named<F: Folder>(
    alloc: Global,
    folder: &F,
    name: &str,
    database: &Database,
    filter: &Prepared,
) -> Result<IndexFile, CommandFault>
    ensures read { IfOk result (λ file. (db : List ℕ) → name.now ≡ index_name db
        → HasRead (F.files folder.now) db database.now filter.now file) }
    ensures err { IfErr result (FailsToRead name.now) }
{
    match open(alloc, folder, name) {
        Ok(Some(mut source)) => read_source(alloc, &mut source, name, database, filter),
        Ok(None) => Ok(IndexFile::Missing),
        Err(fault) => Err(fault),
    }
}

/// Reads index.txt in the folder `db`, of the directory that was loaded from there, and keeps of it what a filter asks for.
pub fn read_index<F: Folder>(
    alloc: Global,
    folder: &F,
    db: &str,
    database: &Database,
    filter: &Prepared,
) -> Result<IndexFile, CommandFault>
    ensures read { IfOk result (HasRead (F.files folder.now) db.now database.now filter.now) }
    ensures err { IfErr result (FailsToRead (index_name db.now)) }
{
    let Ok(name) = path(alloc, db, "index.txt") else {
        return Err(CommandFault::OutOfMemory);
    };
    read_named(alloc, folder, name.as_str(), database, filter)
}

/// Reads an index text of a directory from a source that has this name, whole.
fn read_all_keys<S: Source>(
    alloc: Global,
    source: &mut S,
    name: &str,
    database: &Database,
) -> Result<IndexFile, CommandFault>
    requires { (S.seen source.old).failed < 2 ^ 64 - 1 }
    ensures read { IfOk result (λ file. (files : Option Files) (db : List ℕ)
        → Finds files (index_name db) (Some (S.seen source.old).left)
        → HasReadWhole files db database.now file) }
    ensures err { IfErr result (FailsToRead name.now) }
{
    let Ok(stamp) = database.stamp(alloc) else {
        return Err(CommandFault::OutOfMemory);
    };
    let conf = database.conf();
    let tree = database.tree();
    conf.rules_are_kept();
    tree.entries_are_a_directory();
    index_texts_reflect_dumps();
    kept_index_texts_are_read();
    are_bytes(&stamp);
    match database.read_index(alloc, source, &stamp) {
        Ok(stored) => Ok(IndexFile::Read(stored)),
        Err(IndexFault::Fault(kind)) => Ok(IndexFile::Faulty(kind)),
        Err(IndexFault::Device) => Err(CommandFault::cannot_read(alloc, name)),
        Err(IndexFault::OutOfMemory) => Err(CommandFault::OutOfMemory),
    }
}

/// Reads the index text of a directory in the file of this name, whole.
fn read_whole_named<F: Folder>(
    alloc: Global,
    folder: &F,
    name: &str,
    database: &Database,
) -> Result<IndexFile, CommandFault>
    ensures read { IfOk result (λ file. (db : List ℕ) → name.now ≡ index_name db
        → HasReadWhole (F.files folder.now) db database.now file) }
    ensures err { IfErr result (FailsToRead name.now) }
{
    match open(alloc, folder, name) {
        Ok(Some(mut source)) => read_all_keys(alloc, &mut source, name, database),
        Ok(None) => Ok(IndexFile::Missing),
        Err(fault) => Err(fault),
    }
}

/// Reads index.txt in the folder `db`, of the directory that was loaded from there, whole: what is kept of it serves every filter.
pub fn read_whole_index<F: Folder>(
    alloc: Global,
    folder: &F,
    db: &str,
    database: &Database,
) -> Result<IndexFile, CommandFault>
    ensures read { IfOk result (HasReadWhole (F.files folder.now) db.now database.now) }
    ensures err { IfErr result (FailsToRead (index_name db.now)) }
{
    let Ok(name) = path(alloc, db, "index.txt") else {
        return Err(CommandFault::OutOfMemory);
    };
    read_whole_named(alloc, folder, name.as_str(), database)
}

/// The text of a directory's index, in memory.
pub fn own_text(alloc: Global, database: &Database) -> Result<TrySink, AllocError>
    ensures { IfOk result (λ s. (sink_written s).bytes ≡ Some (index_text database.now.conf database.now.entries)) }
{
    let stamp = database.stamp(alloc)?;
    let mut sink = TrySink::new(alloc, usize::MAX, None);
    match database.write_index_text(alloc, &stamp, &mut sink) {
        Ok(()) => Ok(sink),
        Err(_) => Err(AllocError),
    }
}

/// The index of a directory as its own index text says it. That text is made, and read, in memory alone.
pub fn make_index(alloc: Global, database: &Database) -> Result<StoredIndex, AllocError>
    ensures { IfOk result (λ x. ShowsIndexText (shown_by x) database.now.conf database.now.entries) }
{
    let own = own_text(alloc, database)?;
    let stamp = database.stamp(alloc)?;
    let mut source = TrySource::new(own.bytes(), PIECE, None);
    match database.read_index(alloc, &mut source, &stamp) {
        Ok(stored) => Ok(stored),
        Err(_) => Err(AllocError),
    }
}

/// Has a teller take note of what is wrong with index.txt in the folder `db`, if anything is. The file is read once more for this.
pub fn note_index<F: Folder, T: CommandTeller>(
    alloc: Global,
    folder: &F,
    db: &str,
    database: &Database,
    file: &IndexFile,
    teller: &mut T,
) {
    let IndexFile::Faulty(_) = file else {
        return;
    };
    if !teller.is_heard() {
        return;
    }
    if let (Ok(name), Ok(stamp)) = (path(alloc, db, "index.txt"), database.stamp(alloc)) {
        if let Ok(Some(mut source)) = open(alloc, folder, name.as_str()) {
            let entries = database.tree().len();
            teller.note_index(alloc, &mut source, database.conf(), &stamp, entries);
        }
    }
}

fn line_of_fault(alloc: Global, fault: IndexFaultKind) -> Result<String, AllocError>
    ensures { IfOk result (λ s. string_bytes s ≡ line_of (index_fault_text fault)) }
{
    format!(in alloc; "index.txt: {fault}\n")
}

// reports a fault of index.txt
fn report_index_fault<E: Sink>(
    alloc: Global,
    err: &mut E,
    fault: IndexFaultKind,
) -> Result<(), Stop>
    requires { (E.written err.old).failed < 2 ^ 64 - 1 }
    ensures reported { OnOk result (Took (E.written err.old) (E.written err.new) (line_of (index_fault_text fault))) }
    ensures failed { OnOk result ((E.written err.new).failed ≡ (E.written err.old).failed) }
    ensures err { IfErr result (FailsToReportFault fault (E.written err.old) (E.written err.new)) }
    ensures can_report { IfErr result (λ why. CanReport why (E.written err.new).failed) }
{
    let Ok(line) = line_of_fault(alloc, fault) else {
        return Err(Stop::Fault(CommandFault::OutOfMemory));
    };
    match push_all(err, line.as_bytes()) {
        Ok(()) => Ok(()),
        Err(_) => Err(Stop::Messages),
    }
}

/// Reports what is wrong with index.txt, if anything is. Where that can't be reported, the command stops.
pub fn report_index<E: Sink>(alloc: Global, err: &mut E, file: &IndexFile) -> Result<(), Stop>
    requires { (E.written err.old).failed < 2 ^ 64 - 1 }
    ensures reports { (said : Said) → IsKindOf file.now said
        → OnOk result (ReportsFault said (E.written err.old) (E.written err.new)) }
    ensures failed { OnOk result ((E.written err.new).failed ≡ (E.written err.old).failed) }
    ensures err { (said : Said) → IsKindOf file.now said
        → IfErr result (FailsToReport said (E.written err.old) (E.written err.new)) }
    ensures can_report { IfErr result (λ why. CanReport why (E.written err.new).failed) }
{
    match file {
        IndexFile::Faulty(fault) => report_index_fault(alloc, err, *fault),
        IndexFile::Read(_) => Ok(()),
        IndexFile::Missing => Ok(()),
    }
}
