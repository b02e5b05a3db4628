//! Files as they are stored: first a draft of each, and then all drafts take their places.
ghost use Rattle.std.specs.Prelude.{◌≡◌, ℕ, ◌⊎◌, List, [], ◌∷◌, ⊤, IfOk, IfErr, OnOk, OnErr};
ghost use Rattle.databases.specs.Runs.{dump, dump_to};
ghost use Rattle.databases.specs.IndexTexts.{stamp as stamp_by, index_text};
ghost use Rattle.folders.specs.Folders.{with_file, with_files};
ghost use Rattle.commands.specs.DirectoryFiles.{file_in};
ghost use Rattle.commands.specs.Failures.{FailsToWrite, NamesUnwritten};
ghost use Rattle.commands.specs.inner.Stores.{OfDraft, OfDrafts, StoresPartly, database_files, index_files};

use crate::database::path;
use crate::messages::CommandFault;
use databases::{Database, Stamp};
use device::Sink;
use folders::{Drafted, FileText, Folder, FolderFault, Unpublished};
use ldif::{LineWidth, WriteFault};
use std::alloc::Global;

/// The dump of a database, with lines of a width.
#[derive(Clone, Copy, Drop)]
pub struct Dump<'a> {
    pub database: &'a Database,
    pub width: LineWidth,
}

impl FileText for Dump<'_> {
    type Answer = ();

    ghost text = { λ d. dump_to d.width d.database.now.conf d.database.now.entries };

    ghost answers = { λ _ _. ⊤ };

    fn write<W: Sink>(&self, alloc: Global, sink: &mut W) -> Result<(), WriteFault> {
        self.database.dump_to(alloc, self.width, sink)
    }
}

/// The dump of a database, of which the stamp is answered.
#[derive(Clone, Copy, Drop)]
struct StampedDump<'a> {
    database: &'a Database,
}

impl FileText for StampedDump<'_> {
    /// The stamp of the dump.
    type Answer = Stamp;

    ghost text = { λ d. dump d.database.now.conf d.database.now.entries };

    ghost answers = { λ d s. s ≡ stamp_by d.database.now.conf d.database.now.entries };

    fn write<W: Sink>(&self, alloc: Global, sink: &mut W) -> Result<Stamp, WriteFault> {
        self.database.stamped_dump(alloc, sink)
    }
}

/// The text of the index of a database's entries.
#[derive(Clone, Copy, Drop)]
struct IndexText<'a> {
    database: &'a Database,
    stamp: &'a Stamp,
    ghost is_stamp: { stamp.now ≡ stamp_by database.now.conf database.now.entries },
}

impl FileText for IndexText<'_> {
    type Answer = ();

    ghost text = { λ t. index_text t.database.now.conf t.database.now.entries };

    ghost answers = { λ _ _. ⊤ };

    fn write<W: Sink>(&self, alloc: Global, sink: &mut W) -> Result<(), WriteFault> {
        self.database.write_index_text(alloc, self.stamp, sink)
    }
}

/// Writes the next contents of the file of this name, which takes its place once it is published.
fn draft<F: Folder, T: FileText>(
    alloc: Global,
    folder: &F,
    name: &str,
    text: &T,
) -> Result<Drafted<F::Draft, T::Answer>, CommandFault>
    ensures ok { IfOk result (λ d. F.is_draft d.draft name.now (T.text text.now)) }
    ensures answer { IfOk result (λ d. T.answers text.now d.answer) }
    ensures err { IfErr result (FailsToWrite name.now) }
{
    match folder.draft(name, text) {
        Ok(drafted) => Ok(drafted),
        Err(FolderFault::Device) => Err(CommandFault::cannot_write(alloc, name)),
        Err(FolderFault::OutOfMemory) => Err(CommandFault::OutOfMemory),
    }
}

/// Puts a draft in the place of its file. It asks for no memory.
fn publish<F: Folder>(folder: &mut F, draft: F::Draft) -> Result<(), CommandFault>
    ensures ok { OfDraft F.is_draft draft (λ name text.
        OnOk result (F.files folder.new ≡ with_file (F.files folder.old) name text)) }
    ensures same { OnErr result (F.files folder.new ≡ F.files folder.old) }
    ensures err { OfDraft F.is_draft draft (λ name _. IfErr result (NamesUnwritten name)) }
    ensures locking { F.locking folder.new ≡ F.locking folder.old }
{
    match folder.publish(draft) {
        Ok(()) => Ok(()),
        Err(Unpublished { name }) => Err(CommandFault::CannotWrite(name)),
    }
}

/// Puts a text in place of the file of this name.
pub fn store<F: Folder, T: FileText>(
    alloc: Global,
    folder: &mut F,
    name: &str,
    text: &T,
) -> Result<(), CommandFault>
    ensures ok { OnOk result (F.files folder.new ≡ with_file (F.files folder.old) name.now (T.text text.now)) }
    ensures same { OnErr result (F.files folder.new ≡ F.files folder.old) }
    ensures locking { F.locking folder.new ≡ F.locking folder.old }
    ensures err { IfErr result (FailsToWrite name.now) }
{
    let drafted = draft(alloc, folder, name, text)?;
    publish(folder, drafted.draft)?;
    folder.settle(name);
    Ok(())
}

/// Puts the text of the index of these entries in place of the folder's index.txt, where the stamp of their dump is at hand.
fn store_index_with<F: Folder>(
    alloc: Global,
    folder: &mut F,
    db: &str,
    database: &Database,
    stamp: &Stamp,
) -> Result<(), CommandFault>
    requires { stamp.now ≡ stamp_by database.now.conf database.now.entries }
    ensures ok { OnOk result
        (F.files folder.new ≡ with_files (F.files folder.old) (index_files db.now database.now)) }
    ensures err { IfErr result
        (StoresPartly (index_files db.now database.now) (F.files folder.old) (F.files folder.new)) }
    ensures locking { F.locking folder.new ≡ F.locking folder.old }
{
    match path(alloc, db, "index.txt") {
        Ok(name) => store(alloc, folder, name.as_str(), &IndexText { database, stamp }),
        Err(_) => Err(CommandFault::OutOfMemory),
    }
}

/// Puts the text of the index of these entries in place of the folder's index.txt.
pub fn store_index<F: Folder>(
    alloc: Global,
    folder: &mut F,
    db: &str,
    database: &Database,
) -> Result<(), CommandFault>
    ensures ok { OnOk result
        (F.files folder.new ≡ with_files (F.files folder.old) (index_files db.now database.now)) }
    ensures err { IfErr result
        (StoresPartly (index_files db.now database.now) (F.files folder.old) (F.files folder.new)) }
    ensures locking { F.locking folder.new ≡ F.locking folder.old }
{
    match database.stamp(alloc) {
        Ok(stamp) => store_index_with(alloc, folder, db, database, &stamp),
        Err(_) => Err(CommandFault::OutOfMemory),
    }
}

/// The next contents of the two files of a directory.
#[derive(Drop)]
struct DirectoryDrafts<D> {
    dump: D,
    index: D,
}

/// Writes the dump of these entries as the next data.ldif, and the text of their index as the next index.txt.
fn draft_database<F: Folder>(
    alloc: Global,
    folder: &F,
    data_name: &str,
    index_name: &str,
    database: &Database,
) -> Result<DirectoryDrafts<F::Draft>, CommandFault>
    ensures dump { IfOk result (λ d. F.is_draft d.dump data_name.now (dump database.now.conf database.now.entries)) }
    ensures index { IfOk result (λ d.
        F.is_draft d.index index_name.now (index_text database.now.conf database.now.entries)) }
    ensures err { IfErr result (λ f. FailsToWrite data_name.now f ⊎ FailsToWrite index_name.now f) }
{
    let dumped = draft(alloc, folder, data_name, &StampedDump { database })?;
    let stamp = &dumped.answer;
    let indexed = draft(alloc, folder, index_name, &IndexText { database, stamp })?;
    Ok(DirectoryDrafts {
        dump: dumped.draft,
        index: indexed.draft,
    })
}

/// Puts both drafts in the places of their files, that of data.ldif first. It asks for no memory.
fn publish_database<F: Folder>(
    folder: &mut F,
    drafts: DirectoryDrafts<F::Draft>,
) -> Result<(), CommandFault>
    ensures ok { OfDrafts F.is_draft drafts.dump drafts.index (λ dump index.
        OnOk result (F.files folder.new ≡ with_files (F.files folder.old) (dump ∷ index ∷ []))) }
    ensures err { OfDrafts F.is_draft drafts.dump drafts.index (λ dump index.
        IfErr result (StoresPartly (dump ∷ index ∷ []) (F.files folder.old) (F.files folder.new))) }
    ensures locking { F.locking folder.new ≡ F.locking folder.old }
{
    publish(folder, drafts.dump)?;
    publish(folder, drafts.index)
}

/// Puts the dump of these entries in place of the folder's data.ldif, and the text of their index in place of index.txt. Both are written
/// whole before either is stored.
pub fn store_database<F: Folder>(
    alloc: Global,
    folder: &mut F,
    db: &str,
    database: &Database,
) -> Result<(), CommandFault>
    ensures ok { OnOk result
        (F.files folder.new ≡ with_files (F.files folder.old) (database_files db.now database.now)) }
    ensures err { IfErr result
        (StoresPartly (database_files db.now database.now) (F.files folder.old) (F.files folder.new)) }
    ensures locking { F.locking folder.new ≡ F.locking folder.old }
{
    let data_path = path(alloc, db, "data.ldif")?;
    let index_path = path(alloc, db, "index.txt")?;
    let (data_name, index_name) = (data_path.as_str(), index_path.as_str());
    let drafts = draft_database(alloc, folder, data_name, index_name, database)?;
    publish_database(folder, drafts)?;
    folder.settle(data_name);
    Ok(())
}
