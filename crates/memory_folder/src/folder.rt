//! A folder of files in memory, of which one can fail.
ghost use Rattle.std.specs.Prelude.{◌≡◌, ℕ, true, false, List, Option, None, Some, Ok, Err, IsOk, IsErr, IfOk, IfErr, IfSome, OnOk, OnErr, string_bytes};
ghost use Rattle.std.specs.Option.{option_map};
ghost use Rattle.std.specs.FinMap as finite;
ghost use Rattle.device.specs.Adapters.{read_seen};
ghost use Rattle.folders.specs.Folders.{Finds, with_file};
ghost use Rattle.folders.specs.Locks.{IsNotTaken, Takes};
ghost use Rattle.folders.specs.declared.folder.FolderFault.{FolderFault};
ghost use Rattle.folders.specs.declared.folder.LockFault.{LockFault};
ghost use Rattle.memory_folder.specs.Memory.{files_of, folder_files, folder_locking, folder_trouble, trouble_at, left_of, reading_limit, storing_limit, bars_publishing, lock_fault, is_draft};

use crate::contents::Contents;
use crate::files::MemoryFiles;
use device::OfRead;
use folders::{Drafted, FileText, Folder, FolderFault, LockFault, Unpublished};
use std::alloc::{AllocError, Global};
use std::io::ErrorKind;
use try_device::TrySink;

/// How many bytes of a file are stored at a time: few, so that most texts go in several pieces.
const PIECE: usize = 7;

/// How a file fails.
#[derive(Clone, Copy)]
pub enum FileTrouble {
    /// It can't be opened.
    Open,
    /// There is no memory to open it.
    OpenMemory,
    /// Another process holds its lock.
    InUse,
    /// It can't be locked.
    Lock,
    /// There is no memory to lock it.
    LockMemory,
    /// Reading it fails behind so many bytes.
    Read(usize),
    /// Writing its next contents fails behind so many bytes.
    Store(usize),
    /// There is no memory for its next contents.
    StoreMemory,
    /// Its next contents can't take its place.
    Publish,
}

/// How many bytes of a file are read before reading fails, where it does; or why it isn't opened.
fn reading_limit(trouble: Option<FileTrouble>) -> Result<Option<usize>, FolderFault>
    ensures { result ≡ reading_limit trouble }
{
    match trouble {
        Some(FileTrouble::Open) => Err(FolderFault::Device),
        Some(FileTrouble::OpenMemory) => Err(FolderFault::OutOfMemory),
        Some(FileTrouble::Read(limit)) => Ok(Some(limit)),
        _ => Ok(None),
    }
}

/// How many bytes of a file's next contents are written before writing fails, where it does; or why they aren't written.
fn storing_limit(trouble: Option<FileTrouble>) -> Result<Option<usize>, FolderFault>
    ensures { result ≡ storing_limit trouble }
{
    match trouble {
        Some(FileTrouble::StoreMemory) => Err(FolderFault::OutOfMemory),
        Some(FileTrouble::Store(limit)) => Ok(Some(limit)),
        _ => Ok(None),
    }
}

/// Why a file isn't locked, where it isn't.
fn lock_fault(trouble: Option<FileTrouble>) -> Option<LockFault>
    ensures { result ≡ lock_fault trouble }
{
    match trouble {
        Some(FileTrouble::InUse) => Some(LockFault::InUse),
        Some(FileTrouble::Open) | Some(FileTrouble::Lock) => Some(LockFault::Device),
        Some(FileTrouble::OpenMemory) | Some(FileTrouble::LockMemory) => {
            Some(LockFault::OutOfMemory)
        }
        _ => None,
    }
}

/// Whether a file's next contents can't take its place.
fn bars_publishing(trouble: Option<FileTrouble>) -> bool
    ensures { result ≡ bars_publishing trouble }
{
    matches!(trouble, Some(FileTrouble::Publish))
}

/// The next contents of a file.
#[derive(Drop)]
pub struct MemoryDraft {
    name: String,
    bytes: Vec<u8>,
}

/// A folder of files in memory, of which one can fail.
#[derive(Drop)]
pub struct MemoryFolder<'t> {
    alloc: Global,
    files: MemoryFiles,
    trouble: Option<(&'t str, FileTrouble)>,
    holds_lock: bool,
}

impl<'t> MemoryFolder<'t> {
    /// A folder of these files, in which none fails.
    pub fn new(alloc: Global, files: MemoryFiles) -> MemoryFolder<'t>
        ensures files { folder_files result ≡ files_of files }
        ensures trouble { (name : List ℕ) → folder_trouble result name ≡ None }
        ensures held { (folder_locking result).held ≡ false }
    {
        MemoryFolder {
            alloc,
            files,
            trouble: None,
            holds_lock: false,
        }
    }

    /// Its files.
    pub fn files(&self) -> &MemoryFiles
        ensures { files_of result.now ≡ folder_files self.now }
    {
        &self.files
    }

    /// From now on the file of this name fails so, and no other, or none does. The files stay as they are.
    pub fn set_trouble(&mut self, trouble: Option<(&'t str, FileTrouble)>)
        ensures files { folder_files self.new ≡ folder_files self.old }
        ensures trouble { (name : List ℕ) → folder_trouble self.new name ≡ trouble_at trouble.entry name }
    {
        self.trouble = trouble;
    }

    /// Gives the lock back that it holds, as the end of a process does. The files stay as they are.
    pub fn unlock(&mut self)
        ensures files { folder_files self.new ≡ folder_files self.old }
        ensures trouble { (name : List ℕ) → folder_trouble self.new name ≡ folder_trouble self.old name }
        ensures held { (folder_locking self.new).held ≡ false }
    {
        self.holds_lock = false;
    }

    fn trouble_of(&self, name: &str) -> Option<FileTrouble>
        ensures { result ≡ folder_trouble self.now name.now }
    {
        match self.trouble {
            Some((troubled, trouble)) if troubled == name => Some(trouble),
            _ => None,
        }
    }
}

impl<'t> Folder for MemoryFolder<'t> {
    type In = OfRead<Contents>;

    type Draft = MemoryDraft;

    ghost use Rattle.memory_folder.specs.Memory.{folder_files, folder_locking, is_draft};

    ghost is_draft = { is_draft };

    ghost files = { λ f. Some (folder_files f) };

    ghost locking = { folder_locking };

    fn lock(&mut self, name: &str, _seconds: u32) -> Result<(), LockFault>
        ensures ok { OnOk result (Takes name.now (Some (folder_files self.old)) (Some (folder_files self.new)) (folder_locking self.old) (folder_locking self.new)) }
        ensures err { IfErr result (IsNotTaken (Some (folder_files self.old)) (folder_locking self.old).others name.now) }
        ensures same_files { OnErr result (Some (folder_files self.new) ≡ Some (folder_files self.old)) }
        ensures same_locking { OnErr result (folder_locking self.new ≡ folder_locking self.old) }

        // Beside what the trait says: why a file that is there isn't locked, and that it is else.
        ensures fault { (fault : LockFault) → lock_fault (folder_trouble self.old name.now) ≡ Some fault
            → finite.contains_key (folder_files self.old) name.now ≡ true → result ≡ Err fault }
        ensures free { lock_fault (folder_trouble self.old name.now) ≡ None → finite.contains_key (folder_files self.old) name.now ≡ true → IsOk result }
    {
        if self.files.get(name).is_none() {
            return Err(LockFault::Device);
        }
        match lock_fault(self.trouble_of(name)) {
            Some(fault) => Err(fault),
            None => {
                self.holds_lock = true;
                Ok(())
            }
        }
    }

    fn open(&self, name: &str) -> Result<Option<OfRead<Contents>>, FolderFault>
        ensures finds { IfOk result (λ o. Finds (Some (folder_files self.now)) name.now (option_map (λ s. (read_seen left_of s).left) o)) }
        ensures failed { IfOk result (λ o. IfSome o (λ s. (read_seen left_of s).failed ≡ 0)) }

        // Beside what the trait says: how a file can't be opened, and that it is else, where there is memory.
        ensures fault { (fault : FolderFault) → reading_limit (folder_trouble self.now name.now) ≡ Err fault → result ≡ Err fault }
        ensures free { (limit : Option ℕ) → reading_limit (folder_trouble self.now name.now) ≡ Ok limit → IfErr result (λ f. f ≡ FolderFault.OutOfMemory) }
    {
        let limit = reading_limit(self.trouble_of(name))?;
        match self.files.get(name) {
            Some(bytes) => {
                let bytes = Vec::from_slice(self.alloc, bytes)?;
                Ok(Some(OfRead::new(Contents::new(bytes, limit))))
            }
            None => Ok(None),
        }
    }

    fn draft<T: FileText>(
        &self,
        name: &str,
        text: &T,
    ) -> Result<Drafted<MemoryDraft, T::Answer>, FolderFault>
        ensures ok { IfOk result (λ d. is_draft d.draft name.now (T.text text.now)) }
        ensures answer { IfOk result (λ d. T.answers text.now d.answer) }

        // Beside what the trait says: how the next contents of a file can't be written.
        ensures fault { (fault : FolderFault) → storing_limit (folder_trouble self.now name.now) ≡ Err fault → result ≡ Err fault }
    {
        let limit = storing_limit(self.trouble_of(name))?;
        let mut sink = TrySink::new(self.alloc, PIECE, limit);
        let answer = text.write(self.alloc, &mut sink)?;
        let draft = MemoryDraft {
            name: String::from_str(self.alloc, name)?,
            bytes: Vec::from_slice(self.alloc, sink.bytes())?,
        };
        Ok(Drafted { draft, answer })
    }

    /// Where memory runs out, it can't take its place either.
    fn publish(&mut self, draft: MemoryDraft) -> Result<(), Unpublished>
        ensures ok { (name text : List ℕ) → is_draft draft name text
            → OnOk result (Some (folder_files self.new) ≡ with_file (Some (folder_files self.old)) name text) }
        ensures named { (name text : List ℕ) → is_draft draft name text → IfErr result (λ u. string_bytes u.name ≡ name) }
        ensures err { OnErr result (Some (folder_files self.new) ≡ Some (folder_files self.old)) }
        ensures locking { folder_locking self.new ≡ folder_locking self.old }

        // Beside what the trait says: how a draft can't take its place, and that other files still fail so.
        ensures trouble { (q : List ℕ) → folder_trouble self.new q ≡ folder_trouble self.old q }
        ensures barred { (name text : List ℕ) → is_draft draft name text → bars_publishing (folder_trouble self.old name) ≡ true → IsErr result }
    {
        let MemoryDraft { name, bytes } = draft;
        if bars_publishing(self.trouble_of(name.as_str())) {
            return Err(Unpublished { name });
        }
        match self.files.put(name.as_str(), bytes.as_slice()) {
            Ok(()) => Ok(()),
            Err(_) => Err(Unpublished { name }),
        }
    }

    fn settle(&self, _name: &str) {}

    fn last_failure(&self) -> Option<ErrorKind> {
        None
    }

    fn is_one_place(&self, name: &str, other: &str) -> bool {
        name == other
    }

    fn left_drafts(&self, _name: &str) -> Result<Vec<String>, AllocError> {
        Ok(Vec::new(self.alloc))
    }

    fn is_open_to_others(&self, _name: &str) -> bool {
        false
    }
}
