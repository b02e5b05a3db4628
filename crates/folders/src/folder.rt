//! Files by their paths.
ghost use Rattle.std.specs.Prelude.{◌≡◌, ◌<◌, ◌-◌, ◌^◌, ℕ, true, false, List, [], Option, IfOk, IfErr, IfSome, OnOk, OnErr, string_bytes};
ghost use Rattle.std.specs.Option.{option_map};
ghost use Rattle.ldif.specs.Written.{Writes, end_of};
ghost use Rattle.folders.specs.Folders.{Files, Finds, with_file};
ghost use Rattle.folders.specs.Locks.{Locking, IsNotTaken, Takes};
ghost use Rattle.folders.specs.declared.folder.FolderFault.TheVariants.{OutOfMemory};

use device::{Sink, Source};
use ldif::WriteFault;
use std::alloc::{AllocError, AllocFailed, Global};
use std::io::{self, ErrorKind};
use thiserror::Error;

/// Why a file was not opened, or no draft of it was written.
#[derive(Clone, Copy, Debug, Error)]
pub enum FolderFault {
    #[error("device")]
    Device,
    #[error("out of memory")]
    OutOfMemory,
}

impl From<AllocError> for FolderFault {
    ghost from_gives = { λ _ f. f ≡ OutOfMemory };

    fn from(_: AllocError) -> FolderFault {
        FolderFault::OutOfMemory
    }
}

impl<T: Drop> From<AllocFailed<T>> for FolderFault {
    ghost from_gives = { λ _ f. f ≡ OutOfMemory };

    fn from(_: AllocFailed<T>) -> FolderFault {
        FolderFault::OutOfMemory
    }
}

impl From<io::Error> for FolderFault {
    fn from(error: io::Error) -> FolderFault {
        match error.kind() {
            ErrorKind::OutOfMemory => FolderFault::OutOfMemory,
            _ => FolderFault::Device,
        }
    }
}

impl From<WriteFault> for FolderFault {
    ghost use Rattle.std.specs.Prelude.{◌≡◌};
    ghost use Rattle.folders.specs.WriteFaults.{folder_fault};

    ghost from_gives = { λ w f. f ≡ folder_fault w };

    fn from(fault: WriteFault) -> FolderFault {
        match fault {
            WriteFault::Device => FolderFault::Device,
            WriteFault::OutOfMemory => FolderFault::OutOfMemory,
        }
    }
}

/// Why a lock was not taken.
#[derive(Clone, Copy, Debug, Error)]
pub enum LockFault {
    /// Another process holds it.
    #[error("in use")]
    InUse,
    /// The file can't be opened, or can't be locked.
    #[error("device")]
    Device,
    #[error("out of memory")]
    OutOfMemory,
}

impl From<AllocError> for LockFault {
    fn from(_: AllocError) -> LockFault {
        LockFault::OutOfMemory
    }
}

impl From<io::Error> for LockFault {
    fn from(error: io::Error) -> LockFault {
        match error.kind() {
            ErrorKind::OutOfMemory => LockFault::OutOfMemory,
            _ => LockFault::Device,
        }
    }
}

/// No draft could take the place of the file of this name.
#[derive(Drop, Debug, Error)]
#[error("{name}: cannot write")]
pub struct Unpublished {
    pub name: String,
}

/// A draft, and what is answered of the text that was written.
#[derive(Drop)]
pub struct Drafted<D, A> {
    pub draft: D,
    pub answer: A,
}

/// What can be written to a sink in pieces, so that it need not be in memory whole.
pub trait FileText {
    /// What is answered of it once it was written.
    type Answer: Drop;

    /// Its bytes.
    ghost text: { Self → List ℕ };

    /// What holds of an answer.
    ghost answers: { Self → Self.Answer → Type 0 };

    /// Writes all of it. On a fault a beginning was written.
    fn write<W: Sink>(&self, alloc: Global, sink: &mut W) -> Result<Self::Answer, WriteFault>
        requires { (W.written sink.old).failed < 2 ^ 64 - 1 }
        ensures writes { Writes (end_of result) (W.written sink.old) (W.written sink.new) (text self.now) }
        ensures answer { IfOk result (answers self.now) };
}

/// Files by their paths.
pub trait Folder {
    type In: Source + Drop;

    /// The next contents of a file, whole, which nobody reads until they are published. They go where it is dropped.
    type Draft: Drop;

    /// Whether it is a draft of the file of this name, and has these bytes.
    ghost is_draft: { Self.Draft → List ℕ → List ℕ → Type 0 };

    /// The files and their bytes, where the folder tells them: those in memory can, the system's can't.
    ghost files: { Self → Option Files };

    /// Whether it holds a lock, and what other processes do, where it tells that.
    ghost locking: { Self → Locking };

    /// Takes the lock of the file of this name, which one process at most holds at a time, and holds it for good: no call gives it back. Other
    /// processes may have written files until then, and where they write under this lock, they write none from then on. On a fault all stays
    /// as it was. Where another process holds it, the folder may try for so many seconds until that gives it back.
    fn lock(&mut self, name: &str, seconds: u32) -> Result<(), LockFault>
        ensures ok { OnOk result (Takes name.now (files self.old) (files self.new) (locking self.old) (locking self.new)) }
        ensures err { IfErr result (IsNotTaken (files self.old) (locking self.old).others name.now) }
        ensures same_files { OnErr result (files self.new ≡ files self.old) }
        ensures same_locking { OnErr result (locking self.new ≡ locking self.old) };

    /// The file's bytes from its beginning, or `None` where there is no such file.
    fn open(&self, name: &str) -> Result<Option<Self::In>, FolderFault>
        ensures finds { IfOk result (λ o. Finds (files self.now) name.now (option_map (λ s. (Self.In.seen s).left) o)) }
        ensures failed { IfOk result (λ o. IfSome o (λ s. (Self.In.seen s).failed ≡ 0)) };

    /// Writes the next contents of a file, and has them safe before it answers. No file changes, whatever comes of it.
    fn draft<T: FileText>(
        &self,
        name: &str,
        text: &T,
    ) -> Result<Drafted<Self::Draft, T::Answer>, FolderFault>
        ensures ok { IfOk result (λ d. is_draft d.draft name.now (T.text text.now)) }
        ensures answer { IfOk result (λ d. T.answers text.now d.answer) };

    /// Puts a draft in the place of its file, whole, and changes no other file. It asks for no memory. On a fault all files stay as they were.
    fn publish(&mut self, draft: Self::Draft) -> Result<(), Unpublished>
        ensures ok { (name text : List ℕ) → is_draft draft name text → OnOk result (files self.new ≡ with_file (files self.old) name text) }
        ensures named { (name text : List ℕ) → is_draft draft name text → IfErr result (λ u. string_bytes u.name ≡ name) }
        ensures err { OnErr result (files self.new ≡ files self.old) }
        ensures locking { locking self.new ≡ locking self.old };

    /// Sees to it that files that were published beside the one of this name are found there after a crash. Where it can't, they stand all
    /// the same.
    fn settle(&self, name: &str);

    /// What the system said where a call failed last, if it said something.
    fn last_failure(&self) -> Option<ErrorKind>;

    /// Whether a draft that is published under one name takes the place of what has the other.
    fn is_one_place(&self, name: &str, other: &str) -> bool
        ensures { name.now ≡ other.now → result ≡ true };

    /// The names of the drafts that runs which were killed left of the file of this name. A folder that tells its files has none.
    fn left_drafts(&self, name: &str) -> Result<Vec<String>, AllocError>
        ensures { IfOk result (λ drafts. IfSome (files self.now) (λ _. drafts.items ≡ [])) };

    /// Whether the file of this name has permissions for others than its owner. Of a folder that tells its files none has.
    fn is_open_to_others(&self, name: &str) -> bool
        ensures { IfSome (files self.now) (λ _. result ≡ false) };
}
