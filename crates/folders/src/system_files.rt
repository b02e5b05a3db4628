//! The files of the system as a folder.
ghost use Rattle.std.specs.Prelude.{◌≡◌, ⊤, false, None, IfOk, is_some, string_bytes};

use crate::drafts::{
    Draft, clear_left, find_left, is_for_others, is_same, make_draft, open_to_lock,
};
use crate::folder::{Drafted, FileText, Folder, FolderFault, LockFault, Unpublished};
use crate::last_failure::LastFailure;
use crate::paths::parted;
use crate::reading::{Counted, Reading};
use crate::uninterrupted::Uninterrupted;
use device::{OfRead, OfWrite};
use std::alloc::{AllocError, Global};
use std::fs::{self, File, OpenFile, TryLockError};
use std::io::{ErrorKind, Seek};
use std::rt::{Clock, Files};
use std::thread;
use std::time::Duration;

/// How often a second a lock is tried that another process holds.
const TRIES_A_SECOND: u64 = 10;

/// A file whose lock is held for as long as it is open.
#[derive(Drop)]
struct Locked {
    name: String,
    file: File,
}

/// A file of the system that is read.
type CountedFile<'r> = Counted<'r, Uninterrupted<'r, File>>;

/// The files of the system.
#[derive(Drop)]
pub struct SystemFiles<'r, R> {
    rt: &'r R,
    failure: &'r LastFailure,
    reading: &'r Reading,
    locked: Option<Locked>,
}

/// The next contents of a file.
#[derive(Drop)]
pub struct SystemDraft<'r, R: Files> {
    /// The file's path.
    name: String,
    /// Where they stand; `None` where they went into what has that name, as into a pipe.
    draft: Option<Draft<'r, R>>,
}

/// Whether this is a name that the system gives to an open file, whatever that is.
fn names_open_file(name: &str) -> bool {
    name == "/dev/stdout" || name == "/dev/stderr" || name.starts_with("/dev/fd/")
}

impl<'r, R: Files<File = File> + Clock + AllocGlobal + Clone + Drop> SystemFiles<'r, R> {
    /// No lock is held. `failure` keeps what the system says where a call fails, and `reading` how much is read.
    pub fn new(rt: &'r R, failure: &'r LastFailure, reading: &'r Reading) -> SystemFiles<'r, R>
        ensures { is_some result.locked ≡ false }
    {
        SystemFiles {
            rt,
            failure,
            reading,
            locked: None,
        }
    }

    fn counted(&self, file: File) -> CountedFile<'r> {
        let size = self.reading.size_of(&file);
        Counted::new(Uninterrupted::new(file, self.failure), self.reading, size)
    }

    /// Whether something has this name, be it a link that leads nowhere.
    fn is_there(&self, name: &str) -> bool {
        fs::symlink_metadata(self.rt, name).is_ok()
    }

    /// Whether something is there that is no plain file, as a device or a pipe, or that has the name of an open file.
    fn is_special(&self, name: &str) -> bool {
        match fs::metadata(self.rt, name) {
            Ok(found) => !found.is_file() || names_open_file(name),
            Err(_) => false,
        }
    }

    /// The locked file, where it has this name, from its beginning: another handle might not be allowed to read what this one has locked.
    fn open_locked(&self, name: &str) -> Result<Option<File>, FolderFault> {
        match &self.locked {
            Some(locked) if locked.name.as_str() == name => {
                let mut file = self.failure.noted(OpenFile::try_clone(&locked.file))?;
                self.failure.noted(file.rewind())?;
                Ok(Some(file))
            }
            _ => Ok(None),
        }
    }

    /// Takes the lock of the file that stands under this name now. The end of the process gives it back, however it ends. It is not taken of a
    /// pipe, which would never end while it is open here.
    fn try_lock(&self, name: &str) -> Result<Locked, LockFault> {
        if self.is_special(name) {
            return Err(LockFault::Device);
        }
        let path = String::from_str(self.rt.alloc(), name)?;
        let file = self.failure.noted(open_to_lock(self.rt, name))?;
        match file.try_lock() {
            Ok(()) => Ok(Locked { name: path, file }),
            Err(TryLockError::WouldBlock) => Err(LockFault::InUse),
            Err(TryLockError::Error(error)) => {
                self.failure.keep(error.kind());
                Err(LockFault::from(error))
            }
        }
    }

    /// Tries that until another process gives the lock back, for so many seconds.
    fn wait_for_lock(&self, name: &str, seconds: u32) -> Result<Locked, LockFault> {
        let pause = Duration::from_millis(1000 / TRIES_A_SECOND);
        for _ in 0..u64::from(seconds) * TRIES_A_SECOND {
            match self.try_lock(name) {
                Err(LockFault::InUse) => thread::sleep(self.rt, pause),
                answer => return answer,
            }
        }
        self.try_lock(name)
    }

    fn write_in_place<T: FileText>(&self, name: &str, text: &T) -> Result<T::Answer, FolderFault>
        ensures { IfOk result (T.answers text.now) }
    {
        let file = self.failure.noted(fs::create(self.rt, name))?;
        let mut sink = OfWrite::new(Uninterrupted::new(file, self.failure));
        let answer = text.write(self.rt.alloc(), &mut sink)?;
        Ok(answer)
    }

    /// Writes a text into a new draft of the file of this name.
    fn write_beside<T: FileText>(
        &self,
        name: &str,
        text: &T,
    ) -> Result<Drafted<Draft<'r, R>, T::Answer>, FolderFault>
        ensures { IfOk result (λ d. T.answers text.now d.answer) }
    {
        let alloc = self.rt.alloc();
        let _ = clear_left(self.rt, alloc, name);
        let mut draft = self.failure.noted(make_draft(self.rt, alloc, name))?;
        if let Ok(old) = fs::metadata(self.rt, name) {
            draft.follow(&old);
        }
        let mut sink = OfWrite::new(Uninterrupted::new(draft.file(), self.failure));
        let answer = text.write(alloc, &mut sink)?;
        drop(sink);
        self.failure.noted(draft.sync())?;
        Ok(Drafted { draft, answer })
    }
}

impl<'r, R: Files<File = File> + Clock + AllocGlobal + Clone + Drop> Folder for SystemFiles<'r, R> {
    type In = OfRead<CountedFile<'r>>;

    type Draft = SystemDraft<'r, R>;

    // Contracts know no bytes of the system's files.
    ghost files = { λ _. None };

    // Nor what other processes do.
    ghost locking = { λ f. record { held = is_some f.locked; others = None } };

    ghost is_draft = { λ d name _. string_bytes d.name ≡ name };

    /// The lock is the system's (flock), of the file that stands under the name when it is taken.
    fn lock(&mut self, name: &str, seconds: u32) -> Result<(), LockFault> {
        self.failure.clear();
        let locked = self.wait_for_lock(name, seconds)?;
        self.locked = Some(locked);
        Ok(())
    }

    /// A locked file is read by the handle that has its lock.
    fn open(&self, name: &str) -> Result<Option<OfRead<CountedFile<'r>>>, FolderFault> {
        self.failure.clear();
        if let Some(file) = self.open_locked(name)? {
            return Ok(Some(OfRead::new(self.counted(file))));
        }
        match self.failure.noted(fs::open(self.rt, name)) {
            Ok(file) => Ok(Some(OfRead::new(self.counted(file)))),
            Err(error) if error.kind() == ErrorKind::NotFound && !self.is_there(name) => Ok(None),
            Err(error) => Err(FolderFault::from(error)),
        }
    }

    /// They are written to a file beside it, and are on the disk then. What is no plain file is written in place, and needs no publishing.
    fn draft<T: FileText>(
        &self,
        name: &str,
        text: &T,
    ) -> Result<Drafted<SystemDraft<'r, R>, T::Answer>, FolderFault> {
        self.failure.clear();
        let path = String::from_str(self.rt.alloc(), name)?;
        if self.is_special(name) {
            let answer = self.write_in_place(name, text)?;
            let draft = SystemDraft {
                name: path,
                draft: None,
            };
            return Ok(Drafted { draft, answer });
        }
        let Drafted { draft, answer } = self.write_beside(name, text)?;
        let draft = SystemDraft {
            name: path,
            draft: Some(draft),
        };
        Ok(Drafted { draft, answer })
    }

    /// At each moment the old file or the new one is there whole.
    fn publish(&mut self, draft: SystemDraft<'r, R>) -> Result<(), Unpublished> {
        let SystemDraft { name, draft } = draft;
        match draft {
            Some(mut draft) => match self.failure.noted(draft.publish(name.as_str())) {
                Ok(()) => Ok(()),
                Err(_) => Err(Unpublished { name }),
            },
            None => Ok(()),
        }
    }

    /// Puts the names in its folder on the disk.
    fn settle(&self, name: &str) {
        let (folder, _) = parted(name);
        if let Ok(folder) = fs::open(self.rt, folder) {
            let _ = folder.sync_all();
        }
    }

    fn last_failure(&self) -> Option<ErrorKind> {
        self.failure.kind()
    }

    fn is_one_place(&self, name: &str, other: &str) -> bool {
        self.failure.clear();
        if name == other {
            return true;
        }
        let ((folder, name), (other_folder, other)) = (parted(name), parted(other));
        name == other
            && match (
                fs::metadata(self.rt, folder),
                fs::metadata(self.rt, other_folder),
            ) {
                (Ok(folder), Ok(other)) => is_same(&folder, &other),
                _ => false,
            }
    }

    /// Where its folder can't be read, none is found.
    fn left_drafts(&self, name: &str) -> Result<Vec<String>, AllocError> {
        let alloc = self.rt.alloc();
        match find_left(self.rt, alloc, name) {
            Ok(left) => Ok(left),
            Err(error) if error.kind() == ErrorKind::OutOfMemory => Err(AllocError),
            Err(_) => Ok(Vec::new(alloc)),
        }
    }

    fn is_open_to_others(&self, name: &str) -> bool {
        match fs::metadata(self.rt, name) {
            Ok(found) => found.is_file() && is_for_others(&found),
            Err(_) => false,
        }
    }
}
