//! Drafts: the next contents of the system's files, beside them.
//!
//! A draft has a name of its own, with a number behind it, and its maker holds its lock for as long as it stands there. Only who holds the
//! lock of a draft renames it or takes it away. So a draft whose lock can be taken was left behind, by a run that was killed.

use crate::paths::{draft_stem, is_draft_name, parted};
use std::alloc::Global;
use std::fs::{self, File, Metadata, OpenFile, OpenOptions, Permissions, TryLockError};
use std::io::{self, ErrorKind};
use std::os::unix::fs::{MetadataExt, OpenOptionsExt, PermissionsExt, lchown};
use std::rt::Files;

/// How many drafts of a file may stand beside it at once.
const MOST_DRAFTS: u32 = 1000;

/// Permission to read and write for the owner: what a draft has until it has those of the file that it follows, and keeps where it follows none.
/// What is stored holds passwords.
const OWNER_ALONE: u32 = 0o600;

/// The next contents of a file, under a name of their own. They are taken away where they aren't published.
pub struct Draft<'r, R: Files> {
    rt: &'r R,
    path: String,
    /// Its lock is held for as long as it is open.
    file: File,
    is_published: bool,
}

impl<'r, R: Files> Drop for Draft<'r, R> {
    fn drop(self) {
        let Draft {
            rt,
            path,
            file,
            is_published,
        } = self;
        if !is_published {
            let _ = fs::remove_file(rt, path.as_str());
        }
        drop(file);
        drop(path);
    }
}

impl<'r, R: Files> Draft<'r, R> {
    /// The file that the contents are written to.
    pub fn file(&mut self) -> &mut File {
        &mut self.file
    }

    /// Gives it the owner, the group and the permissions of the file that it follows, each as far as the process may. Where it can't have the
    /// owner or the group, nobody gets permissions from that who had none.
    pub fn follow(&self, old: &Metadata) {
        let has_owner = lchown(self.rt, self.path.as_str(), Some(old.uid()), None).is_ok();
        let has_group = lchown(self.rt, self.path.as_str(), None, Some(old.gid())).is_ok();
        let mode = following(old.mode(), has_owner, has_group);
        let _ = OpenFile::set_permissions(&self.file, Permissions::from_mode(mode));
    }

    /// Has the contents on the disk.
    pub fn sync(&self) -> io::Result<()> {
        self.file.sync_all()
    }

    /// Renames it over the file of this name.
    pub fn publish(&mut self, name: &str) -> io::Result<()> {
        fs::rename(self.rt, self.path.as_str(), name)?;
        self.is_published = true;
        Ok(())
    }
}

/// The permissions of a file that follows one with these. Who had the old file as its owner or by its group, and doesn't have the new one so,
/// is one of the group or of all others there: these get no more than such a one had.
fn following(mode: u32, has_owner: bool, has_group: bool) -> u32 {
    let (owner, group, others) = ((mode >> 6) & 7, (mode >> 3) & 7, mode & 7);
    let (group, others) = if has_group {
        (group, others)
    } else {
        (0, others & group)
    };
    let (group, others) = if has_owner {
        (group, others)
    } else {
        (group & owner, others & owner)
    };
    (owner << 6) | (group << 3) | others
}

/// Whether what has this name is this very file.
fn is_at<R: Files>(rt: &R, file: &File, path: &str) -> bool {
    match (file.metadata(), fs::symlink_metadata(rt, path)) {
        (Ok(file), Ok(there)) => is_same(&file, &there),
        _ => false,
    }
}

/// Whether both are of one file.
pub fn is_same(file: &Metadata, other: &Metadata) -> bool {
    file.dev() == other.dev() && file.ino() == other.ino()
}

/// Opens a file to lock it: also for writing where that is allowed, since a network's file system may lock no other.
pub fn open_to_lock<R: Files<File = File>>(rt: &R, path: &str) -> io::Result<File> {
    let mut how = OpenOptions::new();
    how.read(true).write(true);
    match how.open(rt, path) {
        Ok(file) => Ok(file),
        Err(_) => fs::open(rt, path),
    }
}

/// Makes a file that nobody else has, whose lock is held. `None` where something has its name, or who clears away what was left has its lock.
/// On a file system without locks it is made all the same, and nobody can clear it away. It is for its owner alone.
fn make_locked<R: Files<File = File>>(rt: &R, path: &str) -> io::Result<Option<File>> {
    let mut how = OpenOptions::new();
    how.write(true).create_new(true).mode(OWNER_ALONE);
    let file = match how.open(rt, path) {
        Ok(file) => file,
        Err(error) if error.kind() == ErrorKind::AlreadyExists => return Ok(None),
        Err(error) => return Err(error),
    };
    let is_free = match file.try_lock() {
        Err(TryLockError::WouldBlock) => false,
        _ => is_at(rt, &file, path),
    };
    Ok(if is_free { Some(file) } else { None })
}

/// Makes a draft of the file of this name, with the first number that is free. It is for its owner alone, whatever the process may give others
/// (umask).
pub fn make_draft<'r, R: Files<File = File>>(
    rt: &'r R,
    alloc: Global,
    name: &str,
) -> io::Result<Draft<'r, R>> {
    let (folder, file) = parted(name);
    let stem = draft_stem(alloc, file)?;
    for number in 0..MOST_DRAFTS {
        let path = format!(in alloc; "{folder}/{stem}{number}")?;
        if let Some(file) = make_locked(rt, path.as_str())? {
            return Ok(Draft {
                rt,
                path,
                file,
                is_published: false,
            });
        }
    }
    Err(io::Error::from(ErrorKind::AlreadyExists))
}

/// Takes a file away that has a draft's name, if its lock can be taken. A link or a folder of such a name stays.
fn clear<R: Files<File = File>>(rt: &R, path: &str) {
    match fs::symlink_metadata(rt, path) {
        Ok(found) if found.is_file() => {}
        _ => return,
    }
    if let Ok(file) = open_to_lock(rt, path) {
        if file.try_lock().is_ok() && is_at(rt, &file, path) {
            let _ = fs::remove_file(rt, path);
        }
    }
}

/// Takes away what runs that were killed have left of drafts of the file of this name. Those that somebody writes stay, and so do all where
/// memory runs out or the folder can't be read: they are in nobody's way.
pub fn clear_left<R: Files<File = File> + AllocGlobal + Clone + Drop>(
    rt: &R,
    alloc: Global,
    name: &str,
) -> io::Result<()> {
    let (folder, file) = parted(name);
    let stem = draft_stem(alloc, file)?;
    for entry in fs::read_dir(rt, folder)? {
        if let Ok(entry) = entry {
            if is_draft_name(stem.as_str(), entry.file_name()) {
                clear(rt, entry.path().as_str());
            }
        }
    }
    Ok(())
}

/// Whether this file, which has a draft's name, was left by a run that was killed: it has contents, and its lock can be taken. One without contents
/// may be one that somebody is making, whose lock nobody else should take.
fn is_left<R: Files<File = File>>(rt: &R, path: &str) -> bool {
    match fs::symlink_metadata(rt, path) {
        Ok(found) if found.is_file() && found.len() > 0 => {}
        _ => return false,
    }
    match open_to_lock(rt, path) {
        Ok(file) => file.try_lock().is_ok(),
        Err(_) => false,
    }
}

/// The names of what runs that were killed have left of drafts of the file of this name, in their order.
pub fn find_left<R: Files<File = File> + AllocGlobal + Clone + Drop>(
    rt: &R,
    alloc: Global,
    name: &str,
) -> io::Result<Vec<String>> {
    let (folder, file) = parted(name);
    let stem = draft_stem(alloc, file)?;
    let mut left = Vec::new(alloc);
    for entry in fs::read_dir(rt, folder)? {
        if let Ok(entry) = entry {
            if is_draft_name(stem.as_str(), entry.file_name())
                && is_left(rt, entry.path().as_str())
            {
                left.push(String::from_str(alloc, entry.file_name())?)?;
            }
        }
    }
    left.sort()?;
    Ok(left)
}

/// Whether these permissions are for others than the file's owner, too.
pub fn is_for_others(found: &Metadata) -> bool {
    found.mode() & 0o077 != 0
}
