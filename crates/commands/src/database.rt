//! The files of a directory: its configuration and its entries.
ghost use Rattle.std.specs.Prelude.{◌≡◌, ◌<◌, ◌-◌, ◌^◌, IfOk, IfErr, IfSome, OnOk, OnErr, Some, string_bytes};
ghost use Rattle.std.specs.Option.{option_map};
ghost use Rattle.folders.specs.Folders.{Finds};
ghost use Rattle.commands.specs.DirectoryFiles.{file_in, conf_name};
ghost use Rattle.folders.specs.Locks.{Takes};
ghost use Rattle.commands.specs.Locked.{LockFails};
ghost use Rattle.commands.specs.Loaded.{IsConfigured, IsLoaded, LoadFails};
ghost use Rattle.commands.specs.Failures.{FailsToRead};

use crate::messages::CommandFault;
use crate::telling::CommandTeller;
use databases::Database;
use device::{Device, Source};
use dir_conf::{ConfFault, read_conf};
use folders::{Folder, FolderFault, LockFault};
use schema::Conf;
use std::alloc::{AllocError, Global};

/// How many bytes are asked of a file at a time.
const PIECE: usize = 65536;

/// The path of a file in the folder `db`.
pub fn path(alloc: Global, db: &str, name: &str) -> Result<String, AllocError>
    ensures { IfOk result (λ s. string_bytes s ≡ file_in db.now name.now) }
{
    format!(in alloc; "{db}/{name}")
}

/// Opens the file of this name.
pub fn open<F: Folder>(alloc: Global, folder: &F, name: &str) -> Result<Option<F::In>, CommandFault>
    ensures finds { IfOk result (λ o. Finds (F.files folder.now) name.now (option_map (λ s. (F.In.seen s).left) o)) }
    ensures err { IfErr result (FailsToRead name.now) }
    ensures ok { IfOk result (λ o. IfSome o (λ s. (F.In.seen s).failed ≡ 0)) }
{
    match folder.open(name) {
        Ok(found) => Ok(found),
        Err(FolderFault::Device) => Err(CommandFault::cannot_read(alloc, name)),
        Err(FolderFault::OutOfMemory) => Err(CommandFault::OutOfMemory),
    }
}

/// Opens the file of this name, which has to be there.
pub fn open_present<F: Folder>(alloc: Global, folder: &F, name: &str) -> Result<F::In, CommandFault>
    ensures finds { IfOk result (λ s. Finds (F.files folder.now) name.now (Some (F.In.seen s).left)) }
    ensures err { IfErr result (FailsToRead name.now) }
    ensures ok { IfOk result (λ s. (F.In.seen s).failed ≡ 0) }
{
    match open(alloc, folder, name) {
        Ok(Some(source)) => Ok(source),
        Ok(None) => Err(CommandFault::cannot_read(alloc, name)),
        Err(fault) => Err(fault),
    }
}

/// Takes the lock of the directory in the folder `db`, which is that of its dir.conf; where another process holds it, it may wait for so many
/// seconds. The fault is `InUse` where one holds it still, `CannotRead` where dir.conf can't be opened or locked, and else `OutOfMemory`.
#[tactic(auto, using(crate::proofs::Locked::memory_locks, crate::proofs::Locked::unlocked, crate::proofs::Locked::used))]
pub fn lock<F: Folder>(
    alloc: Global,
    folder: &mut F,
    db: &str,
    wait: u32,
) -> Result<(), CommandFault>
    ensures ok { OnOk result (Takes (conf_name db.now)
        (F.files folder.old) (F.files folder.new) (F.locking folder.old) (F.locking folder.new)) }
    ensures same_files { OnErr result (F.files folder.new ≡ F.files folder.old) }
    ensures same_locking { OnErr result (F.locking folder.new ≡ F.locking folder.old) }
    ensures err { IfErr result (LockFails (F.files folder.old) (F.locking folder.old).others db.now) }
{
    let name = path(alloc, db, "dir.conf")?;
    match folder.lock(name.as_str(), wait) {
        Ok(()) => Ok(()),
        Err(LockFault::InUse) => Err(CommandFault::in_use(alloc, db)),
        Err(LockFault::Device) => Err(CommandFault::cannot_read(alloc, name.as_str())),
        Err(LockFault::OutOfMemory) => Err(CommandFault::OutOfMemory),
    }
}

/// All bytes of a source that has this name.
pub fn contents<S: Source>(
    alloc: Global,
    source: &mut S,
    name: &str,
) -> Result<Vec<u8>, CommandFault>
    requires { (S.seen source.old).failed < 2 ^ 64 - 1 }
    ensures bytes { IfOk result (λ v. IfSome (S.seen source.old).left (λ bs. v.items ≡ bs)) }
    ensures err { IfErr result (FailsToRead name.now) }
{
    let mut bytes = Vec::new(alloc);
    let mut piece = [0; PIECE];
    'pulls: loop {
        match source.pull(&mut piece) {
            Ok(0) => return Ok(bytes),
            Ok(n) => bytes.extend_from_slice(&piece[..n])?,
            Err(Device) => return Err(CommandFault::cannot_read(alloc, name)),
        }
    }
}

/// The text of the dir.conf in the folder `db`, which has to be there.
pub fn read_conf_text<F: Folder>(
    alloc: Global,
    folder: &F,
    db: &str,
) -> Result<Vec<u8>, CommandFault>
    ensures there { IfOk result (λ text. Finds (F.files folder.now) (conf_name db.now) (Some (Some text.items))) }
    ensures err { IfErr result (FailsToRead (conf_name db.now)) }
{
    let name = path(alloc, db, "dir.conf")?;
    match open_present(alloc, folder, name.as_str()) {
        Ok(mut source) => contents(alloc, &mut source, name.as_str()),
        Err(fault) => Err(fault),
    }
}

/// The configuration that the dir.conf in the folder `db` says, which has to be there.
fn read_configuration<F: Folder, T: CommandTeller>(
    alloc: Global,
    folder: &F,
    db: &str,
    teller: &mut T,
) -> Result<Conf, CommandFault>
    ensures ok { IfOk result (IsConfigured (F.files folder.now) (conf_name db.now)) }
    ensures err { IfErr result (LoadFails (F.files folder.now) db.now) }
{
    let text = read_conf_text(alloc, folder, db)?;
    match read_conf(alloc, &text) {
        Ok(conf) => Ok(conf),
        Err(ConfFault::Line { line, kind }) => {
            teller.note_configuration(alloc, &text);
            Err(CommandFault::Configuration { line, kind })
        }
        Err(ConfFault::OutOfMemory) => Err(CommandFault::OutOfMemory),
    }
}

/// The entries in the data.ldif of the folder `db`, under the configuration that its dir.conf says. Where there is no such file, there is none.
fn load_entries<F: Folder, T: CommandTeller>(
    alloc: Global,
    folder: &F,
    db: &str,
    conf: Conf,
    teller: &mut T,
) -> Result<Database, CommandFault>
    requires { IsConfigured (F.files folder.now) (conf_name db.now) conf }
    ensures loaded { IfOk result (λ d. IsLoaded (F.files folder.now) db.now d.conf d.entries) }
    ensures err { IfErr result (LoadFails (F.files folder.now) db.now) }
{
    let name = path(alloc, db, "data.ldif")?;
    match open(alloc, folder, name.as_str())? {
        Some(mut source) => match Database::load_telling(alloc, conf, &mut source, teller) {
            Ok(database) => Ok(database),
            Err(fault) => Err(CommandFault::of_load(alloc, name.as_str(), fault)),
        },
        None => Ok(Database::new(alloc, conf)),
    }
}

/// The configuration and the entries in the folder `db`.
pub fn load_database<F: Folder, T: CommandTeller>(
    alloc: Global,
    folder: &F,
    db: &str,
    teller: &mut T,
) -> Result<Database, CommandFault>
    ensures loaded { IfOk result (λ d. IsLoaded (F.files folder.now) db.now d.conf d.entries) }
    ensures err { IfErr result (LoadFails (F.files folder.now) db.now) }
{
    let conf = read_configuration(alloc, folder, db, teller)?;
    load_entries(alloc, folder, db, conf, teller)
}
