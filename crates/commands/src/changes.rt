//! slapadd and ldapmodify: the records of an LDIF text are carried out on a directory in a folder.
ghost use Rattle.std.specs.Prelude.{◌≡◌, ◌<◌, ◌-◌, ◌^◌, Ok, Err, IfOk, IfErr};
ghost use Rattle.databases.specs.declared.runs.RunFault.{RunFault};
ghost use Rattle.commands.specs.Worlds.{World, change_world, locked_change_world, run_world};
ghost use Rattle.commands.specs.Loaded.{IsLoaded};
ghost use Rattle.commands.specs.Changes.{written_by, Breaks, RunsInput, RunsSource, RunsAndStores, ChangeGoesThrough, ChangeStops};
ghost use Rattle.commands.specs.inner.Views.{run_of};
ghost use Rattle.commands.specs.inner.Stopped.{CanReport, HasStopped, HasEnded, HasEndedUnder};

use crate::database::{load_database, lock, open_present};
use crate::messages::{CommandFault, Status, Stop};
use crate::storing::store_database;
use crate::telling::CommandTeller;
use command_line::{AddOptions, ModifyOptions};
use databases::{Database, RunFault, Tally, run_telling};
use device::{Sink, Source};
use folders::Folder;
use ldif::Mode;
use std::alloc::Global;
use std::mem;

/// Which records are to run over which directory, and how.
#[derive(Clone, Copy, Drop)]
pub struct Task<'a> {
    db: &'a str,
    // none for the input
    file: Option<&'a str>,
    mode: Mode,
    go_on: bool,
    dry_run: bool,
    // for how many seconds it waits where the directory is in use
    wait: u32,
}

impl<'a> From<AddOptions<'a>> for Task<'a> {
    ghost use Rattle.std.specs.Prelude.{◌≡◌};
    ghost use Rattle.commands.specs.Changes.{add_task};

    ghost from_gives = { λ asked task. task ≡ add_task asked };

    fn from(asked: AddOptions<'a>) -> Task<'a> {
        Task {
            db: asked.db,
            file: asked.file,
            mode: Mode::Content,
            go_on: asked.go_on,
            dry_run: asked.dry_run,
            wait: asked.wait,
        }
    }
}

impl<'a> From<ModifyOptions<'a>> for Task<'a> {
    ghost use Rattle.std.specs.Prelude.{◌≡◌};
    ghost use Rattle.commands.specs.Changes.{modify_task};

    ghost from_gives = { λ asked task. task ≡ modify_task asked };

    fn from(asked: ModifyOptions<'a>) -> Task<'a> {
        Task {
            db: asked.db,
            file: asked.file,
            mode: Mode::Changes { add: asked.add },
            go_on: asked.go_on,
            dry_run: asked.dry_run,
            wait: asked.wait,
        }
    }
}

/// Why the command stops where a run over a source of this name was broken off.
fn stop_of(alloc: Global, fault: RunFault, name: &str) -> Stop
    ensures { Breaks fault name.now result }
{
    match fault {
        RunFault::Write(_) => Stop::Messages,
        RunFault::Read(_) => Stop::Fault(CommandFault::cannot_read(alloc, name)),
        RunFault::OutOfMemory(_) => Stop::Fault(CommandFault::OutOfMemory),
    }
}

/// Runs the records of a source that has this name, and answers how many were accepted and refused, or why the command stops.
fn run_source<S: Source, E: Sink, T: CommandTeller>(
    alloc: Global,
    task: &Task<'_>,
    database: &mut Database,
    source: &mut S,
    name: &str,
    err: &mut E,
    teller: &mut T,
) -> Result<Tally, Stop>
    requires source { (S.seen source.old).failed < 2 ^ 64 - 1 }
    requires err { (E.written err.old).failed < 2 ^ 64 - 1 }
    ensures same_conf { database.new.conf ≡ database.old.conf }
    ensures ran { IfOk result (λ t. (w : World) → RunsInput task.now
        (run_of database.old database.new (Ok t))
        (run_world w S.seen E.written source.old err.old)
        (run_world w S.seen E.written source.new err.new)) }
    ensures broke { IfErr result (λ why. (fault : RunFault) × Breaks fault name.now why
        × ((w : World) → RunsInput task.now (run_of database.old database.new (Err fault))
        (run_world w S.seen E.written source.old err.old)
        (run_world w S.seen E.written source.new err.new))) }
    ensures can_report { IfErr result (λ why. CanReport why (E.written err.new).failed) }
{
    match run_telling(alloc, database, source, err, teller, task.mode, task.go_on) {
        Ok(tally) => Ok(tally),
        Err(fault) => Err(stop_of(alloc, fault, name)),
    }
}

/// Runs the records of the source that is asked for over the directory of the folder, likewise.
fn run_records<F: Folder, S: Source, E: Sink, T: CommandTeller>(
    alloc: Global,
    task: &Task<'_>,
    database: &mut Database,
    folder: &F,
    input: &mut S,
    err: &mut E,
    teller: &mut T,
) -> Result<Tally, Stop>
    requires input { (S.seen input.old).failed < 2 ^ 64 - 1 }
    requires err { (E.written err.old).failed < 2 ^ 64 - 1 }
    requires loaded { IsLoaded (F.files folder.now) task.now.db.now database.old.conf database.old.entries }
    ensures same_conf { database.new.conf ≡ database.old.conf }
    ensures ran { IfOk result (λ t. (w : World) → RunsSource task.now
        (run_of database.old database.new (Ok t))
        (change_world w F.files S.seen E.written folder.now input.old err.old)
        (change_world w F.files S.seen E.written folder.now input.new err.new)) }
    ensures stops { IfErr result (λ why. (w : World) → HasStopped (ChangeStops task.now)
        (change_world w F.files S.seen E.written folder.now input.old err.old)
        (change_world w F.files S.seen E.written folder.now input.new err.new) why) }
    ensures can_report { IfErr result (λ why. CanReport why (E.written err.new).failed) }
{
    let Some(name) = task.file else {
        return run_source(alloc, task, database, input, "input", err, teller);
    };
    match open_present(alloc, folder, name) {
        Ok(mut source) => run_source(alloc, task, database, &mut source, name, err, teller),
        Err(fault) => Err(Stop::Fault(fault)),
    }
}

/// Runs the records, and stores what they leave.
fn run_and_store<F: Folder, S: Source, E: Sink, T: CommandTeller>(
    alloc: Global,
    task: &Task<'_>,
    database: &mut Database,
    folder: &mut F,
    input: &mut S,
    err: &mut E,
    teller: &mut T,
) -> Result<Status, Stop>
    requires input { (S.seen input.old).failed < 2 ^ 64 - 1 }
    requires err { (E.written err.old).failed < 2 ^ 64 - 1 }
    requires loaded { IsLoaded (F.files folder.old) task.now.db.now database.old.conf database.old.entries }
    ensures ends { (w : World) → HasEnded (RunsAndStores task.now) (ChangeStops task.now)
        (change_world w F.files S.seen E.written folder.old input.old err.old)
        (change_world w F.files S.seen E.written folder.new input.new err.new) result }
    ensures locking { F.locking folder.new ≡ F.locking folder.old }
    ensures can_report { IfErr result (λ why. CanReport why (E.written err.new).failed) }
{
    let tally = run_records(alloc, task, database, folder, input, err, teller)?;
    if task.dry_run {
        teller.tell_tally(alloc, tally, task.mode, false);
        return Ok(Status::of_tally(tally));
    }
    match store_database(alloc, folder, task.db, database) {
        Ok(()) => {
            teller.tell_tally(alloc, tally, task.mode, true);
            Ok(Status::of_tally(tally))
        }
        Err(fault) => Err(Stop::Fault(fault)),
    }
}

/// Loads the directory, runs the records, and stores what they leave.
fn load_and_run<F: Folder, S: Source, E: Sink, T: CommandTeller>(
    alloc: Global,
    task: &Task<'_>,
    folder: &mut F,
    input: &mut S,
    err: &mut E,
    teller: &mut T,
) -> Result<Status, Stop>
    requires input { (S.seen input.old).failed < 2 ^ 64 - 1 }
    requires err { (E.written err.old).failed < 2 ^ 64 - 1 }
    ensures ends { (w : World) → HasEnded (ChangeGoesThrough task.now) (ChangeStops task.now)
        (change_world w F.files S.seen E.written folder.old input.old err.old)
        (change_world w F.files S.seen E.written folder.new input.new err.new) result }
    ensures locking { F.locking folder.new ≡ F.locking folder.old }
    ensures can_report { IfErr result (λ why. CanReport why (E.written err.new).failed) }
{
    match load_database(alloc, folder, task.db, teller) {
        Ok(mut database) => {
            let ended = run_and_store(alloc, task, &mut database, folder, input, err, teller);
            // The program ends with its command, and that frees the entries at once.
            mem::forget(database);
            ended
        }
        Err(fault) => Err(Stop::Fault(fault)),
    }
}

/// Carries out the records of the file, or of the input, on the directory in a folder, with a line on `err` for each that is refused, and
/// stores the directory. All of this is done under the directory's lock, but in a dry run, which stores nothing and takes no lock. It ends as
/// `Refused` where a record was refused, and else as `Done`. It stops where the lock can't be taken, the directory can't be loaded, a device
/// or memory fails, or a file can't be stored.
pub fn change<F: Folder, S: Source, E: Sink, T: CommandTeller>(
    alloc: Global,
    task: &Task<'_>,
    folder: &mut F,
    input: &mut S,
    err: &mut E,
    teller: &mut T,
) -> Result<Status, Stop>
    requires input { (S.seen input.old).failed < 2 ^ 64 - 1 }
    requires err { (E.written err.old).failed < 2 ^ 64 - 1 }
    ensures ends { (w : World) → HasEndedUnder (written_by task.now)
        (ChangeGoesThrough task.now) (ChangeStops task.now)
        (locked_change_world w F.files F.locking S.seen E.written folder.old input.old err.old)
        (locked_change_world w F.files F.locking S.seen E.written folder.new input.new err.new) result }
    ensures can_report { IfErr result (λ why. CanReport why (E.written err.new).failed) }
{
    if !task.dry_run {
        return match lock(alloc, folder, task.db, task.wait) {
            Ok(()) => load_and_run(alloc, task, folder, input, err, teller),
            Err(fault) => Err(Stop::Fault(fault)),
        };
    }
    load_and_run(alloc, task, folder, input, err, teller)
}
