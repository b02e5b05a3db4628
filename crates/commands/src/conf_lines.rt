//! schema: lines of a dir.conf are printed, made of a server's schema.
ghost use Rattle.std.specs.Prelude.{◌≡◌, ◌<◌, ◌-◌, ◌^◌, IfOk, IfErr, Some, Ok};
ghost use Rattle.std.specs.Option.{option_copied};
ghost use Rattle.commands.specs.Schemas.{IsConfText, ConfTextFails, IsTransferredFor, FailsToTransfer, status_of_transfer, SchemaGoesThrough, SchemaStops};
ghost use Rattle.commands.specs.Worlds.{World, piped_world};
ghost use Rattle.commands.specs.inner.Stopped.{HasEnded};

use crate::database::read_conf_text;
use crate::messages::{CommandFault, Status, Stop};
use crate::sort::{print_text, read_text};
use command_line::SchemaOptions;
use device::{Sink, Source};
use dir_conf::ConfFault;
use folders::Folder;
use server_schema::{Transfer, transfer_schema};
use std::alloc::Global;

/// The text of the dir.conf in a folder, which has to be there; without a folder nothing.
fn conf_text<F: Folder>(
    alloc: Global,
    folder: &F,
    db: Option<&str>,
) -> Result<Vec<u8>, CommandFault>
    ensures ok { IfOk result (λ text. IsConfText (F.files folder.now) (option_copied db.entry) text.items) }
    ensures err { IfErr result (ConfTextFails (option_copied db.entry)) }
{
    match db {
        Some(db) => read_conf_text(alloc, folder, db),
        None => Ok(Vec::new(alloc)),
    }
}

/// What is printed of a schema's text behind a dir.conf.
fn transferred(alloc: Global, source: &[u8], conf: &[u8]) -> Result<Transfer, CommandFault>
    ensures ok { IfOk result (λ t. IsTransferredFor source.now conf.now t) }
    ensures err { IfErr result (FailsToTransfer conf.now) }
{
    match transfer_schema(alloc, source, conf) {
        Ok(transfer) => Ok(transfer),
        Err(ConfFault::Line { line, kind }) => Err(CommandFault::Configuration { line, kind }),
        Err(ConfFault::OutOfMemory) => Err(CommandFault::OutOfMemory),
    }
}

/// How the command ends: as `Refused` where a definition was changed or left out.
fn status_of_transfer(is_whole: bool) -> Status
    ensures { result ≡ status_of_transfer is_whole }
{
    if is_whole {
        Status::Done
    } else {
        Status::Refused
    }
}

/// Prints the lines of a dir.conf that the schema in a file, or in the input, comes to, for the dir.conf of a folder, if one is asked for. It stops
/// where one of them can't be read, a definition in the dir.conf is at fault, or the output or memory fails.
pub fn schema<F: Folder, S: Source, O: Sink>(
    alloc: Global,
    asked: &SchemaOptions<'_>,
    folder: &F,
    input: &mut S,
    out: &mut O,
) -> Result<Status, Stop>
    requires input { (S.seen input.old).failed < 2 ^ 64 - 1 }
    requires out { (O.written out.old).failed < 2 ^ 64 - 1 }
    ensures { (w : World) → HasEnded (SchemaGoesThrough asked.now) (SchemaStops asked.now)
        (piped_world w F.files S.seen O.written folder.now input.old out.old)
        (piped_world w F.files S.seen O.written folder.now input.new out.new) result }
{
    let conf = conf_text(alloc, folder, asked.db)?;
    let source = read_text(alloc, folder, input, asked.file)?;
    let transfer = transferred(alloc, source.as_slice(), conf.as_slice())?;
    match print_text(alloc, transfer.lines.as_slice(), out) {
        Ok(_) => Ok(status_of_transfer(transfer.is_whole)),
        Err(fault) => Err(Stop::Fault(fault)),
    }
}
