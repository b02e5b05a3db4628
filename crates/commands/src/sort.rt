//! sort: an LDIF text is printed with its records so ordered that each comes behind those above it.
ghost use Rattle.std.specs.Prelude.{◌≡◌, ◌<◌, ◌-◌, ◌^◌, IfOk, IfErr, OnOk, OnErr, codes};
ghost use Rattle.std.specs.Option.{option_copied};
ghost use Rattle.device.specs.Device.{Took, Broke};
ghost use Rattle.commands.specs.Changes.{source_name};
ghost use Rattle.commands.specs.Failures.{FailsToRead, FailsToWrite};
ghost use Rattle.commands.specs.Sorting.{ReadsInOrder, SortGoesThrough, SortStops};
ghost use Rattle.commands.specs.Texts.{ReadsAtMost, ReadsText};
ghost use Rattle.commands.specs.Worlds.{World, source_world, piped_world};
ghost use Rattle.commands.specs.inner.Stopped.{HasEnded};
ghost use Rattle.commands.specs.declared.messages.Status.TheVariants.{Done};

use crate::database::{contents, open_present};
use crate::messages::{CommandFault, Status, Stop};
use command_line::SortOptions;
use device::{Device, Sink, Source, push_all};
use folders::Folder;
use sorting::sort_records;
use std::alloc::Global;

/// The text of the file of this name, or of the input, whole.
pub fn read_text<F: Folder, S: Source>(
    alloc: Global,
    folder: &F,
    input: &mut S,
    file: Option<&str>,
) -> Result<Vec<u8>, CommandFault>
    requires { (S.seen input.old).failed < 2 ^ 64 - 1 }
    ensures reads { IfOk result (λ text. (w : World) → ReadsText (option_copied file.entry) text.items
        (source_world w F.files S.seen folder.now input.old)
        (source_world w F.files S.seen folder.now input.new)) }
    ensures fails { IfErr result (FailsToRead (source_name (option_copied file.entry))) }
    ensures stays { (w : World) → ReadsAtMost (option_copied file.entry)
        (source_world w F.files S.seen folder.now input.old)
        (source_world w F.files S.seen folder.now input.new) }
{
    match file {
        None => contents(alloc, input, "input"),
        Some(name) => match open_present(alloc, folder, name) {
            Ok(mut source) => contents(alloc, &mut source, name),
            Err(fault) => Err(fault),
        },
    }
}

/// The text that is asked for, with its records in order.
fn read_in_order<F: Folder, S: Source>(
    alloc: Global,
    asked: &SortOptions<'_>,
    folder: &F,
    input: &mut S,
) -> Result<Vec<u8>, CommandFault>
    requires { (S.seen input.old).failed < 2 ^ 64 - 1 }
    ensures reads { IfOk result (λ sorted. (w : World) → ReadsInOrder (option_copied asked.now.file) sorted.items
        (source_world w F.files S.seen folder.now input.old)
        (source_world w F.files S.seen folder.now input.new)) }
    ensures fails { IfErr result (FailsToRead (source_name (option_copied asked.now.file))) }
    ensures stays { (w : World) → ReadsAtMost (option_copied asked.now.file)
        (source_world w F.files S.seen folder.now input.old)
        (source_world w F.files S.seen folder.now input.new) }
{
    let text = read_text(alloc, folder, input, asked.file)?;
    Ok(sort_records(alloc, text.as_slice())?)
}

/// Prints a text.
pub fn print_text<O: Sink>(alloc: Global, text: &[u8], out: &mut O) -> Result<Status, CommandFault>
    requires { (O.written out.old).failed < 2 ^ 64 - 1 }
    ensures done { IfOk result (λ s. s ≡ Done) }
    ensures printed { OnOk result (Took (O.written out.old) (O.written out.new) text.now) }
    ensures why { IfErr result (FailsToWrite (codes "output")) }
    ensures broke { OnErr result (Broke (O.written out.old) (O.written out.new) text.now) }
{
    match push_all(out, text) {
        Ok(()) => Ok(Status::Done),
        Err(Device) => Err(CommandFault::cannot_write(alloc, "output")),
    }
}

/// Prints the LDIF text of a file, or of the input, with its content records so ordered that each comes behind all that are above it. It stops where
/// the text can't be read, or the output or memory fails.
pub fn sort<F: Folder, S: Source, O: Sink>(
    alloc: Global,
    asked: &SortOptions<'_>,
    folder: &F,
    input: &mut S,
    out: &mut O,
) -> Result<Status, Stop>
    requires input { (S.seen input.old).failed < 2 ^ 64 - 1 }
    requires out { (O.written out.old).failed < 2 ^ 64 - 1 }
    ensures { (w : World) → HasEnded (SortGoesThrough asked.now) (SortStops asked.now)
        (piped_world w F.files S.seen O.written folder.now input.old out.old)
        (piped_world w F.files S.seen O.written folder.now input.new out.new) result }
{
    match read_in_order(alloc, asked, folder, input) {
        Ok(sorted) => match print_text(alloc, sorted.as_slice(), out) {
            Ok(status) => Ok(status),
            Err(fault) => Err(Stop::Fault(fault)),
        },
        Err(fault) => Err(Stop::Fault(fault)),
    }
}
