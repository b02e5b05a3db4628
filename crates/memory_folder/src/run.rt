//! A command over a folder in memory.
ghost use Rattle.std.specs.Prelude.{◌<◌, ◌-◌, ◌^◌, map};
ghost use Rattle.try_device.specs.Memory.{source_seen, sink_written};
ghost use Rattle.commands.specs.Commands.{CommandEnds};
ghost use Rattle.memory_folder.specs.Memory.{world_of};

use crate::folder::MemoryFolder;
use commands::{NoGauge, command_telling};
use std::alloc::Global;
use std::convert::AsStr;
use try_device::{TrySink, TrySource};

/// Carries out the command that the words spell over a folder and streams in memory, and answers its exit status, as `command_telling`
/// does.
pub fn run_command<W: AsStr>(
    alloc: Global,
    words: &[W],
    folder: &mut MemoryFolder<'_>,
    input: &mut TrySource<'_>,
    out: &mut TrySink,
    err: &mut TrySink,
    told: &mut TrySink,
) -> u8
    requires input { (source_seen input.old).failed < 2 ^ 64 - 1 }
    requires out { (sink_written out.old).failed < 2 ^ 64 - 1 }
    requires err { (sink_written err.old).failed < 2 ^ 64 - 1 }
    // What the words ask for is done, and it says of all files what they are then.
    ensures { CommandEnds (map W.text words.now)
        (world_of folder.old input.old out.old err.old) (world_of folder.new input.new out.new err.new) result }
{
    command_telling(
        alloc,
        words,
        "in memory",
        folder,
        input,
        out,
        err,
        told,
        &NoGauge,
    )
}
