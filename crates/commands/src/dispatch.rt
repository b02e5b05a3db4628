//! One command, from its words to its status.
ghost use Rattle.std.specs.Prelude.{◌<◌, ◌≤◌, ◌-◌, ◌^◌, IfErr, map};
ghost use Rattle.std.specs.Option.{option_copied};
ghost use Rattle.commands.specs.Lists.{AnyGoesThrough, AnyStops};
ghost use Rattle.commands.specs.Worlds.{World, printed_world, diff_world, world_of};
ghost use Rattle.commands.specs.Commands.{HelpGoesThrough, HelpStops, RequestGoesThrough, RequestStops, writes_in, RequestEnds, CommandEnds};
ghost use Rattle.commands.specs.inner.Stopped.{CanReport, HasEnded, HasEndedUnder};

use crate::changes::{Task, change};
use crate::check::check;
use crate::conf_lines::schema;
use crate::ldifdiff::ldifdiff;
use crate::listing::search_list;
use crate::messages::{CommandFault, Status, Stop, report_stop};
use crate::searching::search;
use crate::slapcat::slapcat;
use crate::slapindex::slapindex;
use crate::sort::sort;
use crate::telling::CommandTeller;
use command_line::{Request, SearchOptions, UsageFault, read};
use databases::{Gauge, NoGauge, Silent};
use device::{Device, Nowhere, Sink, Source, push_all};
use folders::Folder;
use sentences::Explainer;
use std::alloc::Global;
use std::convert::AsStr;

/// Prints a text of help.
fn print_help<O: Sink>(alloc: Global, text: &str, out: &mut O) -> Result<Status, Stop>
    requires { (O.written out.old).failed < 2 ^ 64 - 1 }
    ensures { (w : World) → HasEnded (HelpGoesThrough text.now) (HelpStops text.now)
        (printed_world w O.written out.old) (printed_world w O.written out.new) result }
{
    match push_all(out, text.as_bytes()) {
        Ok(()) => Ok(Status::Done),
        Err(Device) => Err(Stop::Fault(CommandFault::cannot_write(alloc, "output"))),
    }
}

/// Searches once, or for each line of a list.
fn search_any<F: Folder, S: Source, O: Sink, E: Sink, T: CommandTeller>(
    alloc: Global,
    asked: &SearchOptions<'_>,
    folder: &F,
    input: &mut S,
    out: &mut O,
    err: &mut E,
    teller: &mut T,
) -> Result<Status, Stop>
    requires input { (S.seen input.old).failed < 2 ^ 64 - 1 }
    requires out { (O.written out.old).failed < 2 ^ 64 - 1 }
    requires err { (E.written err.old).failed < 2 ^ 64 - 1 }
    ensures ends { (w : World) → HasEnded
        (AnyGoesThrough (option_copied asked.now.file) asked.now) (AnyStops (option_copied asked.now.file) asked.now)
        (diff_world w F.files S.seen O.written E.written folder.now input.old out.old err.old)
        (diff_world w F.files S.seen O.written E.written folder.now input.new out.new err.new) result }
    ensures can_report { IfErr result (λ why. CanReport why (E.written err.new).failed) }
{
    match asked.file {
        Some(name) => search_list(alloc, asked, name, folder, input, out, err, teller),
        None => search(alloc, asked, folder, out, err, teller),
    }
}

/// Carries out what the words of a command asked for, and answers how it ends, or why it stops.
fn carry_out<F: Folder, S: Source, O: Sink, E: Sink, T: CommandTeller>(
    alloc: Global,
    asked: Result<Request<'_>, UsageFault>,
    folder: &mut F,
    input: &mut S,
    out: &mut O,
    err: &mut E,
    teller: &mut T,
) -> Result<Status, Stop>
    requires input { (S.seen input.old).failed < 2 ^ 64 - 1 }
    requires out { (O.written out.old).failed < 2 ^ 64 - 1 }
    requires err { (E.written err.old).failed < 2 ^ 64 - 1 }
    ensures ends { HasEndedUnder (writes_in asked.entry) (RequestGoesThrough asked.entry) (RequestStops asked.entry)
        (world_of F.files F.locking S.seen O.written E.written folder.old input.old out.old err.old)
        (world_of F.files F.locking S.seen O.written E.written folder.new input.new out.new err.new)
        result }
    ensures can_report { IfErr result (λ why. CanReport why (E.written err.new).failed) }
{
    match asked {
        Ok(Request::Help(text)) => print_help(alloc, text.as_str(), out),
        Ok(Request::Add(asked)) => { change(alloc, &Task::from(asked), folder, input, err, teller) }
        Ok(Request::Modify(asked)) => {
            change(alloc, &Task::from(asked), folder, input, err, teller)
        }
        Ok(Request::Index(asked)) => slapindex(alloc, &asked, folder, teller),
        Ok(Request::Search(asked)) => { search_any(alloc, &asked, folder, input, out, err, teller) }
        Ok(Request::Cat(asked)) => slapcat(alloc, &asked, folder, out, teller),
        Ok(Request::Diff(asked)) => ldifdiff(alloc, &asked, folder, input, out, err, teller),
        Ok(Request::Check(asked)) => check(alloc, &asked, folder, input, out, teller),
        Ok(Request::Sort(asked)) => sort(alloc, &asked, folder, input, out),
        Ok(Request::Schema(asked)) => schema(alloc, &asked, folder, input, out),
        Err(UsageFault::Words(text)) => Err(Stop::Usage(text)),
        Err(UsageFault::OutOfMemory) => Err(Stop::Fault(CommandFault::OutOfMemory)),
    }
}

/// Carries out what the words of a command asked for, reports why it stops where it does, and answers its exit status.
fn end_command<F: Folder, S: Source, O: Sink, E: Sink, T: CommandTeller>(
    alloc: Global,
    asked: Result<Request<'_>, UsageFault>,
    folder: &mut F,
    input: &mut S,
    out: &mut O,
    err: &mut E,
    teller: &mut T,
) -> u8
    requires input { (S.seen input.old).failed < 2 ^ 64 - 1 }
    requires out { (O.written out.old).failed < 2 ^ 64 - 1 }
    requires err { (E.written err.old).failed < 2 ^ 64 - 1 }
    ensures range { result ≤ 3 }
    ensures ends { RequestEnds asked.entry
        (world_of F.files F.locking S.seen O.written E.written folder.old input.old out.old err.old)
        (world_of F.files F.locking S.seen O.written E.written folder.new input.new out.new err.new)
        result }
{
    match carry_out(alloc, asked, folder, input, out, err, teller) {
        Ok(status) => status.number(),
        Err(stop) => {
            let status = report_stop(alloc, err, &stop);
            teller.tell_stop(alloc, &stop, folder.last_failure());
            status.number()
        }
    }
}

/// Whether the words ask for a sentence behind each report.
fn is_verbose(asked: &Result<Request<'_>, UsageFault>) -> bool {
    match asked {
        Ok(Request::Add(asked)) => asked.verbose,
        Ok(Request::Modify(asked)) => asked.verbose,
        Ok(Request::Index(asked)) => asked.verbose,
        Ok(Request::Search(asked)) => asked.verbose,
        Ok(Request::Cat(asked)) => asked.verbose,
        Ok(Request::Diff(asked)) => asked.verbose,
        Ok(Request::Check(asked)) => asked.verbose,
        Ok(Request::Help(_) | Request::Sort(_) | Request::Schema(_)) | Err(_) => false,
    }
}

/// What `--version` says where no program tells its own.
const NO_PROGRAM: &str = "as a library";

/// The same as `command`. `version` is what `--version` says behind the program's name. Where the words have `-v`, a sentence behind each report
/// says why, on a stream of its own, which may lead to the same place as `err`, and a gauge shows how far the command is.
pub fn command_telling<W: AsStr, F: Folder, S: Source, O: Sink, E: Sink, V: Sink, G: Gauge>(
    alloc: Global,
    words: &[W],
    version: &str,
    folder: &mut F,
    input: &mut S,
    out: &mut O,
    err: &mut E,
    told: &mut V,
    gauge: &G,
) -> u8
    requires input { (S.seen input.old).failed < 2 ^ 64 - 1 }
    requires out { (O.written out.old).failed < 2 ^ 64 - 1 }
    requires err { (E.written err.old).failed < 2 ^ 64 - 1 }
    ensures range { result ≤ 3 }
    ensures ends { CommandEnds (map W.text words.now)
        (world_of F.files F.locking S.seen O.written E.written folder.old input.old out.old err.old)
        (world_of F.files F.locking S.seen O.written E.written folder.new input.new out.new err.new)
        result }
{
    let asked = read(alloc, words, version);
    if is_verbose(&asked) {
        let mut explainer = Explainer::new(alloc, told, gauge);
        return end_command(alloc, asked, folder, input, out, err, &mut explainer);
    }
    end_command(alloc, asked, folder, input, out, err, &mut Silent)
}

/// Carries out the command that the words spell, the first being the program's name, and answers its exit status: 0, or 1
/// where a record was refused or a search ended with a result code, 2 for a fault of the command line, of a filter or of dir.conf, 3 for
/// a file, a data.ldif that doesn't load, a directory in use, a stream, or memory.
pub fn command<W: AsStr, F: Folder, S: Source, O: Sink, E: Sink>(
    alloc: Global,
    words: &[W],
    folder: &mut F,
    input: &mut S,
    out: &mut O,
    err: &mut E,
) -> u8
    requires input { (S.seen input.old).failed < 2 ^ 64 - 1 }
    requires out { (O.written out.old).failed < 2 ^ 64 - 1 }
    requires err { (E.written err.old).failed < 2 ^ 64 - 1 }
    ensures range { result ≤ 3 }
    // What the words ask for is done, or the command stops; and what becomes of the files and the streams.
    ensures ends { CommandEnds (map W.text words.now)
        (world_of F.files F.locking S.seen O.written E.written folder.old input.old out.old err.old)
        (world_of F.files F.locking S.seen O.written E.written folder.new input.new out.new err.new)
        result }
{
    command_telling(
        alloc,
        words,
        NO_PROGRAM,
        folder,
        input,
        out,
        err,
        &mut Nowhere::new(),
        &NoGauge,
    )
}
