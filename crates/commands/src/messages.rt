//! How a command ends, and what it reports.
ghost use Rattle.std.specs.Prelude.{◌≡◌, ◌≤◌, ◌<◌, ◌-◌, ◌^◌, ◌⊎◌, Some, IfOk, string_bytes};
ghost use Rattle.commands.specs.declared.messages.CommandFault.TheVariants.{OutOfMemory};
ghost use Rattle.commands.specs.declared.messages.Stop.TheVariants.{Fault};
ghost use Rattle.commands.specs.Messages.{IsTextReported, IsReported, fault_text, line_of};
ghost use Rattle.commands.specs.Endings.{ReportsStop};
ghost use Rattle.commands.specs.Failures.{FailsToRead, FailsToWrite, TellsInUse};
ghost use Rattle.commands.specs.Statuses.{status_number, status_of_difference, status_of_reports, status_of_fault, status_of_tally, goes_on, worse};
ghost use Rattle.commands.specs.inner.LoadFaults.{TellsLoadFault};
ghost use Rattle.commands.specs.Differences.{TellsRefusal, TellsContentFault};
ghost use Rattle.commands.specs.inner.Stopped.{CanReport};
ghost use Rattle.commands.specs.inner.WriteFaults.{TellsWriteFault};

use databases::{LoadFault, RecordRefusal, Tally};
use device::{Sink, push_all};
use dir_conf::ConfFaultKind;
use filter_text::FilterFault;
use ldif::WriteFault;
use schema::Code;
use std::alloc::{AllocError, AllocFailed, Global};
use std::fmt;

/// How a command ends.
#[derive(Clone, Copy)]
pub enum Status {
    Done,
    /// A record was refused, a search ended with a result code, two directories differ, or a check found something wrong.
    Refused,
    /// The command line, a filter or the configuration is at fault.
    Usage,
    /// A file, a stream or memory failed, data.ldif doesn't load, or the directory is in use.
    Failed,
}

impl Status {
    /// Whether a list goes on behind a line that ended so; `asked` says whether it is to go on behind one that wasn't answered whole.
    pub fn goes_on(self, asked: bool) -> bool
        ensures { result ≡ goes_on asked self }
    {
        match self {
            Status::Done => true,
            Status::Refused | Status::Usage => asked,
            Status::Failed => false,
        }
    }

    /// The one of two that has the greater number.
    pub fn worse(self, other: Status) -> Status
        ensures { result ≡ worse self other }
    {
        match (self, other) {
            (Status::Done, _) => other,
            (Status::Refused, Status::Done) => Status::Refused,
            (Status::Refused, _) => other,
            (Status::Usage, Status::Failed) => Status::Failed,
            (Status::Usage, _) => Status::Usage,
            (Status::Failed, _) => Status::Failed,
        }
    }

    /// The exit status of the process.
    pub fn number(self) -> u8
        ensures value { result ≡ status_number self }
        ensures range { result ≤ 3 }
    {
        match self {
            Status::Done => 0,
            Status::Refused => 1,
            Status::Usage => 2,
            Status::Failed => 3,
        }
    }

    /// How a comparison of two directories ends: as `Refused` where they differ.
    pub fn of_difference(differs: bool) -> Status
        ensures { result ≡ status_of_difference differs }
    {
        if differs {
            Status::Refused
        } else {
            Status::Done
        }
    }

    /// How a check ends that reports this: as `Refused` where it is something.
    pub fn of_reports(text: &[u8]) -> Status
        ensures { result ≡ status_of_reports text.now }
    {
        if text.is_empty() {
            Status::Done
        } else {
            Status::Refused
        }
    }

    /// How a run ends that met no fault.
    pub fn of_tally(tally: Tally) -> Status
        ensures { result ≡ status_of_tally tally }
    {
        if tally.refused == 0 {
            Status::Done
        } else {
            Status::Refused
        }
    }
}

/// Why a command ends before its work is done. Its text is a line of standard error.
#[derive(Drop)]
pub enum CommandFault {
    /// A word of the command line is not UTF-8.
    Words,
    /// A filter that can't be read.
    Filter(FilterFault),
    /// A line of a list, by its number, that is no filter.
    Line {
        number: u64,
        fault: FilterFault,
    },
    /// The result code that the search of a line of a list ends with.
    LineCode {
        number: u64,
        code: Code,
    },
    /// The result code that a search of this command ends with.
    Code {
        command: &'static str,
        code: Code,
    },
    /// The line of the configuration that is at fault, or 0 where a line is missing.
    Configuration {
        line: u64,
        kind: ConfFaultKind,
    },
    /// The first record of the directory's file that is refused.
    Data {
        line: u64,
        refusal: RecordRefusal,
    },
    /// The first content record that is refused of the other directory, in the file or the stream of this name.
    Content {
        name: String,
        line: u64,
        refusal: RecordRefusal,
    },
    /// The file or the stream of this name fails when it is read.
    CannotRead(String),
    /// The file or the stream of this name fails when it is written.
    CannotWrite(String),
    /// Another process writes the directory in this folder.
    InUse(String),
    OutOfMemory,
}

impl CommandFault {
    /// How a command ends with it.
    pub fn status(&self) -> Status
        ensures { result ≡ status_of_fault self.now }
    {
        match self {
            CommandFault::Words
            | CommandFault::Filter(_)
            | CommandFault::Line { .. }
            | CommandFault::Configuration { .. } => Status::Usage,
            CommandFault::Code { .. } | CommandFault::LineCode { .. } => Status::Refused,
            _ => Status::Failed,
        }
    }

    /// The fault of a read of what has this name.
    pub fn cannot_read(alloc: Global, name: &str) -> CommandFault
        ensures { FailsToRead name.now result }
    {
        match String::from_str(alloc, name) {
            Ok(name) => CommandFault::CannotRead(name),
            Err(_) => CommandFault::OutOfMemory,
        }
    }

    /// The fault of a write of what has this name.
    pub fn cannot_write(alloc: Global, name: &str) -> CommandFault
        ensures { FailsToWrite name.now result }
    {
        match String::from_str(alloc, name) {
            Ok(name) => CommandFault::CannotWrite(name),
            Err(_) => CommandFault::OutOfMemory,
        }
    }

    /// The fault of a change of the directory in this folder, where another process writes it.
    pub fn in_use(alloc: Global, folder: &str) -> CommandFault
        ensures { TellsInUse folder.now result }
    {
        match String::from_str(alloc, folder) {
            Ok(folder) => CommandFault::InUse(folder),
            Err(_) => CommandFault::OutOfMemory,
        }
    }

    /// The fault of loading the file of this name.
    pub fn of_load(alloc: Global, name: &str, fault: LoadFault) -> CommandFault
        ensures { TellsLoadFault name.now fault result }
    {
        match fault {
            LoadFault::Read => CommandFault::cannot_read(alloc, name),
            LoadFault::OutOfMemory => CommandFault::OutOfMemory,
            LoadFault::Refused { line, refusal } => CommandFault::Data { line, refusal },
        }
    }

    /// The fault of a record that is refused in the file or the stream of this name.
    fn of_refusal(alloc: Global, name: &str, line: u64, refusal: RecordRefusal) -> CommandFault
        ensures { TellsRefusal name.now line refusal result }
    {
        match String::from_str(alloc, name) {
            Ok(name) => CommandFault::Content {
                name,
                line,
                refusal,
            },
            Err(_) => CommandFault::OutOfMemory,
        }
    }

    /// The fault of loading another directory from the file or the stream of this name.
    pub fn of_content(alloc: Global, name: &str, fault: LoadFault) -> CommandFault
        ensures { TellsContentFault name.now fault result }
    {
        match fault {
            LoadFault::Read => CommandFault::cannot_read(alloc, name),
            LoadFault::OutOfMemory => CommandFault::OutOfMemory,
            LoadFault::Refused { line, refusal } => {
                CommandFault::of_refusal(alloc, name, line, refusal)
            }
        }
    }

    /// The fault of a write to standard output.
    pub fn of_output(alloc: Global, fault: WriteFault) -> CommandFault
        ensures { TellsWriteFault fault result }
    {
        match fault {
            WriteFault::Device => CommandFault::cannot_write(alloc, "output"),
            WriteFault::OutOfMemory => CommandFault::OutOfMemory,
        }
    }
}

impl fmt::Display for CommandFault {
    ghost output = { λ f. Some (fault_text f) };

    fn fmt<W: fmt::Write>(&self, f: &mut fmt::Formatter<W>) -> fmt::Result {
        match self {
            CommandFault::Words => f.write_str("command line: not UTF-8"),
            CommandFault::Filter(fault) => write!(f, "filter: {fault}"),
            CommandFault::Line { number, fault } => write!(f, "filter line {number}: {fault}"),
            CommandFault::LineCode { number, code } => write!(f, "filter line {number}: {code}"),
            CommandFault::Code { command, code } => write!(f, "{command}: {code}"),
            CommandFault::Configuration { line, kind } => write!(f, "dir.conf line {line}: {kind}"),
            CommandFault::Data { line, refusal } => write!(f, "data.ldif line {line}: {refusal}"),
            CommandFault::Content {
                name,
                line,
                refusal,
            } => write!(f, "{name} line {line}: {refusal}"),
            CommandFault::CannotRead(name) => write!(f, "{name}: cannot read"),
            CommandFault::CannotWrite(name) => write!(f, "{name}: cannot write"),
            CommandFault::InUse(folder) => write!(f, "{folder}: in use"),
            CommandFault::OutOfMemory => f.write_str("out of memory"),
        }
    }
}

impl From<AllocError> for CommandFault {
    ghost from_gives = { λ _ f. f ≡ OutOfMemory };

    fn from(_: AllocError) -> CommandFault {
        CommandFault::OutOfMemory
    }
}

impl<T: Drop> From<AllocFailed<T>> for CommandFault {
    ghost from_gives = { λ _ f. f ≡ OutOfMemory };

    fn from(_: AllocFailed<T>) -> CommandFault {
        CommandFault::OutOfMemory
    }
}

/// Why a command stops before its work is done, and what it reports of that.
#[derive(Drop)]
pub enum Stop {
    /// This fault, of which the line is reported.
    Fault(CommandFault),
    /// The words are at fault, as this text says.
    Usage(String),
    /// Standard error failed, so nothing more is reported.
    Messages,
}

impl From<AllocError> for Stop {
    ghost from_gives = { λ _ stop. stop ≡ Fault OutOfMemory };

    fn from(_: AllocError) -> Stop {
        Stop::Fault(CommandFault::OutOfMemory)
    }
}

impl From<CommandFault> for Stop {
    ghost from_gives = { λ fault stop. stop ≡ Fault fault };

    fn from(fault: CommandFault) -> Stop {
        Stop::Fault(fault)
    }
}

fn line_of(alloc: Global, fault: &CommandFault) -> Result<String, AllocError>
    ensures { IfOk result (λ s. string_bytes s ≡ line_of (fault_text fault.now)) }
{
    format!(in alloc; "{fault}\n")
}

/// Writes a text, and answers the status that is wanted, or `Failed` where it can't be written.
pub fn report_text<W: Sink>(sink: &mut W, text: &str, status: Status) -> Status
    requires { (W.written sink.old).failed < 2 ^ 64 - 1 }
    ensures { IsTextReported (W.written sink.old) (W.written sink.new) text.now status result }
{
    match push_all(sink, text.as_bytes()) {
        Ok(()) => status,
        Err(_) => Status::Failed,
    }
}

/// Writes the line of a fault, and answers how the command ends: as the fault says, or `Failed` where the line can't be
/// written, or where there is no memory for it and `out of memory` is written in its place.
pub fn report_fault<E: Sink>(alloc: Global, err: &mut E, fault: &CommandFault) -> Status
    requires { (E.written err.old).failed < 2 ^ 64 - 1 }
    ensures status { (result ≡ status_of_fault fault.now) ⊎ (result ≡ Status.Failed) }
    ensures reported { IsReported (E.written err.old) (E.written err.new)
        (fault_text fault.now) (status_of_fault fault.now) result }
{
    match line_of(alloc, fault) {
        Ok(line) => report_text(err, line.as_str(), fault.status()),
        Err(_) => report_text(err, "out of memory\n", Status::Failed),
    }
}

/// Reports why a command stops, and answers how it ends.
pub fn report_stop<E: Sink>(alloc: Global, err: &mut E, stop: &Stop) -> Status
    requires { CanReport stop.now (E.written err.old).failed }
    ensures { ReportsStop stop.now (E.written err.old) (E.written err.new) result }
{
    match stop {
        Stop::Fault(fault) => report_fault(alloc, err, fault),
        Stop::Usage(text) => report_text(err, text.as_str(), Status::Usage),
        Stop::Messages => Status::Failed,
    }
}
