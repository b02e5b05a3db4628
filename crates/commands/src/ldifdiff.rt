//! ldifdiff: the changes that make a directory another one are printed.
ghost use Rattle.std.specs.Prelude.{◌≡◌, ◌<◌, ◌-◌, ◌^◌, ◌||◌, [], true, is_some, IfOk, IfErr, codes};
ghost use Rattle.std.specs.FinMap as finite;
ghost use Rattle.std.specs.Option.{option_copied, option_map, ForSome};
ghost use Rattle.device.specs.Device.{Took};
ghost use Rattle.filter_text.specs.Spells.{view};
ghost use Rattle.differences.specs.Differences.{Extent};
ghost use Rattle.differences.specs.Comparisons.{extent_of};
ghost use Rattle.differences.specs.Texts.{difference, differs, MayLeadByText};
ghost use Rattle.differences.specs.Obstacles.{HasNoObstacle, LeadsWhereClear};
ghost use Rattle.commands.specs.Asked.{IsBase};
ghost use Rattle.commands.specs.Worlds.{World, source_world, reported_world, diff_world};
ghost use Rattle.commands.specs.Failures.{FailsToWrite};
ghost use Rattle.commands.specs.Queries.{IsBegun};
ghost use Rattle.commands.specs.Loaded.{IsLoaded};
ghost use Rattle.commands.specs.Statuses.{status_of_difference};
ghost use Rattle.commands.specs.Differences.{LoadsSource, SourceFails, LoadsOther, LacksOther, IsWantedFilter, LacksBoth, TellsNoBase, DiffGoesThrough, DiffStops};
ghost use Rattle.commands.specs.inner.Compared.{PreparedFor, IsHeard, HasCompared};
ghost use Rattle.commands.specs.inner.Refusals.{FilterFails};
ghost use Rattle.commands.specs.inner.Stopped.{CanReport, HasEnded};

use crate::database::{load_database, open_present};
use crate::finding::{filter_of, path_of};
use crate::messages::{CommandFault, Status, Stop};
use crate::telling::CommandTeller;
use command_line::DiffOptions;
use databases::{Database, load_tree_telling};
use device::{Sink, Source, push_all};
use differences::{Comparison, find_obstacles, write_difference};
use filter::{Prepared, prepare};
use filter_text::Filter;
use folders::Folder;
use schema::{Code, Conf, Path};
use sentences::obstacle_line;
use std::alloc::{AllocError, Global};
use std::mem;
use tree::Tree;

/// The name that its result codes are printed with.
const NAME: &str = "ldifdiff";

/// The content records of a source that has this name, under a configuration. The first one that is refused is the fault.
fn load_source<S: Source, T: CommandTeller>(
    alloc: Global,
    conf: &Conf,
    source: &mut S,
    name: &str,
    teller: &mut T,
) -> Result<Tree, CommandFault>
    requires { (S.seen source.old).failed < 2 ^ 64 - 1 }
    ensures same_conf { IfOk result (λ t. t.conf ≡ conf.now) }
    ensures loads { IfOk result (λ t. LoadsSource conf.now (S.seen source.old) t.entries) }
    ensures fails { IfErr result (SourceFails conf.now name.now (S.seen source.old)) }
{
    match load_tree_telling(alloc, conf, source, teller) {
        Ok(tree) => Ok(tree),
        Err(fault) => Err(CommandFault::of_content(alloc, name, fault)),
    }
}

/// The other directory: the content records of the file that is asked for, or of the input.
fn load_other<F: Folder, S: Source, T: CommandTeller>(
    alloc: Global,
    asked: &DiffOptions<'_>,
    conf: &Conf,
    folder: &F,
    input: &mut S,
    teller: &mut T,
) -> Result<Tree, CommandFault>
    requires { (S.seen input.old).failed < 2 ^ 64 - 1 }
    ensures same_conf { IfOk result (λ t. t.conf ≡ conf.now) }
    ensures loads { IfOk result (λ t. (w : World) → LoadsOther (option_copied asked.now.file) conf.now t.entries
        (source_world w F.files S.seen folder.now input.old)
        (source_world w F.files S.seen folder.now input.new)) }
    ensures lacks { IfErr result (λ f. (w : World) → LacksOther (option_copied asked.now.file) conf.now f
        (source_world w F.files S.seen folder.now input.old)
        (source_world w F.files S.seen folder.now input.new)) }
{
    let Some(name) = asked.file else {
        return load_source(alloc, conf, input, "input", teller);
    };
    match open_present(alloc, folder, name) {
        Ok(mut source) => load_source(alloc, conf, &mut source, name, teller),
        Err(fault) => Err(fault),
    }
}

/// The filter that is asked for, as it is read, or none. The fault is `Filter` where the text spells none, or one that is too deep, and else
/// `OutOfMemory`.
fn wanted_filter(alloc: Global, asked: &DiffOptions<'_>) -> Result<Option<Filter>, CommandFault>
    ensures found { IfOk result (λ f. IsWantedFilter (option_copied asked.now.filter) (option_map view f)) }
    ensures fault { IfErr result (FilterFails (option_copied asked.now.filter)) }
{
    let Some(text) = asked.filter else {
        return Ok(None);
    };
    match filter_of(alloc, Some(text)) {
        Ok(filter) => Ok(Some(filter)),
        Err(fault) => Err(fault),
    }
}

/// The fault of a base with this code. It is told as one of the command line is, since the status of a code would say that the directories differ.
fn no_base(alloc: Global, code: Code) -> Stop
    ensures { TellsNoBase (λ c. c ≡ code) result }
{
    let command = NAME;
    match format!(in alloc; "{command}: {code}\n") {
        Ok(text) => Stop::Usage(text),
        Err(_) => Stop::Fault(CommandFault::OutOfMemory),
    }
}

/// Whether one of two directories has an entry at a path.
fn is_in_one(database: &Database, other: &Tree, base: &Path) -> bool
    ensures { result ≡ (finite.contains_key database.now.entries base.now || finite.contains_key other.now.entries base.now) }
{
    database.tree().get(base).is_some() || other.get(base).is_some()
}

/// The path of the base that is asked for, at which one of the two directories has an entry; where none is asked for, that of the suffix's entry.
fn base_of(
    alloc: Global,
    asked: &DiffOptions<'_>,
    database: &Database,
    other: &Tree,
) -> Result<Path, Stop>
    ensures found { IfOk result (IsBase database.now.conf (option_copied asked.now.base)) }
    ensures there { IfOk result (λ base. is_some asked.now.base ≡ true
        → (finite.contains_key database.now.entries base || finite.contains_key other.now.entries base) ≡ true) }
    ensures fault { IfErr result (TellsNoBase (LacksBoth database.now.conf database.now.entries other.now.entries (option_copied asked.now.base))) }
{
    match path_of(alloc, database.conf(), asked.base, NAME) {
        Ok(base) => {
            if asked.base.is_some() && !is_in_one(database, other, &base) {
                return Err(no_base(alloc, Code::NoSuchObject));
            }
            Ok(base)
        }
        Err(CommandFault::Code { command: _, code }) => Err(no_base(alloc, code)),
        Err(fault) => Err(Stop::Fault(fault)),
    }
}

/// A filter, looked up under a configuration, where there is one.
fn prepared_filter(
    alloc: Global,
    filter: &Option<Filter>,
    conf: &Conf,
) -> Result<Option<Prepared>, AllocError>
    ensures { IfOk result (PreparedFor conf.now (option_map view filter.now)) }
{
    match filter {
        Some(filter) => Ok(Some(prepare(alloc, filter, conf)?)),
        None => Ok(None),
    }
}

/// What is compared: at and below this base, where this filter is True, if there is one.
fn comparison_of<'a>(
    asked: &DiffOptions<'_>,
    base: &'a Path,
    filter: &'a Option<Prepared>,
) -> Comparison<'a>
    ensures unordered { result.unordered ≡ asked.now.unordered }
    ensures base { result.base.now ≡ base.now }
    ensures filter { option_copied result.filter ≡ filter.now }
{
    Comparison {
        unordered: asked.unordered,
        base,
        filter: filter.as_ref(),
    }
}

/// A line for each entry of which the change can't be carried out.
fn warnings(
    alloc: Global,
    database: &Database,
    other: &Tree,
    comparison: &Comparison<'_>,
) -> Result<Vec<u8>, AllocError>
    requires same_conf { other.now.conf ≡ database.now.conf }
    requires filter { ForSome comparison.now.filter (λ f. f.now.conf ≡ database.now.conf) }
    ensures clear { IfOk result (λ text. text.items ≡ [] → HasNoObstacle database.now.conf
        (extent_of comparison.now database.now.conf database.now.entries other.now.entries) database.now.entries other.now.entries) }
    ensures leads { (extent : Extent) → LeadsWhereClear database.now.conf extent database.now.entries other.now.entries }
{
    let found = find_obstacles(alloc, database, other, comparison)?;
    let mut text = Vec::new(alloc);
    for i in 0..found.len() {
        let line = obstacle_line(alloc, database.conf(), &found[i])?;
        text.extend_from_slice(line.as_bytes())?;
    }
    Ok(text)
}

/// Reports each entry of which the change can't be carried out.
fn warn<E: Sink>(
    alloc: Global,
    database: &Database,
    other: &Tree,
    comparison: &Comparison<'_>,
    err: &mut E,
) -> Result<(), Stop>
    requires same_conf { other.now.conf ≡ database.now.conf }
    requires filter { ForSome comparison.now.filter (λ f. f.now.conf ≡ database.now.conf) }
    requires err { (E.written err.old).failed < 2 ^ 64 - 1 }
    ensures heard { IsHeard database.now.conf (extent_of comparison.now database.now.conf database.now.entries other.now.entries)
        database.now.entries other.now.entries (E.written err.old) (E.written err.new) result }
    ensures leads { (extent : Extent) → LeadsWhereClear database.now.conf extent database.now.entries other.now.entries }
    ensures can_fail { IfOk result (λ _. (E.written err.new).failed < 2 ^ 64 - 1) }
    ensures can_report { IfErr result (λ why. CanReport why (E.written err.new).failed) }
{
    match warnings(alloc, database, other, comparison) {
        Ok(text) => match push_all(err, text.as_slice()) {
            Ok(()) => Ok(()),
            Err(_) => Err(Stop::Messages),
        },
        Err(_) => Err(Stop::Fault(CommandFault::OutOfMemory)),
    }
}

/// Prints the changes that make the second directory of the first, and answers whether they differ.
fn print_changes<O: Sink, T: CommandTeller>(
    alloc: Global,
    database: &Database,
    other: &Tree,
    comparison: &Comparison<'_>,
    out: &mut O,
    teller: &mut T,
) -> Result<Status, CommandFault>
    requires same_conf { other.now.conf ≡ database.now.conf }
    requires filter { ForSome comparison.now.filter (λ f. f.now.conf ≡ database.now.conf) }
    requires out { (O.written out.old).failed < 2 ^ 64 - 1 }
    ensures status { IfOk result (λ s. s ≡ status_of_difference (differs database.now.conf
        (extent_of comparison.now database.now.conf database.now.entries other.now.entries) database.now.entries other.now.entries)) }
    ensures put { IfOk result (λ _. Took (O.written out.old) (O.written out.new) (difference database.now.conf
        (extent_of comparison.now database.now.conf database.now.entries other.now.entries) database.now.entries other.now.entries)) }
    ensures fails { IfErr result (FailsToWrite (codes "output")) }
    ensures begun { IfErr result (λ f. IsBegun f (O.written out.old) (O.written out.new) (difference database.now.conf
        (extent_of comparison.now database.now.conf database.now.entries other.now.entries) database.now.entries other.now.entries)) }
    ensures leads { (extent : Extent) → MayLeadByText database.now.conf extent database.now.entries other.now.entries }
{
    match write_difference(alloc, database, other, comparison, out) {
        Ok(found) => {
            teller.tell_difference(alloc, &found.counts);
            Ok(Status::of_difference(found.differs))
        }
        Err(fault) => Err(CommandFault::of_output(alloc, fault)),
    }
}

/// Warns of what can't be carried out of the changes between two directories that are loaded, and prints them.
fn compare<O: Sink, E: Sink, T: CommandTeller>(
    alloc: Global,
    asked: &DiffOptions<'_>,
    filter: &Option<Filter>,
    database: &Database,
    other: &Tree,
    out: &mut O,
    err: &mut E,
    teller: &mut T,
) -> Result<Status, Stop>
    requires same_conf { other.now.conf ≡ database.now.conf }
    requires filter { IsWantedFilter (option_copied asked.now.filter) (option_map view filter.now) }
    requires out { (O.written out.old).failed < 2 ^ 64 - 1 }
    requires err { (E.written err.old).failed < 2 ^ 64 - 1 }
    ensures ends { (w : World) → HasCompared asked.now database.now.conf database.now.entries other.now.entries
        (reported_world w O.written E.written out.old err.old)
        (reported_world w O.written E.written out.new err.new) result }
    ensures can_report { IfErr result (λ why. CanReport why (E.written err.new).failed) }
{
    teller.note_base(alloc, database.lent(), asked.base);
    let base = match base_of(alloc, asked, database, other) {
        Ok(base) => base,
        Err(stop) => return Err(stop),
    };
    let prepared = match prepared_filter(alloc, filter, database.conf()) {
        Ok(prepared) => prepared,
        Err(_) => return Err(Stop::Fault(CommandFault::OutOfMemory)),
    };
    let comparison = comparison_of(asked, &base, &prepared);
    match warn(alloc, database, other, &comparison, err) {
        Ok(()) => match print_changes(alloc, database, other, &comparison, out, teller) {
            Ok(status) => Ok(status),
            Err(fault) => Err(Stop::Fault(fault)),
        },
        Err(stop) => Err(stop),
    }
}

/// Loads the other directory, and compares one that is loaded with it.
fn compare_with_other<F: Folder, S: Source, O: Sink, E: Sink, T: CommandTeller>(
    alloc: Global,
    asked: &DiffOptions<'_>,
    filter: &Option<Filter>,
    database: &Database,
    folder: &F,
    input: &mut S,
    out: &mut O,
    err: &mut E,
    teller: &mut T,
) -> Result<Status, Stop>
    requires input { (S.seen input.old).failed < 2 ^ 64 - 1 }
    requires out { (O.written out.old).failed < 2 ^ 64 - 1 }
    requires err { (E.written err.old).failed < 2 ^ 64 - 1 }
    requires filter { IsWantedFilter (option_copied asked.now.filter) (option_map view filter.now) }
    requires loaded { IsLoaded (F.files folder.now) asked.now.db.now database.now.conf database.now.entries }
    ensures ends { (w : World) → HasEnded (DiffGoesThrough asked.now) (DiffStops asked.now)
        (diff_world w F.files S.seen O.written E.written folder.now input.old out.old err.old)
        (diff_world w F.files S.seen O.written E.written folder.now input.new out.new err.new) result }
    ensures can_report { IfErr result (λ why. CanReport why (E.written err.new).failed) }
{
    match load_other(alloc, asked, database.conf(), folder, input, teller) {
        Ok(other) => {
            let ended = compare(alloc, asked, filter, database, &other, out, err, teller);
            // The program ends with its command, and that frees the entries at once.
            mem::forget(other);
            ended
        }
        Err(fault) => Err(Stop::Fault(fault)),
    }
}

/// Prints the change records that make the directory in a folder the one that the content records of the file, or of the input, say under its
/// configuration, as far as the two are compared. First it reports each entry of which the change can't be carried out. It ends as `Refused` where
/// there is something to change, and else as `Done`. It stops where the filter is none, the directory can't be loaded, the file can't be read, one
/// of its records is refused, neither directory has the base, or what it prints to, standard error or memory fails.
pub fn ldifdiff<F: Folder, S: Source, O: Sink, E: Sink, T: CommandTeller>(
    alloc: Global,
    asked: &DiffOptions<'_>,
    folder: &F,
    input: &mut S,
    out: &mut O,
    err: &mut E,
    teller: &mut T,
) -> Result<Status, Stop>
    requires input { (S.seen input.old).failed < 2 ^ 64 - 1 }
    requires out { (O.written out.old).failed < 2 ^ 64 - 1 }
    requires err { (E.written err.old).failed < 2 ^ 64 - 1 }
    ensures ends { (w : World) → HasEnded (DiffGoesThrough asked.now) (DiffStops asked.now)
        (diff_world w F.files S.seen O.written E.written folder.now input.old out.old err.old)
        (diff_world w F.files S.seen O.written E.written folder.now input.new out.new err.new) result }
    ensures can_report { IfErr result (λ why. CanReport why (E.written err.new).failed) }
{
    teller.note_filter(alloc, asked.filter);
    let filter = match wanted_filter(alloc, asked) {
        Ok(filter) => filter,
        Err(fault) => return Err(Stop::Fault(fault)),
    };
    match load_database(alloc, folder, asked.db, teller) {
        Ok(database) => {
            let ended = compare_with_other(
                alloc, asked, &filter, &database, folder, input, out, err, teller,
            );
            // The program ends with its command, and that frees the entries at once.
            mem::forget(database);
            ended
        }
        Err(fault) => Err(Stop::Fault(fault)),
    }
}
