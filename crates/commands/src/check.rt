//! check: what is wrong with the files of a directory is reported.
ghost use Rattle.std.specs.Prelude.{◌≡◌, List, ◌<◌, ◌-◌, ◌^◌, ◌++◌, [], Ok, Some, IfOk, IfErr, OnOk, OnErr, codes, length};
ghost use Rattle.std.specs.List.{AllByRecursion};
ghost use Rattle.std.specs.FinMap as finite;
ghost use Rattle.std.specs.Option.{option_copied, option_map};
ghost use Rattle.device.specs.Device.{Took, Broke};
ghost use Rattle.checks.specs.Warnings.{warnings};
ghost use Rattle.folders.specs.Folders.{Finds};
ghost use Rattle.commands.specs.DirectoryFiles.{conf_name, data_name, index_name};
ghost use Rattle.commands.specs.Lists.{list_source};
ghost use Rattle.commands.specs.Texts.{ReadsAtMost};
ghost use Rattle.commands.specs.Worlds.{World, source_world, piped_world};
ghost use Rattle.commands.specs.Endings.{IsFault};
ghost use Rattle.commands.specs.Loaded.{IsConfigured};
ghost use Rattle.commands.specs.Failures.{IsMemory, FailsToRead, FailsToWrite};
ghost use Rattle.commands.specs.Statuses.{status_of_reports};
ghost use Rattle.commands.specs.Checks.{types_asked, AddsText, AddsFile, AddsOver, file_name, file_reports, value_reports, TellsFirstFaults, TellsOthers, Checks, WarnsOf};
ghost use Rattle.commands.specs.Checks.{TellsNoType, LacksTypes, LacksFirst, FailsOver, CheckFails, IsUncheckable, CheckGoesThrough, CheckStops};
ghost use Rattle.commands.specs.inner.Checked.{AreTypesAsked, HasAdded, ReportsIndex, told_reports, HasGathered};
ghost use Rattle.commands.specs.inner.Stopped.{HasEnded};

use crate::conf_check::tell_faults;
use crate::database::{open, open_present, path, read_conf_text};
use crate::file_warnings::warn_of_files;
use crate::index_check::report_index_file;
use crate::messages::{CommandFault, Status, Stop};
use crate::telling::CommandTeller;
use checks::{
    TypesFault, find_faults, has_passwords, report_dangling, report_faults, report_refused,
    report_shared, report_warnings, types_named,
};
use command_line::CheckOptions;
use databases::{Database, RunFault, run_telling};
use device::{Device, Sink, Source, push_all};
use dir_conf::{ConfFault, read_conf};
use folders::Folder;
use ldif::Mode;
use schema::{Code, Conf, TypeId};
use std::alloc::{AllocError, Global};
use std::mem;
use try_device::TrySink;

/// The types that are asked for.
#[derive(Drop)]
struct CheckedTypes {
    /// Those of which references are looked at; all of DN syntax, where there is none.
    references: Vec<TypeId>,
    /// Those of which no two entries should have equal values.
    unique: Vec<TypeId>,
}

/// The fault of an option that names a type which isn't known.
fn no_type(alloc: Global, named: &str) -> Stop
    ensures { TellsNoType named.now result }
{
    let code = Code::UndefinedAttributeType;
    match format!(in alloc; "check: {named}: {code}\n") {
        Ok(text) => Stop::Usage(text),
        Err(_) => Stop::Fault(CommandFault::OutOfMemory),
    }
}

/// The types that the text of an option names, or none without one.
fn types_by(alloc: Global, conf: &Conf, named: Option<&str>) -> Result<Vec<TypeId>, Stop>
    ensures asked { IfOk result (λ v. types_asked conf.now.types (option_copied named.entry) ≡ Ok v.items) }
    ensures known { IfOk result (λ v. AllByRecursion (λ t. t < length conf.now.types) v.items) }
    ensures lacks { IfErr result (LacksTypes conf.now.types (option_copied named.entry)) }
{
    let Some(text) = named else {
        return Ok(Vec::new(alloc));
    };
    match types_named(alloc, conf, text.as_bytes()) {
        Ok(types) => Ok(types),
        Err(TypesFault::Unknown(_)) => Err(no_type(alloc, text)),
        Err(TypesFault::OutOfMemory) => Err(Stop::Fault(CommandFault::OutOfMemory)),
    }
}

/// The types that are asked for.
fn checked_types(alloc: Global, asked: &CheckOptions<'_>, conf: &Conf) -> Result<CheckedTypes, Stop>
    ensures asked { IfOk result (AreTypesAsked asked.now conf.now.types) }
    ensures lacks { IfErr result (LacksFirst asked.now conf.now.types) }
{
    let references = types_by(alloc, conf, asked.references)?;
    let unique = types_by(alloc, conf, asked.unique)?;
    Ok(CheckedTypes { references, unique })
}

/// Adds the records of a source that has this name, one after the other, and answers what is reported of those that are refused.
fn add_records<S: Source, T: CommandTeller>(
    alloc: Global,
    database: &mut Database,
    source: &mut S,
    name: &str,
    teller: &mut T,
) -> Result<Vec<u8>, CommandFault>
    requires source { (S.seen source.old).failed < 2 ^ 64 - 1 }
    ensures same_conf { database.new.conf ≡ database.old.conf }
    ensures adds { IfOk result (λ told. AddsText database.old.conf database.old.entries (S.seen source.old).left database.new.entries told.items) }
    ensures err { IfErr result (FailsToRead name.now) }
{
    let mut told = TrySink::new(alloc, usize::MAX, None);
    match run_telling(
        alloc,
        database,
        source,
        &mut told,
        teller,
        Mode::Content,
        true,
    ) {
        Ok(_) => Ok(Vec::from_slice(alloc, told.bytes())?),
        Err(RunFault::Read(_)) => Err(CommandFault::cannot_read(alloc, name)),
        Err(_) => Err(CommandFault::OutOfMemory),
    }
}

/// Adds the records of data.ldif in the folder `db` to no entry, and answers what is reported of those that are refused. Where there is no such
/// file, there is no record.
fn load_records<F: Folder, T: CommandTeller>(
    alloc: Global,
    folder: &F,
    db: &str,
    database: &mut Database,
    teller: &mut T,
) -> Result<Vec<u8>, CommandFault>
    requires empty { database.old.entries ≡ finite.empty }
    ensures same_conf { database.new.conf ≡ database.old.conf }
    ensures adds { IfOk result (λ told. HasAdded (F.files folder.now) db.now database.old.conf database.new.entries told.items) }
    ensures err { IfErr result (FailsToRead (data_name db.now)) }
{
    let name = path(alloc, db, "data.ldif")?;
    match open(alloc, folder, name.as_str()) {
        Ok(Some(mut source)) => add_records(alloc, database, &mut source, name.as_str(), teller),
        Ok(None) => Ok(Vec::new(alloc)),
        Err(fault) => Err(fault),
    }
}

/// What is reported of index.txt in the folder `db`, against a directory.
fn index_reports<F: Folder>(
    alloc: Global,
    folder: &F,
    db: &str,
    database: &Database,
) -> Result<Vec<u8>, CommandFault>
    ensures reports { IfOk result (λ text.
        ReportsIndex (F.files folder.now) (index_name db.now) database.now.conf database.now.entries [] text.items) }
    ensures err { IfErr result (FailsToRead (index_name db.now)) }
{
    let mut text = Vec::new(alloc);
    report_index_file(alloc, folder, db, database, &mut text)?;
    Ok(text)
}

/// Adds the records of the file of this name, which with `-` is the input, over a directory, and answers what is reported of those that are refused.
fn add_file<F: Folder, S: Source, T: CommandTeller>(
    alloc: Global,
    folder: &F,
    input: &mut S,
    name: &str,
    database: &mut Database,
    teller: &mut T,
) -> Result<Vec<u8>, CommandFault>
    requires input { (S.seen input.old).failed < 2 ^ 64 - 1 }
    ensures same_conf { database.new.conf ≡ database.old.conf }
    ensures adds { IfOk result (λ told. (w : World) →
        AddsFile name.now database.old.conf database.old.entries database.new.entries told.items
        (source_world w F.files S.seen folder.now input.old)
        (source_world w F.files S.seen folder.now input.new)) }
    ensures err { IfErr result (FailsToRead (file_name name.now)) }
    ensures stays { (w : World) → ReadsAtMost (list_source name.now)
        (source_world w F.files S.seen folder.now input.old)
        (source_world w F.files S.seen folder.now input.new) }
{
    if name == "-" {
        return add_records(alloc, database, input, "input", teller);
    }
    match open_present(alloc, folder, name) {
        Ok(mut source) => add_records(alloc, database, &mut source, name, teller),
        Err(fault) => Err(fault),
    }
}

/// Adds the records of the file that is named, if one is, likewise.
fn add_over<F: Folder, S: Source, T: CommandTeller>(
    alloc: Global,
    folder: &F,
    input: &mut S,
    file: Option<&str>,
    database: &mut Database,
    teller: &mut T,
) -> Result<Vec<u8>, CommandFault>
    requires input { (S.seen input.old).failed < 2 ^ 64 - 1 }
    ensures same_conf { database.new.conf ≡ database.old.conf }
    ensures adds { IfOk result (λ told. (w : World) →
        AddsOver (option_copied file.entry) database.old.conf database.old.entries database.new.entries told.items
        (source_world w F.files S.seen folder.now input.old)
        (source_world w F.files S.seen folder.now input.new)) }
    ensures fails { IfErr result (λ fault. (w : World) → FailsOver (option_copied file.entry) fault
        (source_world w F.files S.seen folder.now input.old)
        (source_world w F.files S.seen folder.now input.new)) }
{
    match file {
        Some(name) => add_file(alloc, folder, input, name, database, teller),
        None => Ok(Vec::new(alloc)),
    }
}

/// The name that a file has in what is reported of it.
fn file_name(name: &str) -> &str
    ensures { result.now ≡ file_name name.now }
{
    if name == "-" { "input" } else { name }
}

/// Puts what was told of the records of the file that is named, if one is, at the end of a text.
fn report_file(
    alloc: Global,
    file: Option<&str>,
    told: &[u8],
    text: &mut Vec<u8>,
) -> Result<(), AllocError>
    ensures { OnOk result (text.new.items ≡ text.old.items ++ file_reports (option_copied file.entry) told.now) }
{
    match file {
        Some(name) => report_refused(alloc, file_name(name), told, text),
        None => Ok(()),
    }
}

/// What was found out before references and values are looked at.
#[derive(Drop)]
struct Told {
    /// What a run told of data.ldif.
    loaded: Vec<u8>,
    /// What is reported of index.txt.
    index: Vec<u8>,
    /// What a run told of the file over it.
    over: Vec<u8>,
}

/// Puts what is reported of that at the end of a text.
fn put_told(
    alloc: Global,
    file: Option<&str>,
    told: &Told,
    text: &mut Vec<u8>,
) -> Result<(), AllocError>
    ensures { OnOk result (text.new.items ≡ text.old.items ++ told_reports (option_copied file.entry) told.now) }
{
    report_refused(alloc, "data.ldif", told.loaded.as_slice(), text)?;
    report_file(alloc, file, told.over.as_slice(), text)?;
    text.extend_from_slice(told.index.as_slice())?;
    Ok(())
}

/// Puts what is reported of references and values of a directory at the end of a text.
fn put_values(
    alloc: Global,
    types: &CheckedTypes,
    database: &Database,
    text: &mut Vec<u8>,
) -> Result<(), AllocError>
    requires known { AllByRecursion (λ t. t < length database.now.conf.types) types.now.unique.items }
    ensures { OnOk result (text.new.items ≡ text.old.items
        ++ value_reports database.now.conf database.now.entries types.now.references.items types.now.unique.items) }
{
    let lent = database.lent();
    report_dangling(alloc, lent, types.references.as_slice(), text)?;
    report_shared(alloc, lent, types.unique.as_slice(), text)?;
    Ok(())
}

/// All that is reported of a directory, of which this was told.
fn reports(
    alloc: Global,
    file: Option<&str>,
    types: &CheckedTypes,
    database: &Database,
    told: &Told,
) -> Result<Vec<u8>, CommandFault>
    requires known { AllByRecursion (λ t. t < length database.now.conf.types) types.now.unique.items }
    ensures reports { IfOk result (λ text. text.items ≡ told_reports (option_copied file.entry) told.now
        ++ value_reports database.now.conf database.now.entries types.now.references.items types.now.unique.items) }
    ensures memory { IfErr result IsMemory }
{
    let mut text = Vec::new(alloc);
    put_told(alloc, file, told, &mut text)?;
    put_values(alloc, types, database, &mut text)?;
    Ok(text)
}

/// Loads data.ldif, looks at index.txt, and adds the records of the file that is named, if one is.
fn gather<F: Folder, S: Source, T: CommandTeller>(
    alloc: Global,
    asked: &CheckOptions<'_>,
    folder: &F,
    input: &mut S,
    database: &mut Database,
    teller: &mut T,
) -> Result<Told, CommandFault>
    requires input { (S.seen input.old).failed < 2 ^ 64 - 1 }
    requires configured { IsConfigured (F.files folder.now) (conf_name asked.now.db.now) database.old.conf }
    requires empty { database.old.entries ≡ finite.empty }
    ensures same_conf { database.new.conf ≡ database.old.conf }
    ensures gathers { IfOk result (λ told. (w : World) → HasGathered asked.now database.old.conf database.new.entries told
        (source_world w F.files S.seen folder.now input.old)
        (source_world w F.files S.seen folder.now input.new)) }
    ensures fails { IfErr result (λ fault. (w : World) → CheckFails asked.now fault
        (source_world w F.files S.seen folder.now input.old)
        (source_world w F.files S.seen folder.now input.new)) }
{
    let loaded = load_records(alloc, folder, asked.db, database, teller)?;
    let index = index_reports(alloc, folder, asked.db, database)?;
    let over = add_over(alloc, folder, input, asked.file, database, teller)?;
    Ok(Told {
        loaded,
        index,
        over,
    })
}

/// What is reported of the files in a folder as wrong.
#[derive(Drop)]
struct Checked {
    reports: Vec<u8>,
    /// Whether the directory has values of userPassword, as far as it was loaded.
    has_passwords: bool,
}

/// All that is reported of the files in a folder, whose dir.conf says this configuration, and of the file over them.
fn check_under<F: Folder, S: Source, T: CommandTeller>(
    alloc: Global,
    asked: &CheckOptions<'_>,
    folder: &F,
    input: &mut S,
    conf: Conf,
    types: &CheckedTypes,
    teller: &mut T,
) -> Result<Checked, CommandFault>
    requires input { (S.seen input.old).failed < 2 ^ 64 - 1 }
    requires configured { IsConfigured (F.files folder.now) (conf_name asked.now.db.now) conf }
    requires types { AreTypesAsked asked.now conf.types types.now }
    ensures checks { IfOk result (λ c. (w : World) → TellsOthers asked.now c.reports.items
        (source_world w F.files S.seen folder.now input.old)
        (source_world w F.files S.seen folder.now input.new)) }
    ensures fails { IfErr result (λ fault. (w : World) → CheckFails asked.now fault
        (source_world w F.files S.seen folder.now input.old)
        (source_world w F.files S.seen folder.now input.new)) }
{
    let mut database = Database::new(alloc, conf);
    let told = gather(alloc, asked, folder, input, &mut database, teller)?;
    let reports = reports(alloc, asked.file, types, &database, &told);
    let has_passwords = has_passwords(alloc, database.lent());
    // The program ends with its command, and that frees the entries at once.
    mem::forget(database);
    match reports {
        Ok(reports) => Ok(Checked {
            reports,
            has_passwords,
        }),
        Err(fault) => Err(fault),
    }
}

/// A report of each fault of the text of a dir.conf, up to the most that are told.
fn fault_reports<T: CommandTeller>(
    alloc: Global,
    text: &[u8],
    teller: &mut T,
) -> Result<Vec<u8>, AllocError>
    ensures { IfOk result (λ v. TellsFirstFaults text.now v.items) }
{
    let found = find_faults(alloc, text)?;
    tell_faults(alloc, text, found.faults.as_slice(), teller)?;
    let mut reports = Vec::new(alloc);
    report_faults(alloc, &found, &mut reports)?;
    Ok(reports)
}

/// All that is reported as wrong of the files in a folder, whose dir.conf has this text, and of the file over them.
fn check_conf<F: Folder, S: Source, T: CommandTeller>(
    alloc: Global,
    asked: &CheckOptions<'_>,
    folder: &F,
    input: &mut S,
    conf_text: &[u8],
    teller: &mut T,
) -> Result<Checked, Stop>
    requires input { (S.seen input.old).failed < 2 ^ 64 - 1 }
    requires there { Finds (F.files folder.now) (conf_name asked.now.db.now) (Some (Some conf_text.now)) }
    ensures checks { IfOk result (λ c. (w : World) → Checks asked.now c.reports.items
        (source_world w F.files S.seen folder.now input.old)
        (source_world w F.files S.seen folder.now input.new)) }
    ensures stops { IfErr result (λ why. (w : World) → IsUncheckable asked.now why
        (source_world w F.files S.seen folder.now input.old)
        (source_world w F.files S.seen folder.now input.new)) }
{
    match read_conf(alloc, conf_text) {
        Ok(conf) => {
            let types = checked_types(alloc, asked, &conf)?;
            match check_under(alloc, asked, folder, input, conf, &types, teller) {
                Ok(checked) => Ok(checked),
                Err(fault) => Err(Stop::Fault(fault)),
            }
        }
        Err(ConfFault::Line { .. }) => Ok(Checked {
            reports: fault_reports(alloc, conf_text, teller)?,
            has_passwords: false,
        }),
        Err(ConfFault::OutOfMemory) => Err(Stop::Fault(CommandFault::OutOfMemory)),
    }
}

/// What is printed of the files in a folder.
#[derive(Drop)]
struct Printed {
    /// What is wrong.
    wrong: Vec<u8>,
    /// What is warned of.
    warned: Vec<u8>,
}

/// What is warned of in the text of the dir.conf in a folder, and of the files there beside their contents.
fn warnings<F: Folder>(
    alloc: Global,
    folder: &F,
    db: &str,
    conf_text: &[u8],
    has_passwords: bool,
) -> Result<Vec<u8>, AllocError>
    requires { Finds (F.files folder.now) (conf_name db.now) (Some (Some conf_text.now)) }
    ensures { IfOk result (λ v. WarnsOf (F.files folder.now) db.now v.items) }
{
    let mut warned = Vec::new(alloc);
    report_warnings(alloc, conf_text, &mut warned)?;
    let mut of_files = Vec::new(alloc);
    warn_of_files(alloc, folder, db, has_passwords, &mut of_files)?;
    warned.extend_from_slice(of_files.as_slice())?;
    Ok(warned)
}

/// All that is reported of the files in a folder, and of the file over them.
fn check_folder<F: Folder, S: Source, T: CommandTeller>(
    alloc: Global,
    asked: &CheckOptions<'_>,
    folder: &F,
    input: &mut S,
    teller: &mut T,
) -> Result<Printed, Stop>
    requires input { (S.seen input.old).failed < 2 ^ 64 - 1 }
    ensures checks { IfOk result (λ p. (w : World) → Checks asked.now p.wrong.items
        (source_world w F.files S.seen folder.now input.old)
        (source_world w F.files S.seen folder.now input.new)) }
    ensures warns { IfOk result (λ p. WarnsOf (F.files folder.now) asked.now.db.now p.warned.items) }
    ensures stops { IfErr result (λ why. (w : World) → IsUncheckable asked.now why
        (source_world w F.files S.seen folder.now input.old)
        (source_world w F.files S.seen folder.now input.new)) }
{
    let text = read_conf_text(alloc, folder, asked.db)?;
    let checked = check_conf(alloc, asked, folder, input, text.as_slice(), teller)?;
    let Checked {
        reports,
        has_passwords,
    } = checked;
    let warned = warnings(alloc, folder, asked.db, text.as_slice(), has_passwords)?;
    Ok(Printed {
        wrong: reports,
        warned,
    })
}

/// Pushes two texts, one behind the other.
fn push_both<O: Sink>(out: &mut O, first: &[u8], second: &[u8]) -> Result<(), Device>
    requires { (O.written out.old).failed < 2 ^ 64 - 1 }
    ensures ok { OnOk result (Took (O.written out.old) (O.written out.new) (first.now ++ second.now)) }
    ensures device { OnErr result (Broke (O.written out.old) (O.written out.new) (first.now ++ second.now)) }
{
    push_all(out, first)?;
    push_all(out, second)
}

/// Prints what is wrong, and behind it what is warned of, and answers whether something is wrong.
fn print_reports<O: Sink>(
    alloc: Global,
    wrong: &[u8],
    warned: &[u8],
    out: &mut O,
) -> Result<Status, Stop>
    requires { (O.written out.old).failed < 2 ^ 64 - 1 }
    ensures status { IfOk result (λ s. s ≡ status_of_reports wrong.now) }
    ensures printed { OnOk result (Took (O.written out.old) (O.written out.new) (wrong.now ++ warned.now)) }
    ensures broke { IfErr result (λ why. IsFault (FailsToWrite (codes "output")) why
        × Broke (O.written out.old) (O.written out.new) (wrong.now ++ warned.now)) }
{
    match push_both(out, wrong, warned) {
        Ok(()) => Ok(Status::of_reports(wrong)),
        Err(Device) => Err(Stop::Fault(CommandFault::cannot_write(alloc, "output"))),
    }
}

/// Prints what is wrong with the files of the directory in a folder, each with a word for its kind, where it is, and what it is, with tabs between:
/// all faults of dir.conf; or, where that has none, the records of data.ldif that are refused, over them those of the file that is named, which with
/// `-` is the input, index.txt where it isn't what slapindex writes of data.ldif, references that name no entry, and values of several entries of the
/// types that are asked for. Behind that stand warnings of what dir.conf says and counts for nothing. It ends as `Refused` where something is wrong,
/// and else as `Done`. It stops where a type isn't known, or a file, the output or memory fails.
pub fn check<F: Folder, S: Source, O: Sink, T: CommandTeller>(
    alloc: Global,
    asked: &CheckOptions<'_>,
    folder: &F,
    input: &mut S,
    out: &mut O,
    teller: &mut T,
) -> Result<Status, Stop>
    requires input { (S.seen input.old).failed < 2 ^ 64 - 1 }
    requires out { (O.written out.old).failed < 2 ^ 64 - 1 }
    ensures { (w : World) → HasEnded (CheckGoesThrough asked.now) (CheckStops asked.now)
        (piped_world w F.files S.seen O.written folder.now input.old out.old)
        (piped_world w F.files S.seen O.written folder.now input.new out.new) result }
{
    match check_folder(alloc, asked, folder, input, teller) {
        Ok(printed) => print_reports(
            alloc,
            printed.wrong.as_slice(),
            printed.warned.as_slice(),
            out,
        ),
        Err(stop) => Err(stop),
    }
}
