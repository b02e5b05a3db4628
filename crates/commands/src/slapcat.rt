//! slapcat: a directory, or an excerpt of it, is printed as LDIF, or a directory under another suffix.
ghost use Rattle.std.specs.Prelude.{◌≡◌, ◌≢◌, ◌<◌, ◌-◌, ◌^◌, true, false, is_some, IfOk, IfErr, OnOk, OnErr, codes};
ghost use Rattle.std.specs.FinMap as finite;
ghost use Rattle.std.specs.Option.{option_copied};
ghost use Rattle.device.specs.Device.{Took};
ghost use Rattle.folders.specs.Folders.{with_file};
ghost use Rattle.databases.specs.Runs.{LoadsBackAt};
ghost use Rattle.commands.specs.DirectoryFiles.{file_in, IsForeign};
ghost use Rattle.commands.specs.Worlds.{World, put_world};
ghost use Rattle.commands.specs.Asked.{IsBase};
ghost use Rattle.commands.specs.Failures.{FailsToWrite};
ghost use Rattle.commands.specs.Queries.{LacksBase, target_of, IsBegun, Begins, HasBegun, PrintsPartly, StopsWith};
ghost use Rattle.commands.specs.Prints.{cat_wanted, is_whole, IsCatText, IsMovedText, IsTextUnder, Puts, HasPut, CatGoesThrough, CatStops};
ghost use Rattle.commands.specs.inner.Refusals.{RefusesOrBreaks, MovesNot};
ghost use Rattle.commands.specs.Failures.{Refuses};
ghost use Rattle.commands.specs.inner.Sought.{excerpt_query};
ghost use Rattle.commands.specs.inner.Views.{basis_of};
ghost use Rattle.commands.specs.inner.Stopped.{HasEnded};

use crate::database::{load_database, path};
use crate::excerpt::Excerpt;
use crate::finding::{filter_of, path_of};
use crate::messages::{CommandFault, Status, Stop};
use crate::moving::moved;
use crate::query::Query;
use crate::storing::{Dump, store};
use crate::telling::CommandTeller;
use command_line::CatOptions;
use databases::{Database, loading_a_folded_dump};
use device::Sink;
use filter_text::Filter;
use folders::{FileText, Folder};
use ldif::LineWidth;
use schema::{Code, Path};
use std::alloc::{AllocError, Global};
use std::mem;

/// The name that its result codes are printed with.
const NAME: &str = "slapcat";

fn print_text<T: FileText, O: Sink>(
    alloc: Global,
    text: &T,
    out: &mut O,
) -> Result<(), CommandFault>
    requires { (O.written out.old).failed < 2 ^ 64 - 1 }
    ensures put { OnOk result (Took (O.written out.old) (O.written out.new) (T.text text.now)) }
    ensures err { IfErr result (FailsToWrite (codes "output")) }
    ensures begun { IfErr result (λ f. IsBegun f (O.written out.old) (O.written out.new) (T.text text.now)) }
{
    match text.write(alloc, out) {
        Ok(_) => Ok(()),
        Err(fault) => Err(CommandFault::of_output(alloc, fault)),
    }
}

/// Whether a file of this name would take the place of the directory's file `own`.
fn replaces<F: Folder>(
    alloc: Global,
    folder: &F,
    db: &str,
    own: &str,
    name: &str,
) -> Result<bool, AllocError>
    ensures { IfOk result (λ replaces. replaces ≡ false → name.now ≢ file_in db.now own.now) }
{
    match path(alloc, db, own) {
        Ok(path) => Ok(folder.is_one_place(name, path.as_str())),
        Err(_) => Err(AllocError),
    }
}

/// Whether a file of this name would take the place of none of the directory's files.
fn is_foreign<F: Folder>(
    alloc: Global,
    folder: &F,
    db: &str,
    name: &str,
) -> Result<bool, AllocError>
    ensures { IfOk result (λ foreign. foreign ≡ true → IsForeign db.now name.now) }
{
    let conf = replaces(alloc, folder, db, "dir.conf", name)?;
    let data = replaces(alloc, folder, db, "data.ldif", name)?;
    let index = replaces(alloc, folder, db, "index.txt", name)?;
    Ok(!conf && !data && !index)
}

/// Writes a text to the file of this name, which may be none of the directory's own.
fn store_apart<T: FileText, F: Folder>(
    alloc: Global,
    text: &T,
    db: &str,
    name: &str,
    folder: &mut F,
) -> Result<(), CommandFault>
    ensures same { OnErr result (F.files folder.new ≡ F.files folder.old) }
    ensures locking { F.locking folder.new ≡ F.locking folder.old }
    ensures foreign { OnOk result (IsForeign db.now name.now) }
    ensures ok { OnOk result (F.files folder.new ≡ with_file (F.files folder.old) name.now (T.text text.now)) }
    ensures err { IfErr result (FailsToWrite name.now) }
{
    match is_foreign(alloc, folder, db, name) {
        Ok(true) => store(alloc, folder, name, text),
        Ok(false) => Err(CommandFault::cannot_write(alloc, name)),
        Err(_) => Err(CommandFault::OutOfMemory),
    }
}

/// Writes a text to the file that is asked for, or prints it.
fn put<T: FileText, F: Folder, O: Sink>(
    alloc: Global,
    text: &T,
    asked: &CatOptions<'_>,
    folder: &mut F,
    out: &mut O,
) -> Result<(), CommandFault>
    requires { (O.written out.old).failed < 2 ^ 64 - 1 }
    ensures same { OnErr result (F.files folder.new ≡ F.files folder.old) }
    ensures locking { F.locking folder.new ≡ F.locking folder.old }
    ensures put { (w : World) → OnOk result (Puts asked.now.db.now (option_copied asked.now.file) (T.text text.now)
        (put_world w F.files O.written folder.old out.old)
        (put_world w F.files O.written folder.new out.new)) }
    ensures err { IfErr result (FailsToWrite (target_of (option_copied asked.now.file))) }
    ensures begins { IfErr result (λ f. Begins (option_copied asked.now.file) f
        (O.written out.old) (O.written out.new) (T.text text.now)) }
{
    match asked.file {
        Some(name) => store_apart(alloc, text, asked.db, name, folder),
        None => print_text(alloc, text, out),
    }
}

/// The path of the entry that is asked for, which has to be there; where none is, that of the suffix's entry.
fn base_of(alloc: Global, asked: &CatOptions<'_>, database: &Database) -> Result<Path, CommandFault>
    ensures found { IfOk result (IsBase database.now.conf (option_copied asked.now.base)) }
    ensures there { IfOk result (λ base. is_some asked.now.base ≡ true
        → finite.contains_key database.now.entries base ≡ true) }
    ensures fault { IfErr result (Refuses (codes "slapcat")
        (LacksBase (cat_wanted asked.now) database.now.conf database.now.entries)) }
{
    let base = path_of(alloc, database.conf(), asked.base, NAME)?;
    if asked.base.is_some() && database.tree().get(&base).is_none() {
        return Err(CommandFault::Code {
            command: NAME,
            code: Code::NoSuchObject,
        });
    }
    Ok(base)
}

/// The entries at the base that is asked for, which has to be there, and below it that the filter is True of.
fn query_of(
    alloc: Global,
    asked: &CatOptions<'_>,
    filter: &Filter,
    database: &Database,
) -> Result<Query, CommandFault>
    ensures found { IfOk result (λ q. q ≡ excerpt_query database.now.conf filter.now q.base asked.now.width) }
    ensures base { IfOk result (λ q. IsBase database.now.conf (option_copied asked.now.base) q.base) }
    ensures there { IfOk result (λ q. is_some asked.now.base ≡ true
        → finite.contains_key database.now.entries q.base ≡ true) }
    ensures fault { IfErr result (Refuses (codes "slapcat")
        (LacksBase (cat_wanted asked.now) database.now.conf database.now.entries)) }
{
    let base = base_of(alloc, asked, database)?;
    match Query::of_excerpt(alloc, filter, base, database.conf(), asked.width) {
        Ok(query) => Ok(query),
        Err(_) => Err(CommandFault::OutOfMemory),
    }
}

/// Puts the entries that are asked for, all of them or those that a query finds.
fn put_entries<F: Folder, O: Sink>(
    alloc: Global,
    asked: &CatOptions<'_>,
    filter: &Filter,
    database: &Database,
    folder: &mut F,
    out: &mut O,
) -> Result<(), CommandFault>
    requires { (O.written out.old).failed < 2 ^ 64 - 1 }
    ensures same { OnErr result (F.files folder.new ≡ F.files folder.old) }
    ensures locking { F.locking folder.new ≡ F.locking folder.old }
    ensures put { (w : World) → OnOk result (HasPut (IsCatText (is_whole asked.now) asked.now
        (basis_of filter.now database.now)) asked.now.db.now (option_copied asked.now.file)
        (put_world w F.files O.written folder.old out.old)
        (put_world w F.files O.written folder.new out.new)) }
    ensures fault { IfErr result (RefusesOrBreaks (cat_wanted asked.now) database.now.conf database.now.entries) }
    ensures partly { IfErr result (PrintsPartly (HasBegun (IsCatText (is_whole asked.now) asked.now
        (basis_of filter.now database.now)) (option_copied asked.now.file))
        (O.written out.old) (O.written out.new)) }
{
    if asked.filter.is_none() && asked.base.is_none() {
        let dump = Dump {
            database,
            width: asked.width,
        };
        return put(alloc, &dump, asked, folder, out);
    }
    match query_of(alloc, asked, filter, database) {
        Ok(query) => {
            let excerpt = Excerpt {
                database,
                query: &query,
            };
            put(alloc, &excerpt, asked, folder, out)
        }
        Err(fault) => Err(fault),
    }
}

/// The dump of a directory loads back from every width. It does nothing: a call of it is made for what it states.
fn loads_back(database: &Database, width: LineWidth)
    ensures { LoadsBackAt width database.now.conf database.now.entries }
{
    width.holds_a_byte();
    database.tree().entries_are_a_directory();
    database.conf().rules_are_kept();
    loading_a_folded_dump();
}

/// Puts all entries under the suffix that a name spells.
fn put_moved<F: Folder, O: Sink, T: CommandTeller>(
    alloc: Global,
    asked: &CatOptions<'_>,
    name: &str,
    database: &Database,
    folder: &mut F,
    out: &mut O,
    teller: &mut T,
) -> Result<(), CommandFault>
    requires { (O.written out.old).failed < 2 ^ 64 - 1 }
    ensures same { OnErr result (F.files folder.new ≡ F.files folder.old) }
    ensures locking { F.locking folder.new ≡ F.locking folder.old }
    ensures put { (w : World) → OnOk result (HasPut (IsMovedText asked.now.width name.now database.now.conf database.now.entries)
        asked.now.db.now (option_copied asked.now.file)
        (put_world w F.files O.written folder.old out.old)
        (put_world w F.files O.written folder.new out.new)) }
    ensures fault { IfErr result (MovesNot name.now (option_copied asked.now.file) database.now.conf database.now.entries) }
    ensures partly { IfErr result (PrintsPartly (HasBegun (IsMovedText asked.now.width name.now database.now.conf database.now.entries)
        (option_copied asked.now.file)) (O.written out.old) (O.written out.new)) }
{
    match moved(alloc, name, database, teller) {
        Ok(moved) => {
            loads_back(&moved, asked.width);
            let dump = Dump {
                database: &moved,
                width: asked.width,
            };
            put(alloc, &dump, asked, folder, out)
        }
        Err(fault) => Err(fault),
    }
}

/// Puts what is asked for: the directory or an excerpt of it, or the directory under another suffix.
fn put_text<F: Folder, O: Sink, T: CommandTeller>(
    alloc: Global,
    asked: &CatOptions<'_>,
    filter: &Filter,
    database: &Database,
    folder: &mut F,
    out: &mut O,
    teller: &mut T,
) -> Result<(), CommandFault>
    requires { (O.written out.old).failed < 2 ^ 64 - 1 }
    ensures same { OnErr result (F.files folder.new ≡ F.files folder.old) }
    ensures locking { F.locking folder.new ≡ F.locking folder.old }
    ensures put { (w : World) → OnOk result (HasPut (IsTextUnder (option_copied asked.now.suffix) asked.now
        (basis_of filter.now database.now)) asked.now.db.now (option_copied asked.now.file)
        (put_world w F.files O.written folder.old out.old)
        (put_world w F.files O.written folder.new out.new)) }
    ensures fault { IfErr result (RefusesOrBreaks (cat_wanted asked.now) database.now.conf database.now.entries) }
    ensures partly { IfErr result (PrintsPartly (HasBegun (IsTextUnder (option_copied asked.now.suffix) asked.now
        (basis_of filter.now database.now)) (option_copied asked.now.file))
        (O.written out.old) (O.written out.new)) }
{
    match asked.suffix {
        Some(name) => put_moved(alloc, asked, name, database, folder, out, teller),
        None => {
            teller.note_base(alloc, database.lent(), asked.base);
            put_entries(alloc, asked, filter, database, folder, out)
        }
    }
}

/// Writes the directory in a folder to the file, or to `out`: all entries, or those at the base and below it that the filter is True of, or all
/// under another suffix. It stops where the text is no filter, the directory can't be loaded, the base isn't there (its code is 32 noSuchObject
/// then), the name spells no suffix or an entry can't be under it (the code says why), the file is one of the directory's own, or what it
/// writes to or memory fails.
pub fn slapcat<F: Folder, O: Sink, T: CommandTeller>(
    alloc: Global,
    asked: &CatOptions<'_>,
    folder: &mut F,
    out: &mut O,
    teller: &mut T,
) -> Result<Status, Stop>
    requires { (O.written out.old).failed < 2 ^ 64 - 1 }
    ensures ends { (w : World) → HasEnded (CatGoesThrough asked.now) (CatStops asked.now)
        (put_world w F.files O.written folder.old out.old)
        (put_world w F.files O.written folder.new out.new) result }
    ensures locking { F.locking folder.new ≡ F.locking folder.old }
{
    teller.note_filter(alloc, asked.filter);
    let filter = filter_of(alloc, asked.filter)?;
    let database = load_database(alloc, folder, asked.db, teller)?;
    let done = put_text(alloc, asked, &filter, &database, folder, out, teller);
    // The program ends with its command, and that frees the entries at once.
    mem::forget(database);
    match done {
        Ok(()) => Ok(Status::Done),
        Err(fault) => Err(Stop::Fault(fault)),
    }
}
