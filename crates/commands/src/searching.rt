//! search: the entries that a filter finds are printed as LDIF.
ghost use Rattle.std.specs.Prelude.{◌≡◌, ◌<◌, ◌-◌, ◌^◌, ◌++◌, Some, None, Err, IfOk, IfErr, length, map, codes};
ghost use Rattle.std.specs.Option.{option_copied};
ghost use Rattle.schema.specs.declared.code.Code.TheVariants.{SizeLimitExceeded};
ghost use Rattle.std.specs.Fmt.{decimal};
ghost use Rattle.databases.specs.Found.{AreThere, WritesFound, up_to, goes_past};
ghost use Rattle.databases.specs.Walks.{seen};
ghost use Rattle.filter_text.specs.Spells.{view};
ghost use Rattle.commands.specs.Asked.{IsFilter, base_of};
ghost use Rattle.commands.specs.Loaded.{IsLoaded};
ghost use Rattle.commands.specs.Worlds.{World, reported_world, search_world};
ghost use Rattle.commands.specs.Messages.{code_text, IsReported};
ghost use Rattle.commands.specs.IndexFiles.{Said};
ghost use Rattle.commands.specs.Prints.{SearchGoesThrough, SearchStops};
ghost use Rattle.commands.specs.inner.IndexFiles.{IsNoIndex, Keeps, Serves, HasLoaded};
ghost use Rattle.commands.specs.inner.Printed.{AreFound, FailsToFind, query_text};
ghost use Rattle.commands.specs.Failures.{Refuses};
ghost use Rattle.commands.specs.inner.Sought.{IsQueryOf, form_of};
ghost use Rattle.commands.specs.inner.Stopped.{CanReport, HasEnded};
ghost use Rattle.commands.specs.declared.messages.Status.TheVariants.{Refused};

use crate::database::load_database;
use crate::finding::{filter_of, path_of, refused};
use crate::index_file::{IndexFile, note_index, read_index, report_index};
use crate::messages::{CommandFault, Status, Stop, report_fault};
use crate::query::{Form, Query};
use crate::telling::CommandTeller;
use base::Bytes;
use command_line::SearchOptions;
use databases::{
    Database, EntriesByRank, Hits, Selection, count_found, scan, search_ranked_with, search_with,
};
use device::{Sink, push_all};
use filter::{Prepared, prepare};
use filter_text::Filter;
use folders::Folder;
use id_sets::ListSet;
use ldif::WriteFault;
use schema::{Code, Conf};
use std::alloc::{AllocError, Global};
use std::mem;
use stored_index::StoredIndex;

/// The name that its result codes are printed with.
pub const NAME: &str = "search";

/// Reports that more entries match than a search may print (RFC 4511, 4.5.1.4), and answers how it ends.
fn report_past_limit<E: Sink>(alloc: Global, err: &mut E) -> Status
    requires { (E.written err.old).failed < 2 ^ 64 - 1 }
    ensures { IsReported (E.written err.old) (E.written err.new)
        (code_text (codes "search") SizeLimitExceeded) Refused result }
{
    let fault = CommandFault::Code {
        command: NAME,
        code: Code::SizeLimitExceeded,
    };
    report_fault(alloc, err, &fault)
}

/// What is printed of what one search finds.
fn form_of(alloc: Global, count: bool) -> Result<Form, AllocError>
    ensures { IfOk result (λ f. f ≡ form_of count) }
{
    if count {
        return Ok(Form::Count(Bytes::from_slice(alloc, b"\n")?));
    }
    Ok(Form::Records(Bytes::from_vec(Vec::new(alloc))))
}

/// Looks up what is asked for, by this filter. The fault is the code of a base that has no path under the configuration, or `OutOfMemory`.
pub fn query_of(
    alloc: Global,
    asked: &SearchOptions<'_>,
    filter: Prepared,
    conf: &Conf,
) -> Result<Query, CommandFault>
    ensures found { IfOk result (IsQueryOf asked.now filter conf.now) }
    ensures fault { IfErr result (Refuses (codes "search")
        (λ code. base_of conf.now (option_copied asked.now.base) ≡ Err code)) }
{
    let base = path_of(alloc, conf, asked.base, NAME)?;
    let selection = Selection::of(alloc, conf, asked.attributes.as_slice())?;
    let form = form_of(alloc, asked.count)?;
    Ok(Query {
        filter,
        base,
        scope: asked.scope,
        selection,
        limit: asked.limit,
        form,
        width: asked.width,
    })
}

/// Prints how many entries were found, up to a limit, and a text behind that; and answers whether there are more.
fn print_count<O: Sink>(
    alloc: Global,
    out: &mut O,
    hits: Hits<'_, ListSet>,
    limit: Option<u32>,
    tail: &[u8],
) -> Result<bool, WriteFault>
    requires can_fail { (O.written out.old).failed < 2 ^ 64 - 1 }
    ensures { WritesFound result (goes_past limit hits.entry.to_come) (O.written out.old) (O.written out.new)
        (decimal (length (up_to limit hits.entry.to_come)) ++ tail.now) }
{
    let found = count_found(hits, limit);
    let mut text = Vec::new(alloc);
    let number = format!(in alloc; "{}", found.entries)?;
    text.extend_from_slice(number.as_bytes())?;
    text.extend_from_slice(tail)?;
    push_all(out, &text)?;
    Ok(found.past)
}

/// Prints what was found as a query has it, and answers whether there is more than may be printed.
pub fn print_hits<O: Sink>(
    alloc: Global,
    query: &Query,
    database: &Database,
    hits: Hits<'_, ListSet>,
    out: &mut O,
) -> Result<bool, WriteFault>
    requires can_fail { (O.written out.old).failed < 2 ^ 64 - 1 }
    requires there { AreThere database.now.entries (map seen hits.to_come) }
    ensures { WritesFound result (goes_past query.now.limit hits.entry.to_come) (O.written out.old) (O.written out.new)
        (query_text query.now database.now (map seen hits.entry.to_come)) }
{
    match &query.form {
        Form::Records(front) => {
            let (front, selection) = (front.as_slice(), &query.selection);
            database.write_found_behind(
                alloc,
                out,
                front,
                hits,
                query.limit,
                selection,
                query.width,
            )
        }
        Form::Count(tail) => print_count(alloc, out, hits, query.limit, tail.as_slice()),
    }
}

/// The entries that a query finds by a test of each one in scope.
fn find_by_scan<'a>(
    alloc: Global,
    query: &'a Query,
    database: &'a Database,
) -> Result<Hits<'a, ListSet>, CommandFault>
    requires { query.now.filter.conf ≡ database.now.conf }
    ensures found { IfOk result (λ h. (said : Said) → IsNoIndex said → AreFound query.now said database.now (map seen h.to_come)) }
    ensures there { IfOk result (λ h. AreThere database.now.entries (map seen h.to_come)) }
    ensures fails { IfErr result (FailsToFind query.now database.now) }
{
    let scanned = scan(
        alloc,
        database.tree(),
        &query.base,
        query.scope,
        &query.filter,
    );
    match scanned {
        Some(hits) => Ok(hits),
        None => Err(CommandFault::Code {
            command: NAME,
            code: Code::NoSuchObject,
        }),
    }
}

/// The entries that a query finds by the rows of index.txt that its filter asks for, or without it where it can't be used.
fn find<'a>(
    alloc: Global,
    query: &'a Query,
    database: &'a Database,
    file: &IndexFile,
) -> Result<Hits<'a, ListSet>, CommandFault>
    requires { query.now.filter.conf ≡ database.now.conf }
    ensures found { IfOk result (λ h. (said : Said) → Keeps database.now query.now.filter file.now said
        → AreFound query.now said database.now (map seen h.to_come)) }
    ensures there { IfOk result (λ h. AreThere database.now.entries (map seen h.to_come)) }
    ensures fails { IfErr result (FailsToFind query.now database.now) }
{
    let stored = match file {
        IndexFile::Read(stored) => stored,
        IndexFile::Faulty(_) => return find_by_scan(alloc, query, database),
        IndexFile::Missing => return find_by_scan(alloc, query, database),
    };
    let found = search_with(
        alloc,
        database.tree(),
        database.conf(),
        stored,
        &query.base,
        query.scope,
        &query.filter,
    );
    match found {
        Ok(hits) => Ok(hits),
        Err(refusal) => Err(refused(refusal, NAME)),
    }
}

/// The entries that a query finds by an index, among entries by their ranks, or without one.
pub fn find_ranked<'a>(
    alloc: Global,
    query: &'a Query,
    database: &'a Database,
    entries: &'a EntriesByRank<'a>,
    index: &Option<StoredIndex>,
) -> Result<Hits<'a, ListSet>, CommandFault>
    requires prepared { query.now.filter.conf ≡ database.now.conf }
    requires entries { entries.now ≡ database.now }
    ensures found { IfOk result (λ h. (said : Said) → Serves database.now index.now said
        → AreFound query.now said database.now (map seen h.to_come)) }
    ensures there { IfOk result (λ h. AreThere database.now.entries (map seen h.to_come)) }
    ensures fails { IfErr result (FailsToFind query.now database.now) }
{
    let Some(index) = index else {
        return find_by_scan(alloc, query, database);
    };
    let found = search_ranked_with(
        alloc,
        entries,
        database.conf(),
        index,
        &query.base,
        query.scope,
        &query.filter,
    );
    match found {
        Ok(hits) => Ok(hits),
        Err(refusal) => Err(refused(refusal, NAME)),
    }
}

/// Reports what is wrong with index.txt, and prints what is found.
fn search_by<O: Sink, E: Sink, T: CommandTeller>(
    alloc: Global,
    asked: &SearchOptions<'_>,
    filter: Prepared,
    database: &Database,
    file: &IndexFile,
    out: &mut O,
    err: &mut E,
    teller: &mut T,
) -> Result<Status, Stop>
    requires out { (O.written out.old).failed < 2 ^ 64 - 1 }
    requires err { (E.written err.old).failed < 2 ^ 64 - 1 }
    requires prepared { filter.conf ≡ database.now.conf }
    ensures ends { (w : World) → HasLoaded asked.now w.files filter database.now file.now → HasEnded
        (SearchGoesThrough asked.now) (SearchStops asked.now)
        (reported_world w O.written E.written out.old err.old)
        (reported_world w O.written E.written out.new err.new) result }
    ensures can_report { IfErr result (λ why. CanReport why (E.written err.new).failed) }
{
    report_index(alloc, err, file)?;
    teller.tell();
    let query = query_of(alloc, asked, filter, database.conf())?;
    let hits = find(alloc, &query, database, file)?;
    match print_hits(alloc, &query, database, hits, out) {
        Ok(false) => Ok(Status::Done),
        Ok(true) => {
            let status = report_past_limit(alloc, err);
            teller.tell_limit(alloc, asked.limit);
            Ok(status)
        }
        Err(fault) => Err(Stop::Fault(CommandFault::of_output(alloc, fault))),
    }
}

/// Reads index.txt of a directory that is loaded, as far as the filter asks for it, and searches by it.
fn search_directory<F: Folder, O: Sink, E: Sink, T: CommandTeller>(
    alloc: Global,
    asked: &SearchOptions<'_>,
    filter: &Filter,
    database: &Database,
    folder: &F,
    out: &mut O,
    err: &mut E,
    teller: &mut T,
) -> Result<Status, Stop>
    requires out { (O.written out.old).failed < 2 ^ 64 - 1 }
    requires err { (E.written err.old).failed < 2 ^ 64 - 1 }
    requires filter { IsFilter (option_copied asked.now.filter) (view filter.now) }
    requires loaded { IsLoaded (F.files folder.now) asked.now.db.now database.now.conf database.now.entries }
    ensures ends { (w : World) → HasEnded (SearchGoesThrough asked.now) (SearchStops asked.now)
        (search_world w F.files O.written E.written folder.now out.old err.old)
        (search_world w F.files O.written E.written folder.now out.new err.new) result }
    ensures can_report { IfErr result (λ why. CanReport why (E.written err.new).failed) }
{
    let prepared = prepare(alloc, filter, database.conf())?;
    let file = read_index(alloc, folder, asked.db, database, &prepared)?;
    note_index(alloc, folder, asked.db, database, &file, teller);
    let ended = search_by(alloc, asked, prepared, database, &file, out, err, teller);
    // The program ends with its command, and that frees the index at once.
    mem::forget(file);
    ended
}

/// Prints the entries of the directory in a folder that are in scope of the base and that the filter is True of, with the attributes that
/// are asked for (RFC 4511, 4.5.1). They are found by index.txt, if it is there and was written for these entries, and else by a test of
/// each entry in scope; if it is there and has a fault, that is reported on `err` first. Where more than the limit match, the first ones are
/// printed, the code 4 sizeLimitExceeded is reported on `err`, and it ends as `Refused`. It stops where the text is no filter, the directory
/// can't be loaded, index.txt can't be read, the base isn't there (its code is 32 noSuchObject then), or `out`, `err` or memory fails.
pub fn search<F: Folder, O: Sink, E: Sink, T: CommandTeller>(
    alloc: Global,
    asked: &SearchOptions<'_>,
    folder: &F,
    out: &mut O,
    err: &mut E,
    teller: &mut T,
) -> Result<Status, Stop>
    requires out { (O.written out.old).failed < 2 ^ 64 - 1 }
    requires err { (E.written err.old).failed < 2 ^ 64 - 1 }
    ensures ends { (w : World) → HasEnded (SearchGoesThrough asked.now) (SearchStops asked.now)
        (search_world w F.files O.written E.written folder.now out.old err.old)
        (search_world w F.files O.written E.written folder.now out.new err.new) result }
    ensures can_report { IfErr result (λ why. CanReport why (E.written err.new).failed) }
{
    teller.note_filter(alloc, asked.filter);
    let filter = filter_of(alloc, asked.filter)?;
    let database = load_database(alloc, folder, asked.db, teller)?;
    teller.note_base(alloc, database.lent(), asked.base);
    let ended = search_directory(alloc, asked, &filter, &database, folder, out, err, teller);
    // The program ends with its command, and that frees the entries at once.
    mem::forget(database);
    ended
}
