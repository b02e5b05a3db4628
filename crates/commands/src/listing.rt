//! search -f: one search for each line of a list, on one load of the directory.
ghost use Rattle.std.specs.Prelude.{◌≡◌, ◌<◌, ◌-◌, ◌^◌, Some, IfOk, IfErr, codes};
ghost use Rattle.std.specs.Option.{option_copied};
ghost use Rattle.schema.specs.declared.code.Code.TheVariants.{SizeLimitExceeded};
ghost use Rattle.filter_text.specs.Spells.{view};
ghost use Rattle.commands.specs.Asked.{IsFilter};
ghost use Rattle.commands.specs.Changes.{source_name};
ghost use Rattle.commands.specs.Failures.{FailsToRead, Refuses};
ghost use Rattle.commands.specs.IndexFiles.{Said, SaysOf};
ghost use Rattle.commands.specs.Lists.{lines, filter_text, EndsLine, StopsInLine, RunsLines, StopsInLines, list_source, ReadsList, ListRuns, ListBreaks, ListGoesThrough, ListStops};
ghost use Rattle.commands.specs.Loaded.{IsLoaded};
ghost use Rattle.commands.specs.Messages.{fault_text, IsReported};
ghost use Rattle.commands.specs.Queries.{HasNoBase};
ghost use Rattle.commands.specs.Texts.{ReadsAtMost};
ghost use Rattle.commands.specs.Worlds.{World, source_world, reported_world, diff_world};
ghost use Rattle.commands.specs.inner.IndexFiles.{IsNoIndex, IsWhole, Serves};
ghost use Rattle.commands.specs.inner.Lists.{line_form, IsFrame, HasFrame, IsKept, common_of, CanGoOn};
ghost use Rattle.commands.specs.inner.Stopped.{CanReport, HasEnded};
ghost use Rattle.commands.specs.declared.messages.CommandFault.TheVariants as faults;
ghost use Rattle.commands.specs.declared.messages.Status.TheVariants.{Done, Refused, Usage};

use crate::database::load_database;
use crate::finding::filter_of_text;
use crate::index_file::{IndexFile, make_index, note_index, read_whole_index, report_index};
use crate::list_text::{comment, count_tail, filter_text, first_line};
use crate::messages::{CommandFault, Status, Stop, report_fault};
use crate::query::{Form, Query};
use crate::searching::{NAME, find_ranked, print_hits, query_of};
use crate::sort::read_text;
use crate::telling::CommandTeller;
use base::Bytes;
use command_line::SearchOptions;
use databases::{Database, EntriesByRank};
use device::{Sink, Source};
use filter::prepare;
use filter_text::{Filter, FilterFault};
use folders::Folder;
use schema::Code;
use std::alloc::{AllocError, Global};
use std::mem;
use stored_index::StoredIndex;

/// What is printed for a line whose filter has this text.
fn form_of_line(alloc: Global, count: bool, text: &[u8], line: &[u8]) -> Result<Form, AllocError>
    ensures { IfOk result (λ f. f ≡ line_form count text.now line.now) }
{
    if count {
        return Ok(Form::Count(Bytes::from_vec(count_tail(alloc, line)?)));
    }
    Ok(Form::Records(Bytes::from_vec(comment(alloc, text)?)))
}

/// What the searches of a list have in common.
#[derive(Clone, Copy, Drop)]
struct ListSearch<'a> {
    alloc: Global,
    asked: &'a SearchOptions<'a>,
    database: &'a Database,
    entries: &'a EntriesByRank<'a>,
    index: &'a Option<StoredIndex>,
    ghost same_entries: { entries.now ≡ database.now },
}

/// A line of a list, and its number, from 1.
#[derive(Clone, Copy, Drop)]
struct Line<'a> {
    number: u64,
    text: &'a [u8],
}

impl<'a> ListSearch<'a> {
    /// Reports that more entries match a line's filter than may be printed (RFC 4511, 4.5.1.4), and answers how the line ends.
    fn report_past_limit<E: Sink, T: CommandTeller>(
        &self,
        number: u64,
        err: &mut E,
        teller: &mut T,
    ) -> Status
        requires { (E.written err.old).failed < 2 ^ 64 - 1 }
        ensures reported { IsReported (E.written err.old) (E.written err.new) (fault_text (faults.LineCode number SizeLimitExceeded)) Refused result }
    {
        let code = Code::SizeLimitExceeded;
        let status = report_fault(self.alloc, err, &CommandFault::LineCode { number, code });
        teller.tell_limit(self.alloc, self.asked.limit);
        status
    }

    /// Reports that the text of a line's filter is none, and answers how the line ends.
    fn report_fault<E: Sink, T: CommandTeller>(
        &self,
        number: u64,
        text: &[u8],
        fault: FilterFault,
        err: &mut E,
        teller: &mut T,
    ) -> Status
        requires { (E.written err.old).failed < 2 ^ 64 - 1 }
        ensures reported { IsReported (E.written err.old) (E.written err.new) (fault_text (faults.Line number fault)) Usage result }
    {
        let status = report_fault(self.alloc, err, &CommandFault::Line { number, fault });
        teller.tell_line(self.alloc, text, &fault);
        status
    }

    /// Prints what a line's filter, which has this text, finds by index.txt, or reports that it is more than may be printed.
    fn answer<O: Sink, E: Sink, T: CommandTeller>(
        &self,
        query: &mut Query,
        line: Line<'_>,
        text: &[u8],
        filter: &Filter,
        out: &mut O,
        err: &mut E,
        teller: &mut T,
    ) -> Result<Status, Stop>
        requires out { (O.written out.old).failed < 2 ^ 64 - 1 }
        requires err { (E.written err.old).failed < 2 ^ 64 - 1 }
        requires text { text.now ≡ filter_text (option_copied self.now.asked.now.filter) line.text.now }
        requires filter { IsFilter (Some text.now) (view filter.now) }
        requires frame { IsFrame self.now.asked.now self.now.database.now query.old }
        ensures kept { IfOk result (λ _. IsKept query.old query.new) }
        ensures ends { (said : Said) → Serves self.now.database.now self.now.index.now said → (w : World) → HasEnded
            (EndsLine self.now.asked.now (common_of said self.now.database.now query.old) line.entry.number line.entry.text.now)
            (StopsInLine self.now.asked.now (common_of said self.now.database.now query.old) line.entry.text.now)
            (reported_world w O.written E.written out.old err.old)
            (reported_world w O.written E.written out.new err.new) result }
        ensures can_fail { IfOk result (CanGoOn (O.written out.old) (O.written out.new) (E.written err.old) (E.written err.new)) }
        ensures can_report { IfErr result (λ why. CanReport why (E.written err.new).failed) }
    {
        let database = self.database;
        query.filter = prepare(self.alloc, filter, database.conf())?;
        query.form = form_of_line(self.alloc, self.asked.count, text, line.text)?;
        let (entries, index) = (self.entries, self.index);
        let hits = find_ranked(self.alloc, query, database, entries, index)?;
        match print_hits(self.alloc, query, database, hits, out) {
            Ok(false) => Ok(Status::Done),
            Ok(true) => Ok(self.report_past_limit(line.number, err, teller)),
            Err(fault) => Err(Stop::Fault(CommandFault::of_output(self.alloc, fault))),
        }
    }

    /// Searches for a line: prints what its filter finds, or reports that it has none.
    fn search_line<O: Sink, E: Sink, T: CommandTeller>(
        &self,
        query: &mut Query,
        line: Line<'_>,
        out: &mut O,
        err: &mut E,
        teller: &mut T,
    ) -> Result<Status, Stop>
        requires out { (O.written out.old).failed < 2 ^ 64 - 1 }
        requires err { (E.written err.old).failed < 2 ^ 64 - 1 }
        requires frame { IsFrame self.now.asked.now self.now.database.now query.old }
        ensures kept { IfOk result (λ _. IsKept query.old query.new) }
        ensures ends { (said : Said) → Serves self.now.database.now self.now.index.now said → (w : World) → HasEnded
            (EndsLine self.now.asked.now (common_of said self.now.database.now query.old) line.entry.number line.entry.text.now)
            (StopsInLine self.now.asked.now (common_of said self.now.database.now query.old) line.entry.text.now)
            (reported_world w O.written E.written out.old err.old)
            (reported_world w O.written E.written out.new err.new) result }
        ensures can_fail { IfOk result (CanGoOn (O.written out.old) (O.written out.new) (E.written err.old) (E.written err.new)) }
        ensures can_report { IfErr result (λ why. CanReport why (E.written err.new).failed) }
    {
        let text = filter_text(self.alloc, self.asked.filter, line.text)?;
        match filter_of_text(self.alloc, text.as_slice()) {
            Ok(filter) => self.answer(query, line, text.as_slice(), &filter, out, err, teller),
            Err(CommandFault::Filter(fault)) => {
                Ok(self.report_fault(line.number, text.as_slice(), fault, err, teller))
            }
            Err(fault) => Err(Stop::Fault(fault)),
        }
    }

    /// Searches for the lines of a list, one after the other. Behind one that isn't answered whole it goes on only where that is asked for.
    fn search_lines<O: Sink, E: Sink, T: CommandTeller>(
        &self,
        query: &mut Query,
        text: &[u8],
        out: &mut O,
        err: &mut E,
        teller: &mut T,
    ) -> Result<Status, Stop>
        requires out { (O.written out.old).failed < 2 ^ 64 - 1 }
        requires err { (E.written err.old).failed < 2 ^ 64 - 1 }
        requires frame { IsFrame self.now.asked.now self.now.database.now query.old }
        ensures ends { (said : Said) → Serves self.now.database.now self.now.index.now said → (w : World) → HasEnded
            (RunsLines self.now.asked.now (common_of said self.now.database.now query.old) 1 Done (lines text.now))
            (StopsInLines self.now.asked.now (common_of said self.now.database.now query.old) 1 (lines text.now))
            (reported_world w O.written E.written out.old err.old)
            (reported_world w O.written E.written out.new err.new) result }
        ensures can_report { IfErr result (λ why. CanReport why (E.written err.new).failed) }
    {
        let mut rest = text;
        let mut number: u64 = 1;
        let mut status = Status::Done;
        'lines: while let Some(parts) = first_line(rest) {
            let (text, behind) = parts;
            let ended = self.search_line(query, Line { number, text }, out, err, teller)?;
            status = status.worse(ended);
            if !ended.goes_on(self.asked.go_on) {
                return Ok(status);
            }
            number += 1;
            rest = behind;
        }
        Ok(status)
    }
}

/// The text of a list: of the file of this name, or of the input, whole.
fn read_list<F: Folder, S: Source>(
    alloc: Global,
    folder: &F,
    input: &mut S,
    name: &str,
) -> Result<Vec<u8>, CommandFault>
    requires { (S.seen input.old).failed < 2 ^ 64 - 1 }
    ensures reads { IfOk result (λ text. (w : World) → ReadsList name.now text.items
        (source_world w F.files S.seen folder.now input.old)
        (source_world w F.files S.seen folder.now input.new)) }
    ensures fails { IfErr result (FailsToRead (source_name (list_source name.now))) }
    ensures stays { (w : World) → ReadsAtMost (list_source name.now)
        (source_world w F.files S.seen folder.now input.old)
        (source_world w F.files S.seen folder.now input.new) }
{
    if name == "-" {
        return read_text(alloc, folder, input, None);
    }
    read_text(alloc, folder, input, Some(name))
}

/// What the searches of a list have in common, looked up under the configuration of a directory that has the base; the filter and the form are
/// those of one search of all entries, until a line gives its own. The fault is the code of the base, or `OutOfMemory`.
fn frame_of(
    alloc: Global,
    asked: &SearchOptions<'_>,
    database: &Database,
) -> Result<Query, CommandFault>
    ensures found { IfOk result (HasFrame asked.now database.now) }
    ensures fault { IfErr result (Refuses (codes "search") (HasNoBase database.now.conf database.now.entries (option_copied asked.now.base))) }
{
    // True of every entry (RFC 4526)
    let any = Filter::And(Vec::new(alloc));
    let prepared = prepare(alloc, &any, database.conf())?;
    let query = query_of(alloc, asked, prepared, database.conf())?;
    if database.tree().get(&query.base).is_none() {
        return Err(CommandFault::Code {
            command: NAME,
            code: Code::NoSuchObject,
        });
    }
    Ok(query)
}

/// The index that a directory's entries make; none where no type is indexed.
fn own_index(alloc: Global, database: &Database) -> Result<Option<StoredIndex>, AllocError>
    ensures { IfOk result (λ index. (said : Said) → IsNoIndex said → Serves database.now index said) }
{
    if database.conf().slots().is_empty() {
        return Ok(None);
    }
    let index = make_index(alloc, database)?;
    Ok(Some(index))
}

/// What serves every filter of a list: index.txt, which was read whole, or in its place an index that is made once.
fn index_for_all(
    alloc: Global,
    database: &Database,
    file: IndexFile,
) -> Result<Option<StoredIndex>, AllocError>
    ensures { IfOk result (λ index. (said : Said) → IsWhole database.now file said → Serves database.now index said) }
{
    match file {
        IndexFile::Read(stored) => Ok(Some(stored)),
        IndexFile::Faulty(_) => own_index(alloc, database),
        IndexFile::Missing => own_index(alloc, database),
    }
}

/// Lists the entries of a directory that is loaded by their ranks, and searches for the lines of a list.
fn search_by_index<F: Folder, S: Source, O: Sink, E: Sink, T: CommandTeller>(
    alloc: Global,
    asked: &SearchOptions<'_>,
    name: &str,
    database: &Database,
    index: &Option<StoredIndex>,
    folder: &F,
    input: &mut S,
    out: &mut O,
    err: &mut E,
    teller: &mut T,
) -> Result<Status, Stop>
    requires input { (S.seen input.old).failed < 2 ^ 64 - 1 }
    requires out { (O.written out.old).failed < 2 ^ 64 - 1 }
    requires err { (E.written err.old).failed < 2 ^ 64 - 1 }
    requires loaded { IsLoaded (F.files folder.now) asked.now.db.now database.now.conf database.now.entries }
    ensures ends { (said : Said) → Serves database.now index.now said
        → SaysOf (F.files folder.now) asked.now.db.now database.now.conf database.now.entries said
        → (w : World) → HasEnded (ListRuns name.now asked.now said) (ListBreaks name.now asked.now said)
        (diff_world w F.files S.seen O.written E.written folder.now input.old out.old err.old)
        (diff_world w F.files S.seen O.written E.written folder.now input.new out.new err.new) result }
    ensures can_report { IfErr result (λ why. CanReport why (E.written err.new).failed) }
{
    let mut query = frame_of(alloc, asked, database)?;
    let text = read_list(alloc, folder, input, name)?;
    let entries = EntriesByRank::of(alloc, database.tree())?;
    let list = ListSearch {
        alloc,
        asked,
        database,
        entries: &entries,
        index,
    };
    list.search_lines(&mut query, &text, out, err, teller)
}

/// Reads index.txt of a directory that is loaded, whole, and searches for the lines of a list by it.
fn search_loaded<F: Folder, S: Source, O: Sink, E: Sink, T: CommandTeller>(
    alloc: Global,
    asked: &SearchOptions<'_>,
    name: &str,
    database: &Database,
    folder: &F,
    input: &mut S,
    out: &mut O,
    err: &mut E,
    teller: &mut T,
) -> Result<Status, Stop>
    requires input { (S.seen input.old).failed < 2 ^ 64 - 1 }
    requires out { (O.written out.old).failed < 2 ^ 64 - 1 }
    requires err { (E.written err.old).failed < 2 ^ 64 - 1 }
    requires loaded { IsLoaded (F.files folder.now) asked.now.db.now database.now.conf database.now.entries }
    ensures ends { (w : World) → HasEnded (ListGoesThrough name.now asked.now) (ListStops name.now asked.now)
        (diff_world w F.files S.seen O.written E.written folder.now input.old out.old err.old)
        (diff_world w F.files S.seen O.written E.written folder.now input.new out.new err.new) result }
    ensures can_report { IfErr result (λ why. CanReport why (E.written err.new).failed) }
{
    let file = read_whole_index(alloc, folder, asked.db, database)?;
    note_index(alloc, folder, asked.db, database, &file, teller);
    report_index(alloc, err, &file)?;
    teller.tell();
    let index = index_for_all(alloc, database, file)?;
    let ended = search_by_index(
        alloc, asked, name, database, &index, folder, input, out, err, teller,
    );
    // The program ends with its command, and that frees the index at once.
    mem::forget(index);
    ended
}

/// Searches for each line of a list, that is the file of this name or with `-` the input, one after the other, on one load of the directory. It is
/// read whole before the first search. Before the entries of each line a comment has its filter. A line that is no filter, or finds more than
/// the limit, is reported with its number, and ends the list unless it is to go on; the status is the worst of all lines. It stops where
/// `search` does, but for faults of filters, or where the list can't be read.
pub fn search_list<F: Folder, S: Source, O: Sink, E: Sink, T: CommandTeller>(
    alloc: Global,
    asked: &SearchOptions<'_>,
    name: &str,
    folder: &F,
    input: &mut S,
    out: &mut O,
    err: &mut E,
    teller: &mut T,
) -> Result<Status, Stop>
    requires input { (S.seen input.old).failed < 2 ^ 64 - 1 }
    requires out { (O.written out.old).failed < 2 ^ 64 - 1 }
    requires err { (E.written err.old).failed < 2 ^ 64 - 1 }
    ensures ends { (w : World) → HasEnded (ListGoesThrough name.now asked.now) (ListStops name.now asked.now)
        (diff_world w F.files S.seen O.written E.written folder.now input.old out.old err.old)
        (diff_world w F.files S.seen O.written E.written folder.now input.new out.new err.new) result }
    ensures can_report { IfErr result (λ why. CanReport why (E.written err.new).failed) }
{
    let database = load_database(alloc, folder, asked.db, teller)?;
    teller.note_base(alloc, database.lent(), asked.base);
    let ended = search_loaded(
        alloc, asked, name, &database, folder, input, out, err, teller,
    );
    // The program ends with its command, and that frees the entries at once.
    mem::forget(database);
    ended
}
