//! The words of a command line, read with `clap`.
ghost use Rattle.std.specs.Prelude.{◌≡◌, ◌≤◌, ◌↔◌, IsTrue, Some, codes, length, map, option_copied, option_map};
ghost use Rattle.std.specs.Prelude.{IfErr, IfOk, IsSomeAnd, MatchOption, MatchResult};
ghost use Rattle.clap.specs.Words.{all_of, found_of, kind_of, rows_of, subcommand_rows_of};
ghost use Rattle.command_line.specs.Requests.{AsksForHelp};
ghost use Rattle.command_line.specs.Requests as asks;

use crate::hints::{hint, with_hint};
use crate::options::{BESIDE_SEARCH, beside, slaptools};
use crate::request::{
    AddOptions, CatOptions, CheckOptions, DiffOptions, IndexOptions, ModifyOptions, Request,
    SchemaOptions, SearchOptions, SortOptions, UsageFault,
};
use clap::error::ErrorKind;
use clap::parser::ValueSource;
use clap::{ArgMatches, Error};
use ldif::LineWidth;
use paths::Scope;
use std::alloc::{AllocError, Global};
use std::convert::AsStr;

/// What a number has to be.
const NUMBERS: &str = "a number from 0 to 4294967295";

/// An option whose value has to be of some kind.
#[derive(Clone, Copy)]
struct Valued<'a> {
    option: &'a str,
    value_name: &'a str,
    wanted: &'a str,
}

const WAIT: Valued<'_> = Valued {
    option: "--wait",
    value_name: "SECONDS",
    wanted: NUMBERS,
};

const SCOPE: Valued<'_> = Valued {
    option: "-s",
    value_name: "SCOPE",
    wanted: "one of base, one, sub and children",
};

const LIMIT: Valued<'_> = Valued {
    option: "-z",
    value_name: "N",
    wanted: NUMBERS,
};

const WRAP: Valued<'_> = Valued {
    option: "-o",
    value_name: "ldif-wrap=N|no",
    wanted: "ldif-wrap=no, or ldif-wrap= and 0 or a number from 2 to 4294967295",
};

/// The text given for an option.
fn text_of<'a>(found: &ArgMatches<'a>, id: &str) -> Option<&'a str>
    ensures { option_copied result ≡ asks.text_of id.now (rows_of (found_of found.now)) }
{
    found.get_str(id)
}

/// Whether the words give a flag.
#[tactic(auto, using(crate::proofs::Rows::source_is))]
fn is_given(found: &ArgMatches<'_>, id: &str) -> bool
    ensures { result ≡ asks.is_given id.now (rows_of (found_of found.now)) }
{
    matches!(found.value_source(id), Some(ValueSource::CommandLine))
}

/// The words that belong to no option.
fn words_of<'a, 'm>(found: &'m ArgMatches<'a>) -> Option<&'m [&'a str]>
    ensures { option_map (λ words. map (λ word. word.now) words.now) result
        ≡ all_of (codes "words") (rows_of (found_of found.now)) }
{
    found.get_strs("words")
}

/// The folder of the directory.
fn folder_of<'a>(found: &ArgMatches<'a>) -> &'a str
    requires { asks.HasFolder (rows_of (found_of found.now)) }
    ensures { asks.text_of (codes "db") (rows_of (found_of found.now)) ≡ Some result.now }
{
    match text_of(found, "db") {
        Some(folder) => folder,
        None => unreachable!(),
    }
}

/// What is said of a value that isn't of its option's kind, and what is meant where OpenLDAP's ldapsearch takes it.
fn invalid_text(alloc: Global, word: &str, valued: Valued<'_>) -> Result<String, AllocError> {
    let Valued {
        option,
        value_name,
        wanted,
    } = valued;
    let written = format!(in alloc; "{option} {word}")?;
    let meant = hint(alloc, BESIDE_SEARCH, written.as_str(), written.as_str())?;
    format!(in alloc;
        "error: invalid value '{word}' for '{option} <{value_name}>': it has to be {wanted}\n{meant}"
    )
}

fn invalid(alloc: Global, word: &str, valued: Valued<'_>) -> UsageFault {
    match invalid_text(alloc, word, valued) {
        Ok(text) => UsageFault::Words(text),
        Err(_) => UsageFault::OutOfMemory,
    }
}

/// The number that a word spells in decimal digits, if it does.
fn number_of(word: &str) -> Option<u32>
    ensures { asks.IsNumberOf word.now result }
{
    match word.parse::<u32>() {
        Ok(number) if !word.starts_with('+') => Some(number),
        _ => None,
    }
}

/// The seconds that a word spells in decimal digits; none without a word.
fn wait_of(alloc: Global, word: Option<&str>) -> Result<u32, UsageFault>
    ensures { MatchResult result (asks.IsWait (option_copied word.entry))
        (λ _. IsSomeAnd word.entry (λ text. ¬ (asks.IsNumber text.now))) }
{
    let Some(word) = word else {
        return Ok(0);
    };
    match number_of(word) {
        Some(number) => Ok(number),
        None => Err(invalid(alloc, word, WAIT)),
    }
}

fn add_options<'a>(alloc: Global, found: &ArgMatches<'a>) -> Result<AddOptions<'a>, UsageFault>
    requires { asks.HasFolder (rows_of (found_of found.now)) }
    ensures asked { IfOk result (asks.IsAdd (rows_of (found_of found.now))) }
    ensures faulty { IfErr result (asks.IsFaultOfOptions (rows_of (found_of found.now))) }
{
    let wait = wait_of(alloc, text_of(found, "wait"))?;
    Ok(AddOptions {
        db: folder_of(found),
        file: text_of(found, "file"),
        go_on: is_given(found, "go_on"),
        dry_run: is_given(found, "dry_run"),
        wait,
        verbose: is_given(found, "verbose"),
    })
}

fn modify_options<'a>(
    alloc: Global,
    found: &ArgMatches<'a>,
) -> Result<ModifyOptions<'a>, UsageFault>
    requires { asks.HasFolder (rows_of (found_of found.now)) }
    ensures asked { IfOk result (asks.IsModify (rows_of (found_of found.now))) }
    ensures faulty { IfErr result (asks.IsFaultOfOptions (rows_of (found_of found.now))) }
{
    let wait = wait_of(alloc, text_of(found, "wait"))?;
    Ok(ModifyOptions {
        db: folder_of(found),
        file: text_of(found, "file"),
        add: is_given(found, "add"),
        go_on: is_given(found, "go_on"),
        dry_run: is_given(found, "dry_run"),
        wait,
        verbose: is_given(found, "verbose"),
    })
}

fn index_options<'a>(alloc: Global, found: &ArgMatches<'a>) -> Result<IndexOptions<'a>, UsageFault>
    requires { asks.HasFolder (rows_of (found_of found.now)) }
    ensures asked { IfOk result (asks.IsIndex (rows_of (found_of found.now))) }
    ensures faulty { IfErr result (asks.IsFaultOfOptions (rows_of (found_of found.now))) }
{
    let wait = wait_of(alloc, text_of(found, "wait"))?;
    Ok(IndexOptions {
        db: folder_of(found),
        wait,
        verbose: is_given(found, "verbose"),
    })
}

/// What is said where another suffix is asked for together with an option that prints a part of the directory.
fn excerpt_text(alloc: Global, option: &str) -> Result<String, AllocError> {
    format!(in alloc;
        "error: the argument '--suffix <NAME>' cannot be used with '{option}': a part of the directory doesn't load by itself\n"
    )
}

fn moved_excerpt(alloc: Global, option: &str) -> UsageFault {
    match excerpt_text(alloc, option) {
        Ok(text) => UsageFault::Words(text),
        Err(_) => UsageFault::OutOfMemory,
    }
}

/// Refuses another suffix for an excerpt. Without another suffix there may be one.
fn check_suffix(
    alloc: Global,
    suffix: Option<&str>,
    filter: Option<&str>,
    base: Option<&str>,
) -> Result<(), UsageFault>
    ensures { let moves = asks.MovesExcerpt (option_copied suffix.entry) (option_copied filter.entry) (option_copied base.entry) in
        MatchResult result (λ _. ¬ moves) (λ _. moves) }
{
    match (suffix, filter, base) {
        (Some(_), Some(_), _) => Err(moved_excerpt(alloc, "-a <FILTER>")),
        (Some(_), None, Some(_)) => Err(moved_excerpt(alloc, "-s <NAME>")),
        _ => Ok(()),
    }
}

fn cat_options<'a>(alloc: Global, found: &ArgMatches<'a>) -> Result<CatOptions<'a>, UsageFault>
    requires { asks.HasFolder (rows_of (found_of found.now)) }
    ensures asked { IfOk result (asks.IsCat (rows_of (found_of found.now))) }
    ensures faulty { IfErr result (asks.IsFaultOfOptions (rows_of (found_of found.now))) }
{
    let width = width_of(alloc, text_of(found, "wrap"))?;
    let suffix = text_of(found, "suffix");
    let filter = text_of(found, "filter");
    let base = text_of(found, "base");
    check_suffix(alloc, suffix, filter, base)?;
    Ok(CatOptions {
        db: folder_of(found),
        file: text_of(found, "file"),
        filter,
        base,
        suffix,
        width,
        verbose: is_given(found, "verbose"),
    })
}

fn diff_options<'a>(found: &ArgMatches<'a>) -> DiffOptions<'a>
    requires { asks.HasFolder (rows_of (found_of found.now)) }
    ensures { asks.IsDiff (rows_of (found_of found.now)) result }
{
    DiffOptions {
        db: folder_of(found),
        file: text_of(found, "file"),
        base: text_of(found, "base"),
        filter: text_of(found, "filter"),
        unordered: is_given(found, "unordered"),
        verbose: is_given(found, "verbose"),
    }
}

fn check_options<'a>(found: &ArgMatches<'a>) -> CheckOptions<'a>
    requires { asks.HasFolder (rows_of (found_of found.now)) }
    ensures { asks.IsCheck (rows_of (found_of found.now)) result }
{
    CheckOptions {
        db: folder_of(found),
        unique: text_of(found, "unique"),
        references: text_of(found, "references"),
        file: text_of(found, "file"),
        verbose: is_given(found, "verbose"),
    }
}

fn sort_options<'a>(found: &ArgMatches<'a>) -> SortOptions<'a>
    ensures { asks.IsSort (rows_of (found_of found.now)) result }
{
    SortOptions {
        file: text_of(found, "file"),
    }
}

fn schema_options<'a>(found: &ArgMatches<'a>) -> SchemaOptions<'a>
    ensures { asks.IsSchema (rows_of (found_of found.now)) result }
{
    SchemaOptions {
        file: text_of(found, "file"),
        db: text_of(found, "db"),
    }
}

/// The scope that a word names; without one, the base and all below it.
fn scope_of(alloc: Global, word: Option<&str>) -> Result<Scope, UsageFault>
    ensures { let named = asks.scope_of (option_copied word.entry) in
        MatchResult result (λ scope. named ≡ Some scope) (λ _. named ≡ None) }
{
    match word {
        None | Some("sub") => Ok(Scope::Sub),
        Some("base") => Ok(Scope::Base),
        Some("one") => Ok(Scope::One),
        Some("children") => Ok(Scope::Children),
        Some(word) => Err(invalid(alloc, word, SCOPE)),
    }
}

/// The limit that a word spells in decimal digits; none for 0, and without a word.
fn limit_of(alloc: Global, word: Option<&str>) -> Result<Option<u32>, UsageFault>
    ensures { MatchResult result (asks.IsLimit (option_copied word.entry))
        (λ _. IsSomeAnd word.entry (λ text. ¬ (asks.IsNumber text.now))) }
{
    let Some(word) = word else {
        return Ok(None);
    };
    match number_of(word) {
        Some(0) => Ok(None),
        Some(number) => Ok(Some(number)),
        None => Err(invalid(alloc, word, LIMIT)),
    }
}

/// How long a printed line may be by a word, if it says that.
fn width_said(word: &str) -> Option<LineWidth>
    ensures { MatchOption result (¬ (asks.SaysWidth word.now)) (asks.IsWidthOf word.now) }
{
    let Some(said) = word.strip_prefix("ldif-wrap=") else {
        return None;
    };
    if said == "no" {
        return Some(LineWidth::unfolded());
    }
    match number_of(said) {
        Some(0) => Some(LineWidth::STANDARD),
        Some(bytes) => LineWidth::of(bytes),
        None => None,
    }
}

/// How long a printed line may be by a word; without one, as long as where none is asked for.
fn width_of(alloc: Global, word: Option<&str>) -> Result<LineWidth, UsageFault>
    ensures { MatchResult result (asks.IsLineWidth (option_copied word.entry))
        (λ _. IsSomeAnd word.entry (λ text. ¬ (asks.SaysWidth text.now))) }
{
    let Some(word) = word else {
        return Ok(LineWidth::STANDARD);
    };
    match width_said(word) {
        Some(width) => Ok(width),
        None => Err(invalid(alloc, word, WRAP)),
    }
}

/// Whether a first word is a filter, and not the name of an attribute.
fn is_filter(word: &str) -> bool
    ensures { result ≡ asks.is_filter word.now }
{
    word.starts_with('(') || word.as_bytes().contains(&b'=')
}

/// The filter and the attributes that words ask for.
fn split_words<'a, 'w>(words: &'w [&'a str]) -> (Option<&'a str>, &'w [&'a str])
    ensures filter { option_copied result.0 ≡ asks.filter_of (map (λ word. word.now) words.now) }
    ensures others { map (λ word. word.now) result.1.now
        ≡ asks.attributes_of (map (λ word. word.now) words.now) }
{
    match words {
        [first, rest @ ..] if is_filter(first) => (Some(*first), rest),
        _ => (None, words),
    }
}

/// Whether a text has a `%` that isn't that of its first `%s`.
fn is_faulty_pattern(text: &str) -> bool
    ensures { IsTrue result ↔ asks.IsFaultyPattern text.now }
{
    match text.split_once('%') {
        Some((_, rest)) => !rest.starts_with('s') || rest.as_bytes().contains(&b'%'),
        None => false,
    }
}

/// What is said of a filter that has another `%` than that of its first `%s`.
fn pattern_text(alloc: Global, filter: &str) -> Result<String, AllocError> {
    format!(in alloc;
        "error: invalid value '{filter}' for '[WORD]...': with -f it may have one %s, which stands for a line; write another % as \\25\n"
    )
}

fn faulty_pattern(alloc: Global, filter: &str) -> UsageFault {
    match pattern_text(alloc, filter) {
        Ok(text) => UsageFault::Words(text),
        Err(_) => UsageFault::OutOfMemory,
    }
}

/// Refuses a filter that is no pattern for the lines of a file. Without a file it is none.
fn check_pattern(alloc: Global, file: Option<&str>, filter: Option<&str>) -> Result<(), UsageFault>
    ensures { let is_faulty = asks.TakesFaultyPattern (option_copied file.entry) (option_copied filter.entry) in
        MatchResult result (λ _. ¬ is_faulty) (λ _. is_faulty) }
{
    match (file, filter) {
        (Some(_), Some(filter)) if is_faulty_pattern(filter) => Err(faulty_pattern(alloc, filter)),
        _ => Ok(()),
    }
}

fn search_options<'a>(
    alloc: Global,
    found: &ArgMatches<'a>,
) -> Result<SearchOptions<'a>, UsageFault>
    requires { asks.HasFolder (rows_of (found_of found.now)) }
    ensures asked { IfOk result (asks.IsSearch (rows_of (found_of found.now))) }
    ensures faulty { IfErr result (asks.IsFaultOfOptions (rows_of (found_of found.now))) }
{
    let scope = scope_of(alloc, text_of(found, "scope"))?;
    let limit = limit_of(alloc, text_of(found, "limit"))?;
    let width = width_of(alloc, text_of(found, "wrap"))?;
    let file = text_of(found, "file");
    let (filter, names) = split_words(words_of(found).unwrap_or(&[]));
    check_pattern(alloc, file, filter)?;
    let mut attributes = Vec::new(alloc);
    attributes.extend_from_slice(names)?;
    Ok(SearchOptions {
        db: folder_of(found),
        base: text_of(found, "base"),
        scope,
        limit,
        file,
        go_on: is_given(found, "go_on"),
        count: is_given(found, "count"),
        width,
        filter,
        attributes,
        verbose: is_given(found, "verbose"),
    })
}

/// The command that the words named, with its own matches.
fn command_of<'a, 'm>(matches: &'m ArgMatches<'a>) -> Option<(&'a str, &'m ArgMatches<'a>)>
    ensures { option_map (λ command. (command.0.now, rows_of (found_of command.1.now))) result
        ≡ subcommand_rows_of matches.now }
{
    matches.subcommand()
}

/// What a command that has a folder and its own matches ask for.
fn folder_request_of<'a>(
    alloc: Global,
    name: &str,
    found: &ArgMatches<'a>,
) -> Result<Request<'a>, UsageFault>
    requires whole { asks.IsWhole (Some (name.now, rows_of (found_of found.now))) }
    requires has_folder { asks.TakesFolder name.now }
    ensures asked { IfOk result (asks.IsRequest (Some (name.now, rows_of (found_of found.now)))) }
    ensures faulty { IfErr result
        (asks.IsFaultOfCommand (Some (name.now, rows_of (found_of found.now)))) }
{
    match name {
        "slapadd" => Ok(Request::Add(add_options(alloc, found)?)),
        "ldapmodify" => Ok(Request::Modify(modify_options(alloc, found)?)),
        "slapindex" => Ok(Request::Index(index_options(alloc, found)?)),
        "search" => Ok(Request::Search(search_options(alloc, found)?)),
        "slapcat" => Ok(Request::Cat(cat_options(alloc, found)?)),
        "ldifdiff" => Ok(Request::Diff(diff_options(found))),
        "check" => Ok(Request::Check(check_options(found))),
        _ => unreachable!(),
    }
}

/// What a command and its own matches ask for.
fn request_of<'a>(
    alloc: Global,
    name: &str,
    found: &ArgMatches<'a>,
) -> Result<Request<'a>, UsageFault>
    requires { asks.IsWhole (Some (name.now, rows_of (found_of found.now))) }
    ensures asked { IfOk result (asks.IsRequest (Some (name.now, rows_of (found_of found.now)))) }
    ensures faulty { IfErr result
        (asks.IsFaultOfCommand (Some (name.now, rows_of (found_of found.now)))) }
{
    match name {
        "sort" => Ok(Request::Sort(sort_options(found))),
        "schema" => Ok(Request::Schema(schema_options(found))),
        _ => folder_request_of(alloc, name, found),
    }
}

/// What the matches of words ask for, in which clap finds no fault.
fn requested<'a>(alloc: Global, matches: &ArgMatches<'a>) -> Result<Request<'a>, UsageFault>
    requires { asks.IsWhole (subcommand_rows_of matches.now) }
    ensures asked { IfOk result (asks.IsRequest (subcommand_rows_of matches.now)) }
    ensures faulty { IfErr result (asks.IsFaultOfCommand (subcommand_rows_of matches.now)) }
{
    match command_of(matches) {
        Some((name, found)) => request_of(alloc, name, found),
        None => unreachable!(),
    }
}

/// The text of the help.
fn help(alloc: Global, version: &str) -> Result<String, AllocError> {
    slaptools(alloc, version)?.render_help()
}

/// What clap says is wrong, and what is meant where an option is one of OpenLDAP's tools.
fn fault_text(alloc: Global, command: Option<&str>, said: &Error) -> Result<String, AllocError> {
    let text = said.to_string(alloc)?;
    match command {
        Some(name) => with_hint(alloc, beside(name), text),
        None => Ok(text),
    }
}

/// The first word behind the program's name, which is a command where clap reads one.
fn named<W: AsStr>(words: &[W]) -> Option<&str> {
    match words.get(1) {
        Some(word) => Some(word.as_str()),
        None => None,
    }
}

/// What clap says in place of matches: what is wrong, or the help or the version that the words ask for. `command` is the one that they name.
fn answer_of<'a>(
    alloc: Global,
    command: Option<&str>,
    said: &Error,
) -> Result<Request<'a>, UsageFault>
    ensures { asks.IsAnswer (kind_of said.now) result }
{
    match said.kind() {
        ErrorKind::OutOfMemory => Err(UsageFault::OutOfMemory),
        ErrorKind::DisplayHelp | ErrorKind::DisplayVersion => {
            Ok(Request::Help(said.to_string(alloc)?))
        }
        _ => Err(UsageFault::Words(fault_text(alloc, command, said)?)),
    }
}

/// What words that are more than the program's name ask for.
fn parsed<'a, W: AsStr>(
    alloc: Global,
    words: &'a [W],
    version: &'a str,
) -> Result<Request<'a>, UsageFault>
    ensures asked { IfOk result (asks.AskFor (map W.text words.now)) }
    ensures faulty { IfErr result (asks.IsFaultOf (map W.text words.now)) }
{
    match slaptools(alloc, version)?.try_get_matches_from(words) {
        Ok(matches) => requested(alloc, &matches),
        Err(said) => answer_of(alloc, named(words), &said),
    }
}

/// What the words ask for, the first being the program's name. Where it stands alone, that is the help. `version` is what `--version` says
/// behind the program's name.
pub fn read<'a, W: AsStr>(
    alloc: Global,
    words: &'a [W],
    version: &'a str,
) -> Result<Request<'a>, UsageFault>
    ensures help { length (map W.text words.now) ≤ 1 → AsksForHelp result }
    ensures asked { IfOk result (asks.AskFor (map W.text words.now)) }
    ensures faulty { IfErr result (asks.IsFaultOf (map W.text words.now)) }
{
    if words.len() <= 1 {
        return Ok(Request::Help(help(alloc, version)?));
    }
    parsed(alloc, words, version)
}
