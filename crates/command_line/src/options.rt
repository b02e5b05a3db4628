//! The commands and their options, for `clap`.
ghost use Rattle.std.specs.Prelude.{◌≡◌, false, map, IfOk};
ghost use Rattle.clap.specs.Words.{app_of, rule_of, shape_of, with_subcommand};
ghost use Rattle.command_line.specs.CommandLine as commands;

use clap::{Arg, ArgAction, Command};
use std::alloc::{AllocError, Global};

const INPUT_HELP: &str = "The LDIF text, in place of standard input";

const GO_ON_HELP: &str = "Goes on after a refused record";

const DRY_RUN_HELP: &str = "Writes no file";

const WAIT_HELP: &str = "Where the directory is in use, tries again for so long";

const ADD_HELP: &str = "Adds the entries of records without changetype";

const OUTPUT_HELP: &str = "The file that is written, in place of standard output";

const CONTENT_HELP: &str = "The content records of the other directory, in place of standard input";

const BASE_HELP: &str = "The entry that the search begins at, in place of the suffix's";

const SCOPE_HELP: &str = "What is searched: base, one, sub (the default) or children";

const LIMIT_HELP: &str = "Prints at most so many entries; 0 is no limit";

const LINES_HELP: &str =
    "Searches for each line of it: the line stands for the filter's first %s, or is the filter; - is standard input";

const GO_ON_LINES_HELP: &str =
    "Goes on after a line of -f that makes no filter, or finds more than -z prints";

const COUNT_HELP: &str = "Prints the number of entries, in place of them";

const WRAP_HELP: &str =
    "How long a printed line may be, in bytes from 2 on; 0 for 76, as without it; no for lines that are not folded";

const WORDS_HELP: &str =
    "The filter, where it begins with ( or holds =, and the attributes to print: names, * or +, or 1.1 for none";

const FILTER_HELP: &str = "Prints the entries that it is true of";

const SUBTREE_HELP: &str = "Prints this entry and those below it";

const SUFFIX_HELP: &str =
    "Prints all under this suffix: the names, and the values of DN syntax that name something at the old one or below it";

const COMPARED_BASE_HELP: &str = "Compares this entry and those below it";

const COMPARED_FILTER_HELP: &str =
    "Compares the entries that it is true of in one of the directories, or in both";

const UNORDERED_HELP: &str =
    "Compares attributes and values as sets, by their equality rules, in place of their order";

const UNIQUE_HELP: &str =
    "Reports values of these types that several entries have: names or OIDs, with commas between";

const REFERENCES_HELP: &str =
    "Looks at references of these types, in place of all types of DN syntax: names or OIDs, with commas between";

const CHECKED_FILE_HELP: &str =
    "The LDIF file of which the records are checked over those of data.ldif; - is standard input";

const VERBOSE_HELP: &str = "Says why, behind each line that reports a fault or a refusal";

const CHECK_VERBOSE_HELP: &str =
    "Says on standard error why, of each fault of dir.conf and each refused record";

const BESIDE_SLAPADD: &str = "In place of options of OpenLDAP's slapadd:
  -b, -f, -F, -g, -n  --db DIR, as a folder keeps one directory
  -d                  -v
  -s                  a dir.conf without objectclass lines
  -q                  nothing, as each check is always made
  -j, -o, -S, -w      nothing";

const BESIDE_LDAPMODIFY: &str = "In place of options of OpenLDAP's ldapmodify:
  -h, -H, -p                      --db DIR, as no server is asked
  -D, -w, -W, -x, -y              nothing, as nobody has to say who he is
  -I, -N, -O, -Q, -R, -U, -X, -Y  nothing, as nobody has to say who he is
  -S                              standard error, which names each refused record
  -d                              -v
  -V, -VV                         slaptools --version
  -e, -E, -M, -MM, -o, -P         nothing
  -Z, -ZZ                         nothing, as no server is asked";

const BESIDE_SLAPINDEX: &str = "In place of options of OpenLDAP's slapindex:
  -b, -f, -F, -g, -n     --db DIR, as a folder keeps one directory
  -d                     -v
  -c, -o, -q, -t, types  nothing, as the whole index is written";

pub(crate) const BESIDE_SEARCH: &str = "In place of options of OpenLDAP's ldapsearch:
  -h, -H, -p                      --db DIR, as no server is asked
  -D, -w, -W, -x, -y              nothing, as nobody has to say who he is
  -I, -N, -O, -Q, -R, -U, -X, -Y  nothing, as nobody has to say who he is
  -L, -LL, -LLL                   nothing, as LDIF is printed
  -s onelevel                     -s one
  -s subtree                      -s sub
  -s subordinate                  -s children
  -z max, -z none                 -z 0
  -d                              -v
  -V, -VV                         slaptools --version
  -Z, -ZZ                         nothing, as no server is asked
  -a, -A, -C, -e, -E, -F, -l, -M  nothing
  -MM, -n, -P, -S, -t, -tt, -T    nothing
  -u                              nothing";

const BESIDE_SLAPCAT: &str = "In place of options of OpenLDAP's slapcat:
  -b, -f, -F, -g, -n  --db DIR, as a folder keeps one directory
  -H                  -s NAME and -a FILTER
  -d                  -v
  -c                  nothing";

const BESIDE_LDIFDIFF: &str =
    "As of diff(1), the exit status is 0 where both are alike, and 1 where they differ.

In place of options of OpenLDAP's tools:
  -f          -l FILE
  -F, -g, -n  --db DIR, as a folder keeps one directory
  -s          -b NAME
  -H          -b NAME and -a FILTER
  -d          -v
  -c          nothing, as a refused record ends it
  -q, -u      nothing, as no file is changed";

const BESIDE_CHECK: &str =
    "The exit status is 0 where nothing is wrong, and 1 where something is reported.

In place of options of OpenLDAP's slaptest and slapschema:
  -b, -f, -F, -g, -n  --db DIR, as a folder keeps one directory
  -d                  -v
  -c                  nothing, as everything is checked
  -Q, -u              nothing, as no file is changed";

const BESIDE_SORT: &str = "No record is judged, and none is lost: slapadd refuses what is wrong.

In place of options of the other commands and of OpenLDAP's tools:
  --db, -b, -F, -g, -n  nothing, as no directory is read
  -f                    -l FILE
  -d, -v                nothing, as no record is judged
  -c                    nothing, as no record is refused
  -q, -u                nothing, as no file is changed";

const SCHEMA_HELP: &str =
    "The schema, as slapd.conf, cn=config, cn=Subschema or a file of 389 has it, in place of standard input";

const SCHEMA_FOLDER_HELP: &str =
    "The folder of the directory whose dir.conf the lines are for: what that says already is left out";

const BESIDE_SCHEMA: &str =
    "The exit status is 0, or 1 where a comment says what is changed or left out.

In place of options of OpenLDAP's slaptest and slapschema:
  -f, -F, -n          -l FILE, with what slapcat -n 0 prints, or the files of a schema
  -b, -g              --db DIR, as a folder keeps one directory
  -d, -v              nothing, as comments say why
  -c                  nothing, as everything is looked at
  -Q, -u              nothing, as no file is changed";

/// An option of a command.
#[derive(Clone, Copy)]
enum CommandOption<'a> {
    /// `--db DIR`, which each command needs but sort and schema.
    Folder,
    /// `--wait SECONDS`, which each command that writes the directory takes.
    Wait,
    /// One with a file: its letter and its help.
    File(char, &'a str),
    /// One with a value: its id, its letter, the name of the value and its help.
    Value(&'a str, char, &'a str, &'a str),
    /// One with a value, but without a letter: its id, which is its name, the name of the value and its help.
    LongValue(&'a str, &'a str, &'a str),
    /// One without a value: its id, its letter and its help.
    Flag(&'a str, char, &'a str),
    /// One without a value or a letter: its id, which is its name, and its help.
    LongFlag(&'a str, &'a str),
    /// The words that belong to no option.
    OtherWords,
}

/// A command of slaptools.
#[derive(Clone, Copy)]
struct Tool<'a> {
    name: &'a str,
    about: &'a str,
    options: &'a [CommandOption<'a>],
    /// The end of its help: what stands in place of options that OpenLDAP's tools have. A row has two spaces, some of these options with commas
    /// between, and behind two spaces or more what serves here.
    beside: &'a str,
}

fn long_option<'a>(alloc: Global, id: &'a str, value_name: &'a str, help: &'a str) -> Arg<'a>
    ensures rule { rule_of result ≡ commands.long_option id.entry.now }
    ensures local { result.global ≡ false }
{
    Arg::new(alloc, id)
        .long(id)
        .value_name(value_name)
        .action(ArgAction::Set)
        .help(help)
}

fn folder_option<'a>(alloc: Global) -> Arg<'a>
    ensures rule { rule_of result ≡ commands.folder_option }
    ensures local { result.global ≡ false }
{
    long_option(alloc, "db", "DIR", "The folder of the directory").required(true)
}

fn value_option<'a>(
    alloc: Global,
    id: &'a str,
    short: char,
    value_name: &'a str,
    help: &'a str,
) -> Arg<'a>
    ensures rule { rule_of result ≡ commands.value_option id.entry.now short }
    ensures local { result.global ≡ false }
{
    Arg::new(alloc, id)
        .short(short)
        .value_name(value_name)
        .action(ArgAction::Set)
        .help(help)
}

fn file_option<'a>(alloc: Global, short: char, help: &'a str) -> Arg<'a>
    ensures rule { rule_of result ≡ commands.file_option short }
    ensures local { result.global ≡ false }
{
    value_option(alloc, "file", short, "FILE", help)
}

fn flag<'a>(alloc: Global, id: &'a str, short: char, help: &'a str) -> Arg<'a>
    ensures rule { rule_of result ≡ commands.flag id.entry.now short }
    ensures local { result.global ≡ false }
{
    Arg::new(alloc, id)
        .short(short)
        .action(ArgAction::SetTrue)
        .help(help)
}

fn long_flag<'a>(alloc: Global, id: &'a str, help: &'a str) -> Arg<'a>
    ensures rule { rule_of result ≡ commands.long_flag id.entry.now }
    ensures local { result.global ≡ false }
{
    Arg::new(alloc, id)
        .long(id)
        .action(ArgAction::SetTrue)
        .help(help)
}

fn other_words<'a>(alloc: Global) -> Arg<'a>
    ensures rule { rule_of result ≡ commands.other_words }
    ensures local { result.global ≡ false }
{
    Arg::new(alloc, "words")
        .value_name("WORD")
        .num_args(0..)
        .action(ArgAction::Append)
        .help(WORDS_HELP)
}

/// The option for clap.
fn arg_of<'a>(alloc: Global, option: CommandOption<'a>) -> Arg<'a>
    ensures rule { rule_of result ≡ commands.rule option.entry }
    ensures local { result.global ≡ false }
{
    match option {
        CommandOption::Folder => folder_option(alloc),
        CommandOption::Wait => long_option(alloc, "wait", "SECONDS", WAIT_HELP),
        CommandOption::File(short, help) => file_option(alloc, short, help),
        CommandOption::Value(id, short, value_name, help) => {
            value_option(alloc, id, short, value_name, help)
        }
        CommandOption::LongValue(id, value_name, help) => {
            long_option(alloc, id, value_name, help)
        }
        CommandOption::Flag(id, short, help) => flag(alloc, id, short, help),
        CommandOption::LongFlag(id, help) => long_flag(alloc, id, help),
        CommandOption::OtherWords => other_words(alloc),
    }
}

/// The command for clap.
fn command_of<'a>(alloc: Global, tool: Tool<'a>) -> Result<Command<'a>, AllocError>
    ensures { IfOk result (λ c. shape_of c ≡ commands.shape tool.entry) }
{
    let mut command = Command::new(alloc, tool.name)
        .about(tool.about)
        .after_help(tool.beside);
    for option in tool.options {
        command = command.arg(arg_of(alloc, *option))?;
    }
    Ok(command)
}

fn slapadd() -> Tool<'static>
    ensures { commands.shape result ≡ commands.slapadd }
{
    Tool {
        name: "slapadd",
        about: "Adds the entries of an LDIF text",
        options: &[
            CommandOption::Folder,
            CommandOption::File('l', INPUT_HELP),
            CommandOption::Flag("go_on", 'c', GO_ON_HELP),
            CommandOption::Flag("dry_run", 'u', DRY_RUN_HELP),
            CommandOption::Wait,
            CommandOption::Flag("verbose", 'v', VERBOSE_HELP),
        ],
        beside: BESIDE_SLAPADD,
    }
}

fn ldapmodify() -> Tool<'static>
    ensures { commands.shape result ≡ commands.ldapmodify }
{
    Tool {
        name: "ldapmodify",
        about: "Carries out the changes of an LDIF text",
        options: &[
            CommandOption::Folder,
            CommandOption::File('f', INPUT_HELP),
            CommandOption::Flag("add", 'a', ADD_HELP),
            CommandOption::Flag("go_on", 'c', GO_ON_HELP),
            CommandOption::Flag("dry_run", 'n', DRY_RUN_HELP),
            CommandOption::Wait,
            CommandOption::Flag("verbose", 'v', VERBOSE_HELP),
        ],
        beside: BESIDE_LDAPMODIFY,
    }
}

fn slapindex() -> Tool<'static>
    ensures { commands.shape result ≡ commands.slapindex }
{
    Tool {
        name: "slapindex",
        about: "Writes the index of the directory anew",
        options: &[
            CommandOption::Folder,
            CommandOption::Wait,
            CommandOption::Flag("verbose", 'v', VERBOSE_HELP),
        ],
        beside: BESIDE_SLAPINDEX,
    }
}

fn search() -> Tool<'static>
    ensures { commands.shape result ≡ commands.search }
{
    Tool {
        name: "search",
        about: "Prints the entries that a filter finds",
        options: &[
            CommandOption::Folder,
            CommandOption::Value("base", 'b', "NAME", BASE_HELP),
            CommandOption::Value("scope", 's', "SCOPE", SCOPE_HELP),
            CommandOption::Value("limit", 'z', "N", LIMIT_HELP),
            CommandOption::File('f', LINES_HELP),
            CommandOption::Flag("go_on", 'c', GO_ON_LINES_HELP),
            CommandOption::LongFlag("count", COUNT_HELP),
            CommandOption::Value("wrap", 'o', "ldif-wrap=N|no", WRAP_HELP),
            CommandOption::Flag("verbose", 'v', VERBOSE_HELP),
            CommandOption::OtherWords,
        ],
        beside: BESIDE_SEARCH,
    }
}

fn slapcat() -> Tool<'static>
    ensures { commands.shape result ≡ commands.slapcat }
{
    Tool {
        name: "slapcat",
        about: "Prints the directory as LDIF",
        options: &[
            CommandOption::Folder,
            CommandOption::File('l', OUTPUT_HELP),
            CommandOption::Value("filter", 'a', "FILTER", FILTER_HELP),
            CommandOption::Value("base", 's', "NAME", SUBTREE_HELP),
            CommandOption::LongValue("suffix", "NAME", SUFFIX_HELP),
            CommandOption::Value("wrap", 'o', "ldif-wrap=N|no", WRAP_HELP),
            CommandOption::Flag("verbose", 'v', VERBOSE_HELP),
        ],
        beside: BESIDE_SLAPCAT,
    }
}

fn ldifdiff() -> Tool<'static>
    ensures { commands.shape result ≡ commands.ldifdiff }
{
    Tool {
        name: "ldifdiff",
        about: "Prints the changes that make the directory another one",
        options: &[
            CommandOption::Folder,
            CommandOption::File('l', CONTENT_HELP),
            CommandOption::Value("base", 'b', "NAME", COMPARED_BASE_HELP),
            CommandOption::Value("filter", 'a', "FILTER", COMPARED_FILTER_HELP),
            CommandOption::LongFlag("unordered", UNORDERED_HELP),
            CommandOption::Flag("verbose", 'v', VERBOSE_HELP),
        ],
        beside: BESIDE_LDIFDIFF,
    }
}

fn check() -> Tool<'static>
    ensures { commands.shape result ≡ commands.check }
{
    Tool {
        name: "check",
        about: "Reports what is wrong with the files of the directory",
        options: &[
            CommandOption::Folder,
            CommandOption::LongValue("unique", "TYPES", UNIQUE_HELP),
            CommandOption::LongValue("references", "TYPES", REFERENCES_HELP),
            CommandOption::File('l', CHECKED_FILE_HELP),
            CommandOption::Flag("verbose", 'v', CHECK_VERBOSE_HELP),
        ],
        beside: BESIDE_CHECK,
    }
}

fn sort() -> Tool<'static>
    ensures { commands.shape result ≡ commands.sort }
{
    Tool {
        name: "sort",
        about: "Prints an LDIF text with its records so ordered that parents come first",
        options: &[CommandOption::File('l', INPUT_HELP)],
        beside: BESIDE_SORT,
    }
}

fn schema() -> Tool<'static>
    ensures { commands.shape result ≡ commands.schema }
{
    Tool {
        name: "schema",
        about: "Prints lines of dir.conf made of a server's schema",
        options: &[
            CommandOption::File('l', SCHEMA_HELP),
            CommandOption::LongValue("db", "DIR", SCHEMA_FOLDER_HELP),
        ],
        beside: BESIDE_SCHEMA,
    }
}

/// A command with one more below it.
fn with_tool<'a>(
    alloc: Global,
    command: Command<'a>,
    tool: Tool<'a>,
) -> Result<Command<'a>, AllocError>
    ensures { IfOk result (λ c. app_of c ≡ with_subcommand (app_of command.entry) (commands.shape tool.entry)) }
{
    command.subcommand(command_of(alloc, tool)?)
}

/// The commands, in the order in which the help has them.
fn tools() -> [Tool<'static>; 9]
    ensures { map commands.shape result ≡ commands.slaptools.subs }
{
    [
        slapadd(),
        ldapmodify(),
        slapindex(),
        search(),
        slapcat(),
        ldifdiff(),
        check(),
        sort(),
        schema(),
    ]
}

/// What the help of the command of this name has in place of options of OpenLDAP's tools; nothing where no command has the name.
pub(crate) fn beside(name: &str) -> &'static str {
    for tool in &tools() {
        if tool.name == name {
            return tool.beside;
        }
    }
    ""
}

/// The commands of slaptools, of which one has to be named. `version` is what `--version` says behind the program's name.
pub(crate) fn slaptools<'a>(alloc: Global, version: &'a str) -> Result<Command<'a>, AllocError>
    ensures { IfOk result (λ c. app_of c ≡ commands.slaptools) }
{
    let mut command = Command::new(alloc, "slaptools")
        .about("Tools for an LDAP directory that is kept as LDIF, without a server")
        .version(version)
        .subcommand_required(true);
    for tool in &tools() {
        command = with_tool(alloc, command, *tool)?;
    }
    Ok(command)
}
