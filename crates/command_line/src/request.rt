//! What a command line asks for.
ghost use Rattle.std.specs.Prelude.{◌≡◌};
ghost use Rattle.command_line.specs.declared.request.UsageFault.TheVariants.{OutOfMemory};

use ldif::LineWidth;
use paths::Scope;
use std::alloc::{AllocError, AllocFailed};

/// What slapadd is asked for.
#[derive(Clone, Copy, Drop)]
pub struct AddOptions<'a> {
    /// The folder of the directory.
    pub db: &'a str,
    /// The LDIF file, or none for standard input.
    pub file: Option<&'a str>,
    /// Whether it goes on after a refusal.
    pub go_on: bool,
    /// Whether no file is written.
    pub dry_run: bool,
    /// For how many seconds it waits where the directory is in use.
    pub wait: u32,
    /// Whether each report is followed by a sentence that says why.
    pub verbose: bool,
}

/// What ldapmodify is asked for.
#[derive(Clone, Copy, Drop)]
pub struct ModifyOptions<'a> {
    /// The folder of the directory.
    pub db: &'a str,
    /// The LDIF file, or none for standard input.
    pub file: Option<&'a str>,
    /// Whether a record without `changetype` is one that adds an entry.
    pub add: bool,
    /// Whether it goes on after a refusal.
    pub go_on: bool,
    /// Whether no file is written.
    pub dry_run: bool,
    /// For how many seconds it waits where the directory is in use.
    pub wait: u32,
    /// Whether each report is followed by a sentence that says why.
    pub verbose: bool,
}

/// What slapindex is asked for.
#[derive(Clone, Copy, Drop)]
pub struct IndexOptions<'a> {
    /// The folder of the directory.
    pub db: &'a str,
    /// For how many seconds it waits where the directory is in use.
    pub wait: u32,
    /// Whether each report is followed by a sentence that says why.
    pub verbose: bool,
}

/// What search is asked for (RFC 4511, 4.5.1).
#[derive(Drop)]
pub struct SearchOptions<'a> {
    /// The folder of the directory.
    pub db: &'a str,
    /// The name of the base, or none for the suffix.
    pub base: Option<&'a str>,
    /// Which entries are looked at, from the base on.
    pub scope: Scope,
    /// How many entries are printed at most, or none for all; of each line's where there is a file of lines.
    pub limit: Option<u32>,
    /// The file of lines, for each of which is searched, `-` being standard input; or none for one search.
    pub file: Option<&'a str>,
    /// Whether it goes on after a line that is refused.
    pub go_on: bool,
    /// Whether it is printed how many entries there are, in place of them.
    pub count: bool,
    /// How long a line of the entries may be.
    pub width: LineWidth,
    /// The filter as text, or none for all entries. Where there is a file of lines, its first `%s` stands for a line, and none is for the line
    /// as the filter.
    pub filter: Option<&'a str>,
    /// The attributes that are printed, by name.
    pub attributes: Vec<&'a str>,
    /// Whether each report is followed by a sentence that says why.
    pub verbose: bool,
}

/// What slapcat is asked for.
#[derive(Clone, Copy, Drop)]
pub struct CatOptions<'a> {
    /// The folder of the directory.
    pub db: &'a str,
    /// The file that is written, or none for standard output.
    pub file: Option<&'a str>,
    /// The filter as text, or none for all entries.
    pub filter: Option<&'a str>,
    /// The name of the entry that is printed with those below it, or none for all.
    pub base: Option<&'a str>,
    /// The name of the suffix that all is printed under, or none for the directory's own. With it, neither a filter nor a base is asked for.
    pub suffix: Option<&'a str>,
    /// How long a line may be.
    pub width: LineWidth,
    /// Whether each report is followed by a sentence that says why.
    pub verbose: bool,
}

/// What ldifdiff is asked for.
#[derive(Clone, Copy, Drop)]
pub struct DiffOptions<'a> {
    /// The folder of the directory that is to be changed.
    pub db: &'a str,
    /// The LDIF file with the content records of the other directory, or none for standard input.
    pub file: Option<&'a str>,
    /// The name of the entry that is compared with those below it, or none for all.
    pub base: Option<&'a str>,
    /// The filter as text: an entry is compared where it is true of it in one of the directories. None for all entries.
    pub filter: Option<&'a str>,
    /// Whether attributes and values are compared as sets, by their equality rules, and their order doesn't count.
    pub unordered: bool,
    /// Whether each report is followed by a sentence that says why, and a line at the end tells how much is changed.
    pub verbose: bool,
}

/// What check is asked for.
#[derive(Clone, Copy, Drop)]
pub struct CheckOptions<'a> {
    /// The folder of the directory.
    pub db: &'a str,
    /// The types of which no two entries should have equal values, by names or OIDs with commas between; or none.
    pub unique: Option<&'a str>,
    /// The types whose references are looked at, in the same form, or none for all types of DN syntax.
    pub references: Option<&'a str>,
    /// The LDIF file of which the records are checked over those of data.ldif, `-` being standard input; or none.
    pub file: Option<&'a str>,
    /// Whether sentences say why, of each fault of dir.conf and each refused record.
    pub verbose: bool,
}

/// What sort is asked for.
#[derive(Clone, Copy, Drop)]
pub struct SortOptions<'a> {
    /// The LDIF file, or none for standard input.
    pub file: Option<&'a str>,
}

/// What schema is asked for.
#[derive(Clone, Copy, Drop)]
pub struct SchemaOptions<'a> {
    /// The file with a server's schema, or none for standard input.
    pub file: Option<&'a str>,
    /// The folder of the directory whose dir.conf the lines are for, or none.
    pub db: Option<&'a str>,
}

/// What a command line asks for.
#[derive(Drop)]
pub enum Request<'a> {
    /// The help, or the version: this text, for standard output.
    Help(String),
    Add(AddOptions<'a>),
    Modify(ModifyOptions<'a>),
    Index(IndexOptions<'a>),
    Search(SearchOptions<'a>),
    Cat(CatOptions<'a>),
    Diff(DiffOptions<'a>),
    Check(CheckOptions<'a>),
    Sort(SortOptions<'a>),
    Schema(SchemaOptions<'a>),
}

/// Why a command line asks for nothing that can be done.
#[derive(Drop)]
pub enum UsageFault {
    /// Its words are wrong: as this text says, for standard error.
    Words(String),
    OutOfMemory,
}

impl From<AllocError> for UsageFault {
    ghost from_gives = { λ _ f. f ≡ OutOfMemory };

    fn from(_: AllocError) -> UsageFault {
        UsageFault::OutOfMemory
    }
}

impl<T: Drop> From<AllocFailed<T>> for UsageFault {
    ghost from_gives = { λ _ f. f ≡ OutOfMemory };

    fn from(_: AllocFailed<T>) -> UsageFault {
        UsageFault::OutOfMemory
    }
}
