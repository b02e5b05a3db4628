//! Searches by the index of a directory, by an index text and by none: what they find, and how many entries they test.

ghost use Rattle.std.specs.Prelude.{◌≡◌, IfOk, IfSome};

use crate::directories::{PEOPLE, directory};
use crate::shown::shown_by;
use crate::{brackets, lies};
use anyhow::{Error, Result};
use candidates::asked_keys;
use directory::{
    Directory, EntriesByRank, Hits, OrderedDirectory, Scope, Stamp, scan, search_ranked_with,
    search_with, stamp_of,
};
use entries::{Entry, Refusal};
use filter::{Prepared, prepare};
use filter_text::{FilterFault, read_filter};
use id_sets::IdSet;
use schema::{Conf, Path};
use std::alloc::Global;
use std::io::Print;
use stored_index::{IndexFault, StoredIndex};
use try_device::TrySource;

/// Each kind of item, and connectives over them.
const FILTERS: [&str; 21] = [
    "(!(uidNumber=abc))",
    "(|(uidNumber=abc)(cn=*))",
    "(cn=*abcd*)",
    "(!(cn=*abcd*))",
    "(cn=ab*ba)",
    "(cn=*ob*)",
    "(cn=BOB)",
    "(!(uidNumber=7))",
    "(uidNumber=07)",
    "(|(cn=aba)(uidNumber=7))",
    "(&(cn=*)(uidNumber=7))",
    "(!(cn=*))",
    "(uidNumber>=5)",
    "(cn>=a)",
    "(name=bob)",
    "(!(&(cn=*ab*)(uidNumber=abc)))",
    "(&(|(cn=ab*)(cn=*b)(cn=a*b*a))(!(|(cn=abba)(uidNumber<=3))))",
    "(description=a text of more than a few bytes and more than thirty)",
    "(member=cn=Some One+sn=One,dc=ex)",
    "(cn:caseExactMatch:=Bob)",
    "(cn~=abc bcd)",
];

/// The index text of a directory, and the stamp that stands in it.
#[derive(Clone, Copy)]
pub(crate) struct IndexText<'a> {
    pub(crate) text: &'a [u8],
    pub(crate) stamp: &'a Stamp,
}

/// How entries are found.
#[derive(Clone, Copy)]
pub(crate) enum By<'a> {
    Index,
    Order,
    Text(IndexText<'a>),
    Ranks(IndexText<'a>),
    Scan,
}

fn print_entry(rt: &impl Print, entry: &Entry) -> Result<()> {
    for (_, value) in entry.rdn().avas() {
        match str::from_utf8(value.as_slice()) {
            Ok(value) => print!(rt; " {value},")?,
            Err(_) => return Err(Error::msg("no text")),
        }
    }
    Ok(())
}

fn print_hits<S: IdSet>(rt: &impl Print, hits: Hits<'_, S>) -> Result<()> {
    let mut hits = hits;
    while let Some((_, entry)) = hits.next() {
        print_entry(rt, entry)?;
    }
    println!(rt; " tested {}", hits.tested())?;
    Ok(())
}

/// The keys of an index text that a filter asks for; `None` where memory is refused.
pub(crate) fn stored_for(
    alloc: Global,
    dir: &Directory,
    filter: &Prepared,
    index: IndexText<'_>,
) -> Result<Option<StoredIndex>> {
    let IndexText { text, stamp } = index;
    let Ok(asked) = asked_keys(alloc, filter, dir.conf().slots()) else {
        return Ok(None);
    };
    let mut source = TrySource::new(text, 100, None);
    match StoredIndex::read_asked(
        alloc,
        &mut source,
        dir.conf(),
        stamp,
        dir.tree().len(),
        asked.as_slice(),
    ) {
        Ok(stored) => Ok(Some(stored)),
        Err(IndexFault::OutOfMemory) => Ok(None),
        Err(IndexFault::Fault(_) | IndexFault::Device) => Err(Error::msg("no index text")),
    }
}

/// Searches by an index text and prints; answers false where memory is refused, and nothing is printed then.
fn print_by_text(
    rt: &impl Print,
    alloc: Global,
    dir: &Directory,
    filter: &Prepared,
    index: IndexText<'_>,
) -> Result<bool>
    requires { filter.now.conf ≡ dir.now.conf }
{
    let Some(stored) = stored_for(alloc, dir, filter, index)? else {
        return Ok(false);
    };
    let base = Path::root(alloc);
    match search_with(
        alloc,
        dir.tree(),
        dir.conf(),
        &stored,
        &base,
        Scope::Sub,
        filter,
    ) {
        Ok(hits) => print_hits(rt, hits)?,
        Err(Refusal::OutOfMemory) => return Ok(false),
        Err(Refusal::Code(_)) => return Err(Error::msg("no base")),
    }
    Ok(true)
}

/// The same of the entries by their ranks, by an index that was read.
fn print_ranked(
    rt: &impl Print,
    alloc: Global,
    conf: &Conf,
    entries: &EntriesByRank<'_>,
    stored: &StoredIndex,
    filter: &Prepared,
) -> Result<bool>
    requires made { entries.now.conf ≡ conf.now }
    requires prepared { filter.now.conf ≡ conf.now }
{
    let base = Path::root(alloc);
    match search_ranked_with(alloc, entries, conf, stored, &base, Scope::Sub, filter) {
        Ok(hits) => print_hits(rt, hits)?,
        Err(Refusal::OutOfMemory) => return Ok(false),
        Err(Refusal::Code(_)) => return Err(Error::msg("no base")),
    }
    Ok(true)
}

/// The same of the entries by their ranks.
fn print_by_ranks(
    rt: &impl Print,
    alloc: Global,
    dir: &Directory,
    filter: &Prepared,
    index: IndexText<'_>,
) -> Result<bool>
    requires { filter.now.conf ≡ dir.now.conf }
{
    let Some(stored) = stored_for(alloc, dir, filter, index)? else {
        return Ok(false);
    };
    let Ok(entries) = EntriesByRank::of(alloc, dir.tree()) else {
        return Ok(false);
    };
    print_ranked(rt, alloc, dir.conf(), &entries, &stored, filter)
}

/// The same of a directory that is in the order of its dump.
fn print_ordered(
    rt: &impl Print,
    alloc: Global,
    ordered: &OrderedDirectory<'_>,
    filter: &Prepared,
) -> Result<bool>
    requires { filter.now.conf ≡ ordered.now.conf }
{
    let base = Path::root(alloc);
    match ordered.search(&base, Scope::Sub, filter) {
        Ok(hits) => print_hits(rt, hits)?,
        Err(Refusal::OutOfMemory) => return Ok(false),
        Err(Refusal::Code(_)) => return Err(Error::msg("no base")),
    }
    Ok(true)
}

/// The same of the directory in the order of its dump.
fn print_in_order(
    rt: &impl Print,
    alloc: Global,
    dir: &Directory,
    filter: &Prepared,
) -> Result<bool>
    requires { filter.now.conf ≡ dir.now.conf }
{
    match dir.in_order(alloc) {
        Ok(ordered) => print_ordered(rt, alloc, &ordered, filter),
        Err(_) => Ok(false),
    }
}

/// The same by any way.
fn print_by(
    rt: &impl Print,
    alloc: Global,
    dir: &Directory,
    filter: &Prepared,
    by: By<'_>,
) -> Result<bool>
    requires { filter.now.conf ≡ dir.now.conf }
{
    let base = Path::root(alloc);
    match by {
        By::Index => match dir.search(&base, Scope::Sub, filter) {
            Ok(hits) => print_hits(rt, hits)?,
            Err(Refusal::OutOfMemory) => return Ok(false),
            Err(Refusal::Code(_)) => return Err(Error::msg("no base")),
        },
        By::Order => return print_in_order(rt, alloc, dir, filter),
        By::Text(index) => return print_by_text(rt, alloc, dir, filter, index),
        By::Ranks(index) => return print_by_ranks(rt, alloc, dir, filter, index),
        By::Scan => match scan(alloc, dir.tree(), &base, Scope::Sub, filter) {
            Some(hits) => print_hits(rt, hits)?,
            None => return Err(Error::msg("no base")),
        },
    }
    Ok(true)
}

/// A filter that is made ready; `None` where memory is refused.
pub(crate) fn prepared_once(alloc: Global, dir: &Directory, text: &str) -> Result<Option<Prepared>>
    ensures { IfOk result (λ p. IfSome p (λ p. p.conf ≡ dir.now.conf)) }
{
    match read_filter(alloc, text.as_bytes()) {
        Ok(filter) => Ok(prepare(alloc, &filter, dir.conf()).ok()),
        Err(FilterFault::OutOfMemory) => Ok(None),
        Err(_) => Err(Error::msg("no filter")),
    }
}

fn print_once(
    rt: &impl Print,
    alloc: Global,
    dir: &Directory,
    text: &str,
    by: By<'_>,
) -> Result<bool> {
    match prepared_once(alloc, dir, text)? {
        Some(filter) => print_by(rt, alloc, dir, &filter, by),
        None => Ok(false),
    }
}

/// Prints a filter and what it finds, once more where memory is refused.
pub(crate) fn print_search(
    rt: &impl Print,
    alloc: Global,
    dir: &Directory,
    text: &str,
    by: By<'_>,
) -> Result<()> {
    print!(rt; "{text}:")?;
    if print_once(rt, alloc, dir, text, by)? || print_once(rt, alloc, dir, text, by)? {
        Ok(())
    } else {
        Err(Error::msg("a search is refused memory twice"))
    }
}

fn print_searches(rt: &impl Print, alloc: Global, dir: &Directory, by: By<'_>) -> Result<()> {
    for text in FILTERS {
        print_search(rt, alloc, dir, text, by)?;
    }
    Ok(())
}

fn stamp(alloc: Global, dir: &Directory) -> Result<Stamp> {
    match stamp_of(alloc, dir.tree(), dir.conf()) {
        Ok(stamp) => Ok(stamp),
        Err(_) => Ok(stamp_of(alloc, dir.tree(), dir.conf())?),
    }
}

fn print_searches_by_text(rt: &impl Print, alloc: Global, dir: &Directory) -> Result<()> {
    let shown = shown_by(alloc, dir)?;
    let stamp = stamp(alloc, dir)?;
    let index = IndexText {
        text: shown.index(),
        stamp: &stamp,
    };
    print_searches(rt, alloc, dir, By::Text(index))?;
    print_searches(rt, alloc, dir, By::Ranks(index))?;
    lies::print(rt, alloc, dir, index)?;
    brackets::print(rt, alloc, dir, index)
}

fn print_in_each_way(rt: &impl Print, alloc: Global, dir: &Directory) -> Result<()> {
    print_searches(rt, alloc, dir, By::Index)?;
    print_searches(rt, alloc, dir, By::Order)?;
    print_searches_by_text(rt, alloc, dir)?;
    print_searches(rt, alloc, dir, By::Scan)
}

/// Prints what each filter finds, by the directory's index and by its index text, each also with the entries by their ranks, and by none; between
/// them what index texts that lie give, and both sides of candidates.
pub(crate) fn print(rt: &impl Print, alloc: Global) -> Result<()> {
    let dir = directory(alloc, PEOPLE)?;
    print_in_each_way(rt, alloc, &dir)
}
