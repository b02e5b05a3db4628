//! Searches with an index: what they find, and how many entries they test.

ghost use Rattle.std.specs.Prelude.{◌≡◌, IfOk};

use crate::indexes::{INDEX, TURNED, empty, indexed};
use databases::count_found;
use directory::{
    Directory, EntriesByRank, Hits, OrderedDirectory, Scope, search_ranked_with, search_with,
};
use entries::{Entry, Refusal};
use filter::{Prepared, prepare};
use filter_text::read_filter;
use id_sets::IdSet;
use index::Index;
use index_text::Postings;
use schema::{Code, Path};
use std::alloc::Global;
use std::test::Fail;
use try_device::TrySource;

// a filter, the values of the RDNs that it finds, in dump order, and how many entries are tested
type Row = (&'static str, &'static [&'static str], u64);

const ROWS: [Row; 16] = [
    ("(!(uidNumber=abc))", &[], 0),
    (
        "(|(uidNumber=abc)(cn=*))",
        &["aba", "abba", "abc bcd", "Bob"],
        4,
    ),
    ("(cn=*abcd*)", &[], 1),
    (
        "(!(cn=*abcd*))",
        &["ex", "aba", "abba", "abc bcd", "Bob"],
        5,
    ),
    ("(cn=ab*ba)", &["abba"], 5),
    ("(cn=*ob*)", &["Bob"], 5),
    ("(cn=BOB)", &["Bob"], 1),
    ("(!(uidNumber=7))", &["ex", "aba", "abba", "abc bcd"], 4),
    ("(uidNumber=07)", &[], 0),
    ("(|(cn=aba)(uidNumber=7))", &["aba", "Bob"], 2),
    ("(&(cn=*)(uidNumber=7))", &["Bob"], 1),
    ("(!(cn=*))", &["ex"], 1),
    ("(uidNumber>=5)", &["Bob"], 5),
    ("(cn>=a)", &[], 0),
    ("(name=bob)", &["Bob"], 5),
    ("(!(&(cn=*ab*)(uidNumber=abc)))", &["ex", "Bob"], 5),
];

// the same by postings that show nothing
const SHOWN_NOTHING: [Row; 4] = [
    ("(cn=aba)", &[], 0),
    ("(!(cn=aba))", &["ex", "abba", "abc bcd", "Bob"], 5),
    ("(name=bob)", &["Bob"], 5),
    ("(cn=*abb*)", &[], 0),
];

/// Whether the RDN of an entry has this value, and no other.
fn has_rdn(entry: &Entry, value: &str) -> bool {
    match entry.rdn().avas() {
        [(_, own)] => own.as_slice() == value.as_bytes(),
        _ => false,
    }
}

// whether exactly these are found, by so many tests
fn are_found<S: IdSet>(hits: Hits<'_, S>, values: &[&str], tested: u64) -> bool {
    let mut hits = hits;
    for value in values {
        match hits.next() {
            Some((_, entry)) => {
                if !has_rdn(entry, value) {
                    return false;
                }
            }
            None => return false,
        }
    }
    hits.next().is_none() && hits.tested() == tested
}

fn prepared(alloc: Global, dir: &Directory, text: &str) -> Result<Prepared, Fail>
    ensures { IfOk result (λ p. p.conf ≡ dir.now.conf) }
{
    match read_filter(alloc, text.as_bytes()) {
        Ok(filter) => Ok(prepare(alloc, &filter, dir.conf())?),
        Err(_) => Err(Fail::from("the text is a filter")),
    }
}

// whether the directory finds a row's entries by its filter, by so many tests
fn finds_by(alloc: Global, dir: &Directory, filter: &Prepared, row: &Row) -> bool
    requires { filter.now.conf ≡ dir.now.conf }
{
    let (_, values, tested) = row;
    let base = Path::root(alloc);
    match dir.search(&base, Scope::Sub, filter) {
        Ok(hits) => are_found(hits, values, *tested),
        Err(_) => false,
    }
}

fn finds(alloc: Global, dir: &Directory, row: &Row) -> Result<bool, Fail> {
    let (text, ..) = row;
    let filter = prepared(alloc, dir, text)?;
    Ok(finds_by(alloc, dir, &filter, row))
}

fn finds_each(alloc: Global, dir: &Directory) -> Result<bool, Fail> {
    for row in &ROWS {
        if !finds(alloc, dir, row)? {
            return Ok(false);
        }
    }
    Ok(true)
}

fn loaded_finds_each(alloc: Global) -> Result<bool, Fail> {
    let dir = indexed(alloc, TURNED)?;
    finds_each(alloc, &dir)
}

#[test]
fn candidates_alone_are_tested(rt: HostRuntime) -> Result<(), Fail> {
    assert!(rt; loaded_finds_each(rt.alloc())?);
    Ok(())
}

// the same of its tree, by postings of ranks
fn finds_by_postings<P: Postings>(
    alloc: Global,
    dir: &Directory,
    postings: &P,
    filter: &Prepared,
    row: &Row,
) -> bool
    requires { filter.now.conf ≡ dir.now.conf }
{
    let (_, values, tested) = row;
    let base = Path::root(alloc);
    match search_with(
        alloc,
        dir.tree(),
        dir.conf(),
        postings,
        &base,
        Scope::Sub,
        filter,
    ) {
        Ok(hits) => are_found(hits, values, *tested),
        Err(_) => false,
    }
}

fn finds_with<P: Postings>(
    alloc: Global,
    dir: &Directory,
    postings: &P,
    row: &Row,
) -> Result<bool, Fail> {
    let (text, ..) = row;
    let filter = prepared(alloc, dir, text)?;
    Ok(finds_by_postings(alloc, dir, postings, &filter, row))
}

fn finds_each_with<P: Postings>(
    alloc: Global,
    dir: &Directory,
    postings: &P,
    rows: &[Row],
) -> Result<bool, Fail> {
    for row in rows {
        if !finds_with(alloc, dir, postings, row)? {
            return Ok(false);
        }
    }
    Ok(true)
}

fn finds_each_with_nothing(alloc: Global, dir: &Directory) -> Result<bool, Fail> {
    let nothing = Index::new(alloc, dir.conf())?;
    finds_each_with(alloc, dir, &nothing, &SHOWN_NOTHING)
}

// the same by all that the text of the index says
fn finds_each_by_text(alloc: Global, dir: &Directory) -> Result<bool, Fail> {
    let stamp = dir.database().stamp(alloc)?;
    let mut source = TrySource::new(INDEX.as_bytes(), 100, None);
    match dir.database().read_index(alloc, &mut source, &stamp) {
        Ok(stored) => finds_each_with(alloc, dir, &stored, &ROWS),
        Err(_) => Ok(false),
    }
}

fn loaded_finds_each_by_text(alloc: Global) -> Result<bool, Fail> {
    let dir = indexed(alloc, TURNED)?;
    finds_each_by_text(alloc, &dir)
}

#[test]
fn an_index_text_finds_as_the_index_does(rt: HostRuntime) -> Result<(), Fail> {
    assert!(rt; loaded_finds_each_by_text(rt.alloc())?);
    Ok(())
}

// the same in the order of the dump, by the numbers of entries
fn finds_in_order(ordered: &OrderedDirectory<'_>, filter: &Prepared, base: &Path, row: &Row) -> bool
    requires { filter.now.conf ≡ ordered.now.conf }
{
    let (_, values, tested) = row;
    match ordered.search(base, Scope::Sub, filter) {
        Ok(hits) => are_found(hits, values, *tested),
        Err(_) => false,
    }
}

// as many are counted as are found
fn counts_in_order(
    ordered: &OrderedDirectory<'_>,
    filter: &Prepared,
    base: &Path,
    row: &Row,
) -> bool
    requires { filter.now.conf ≡ ordered.now.conf }
{
    let (_, values, _) = row;
    match ordered.search(base, Scope::Sub, filter) {
        Ok(hits) => count_found(hits, None).entries == values.len() as u64,
        Err(_) => false,
    }
}

fn finds_each_in_order(alloc: Global, dir: &Directory) -> Result<bool, Fail> {
    let ordered = dir.in_order(alloc)?;
    let base = Path::root(alloc);
    for row in &ROWS {
        let (text, ..) = row;
        let filter = prepared(alloc, dir, text)?;
        if !finds_in_order(&ordered, &filter, &base, row)
            || !counts_in_order(&ordered, &filter, &base, row)
        {
            return Ok(false);
        }
    }
    Ok(true)
}

fn loaded_finds_each_in_order(alloc: Global) -> Result<bool, Fail> {
    let dir = indexed(alloc, TURNED)?;
    finds_each_in_order(alloc, &dir)
}

#[test]
fn a_directory_in_order_finds_as_the_directory_does(rt: HostRuntime) -> Result<(), Fail> {
    assert!(rt; loaded_finds_each_in_order(rt.alloc())?);
    Ok(())
}

// the same by postings of ranks
fn finds_ranked<P: Postings>(
    alloc: Global,
    dir: &Directory,
    entries: &EntriesByRank<'_>,
    postings: &P,
    filter: &Prepared,
    row: &Row,
) -> bool
    requires conf { entries.now.conf ≡ dir.now.conf }
    requires prepared { filter.now.conf ≡ dir.now.conf }
{
    let (_, values, tested) = row;
    let base = Path::root(alloc);
    match search_ranked_with(
        alloc,
        entries,
        dir.conf(),
        postings,
        &base,
        Scope::Sub,
        filter,
    ) {
        Ok(hits) => are_found(hits, values, *tested),
        Err(_) => false,
    }
}

fn finds_each_ranked<P: Postings>(
    alloc: Global,
    dir: &Directory,
    postings: &P,
    rows: &[Row],
) -> Result<bool, Fail> {
    let entries = EntriesByRank::of(alloc, dir.tree())?;
    for row in rows {
        let (text, ..) = row;
        let filter = prepared(alloc, dir, text)?;
        if !finds_ranked(alloc, dir, &entries, postings, &filter, row) {
            return Ok(false);
        }
    }
    Ok(true)
}

fn loaded_finds_each_ranked(alloc: Global) -> Result<bool, Fail> {
    let dir = indexed(alloc, TURNED)?;
    let stamp = dir.database().stamp(alloc)?;
    let mut source = TrySource::new(INDEX.as_bytes(), 100, None);
    match dir.database().read_index(alloc, &mut source, &stamp) {
        Ok(stored) => finds_each_ranked(alloc, &dir, &stored, &ROWS),
        Err(_) => Ok(false),
    }
}

fn loaded_finds_each_ranked_with_nothing(alloc: Global) -> Result<bool, Fail> {
    let dir = indexed(alloc, TURNED)?;
    let nothing = Index::new(alloc, dir.conf())?;
    finds_each_ranked(alloc, &dir, &nothing, &SHOWN_NOTHING)
}

#[test]
fn entries_by_their_ranks_find_as_their_tree_does(rt: HostRuntime) -> Result<(), Fail> {
    assert!(rt; loaded_finds_each_ranked(rt.alloc())?);
    assert!(rt; loaded_finds_each_ranked_with_nothing(rt.alloc())?);
    Ok(())
}

fn loaded_finds_each_with_nothing(alloc: Global) -> Result<bool, Fail> {
    let dir = indexed(alloc, TURNED)?;
    finds_each_with_nothing(alloc, &dir)
}

#[test]
fn postings_say_what_is_tested(rt: HostRuntime) -> Result<(), Fail> {
    assert!(rt; loaded_finds_each_with_nothing(rt.alloc())?);
    Ok(())
}

fn refuses_by(alloc: Global, dir: &Directory, filter: &Prepared) -> bool
    requires { filter.now.conf ≡ dir.now.conf }
{
    let base = Path::root(alloc);
    match dir.search(&base, Scope::Sub, filter) {
        Ok(_) => false,
        Err(refusal) => matches!(refusal, Refusal::Code(Code::NoSuchObject)),
    }
}

// whether no entry is there to search from
fn refuses(alloc: Global, dir: &Directory) -> Result<bool, Fail> {
    let filter = prepared(alloc, dir, "(cn=*)")?;
    Ok(refuses_by(alloc, dir, &filter))
}

fn empty_refuses(alloc: Global) -> Result<bool, Fail> {
    let dir = empty(alloc)?;
    refuses(alloc, &dir)
}

#[test]
fn a_base_that_is_not_there_is_refused(rt: HostRuntime) -> Result<(), Fail> {
    assert!(rt; empty_refuses(rt.alloc())?);
    Ok(())
}
