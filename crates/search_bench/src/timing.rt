//! The best time of several.

ghost use Rattle.std.specs.Prelude.{◌≡◌};

use anyhow::{Error, Result};
use directory::{Directory, Hits, OrderedDirectory, Scope, scan};
use filter::Prepared;
use id_sets::IdSet;
use schema::Path;
use std::alloc::Global;
use std::rt::Clock;
use std::time::{Duration, Instant};

/// How often each search is made.
const ROUNDS: usize = 7;

/// How entries are found.
#[derive(Clone, Copy)]
pub(crate) enum Search {
    ByIndex,
    InOrder,
    ByScan,
}

/// A directory, and the same in the order of its dump.
#[derive(Drop)]
pub(crate) struct Both<'a> {
    pub directory: &'a Directory,
    pub ordered: OrderedDirectory<'a>,
    ghost same_conf: { ordered.conf ≡ directory.now.conf },
}

/// What a search took, and how many entries it found and tested.
#[derive(Clone, Copy)]
pub(crate) struct Row {
    pub nanoseconds: u64,
    pub found: u64,
    pub tested: u64,
}

/// Walks to the end, and answers how many entries were found and how many were tested.
fn counts<S: IdSet>(hits: Hits<'_, S>) -> (u64, u64) {
    let mut hits = hits;
    let mut found = 0u64;
    while let Some(_) = hits.next() {
        found = found.saturating_add(1);
    }
    (found, hits.tested())
}

fn searched(
    alloc: Global,
    both: &Both<'_>,
    base: &Path,
    filter: &Prepared,
    how: Search,
) -> Result<(u64, u64)>
    requires { filter.now.conf ≡ both.now.directory.now.conf }
{
    match how {
        Search::ByIndex => match both.directory.search(base, Scope::Sub, filter) {
            Ok(hits) => Ok(counts(hits)),
            Err(_) => Err(Error::msg("the base isn't there")),
        },
        Search::InOrder => match both.ordered.search(base, Scope::Sub, filter) {
            Ok(hits) => Ok(counts(hits)),
            Err(_) => Err(Error::msg("the base isn't there")),
        },
        Search::ByScan => match scan(alloc, both.directory.tree(), base, Scope::Sub, filter) {
            Some(hits) => Ok(counts(hits)),
            None => Err(Error::msg("the base isn't there")),
        },
    }
}

fn time(
    clock: &impl Clock,
    alloc: Global,
    both: &Both<'_>,
    filter: &Prepared,
    how: Search,
) -> Result<Row>
    requires { filter.now.conf ≡ both.now.directory.now.conf }
{
    let base = Path::root(alloc);
    let start = Instant::now(clock)?;
    let (found, tested) = searched(alloc, both, &base, filter, how)?;
    let took: Duration = start.elapsed(clock)?;
    Ok(Row {
        nanoseconds: took.as_nanos().min(u128::from(u64::MAX)) as u64,
        found,
        tested,
    })
}

/// The quickest of several searches of all entries.
pub(crate) fn best_of(
    clock: &impl Clock,
    alloc: Global,
    both: &Both<'_>,
    filter: &Prepared,
    how: Search,
) -> Result<Row>
    requires { filter.now.conf ≡ both.now.directory.now.conf }
{
    let mut best = time(clock, alloc, both, filter, how)?;
    for _ in 1..ROUNDS {
        let row = time(clock, alloc, both, filter, how)?;
        if row.nanoseconds < best.nanoseconds {
            best = row;
        }
    }
    Ok(best)
}
