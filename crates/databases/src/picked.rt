//! Candidates alone, by their ranks.

ghost use Rattle.std.specs.Prelude.{◌≡◌, ◌+◌, ◌<◌, ◌^◌, not, length};
ghost use Rattle.std.specs.FinSet as set;
ghost use Rattle.std.specs.Iterator.{YieldsFirstBy, item_count};
ghost use Rattle.candidates.specs.Numbers.{numbers_contain};
ghost use Rattle.databases.specs.inner.Picks.{IsFirstIn, lent_entries, picked};

use candidates::Numbers;
use entries::Entry;
use id_sets::IdSet;
use schema::Path;
use std::marker::Model;

/// Those of entries that follow each other in the dump whose ranks are among the candidates'. It comes from one to the next by the candidates, and
/// not by the entries in between. A contract sees those that are left.
pub(crate) struct PickedEntries<'a, S: IdSet> {
    // what it picks from
    rest: &'a [(&'a Path, &'a Entry)],
    // of the first of these
    rank: u32,
    ranks: Numbers<S>,
}

// A call of its own, so that no other crate proves it anew.
impl<S: IdSet> Drop for PickedEntries<'_, S> {
    fn drop(self) {
        let PickedEntries {
            rest: _,
            rank: _,
            ranks: _,
        } = self;
    }
}

impl<'a, S: IdSet> Model for PickedEntries<'a, S> {
    ghost use Rattle.std.specs.Prelude.{◌+◌, ◌<◌, ◌^◌, List, length};
    ghost use Rattle.std.specs.Coded.{coded_list, coded×};
    ghost use Rattle.paths.specs.Paths.{Path};
    ghost use Rattle.entries.specs.StoredEntries.{Entry, entry_code};
    ghost use Rattle.tree.specs.Trees.{path_code};
    ghost use Rattle.candidates.specs.Numbers.{numbers_contain};
    ghost use Rattle.databases.specs.inner.Picks.{lent_entries, picked};

    ghost Value = { List (Path × Entry) };

    ghost coded = { coded_list (coded× path_code entry_code) };

    ghost view = { λ p. picked (numbers_contain S.members p.ranks) p.rank (lent_entries p.rest.now) };

    ghost invariant = { λ p. p.rank + length p.rest.now < 2 ^ 32 };
}

// the first of some numbers from one on, and below another one
fn first_from<S: IdSet>(numbers: &Numbers<S>, from: u32, end: u32) -> Option<u32>
    ensures { IsFirstIn (numbers_contain S.members numbers.now) from end result }
{
    match numbers {
        Numbers::Only(members) => first_member(members, from, end),
        Numbers::AllBut(others) => first_other(others, from, end),
    }
}

// the same of the members of a set
#[tactic(auto, using(crate::proofs::Picks::first_below, crate::proofs::Picks::none_from, crate::proofs::Picks::none_below))]
fn first_member<S: IdSet>(members: &S, from: u32, end: u32) -> Option<u32>
    ensures { IsFirstIn (set.contains (S.members members.now)) from end result }
{
    match members.next_from(from) {
        Some(number) if number < end => Some(number),
        _ => None,
    }
}

// the same of the numbers that aren't members
#[tactic(auto, using(crate::proofs::Picks::none_so_far))]
fn first_other<S: IdSet>(members: &S, from: u32, end: u32) -> Option<u32>
    ensures { IsFirstIn (λ n. not (set.contains (S.members members.now) n)) from end result }
{
    for number in from..end {
        if !members.contains(number) {
            return Some(number);
        }
    }
    None
}

impl<'a, S: IdSet> PickedEntries<'a, S> {
    // of these, the first of which has this rank
    pub(crate) fn new(
        rest: &'a [(&'a Path, &'a Entry)],
        rank: u32,
        ranks: Numbers<S>,
    ) -> PickedEntries<'a, S>
        requires { rank + length rest.now < 2 ^ 32 }
        ensures { result ≡ picked (numbers_contain S.members ranks) rank (lent_entries rest.now) }
    {
        PickedEntries { rest, rank, ranks }
    }
}

impl<'a, S: IdSet> Iterator for PickedEntries<'a, S> {
    type Item = (&'a Path, &'a Entry);

    ghost next_gives = { YieldsFirstBy (λ e. (e.0.now, e.1.now)) (λ s. s) };

    ghost remaining = { item_count (λ s. s) };

    fn next(&mut self) -> Option<(&'a Path, &'a Entry)> {
        let end = self.rank + self.rest.len() as u32;
        match first_from(&self.ranks, self.rank, end) {
            Some(rank) => {
                let place = (rank - self.rank) as usize;
                let found = self.rest[place];
                self.rest = &self.rest[place + 1..];
                self.rank = rank + 1;
                Some(found)
            }
            None => None,
        }
    }
}
