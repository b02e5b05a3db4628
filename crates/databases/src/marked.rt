//! Entries, and which of them are candidates.

ghost use Rattle.std.specs.Prelude.{◌≡◌, ◌+◌, ◌<◌, ◌^◌, length};
ghost use Rattle.std.specs.Iterator.{YieldsFirstBy, item_count};
ghost use Rattle.candidates.specs.Numbers.{numbers_contain};
ghost use Rattle.databases.specs.inner.Marks.{marked};

use crate::numbering::Numbering;
use candidates::Numbers;
use entries::Entry;
use id_sets::IdSet;
use schema::Path;
use std::marker::Model;
use tree::NumberedEntries;

/// Entries that follow each other in the dump, each with whether it is a candidate. A contract sees those that are left.
#[derive(Drop)]
pub(crate) struct MarkedEntries<'a, S: IdSet> {
    rest: NumberedEntries<'a, 'a>,
    // of the next entry, as far as ranks are counted
    rank: u32,
    numbering: Numbering,
    candidates: Numbers<S>,
}

impl<'a, S: IdSet> Model for MarkedEntries<'a, S> {
    ghost use Rattle.std.specs.Prelude.{◌+◌, ◌<◌, ◌^◌, List, length};
    ghost use Rattle.std.specs.Coded.{coded_list};
    ghost use Rattle.candidates.specs.Numbers.{numbers_contain};
    ghost use Rattle.databases.specs.inner.Marks.{MarkedEntry, marked_code, marked};

    ghost Value = { List MarkedEntry };

    ghost coded = { coded_list marked_code };

    ghost view = { λ m. marked (numbers_contain S.members m.candidates) m.numbering m.rank m.rest };

    ghost invariant = { λ m. m.rank + length m.rest < 2 ^ 32 };
}

impl<'a, S: IdSet> MarkedEntries<'a, S> {
    // the rest, whose first entry has this rank
    pub(crate) fn new(
        rest: NumberedEntries<'a, 'a>,
        rank: u32,
        numbering: Numbering,
        candidates: Numbers<S>,
    ) -> MarkedEntries<'a, S>
        requires { rank + length rest < 2 ^ 32 }
        ensures { result ≡ marked (numbers_contain S.members candidates) numbering rank rest.entry }
    {
        MarkedEntries {
            rest,
            rank,
            numbering,
            candidates,
        }
    }
}

impl<'a, S: IdSet> Iterator for MarkedEntries<'a, S> {
    type Item = (bool, &'a Path, &'a Entry);

    ghost next_gives = { YieldsFirstBy (λ e. record { is_candidate = e.0; path = e.1.now; entry = e.2.now }) (λ s. s) };

    ghost remaining = { item_count (λ s. s) };

    fn next(&mut self) -> Option<(bool, &'a Path, &'a Entry)> {
        match self.rest.next() {
            Some((path, number, entry)) => {
                let own = self.numbering.pick(number, self.rank);
                let is_candidate = self.candidates.contains(own);
                self.rank += 1;
                Some((is_candidate, path, entry))
            }
            None => None,
        }
    }
}
