//! The entries that a search goes through.

ghost use Rattle.std.specs.Prelude.{◌≡◌, map};
ghost use Rattle.std.specs.Iterator.{YieldsFirstBy, item_count};
ghost use Rattle.databases.specs.inner.Picks.{as_candidate};

use crate::marked::MarkedEntries;
use crate::picked::PickedEntries;
use entries::Entry;
use id_sets::IdSet;
use schema::Path;
use std::marker::Model;

/// Entries that follow each other in the dump, each with whether it is a candidate, or the candidates among them alone. A contract sees those that
/// are left.
pub(crate) struct UntestedEntries<'a, S: IdSet> {
    left: Left<'a, S>,
}

enum Left<'a, S: IdSet> {
    Marked(MarkedEntries<'a, S>),
    Picked(PickedEntries<'a, S>),
}

// A call of its own, so that no other crate proves it anew.
impl<S: IdSet> Drop for UntestedEntries<'_, S> {
    fn drop(self) {
        let UntestedEntries { left } = self;
        match left {
            Left::Marked(entries) => drop(entries),
            Left::Picked(entries) => drop(entries),
        }
    }
}

impl<'a, S: IdSet> Model for UntestedEntries<'a, S> {
    ghost use Rattle.std.specs.Prelude.{List};
    ghost use Rattle.std.specs.Coded.{coded_list};
    ghost use Rattle.databases.specs.inner.Marks.{MarkedEntry, marked_code};
    ghost use Rattle.databases.specs.inner.Untested.{left_of};

    ghost Value = { List MarkedEntry };

    ghost coded = { coded_list marked_code };

    ghost view = { λ u. left_of u.left };
}

impl<'a, S: IdSet> UntestedEntries<'a, S> {
    // these, candidates or not
    pub(crate) fn of_marked(entries: MarkedEntries<'a, S>) -> UntestedEntries<'a, S>
        ensures { result ≡ entries.entry }
    {
        UntestedEntries {
            left: Left::Marked(entries),
        }
    }

    // these, each of which is a candidate
    pub(crate) fn of_picked(entries: PickedEntries<'a, S>) -> UntestedEntries<'a, S>
        ensures { result ≡ map as_candidate entries.entry }
    {
        UntestedEntries {
            left: Left::Picked(entries),
        }
    }
}

impl<'a, S: IdSet> Iterator for UntestedEntries<'a, S> {
    type Item = (bool, &'a Path, &'a Entry);

    ghost next_gives = { YieldsFirstBy (λ e. record { is_candidate = e.0; path = e.1.now; entry = e.2.now }) (λ s. s) };

    ghost remaining = { item_count (λ s. s) };

    fn next(&mut self) -> Option<(bool, &'a Path, &'a Entry)> {
        match &mut self.left {
            Left::Marked(entries) => entries.next(),
            Left::Picked(entries) => match entries.next() {
                Some((path, entry)) => Some((true, path, entry)),
                None => None,
            },
        }
    }
}
