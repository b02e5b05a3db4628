//! The entries that a search finds.

ghost use Rattle.std.specs.Prelude.{◌≡◌, ◌+◌, ◌<◌, ◌^◌, length};
ghost use Rattle.std.specs.List.{AllByRecursion};
ghost use Rattle.entries.specs.StoredEntries.{IsMade};
ghost use Rattle.databases.specs.Walks.{walk_by, Steps};

use crate::untested::UntestedEntries;
use entries::Entry;
use filter::{Meter, Prepared, Truth};
use id_sets::IdSet;
use paths::Scope;
use schema::Path;
use std::marker::Model;

/// The entries that a search finds, in dump order, each with its path. They are lent, and it takes no memory to find them. A contract
/// sees those that are still to come, each with the number of entries tested by then.
pub struct Hits<'a, S: IdSet> {
    rest: UntestedEntries<'a, S>,
    scope: Scope,
    base_depth: usize,
    filter: &'a Prepared,
    meter: Meter,
}

// A call of its own, so that no other crate proves it anew.
impl<S: IdSet> Drop for Hits<'_, S> {
    fn drop(self) {
        let Hits {
            rest: _,
            scope: _,
            base_depth: _,
            filter: _,
            meter: _,
        } = self;
    }
}

impl<'a, S: IdSet> Model for Hits<'a, S> {
    ghost use Rattle.std.specs.Prelude.{◌+◌, ◌<◌, ◌^◌, length};
    ghost use Rattle.std.specs.List.{AllByRecursion};
    ghost use Rattle.entries.specs.StoredEntries.{IsMade};
    ghost use Rattle.databases.specs.Walks.{Walk, walk_code, walk_by};

    ghost Value = { Walk };

    ghost coded = { walk_code };

    ghost view = { λ h. walk_by h.filter.now h.scope h.base_depth h.meter h.rest };

    ghost invariant = { λ h. AllByRecursion (λ e. IsMade h.filter.now.conf.types e.entry.attrs) h.rest × (h.meter + length h.rest < 2 ^ 64) };
}

// The next of the rest that is a candidate in scope and of which the filter is True.
fn next_hit<'a, S: IdSet>(
    rest: &mut UntestedEntries<'a, S>,
    scope: Scope,
    base_depth: usize,
    filter: &Prepared,
    meter: &mut Meter,
) -> Option<(&'a Path, &'a Entry)>
    requires made { AllByRecursion (λ e. IsMade filter.now.conf.types e.entry.attrs) rest.old }
    requires room { meter.old + length rest.old < 2 ^ 64 }
    ensures made { AllByRecursion (λ e. IsMade filter.now.conf.types e.entry.attrs) rest.new }
    ensures room { meter.new + length rest.new < 2 ^ 64 }
    ensures steps { Steps (walk_by filter.now scope base_depth meter.old rest.old) result (walk_by filter.now scope base_depth meter.new rest.new) }
{
    while let Some(found) = rest.next() {
        let (is_candidate, path, entry) = found;
        if is_candidate
            && scope.fits(base_depth, path.len())
            && filter.truth(entry, meter) == Truth::True
        {
            return Some((path, entry));
        }
    }
    None
}

impl<'a, S: IdSet> Hits<'a, S> {
    // those of the rest, all of which the base begins
    pub(crate) fn new(
        rest: UntestedEntries<'a, S>,
        scope: Scope,
        base_depth: usize,
        filter: &'a Prepared,
    ) -> Hits<'a, S>
        requires made { AllByRecursion (λ e. IsMade filter.now.conf.types e.entry.attrs) rest }
        requires room { length rest < 2 ^ 64 }
        ensures { result ≡ walk_by filter.now scope base_depth 0 rest.entry }
    {
        Hits {
            rest,
            scope,
            base_depth,
            filter,
            meter: Meter::new(),
        }
    }

    /// There are fewer than 2^64.
    pub fn are_few(&self)
        ensures { length self.now.to_come < 2 ^ 64 }
    {
        let _ = &self.rest;
    }

    /// How many entries were tested so far. At the end it is the number of the candidates in scope.
    pub fn tested(&self) -> u64
        ensures { result ≡ self.now.tested }
    {
        self.meter.count()
    }
}

impl<'a, S: IdSet> Iterator for Hits<'a, S> {
    ghost use Rattle.std.specs.Iterator.{at_most};
    ghost use Rattle.databases.specs.Walks.{Steps};

    type Item = (&'a Path, &'a Entry);

    ghost next_gives = { λ old item new. Steps old item new };

    ghost remaining = { λ h. at_most (length h.to_come) };

    fn next(&mut self) -> Option<(&'a Path, &'a Entry)> {
        next_hit(
            &mut self.rest,
            self.scope,
            self.base_depth,
            self.filter,
            &mut self.meter,
        )
    }
}
