//! Prepared filters.

ghost use Rattle.std.specs.Prelude.{◌≡◌, ◌+◌, ◌<◌, ◌^◌};
ghost use Rattle.schema.specs.Conf.{IsConf};
ghost use Rattle.entries.specs.StoredEntries.{attributes_of, IsMade};
ghost use Rattle.filter_text.specs.Spells.{view};
ghost use Rattle.filter.specs.Filters.{truth};
ghost use Rattle.filter.specs.Prepared.{prepared_filter, prepared_view};

use crate::meter::Meter;
use crate::prepared_filter::PreparedFilter;
use crate::truth::Truth;
use entries::Entry;
use filter_text::Filter;
use schema::Conf;
use std::marker::Model;
use std::snapshot::Snapshot;

/// A filter with its items prepared under a configuration. A contract sees the two that it was made of.
pub struct Prepared {
    conf: Snapshot<Conf>,
    filter: Snapshot<Filter>,
    root: PreparedFilter,
}

// A call of its own, so that no other crate proves it anew.
impl Drop for Prepared {
    fn drop(self) {
        let Prepared {
            conf: _,
            filter: _,
            root: _,
        } = self;
    }
}

impl Model for Prepared {
    ghost use Rattle.std.specs.Prelude.{◌≡◌};
    ghost use Rattle.std.specs.Coded.{codes};
    ghost use Rattle.schema.specs.Conf.{IsConf};
    ghost use Rattle.filter_text.specs.contracts.filters.Filter as filters;
    ghost use Rattle.filter_text.specs.Spells as texts;
    ghost use Rattle.filter.specs.Made.{Made};
    ghost use Rattle.filter.specs.Prepared.{prepared_filter, prepared_view};

    ghost Value = { Made };

    ghost coded = { Prim.hlevel (codes, filters.the_row.coded) };

    ghost view = { λ p. record { conf = p.conf.value; filter = p.filter.value } };

    ghost invariant = { λ p. (IsConf p.conf.value) × (prepared_view p.root ≡ prepared_filter p.conf.value.types (texts.view p.filter.value)) };
}

impl Prepared {
    pub(crate) fn of(filter: &Filter, conf: &Conf, root: PreparedFilter) -> Prepared
        requires conf { IsConf conf.now }
        requires root { prepared_view root ≡ prepared_filter conf.now.types (view filter.now) }
        ensures { result ≡ record { conf = conf.now; filter = filter.now } }
    {
        Prepared {
            conf: Snapshot::of(conf),
            filter: Snapshot::of(filter),
            root,
        }
    }

    /// The filter with each item prepared.
    pub fn root(&self) -> &PreparedFilter
        ensures { prepared_view result.now ≡ prepared_filter self.now.conf.types (view self.now.filter) }
    {
        &self.root
    }

    /// What the filter says of an entry, made under the filter's configuration (RFC 4511, 4.5.1.7). It raises the meter by one, and takes
    /// no memory.
    pub fn truth(&self, entry: &Entry, meter: &mut Meter) -> Truth
        requires made { IsMade self.now.conf.types entry.now.attrs }
        requires meter { meter.old + 1 < 2 ^ 64 }
        ensures truth { result ≡ truth self.now.conf.types (attributes_of entry.now.attrs) (view self.now.filter) }
        ensures meter { meter.new ≡ meter.old + 1 }
    {
        meter.raise();
        self.root.truth_of(entry)
    }
}
