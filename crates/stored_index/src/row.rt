//! A row of an index text.

ghost use Rattle.std.specs.Prelude.{◌≡◌};

use base::Bytes;
use id_sets::ListSet;
use std::marker::Model;

/// A key, and the ranks of the entries that have it. A contract sees the pair of these.
#[derive(Drop)]
pub(crate) struct Row {
    key: Bytes,
    ranks: ListSet,
}

impl Model for Row {
    ghost use Rattle.std.specs.Coded.{coded×, coded_list, coded_ℕ};
    ghost use Rattle.index_text.specs.KeySets.{Row as KeptRow, members_code};

    ghost Value = { KeptRow };

    ghost coded = { coded× (coded_list coded_ℕ) members_code };

    ghost view = { λ r. (r.key, r.ranks) };
}

impl Row {
    pub(crate) fn new(key: Bytes, ranks: ListSet) -> Row
        ensures { result ≡ (key, ranks) }
    {
        Row { key, ranks }
    }

    pub(crate) fn key(&self) -> &[u8]
        ensures { result.now ≡ self.now.0 }
    {
        self.key.as_slice()
    }

    pub(crate) fn ranks(&self) -> &ListSet
        ensures { result.now ≡ self.now.1 }
    {
        &self.ranks
    }
}
