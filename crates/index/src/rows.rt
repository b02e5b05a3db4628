//! Rows in order: keys, each with its members.

ghost use Rattle.std.specs.Prelude.{◌≡◌, List};
ghost use Rattle.std.specs.Map.Iter.{TakesFirst};
ghost use Rattle.index_text.specs.KeySets.{Row};
ghost use Rattle.index.specs.inner.MergedRows.{row_lent, ahead, merged, comes_first};

use crate::stored_key::StoredKey;
use dense_sets::KeySet;
use std::collections::btree_map::Iter;

/// Rows that are lent, one after the other.
pub trait Rows<'a>: Drop {
    /// Those that are still to come.
    ghost rows: { Self → List Row };

    fn next_row(&mut self) -> Option<(&'a [u8], &'a KeySet)>
        ensures { TakesFirst row_lent (rows self.old) result (rows self.new) };
}

impl<'a, K: StoredKey> Rows<'a> for Iter<'a, K, KeySet> {
    ghost use Rattle.index.specs.inner.StoredSets.{rows_by};

    ghost rows = { λ s. rows_by K.bytes s };

    fn next_row(&mut self) -> Option<(&'a [u8], &'a KeySet)> {
        match self.next() {
            Some((key, members)) => Some((key.as_slice(), members)),
            None => None,
        }
    }
}

/// Rows of two sources, by the bytes of their keys.
#[derive(Drop)]
pub struct Merge<'a, L, R> {
    // the next row of the first source, and those behind it
    row: Option<(&'a [u8], &'a KeySet)>,
    rows: L,
    // the same of the second
    other: Option<(&'a [u8], &'a KeySet)>,
    others: R,
}

impl<'a, L: Rows<'a>, R: Rows<'a>> Merge<'a, L, R> {
    pub(crate) fn of(rows: L, others: R) -> Merge<'a, L, R>
        ensures { merged (ahead result.row (L.rows result.rows)) (ahead result.other (R.rows result.others)) ≡ merged (L.rows rows) (R.rows others) }
    {
        let mut rows = rows;
        let mut others = others;
        let row = rows.next_row();
        let other = others.next_row();
        Merge {
            row,
            rows,
            other,
            others,
        }
    }
}

// whether the first of two rows comes next
fn is_first(row: Option<(&[u8], &KeySet)>, other: Option<(&[u8], &KeySet)>) -> bool
    ensures { result ≡ comes_first row.entry other.entry }
{
    match row {
        Some((key, _)) => match other {
            Some((other, _)) => key.cmp(other).is_lt(),
            None => true,
        },
        None => false,
    }
}

impl<'a, L: Rows<'a>, R: Rows<'a>> Rows<'a> for Merge<'a, L, R> {
    ghost use Rattle.index.specs.inner.MergedRows.{ahead, merged};

    ghost rows = { λ m. merged (ahead m.row (L.rows m.rows)) (ahead m.other (R.rows m.others)) };

    fn next_row(&mut self) -> Option<(&'a [u8], &'a KeySet)> {
        if is_first(self.row, self.other) {
            let row = self.row?;
            self.row = self.rows.next_row();
            Some(row)
        } else {
            let row = self.other?;
            self.other = self.others.next_row();
            Some(row)
        }
    }
}
