//! Entries that have the same attributes, which most entries of two directories are.

ghost use Rattle.std.specs.Prelude.{◌≡◌};
ghost use Rattle.std.specs.Bool.{IsTrue};
ghost use Rattle.entries.specs.StoredEntries.{attributes_of, raws};

use entries::{Entry, Values};

/// Whether values are the same, byte for byte, in the same order.
fn are_same_values(before: &Values, after: &Values) -> bool
    ensures { IsTrue result → raws before.now ≡ raws after.now }
{
    let mut others = after.iter();
    for value in before.iter() {
        let Some(other) = others.next() else {
            return false;
        };
        if value.raw() != other.raw() {
            return false;
        }
    }
    others.next().is_none()
}

/// Whether two entries have the same attributes in the same order. It needs no memory.
pub(crate) fn have_same_attributes(before: &Entry, after: &Entry) -> bool
    ensures { IsTrue result → attributes_of before.now.attrs ≡ attributes_of after.now.attrs }
{
    let mut others = after.attrs();
    for attribute in before.attrs() {
        let Some(other) = others.next() else {
            return false;
        };
        let (t, values) = attribute;
        let (other_t, other_values) = other;
        if *t != *other_t || !are_same_values(values, other_values) {
            return false;
        }
    }
    others.next().is_none()
}
