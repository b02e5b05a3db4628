//! Items that are prepared under a configuration.

ghost use Rattle.std.specs.Prelude.{◌≡◌};
ghost use Rattle.std.specs.List.{list_any};
ghost use Rattle.filter.specs.Prepared.{has_match, is_among, item_test, matches};

use crate::assertion::Assertion;
use crate::truth::Truth;
use base::Sequence;
use entries::{Entry, Values};
use schema::TypeId;

/// An item of a filter, prepared under a configuration.
#[derive(Drop)]
pub enum PreparedItem {
    /// Of no entry it can be told.
    Undefined,
    /// What is asked of values of a type and its subtypes, which are listed with the type itself.
    Asserts {
        type_id: TypeId,
        types: Sequence<TypeId>,
        assertion: Assertion,
    },
}

fn is_among(types: &[TypeId], t: TypeId) -> bool
    ensures { result ≡ is_among types.now t }
{
    types.iter().any(|among| *among == t)
}

fn any_matches(values: &Values, assertion: &Assertion) -> bool
    ensures { result ≡ list_any (λ v. matches assertion.now v.norm) values.now }
{
    for value in values.iter() {
        if assertion.matches(value.norm()) {
            return true;
        }
    }
    false
}

fn has_match(entry: &Entry, types: &[TypeId], assertion: &Assertion) -> bool
    ensures { result ≡ has_match types.now assertion.now entry.now.attrs }
{
    for (t, values) in entry.attrs() {
        if is_among(types, *t) && any_matches(values, assertion) {
            return true;
        }
    }
    false
}

impl PreparedItem {
    pub(crate) fn truth_of(&self, entry: &Entry) -> Truth
        ensures { result ≡ item_test entry.now.attrs self.now }
    {
        match self {
            PreparedItem::Undefined => Truth::Undefined,
            PreparedItem::Asserts {
                types,
                assertion,
                ..
            } => {
                if has_match(entry, types.as_slice(), assertion) {
                    Truth::True
                } else {
                    Truth::False
                }
            }
        }
    }
}
