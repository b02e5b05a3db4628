//! The normal forms of an entry's values.

ghost use Rattle.std.specs.Prelude.{◌≡◌, ◌<◌, [], if◌then◌else◌, length};
ghost use Rattle.std.specs.List.{AllByRecursion};
ghost use Rattle.std.specs.Map.Iter.{TakesFirst, deref};
ghost use Rattle.entries.specs.StoredEntries.{IsMade, IsMadeAttribute};
ghost use Rattle.schema.specs.Subtypes.{is_subtype};
ghost use Rattle.index_keys.specs.inner.NormsLeft.{norms_left, norms_to_come};
ghost use Rattle.index_keys.specs.StoredNorms.{norms_of, stored_norms};

use entries::{AttributesIter, Entry, Values};
use schema::{Conf, TypeId};
use std::marker::Model;
use values::ValuesIter;

/// The normal forms of the values of a type and of its subtypes, as an entry has them in order; they are lent. A contract sees the
/// list of those that are still to come.
#[derive(Drop)]
pub struct Norms<'a> {
    conf: &'a Conf,
    above: TypeId,
    // what is left of the attribute in hand
    values: Option<ValuesIter<'a>>,
    // the attributes behind it
    attrs: AttributesIter<'a>,
}

impl<'a> Model for Norms<'a> {
    ghost use Rattle.std.specs.Prelude.{List, ℕ};
    ghost use Rattle.std.specs.List.{AllByRecursion};
    ghost use Rattle.entries.specs.StoredEntries.{IsMadeAttribute};
    ghost use Rattle.index_keys.specs.inner.NormsLeft.{norms_to_come};

    ghost Value = { List (List ℕ) };

    ghost view = { λ n. norms_to_come n.conf.now.types n.above n.values n.attrs };

    ghost invariant = { λ n. AllByRecursion (IsMadeAttribute n.conf.now.types) n.attrs };
}

fn is_under(conf: &Conf, t: TypeId, above: TypeId) -> bool
    requires { t < length conf.now.types }
    ensures { result ≡ is_subtype conf.now.types t above }
{
    conf.rules_are_kept();
    schema::subtypes_are_told();
    conf.is_subtype(t, above)
}

// the next normal form of the attribute in hand
fn next_in<'a>(values: &mut Option<ValuesIter<'a>>) -> Option<&'a [u8]>
    ensures { TakesFirst deref (norms_left values.old) result (norms_left values.new) }
{
    match values {
        None => None,
        Some(left) => match left.next() {
            Some(value) => Some(value.norm()),
            None => None,
        },
    }
}

// the values of an attribute, where its type is this one or below it
fn values_under<'a>(
    conf: &Conf,
    above: TypeId,
    t: TypeId,
    values: &'a Values,
) -> Option<ValuesIter<'a>>
    requires { t < length conf.now.types }
    ensures { norms_left result ≡ (if is_subtype conf.now.types t above then norms_of values.now else []) }
{
    if is_under(conf, t, above) {
        Some(values.iter())
    } else {
        None
    }
}

fn next_norm<'a>(
    conf: &Conf,
    above: TypeId,
    values: &mut Option<ValuesIter<'a>>,
    attrs: &mut AttributesIter<'a>,
) -> Option<&'a [u8]>
    requires { AllByRecursion (IsMadeAttribute conf.now.types) attrs.old }
    ensures made { AllByRecursion (IsMadeAttribute conf.now.types) attrs.new }
    ensures next { TakesFirst deref (norms_to_come conf.now.types above values.old attrs.old) result (norms_to_come conf.now.types above values.new attrs.new) }
{
    if let Some(norm) = next_in(values) {
        return Some(norm);
    }
    while let Some(attribute) = attrs.next() {
        let (t, of_type) = attribute;
        *values = values_under(conf, above, *t, of_type);
        if let Some(norm) = next_in(values) {
            return Some(norm);
        }
    }
    None
}

impl<'a> Norms<'a> {
    /// Those of an entry that was made under the configuration.
    pub fn of(conf: &'a Conf, entry: &'a Entry, above: TypeId) -> Norms<'a>
        requires { IsMade conf.now.types entry.now.attrs }
        ensures { result ≡ stored_norms conf.now.types entry.now.attrs above }
    {
        Norms {
            conf,
            above,
            values: None,
            attrs: entry.attrs(),
        }
    }
}

impl<'a> Iterator for Norms<'a> {
    ghost use Rattle.std.specs.Prelude.{length};
    ghost use Rattle.std.specs.Iterator.{at_most};
    ghost use Rattle.std.specs.Map.Iter.{TakesFirst, deref};

    type Item = &'a [u8];

    ghost next_gives = { TakesFirst deref };

    ghost remaining = { λ n. at_most (length n) };

    fn next(&mut self) -> Option<&'a [u8]> {
        next_norm(self.conf, self.above, &mut self.values, &mut self.attrs)
    }
}
