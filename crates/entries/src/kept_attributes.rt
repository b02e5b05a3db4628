//! The attributes of an entry as they are kept.

ghost use Rattle.std.specs.Prelude.{◌≡◌, [], List, None, not, if◌then◌else◌, nat_eq, IfOk, OnOk, OnErr};
ghost use Rattle.std.specs.List.{IsDistinct};
ghost use Rattle.std.specs.Map.{lookup, remove_entry, keys_of};
ghost use Rattle.std.specs.Option.{option_copied};
ghost use Rattle.values.specs.Norms.{has_norm};
ghost use Rattle.values.specs.Values as values;
ghost use Rattle.entries.specs.Entries.{values_of, push_value};
ghost use Rattle.entries.specs.Modifies.{set_values};

use crate::type_hashes::TypeHashes;
use crate::values_draft::push_new;
use indexmap::IndexMap;
use indexmap::map::{Entry, Iter};
use schema::{TypeId, Value};
use std::alloc::{AllocError, Global};
use std::marker::Model;
use std::mem;
use values::Values;

type Map = IndexMap<TypeId, Values, TypeHashes>;

// A map that is empty, with room for as many attributes: it makes room for a multiple of nine, and gives back what is too much.
fn map_for(alloc: Global, count: usize) -> Result<Map, AllocError>
    ensures { IfOk result (λ map. map.entries ≡ []) }
{
    let mut map = IndexMap::with_capacity_and_hasher(alloc, count, TypeHashes)?;
    map.shrink_to(count);
    Ok(map)
}

/// Attributes in order, each a type with its values in order, and no two of one type. A contract sees the list of them.
pub struct Attributes {
    map: Map,
}

impl Drop for Attributes {
    fn drop(self) {
        let Attributes { map } = self;
        drop(map);
    }
}

impl Model for Attributes {
    ghost use Rattle.entries.specs.StoredEntries.{StoredAttributes, attributes_code};

    ghost Value = { StoredAttributes };

    ghost coded = { attributes_code };

    ghost view = { λ a. record { entries = a.map.entries } };
}

impl Attributes {
    /// No attribute yet, and room for as many.
    pub(crate) fn with_capacity(alloc: Global, count: usize) -> Result<Attributes, AllocError>
        ensures { IfOk result (λ a. a.entries ≡ []) }
    {
        Ok(Attributes {
            map: map_for(alloc, count)?,
        })
    }

    /// The types, in order.
    pub(crate) fn types(&self) -> &[TypeId]
        ensures { result.now ≡ keys_of self.now.entries }
    {
        self.map.keys().as_slice()
    }

    /// The values of a type, where it has any.
    pub(crate) fn get(&self, t: TypeId) -> Option<&Values>
        ensures { option_copied result ≡ lookup (nat_eq t) self.now.entries }
    {
        self.map.get(&t)
    }

    /// Each type with its values, in order.
    pub(crate) fn iter(&self) -> AttributesIter<'_>
        ensures entries { result ≡ self.now.entries }
        ensures unique { IsDistinct nat_eq (keys_of self.now.entries) }
    {
        AttributesIter {
            rest: self.map.iter(),
        }
    }

    /// The same attributes again.
    pub(crate) fn copy(&self, alloc: Global) -> Result<Attributes, AllocError>
        ensures { IfOk result (λ a. a ≡ self.now) }
    {
        let mut map = map_for(alloc, self.map.len())?;
        for (t, values) in self.map.iter() {
            map.insert(*t, values.copy(alloc)?)?;
        }
        Ok(Attributes { map })
    }

    /// Puts a value last among those of a type; or changes nothing where memory runs out.
    pub(crate) fn push(&mut self, alloc: Global, t: TypeId, value: Value) -> Result<(), AllocError>
        ensures ok { OnOk result (self.new.entries ≡ push_value self.old.entries t value) }
        ensures err { OnErr result (self.new ≡ self.old) }
    {
        match self.map.entry(t)? {
            Entry::Occupied(mut place) => place.get_mut().push(alloc, value),
            Entry::Vacant(place) => {
                place.insert_entry(Values::one(value));
                Ok(())
            }
        }
    }

    /// Puts a value last among those of a type, unless an equal one is there, and tells whether it did.
    pub(crate) fn put(&mut self, alloc: Global, t: TypeId, value: Value) -> Result<bool, AllocError>
        ensures is_new { IfOk result (λ put. put ≡ not (has_norm value.norm (values_of self.old.entries t))) }
        ensures entries { IfOk result (λ put. self.new.entries ≡ (if put then push_value self.old.entries t value else self.old.entries)) }
        ensures err { OnErr result (self.new ≡ self.old) }
    {
        match self.map.entry(t)? {
            Entry::Occupied(mut place) => push_new(alloc, place.get_mut(), value),
            Entry::Vacant(place) => {
                place.insert_entry(Values::one(value));
                Ok(true)
            }
        }
    }

    /// Takes the values of a type, so that others can be set in their place.
    pub(crate) fn take(&mut self, t: TypeId) -> Values
        ensures values { result ≡ values_of self.old.entries t }
        ensures place { (vs : List values.Value) → set_values self.new.entries t vs ≡ set_values self.old.entries t vs }
    {
        match self.map.get_mut(&t) {
            Some(values) => mem::replace(values, Values::new()),
            None => Values::new(),
        }
    }

    /// Takes a type away with its values.
    pub(crate) fn remove(&mut self, t: TypeId)
        ensures entries { self.new.entries ≡ remove_entry (nat_eq t) self.old.entries }
        ensures none { lookup (nat_eq t) self.new.entries ≡ None }
    {
        self.map.shift_remove(&t);
    }

    /// Puts these values in place of those of a type, or last. An attribute without values goes. Or it changes nothing, where memory runs
    /// out.
    pub(crate) fn set(&mut self, t: TypeId, values: Values) -> Result<(), AllocError>
        ensures ok { OnOk result (self.new.entries ≡ set_values self.old.entries t values) }
        ensures err { OnErr result (self.new ≡ self.old) }
    {
        if values.is_empty() {
            self.remove(t);
            return Ok(());
        }
        self.map.insert(t, values)?;
        Ok(())
    }
}

/// Attributes one after the other, which are lent. A contract sees the list of those that are still to come.
#[derive(Drop)]
pub struct AttributesIter<'a> {
    rest: Iter<'a, TypeId, Values>,
}

impl<'a> Model for AttributesIter<'a> {
    ghost use Rattle.std.specs.Prelude.{List};
    ghost use Rattle.entries.specs.StoredEntries.{EntryAttribute};

    ghost Value = { List EntryAttribute };

    ghost view = { λ i. i.rest };
}

impl<'a> Iterator for AttributesIter<'a> {
    ghost use Rattle.std.specs.Prelude.{length};
    ghost use Rattle.std.specs.Iterator.{at_most};
    ghost use Rattle.std.specs.Map.Iter.{TakesFirst};

    type Item = (&'a TypeId, &'a Values);

    ghost next_gives = { TakesFirst (λ a. (a.0.now, a.1.now)) };

    ghost remaining = { λ i. at_most (length i) };

    fn next(&mut self) -> Option<(&'a TypeId, &'a Values)> {
        self.rest.next()
    }
}
