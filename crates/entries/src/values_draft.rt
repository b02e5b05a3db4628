//! The values of an attribute while a modify changes them.

ghost use Rattle.std.specs.Prelude.{◌≡◌, ◌+◌, not, IfOk, OnErr, OnOk};
ghost use Rattle.entries.specs.Modifies.{has_values};
ghost use Rattle.values.specs.Norms.{has_norm, but_norm};
ghost use Rattle.entries.specs.inner.ValuesDrafts.{put_if, is_left, left_from, IsLeftFrom, KeepsPlaces, AreAllLeft};

use base::Bytes;
use schema::Value;
use std::alloc::{AllocError, Global};
use std::collections::BTreeMap;
use std::marker::Model;
use values::Values;

/// As many searches as go through all values; for more, a map is made of their normal forms.
const FEW_SEARCHES: u32 = 16;

/// Which of an attribute's values are left, where some were taken away: those keep their places, and go in the end.
pub(crate) struct Places {
    // for each normal form, the place from which on values that have it are left
    since: BTreeMap<Bytes, usize>,
    // how many places there are
    count: usize,
    // none was taken away
    all_left: bool,
}

impl Drop for Places {
    fn drop(self) {
        let Places {
            since,
            count: _,
            all_left: _,
        } = self;
        drop(since);
    }
}

/// The values of an attribute while they're changed. A contract sees the list of those that are left.
///
/// Where many are searched for, a map is made of their normal forms, and stays: so each further search takes the logarithm of their
/// number.
pub(crate) struct ValuesDraft {
    values: Values,
    // without them, all values are left
    places: Option<Places>,
    searches: u32,
}

impl Drop for ValuesDraft {
    fn drop(self) {
        let ValuesDraft {
            values,
            places,
            searches: _,
        } = self;
        drop(values);
        drop(places);
    }
}

impl Model for ValuesDraft {
    ghost use Rattle.std.specs.Prelude.{List};
    ghost use Rattle.values.specs.Values as stored;
    ghost use Rattle.entries.specs.inner.ValuesDrafts.{left_of, KeepPlaces};

    ghost Value = { List stored.Value };

    ghost view = { λ d. left_of d.places d.values };

    ghost invariant = { λ d. KeepPlaces d.places d.values };
}

// One more place, and the normal form there is left from the first place on.
fn add_place(alloc: Global, places: &mut Places, norm: &[u8]) -> Result<(), AllocError>
    ensures count { OnOk result (places.new.count ≡ places.old.count + 1) }
    ensures since { OnOk result (IsLeftFrom 0 norm.now places.old.since places.new.since) }
{
    let count = places.count.checked_add(1).ok_or(AllocError)?;
    places.since.insert(Bytes::from_slice(alloc, norm)?, 0)?;
    places.count = count;
    Ok(())
}

// All values are left, from the first place on.
fn first_places(alloc: Global, values: &Values) -> Result<Places, AllocError>
    ensures { IfOk result (λ places. AreAllLeft places values.now) }
{
    let mut places = Places {
        since: BTreeMap::new(alloc),
        count: 0,
        all_left: true,
    };
    for value in values.iter() {
        add_place(alloc, &mut places, value.norm())?;
    }
    Ok(places)
}

/// Puts a value last, unless an equal one is there, and tells whether it did; or changes nothing.
pub(crate) fn push_new(alloc: Global, values: &mut Values, value: Value) -> Result<bool, AllocError>
    ensures is_new { IfOk result (λ put. put ≡ not (has_norm value.norm values.old)) }
    ensures values { IfOk result (λ put. values.new ≡ put_if put values.old value) }
    ensures err { OnErr result (values.new ≡ values.old) }
{
    if values.has_norm(value.norm()) {
        return Ok(false);
    }
    values.push(alloc, value)?;
    Ok(true)
}

// The same, where places tell which ones are left. They do so where memory runs out, too.
fn push_last(
    alloc: Global,
    values: &mut Values,
    places: &mut Places,
    value: Value,
) -> Result<bool, AllocError>
    requires { KeepsPlaces places.old values.old }
    ensures places { KeepsPlaces places.new values.new }
    ensures is_new { IfOk result (λ put. put ≡ not (has_norm value.norm (left_from places.old.since 0 values.old))) }
    ensures values { IfOk result (λ put. left_from places.new.since 0 values.new ≡ put_if put (left_from places.old.since 0 values.old) value) }
{
    let place = places.count;
    let count = place.checked_add(1).ok_or(AllocError)?;
    let key = Bytes::from_slice(alloc, value.norm())?;
    if places.since.contains_key(&key) {
        return Ok(false);
    }
    values.push(alloc, value)?;
    let all_left = places.all_left;
    places.count = count;
    // it is left as soon as its normal form is in
    places.all_left = false;
    places.since.insert(key, place)?;
    places.all_left = all_left;
    Ok(true)
}

// Takes away the values with this normal form, and tells whether there were any.
fn remove_norm(alloc: Global, values: &mut Values, norm: &[u8]) -> Result<bool, AllocError>
    ensures there { IfOk result (λ there. there ≡ has_norm norm.now values.old) }
    ensures values { OnOk result (values.new ≡ but_norm norm.now values.old) }
{
    let there = values.has_norm(norm);
    values.remove_norm(alloc, norm)?;
    Ok(there)
}

// the same, where places tell which ones are left
fn remove_places(
    alloc: Global,
    values: &Values,
    places: &mut Places,
    norm: &[u8],
) -> Result<bool, AllocError>
    requires { KeepsPlaces places.old values.now }
    ensures places { KeepsPlaces places.new values.now }
    ensures there { IfOk result (λ there. there ≡ has_norm norm.now (left_from places.old.since 0 values.now)) }
    ensures values { OnOk result (left_from places.new.since 0 values.now ≡ but_norm norm.now (left_from places.old.since 0 values.now)) }
{
    let _ = values;
    let key = Bytes::from_slice(alloc, norm)?;
    places.all_left = false;
    Ok(places.since.remove(&key).is_some())
}

// Puts a copy of a value behind others, if it is left at a place.
fn put_left(
    alloc: Global,
    places: &Places,
    place: usize,
    value: &Value,
    left: &mut Values,
) -> Result<(), AllocError>
    ensures { OnOk result (left.new ≡ put_if (is_left places.now.since place value.now) left.old value.now) }
{
    let key = Bytes::from_slice(alloc, value.norm())?;
    match places.since.get(&key) {
        Some(since) if *since <= place => left.push(alloc, value.copy(alloc)?),
        _ => Ok(()),
    }
}

// The values that are left.
#[tactic(auto, unfolding(crate::specs::inner::ValuesDrafts::left_from))]
fn left_from(alloc: Global, values: &Values, places: &Places) -> Result<Values, AllocError>
    requires { KeepsPlaces places.now values.now }
    ensures { IfOk result (λ left. left ≡ left_from places.now.since 0 values.now) }
{
    let mut left = Values::new();
    let mut place = 0usize;
    for value in values.iter() {
        put_left(alloc, places, place, value, &mut left)?;
        place += 1;
    }
    Ok(left)
}

impl ValuesDraft {
    pub(crate) fn new(values: Values) -> ValuesDraft
        ensures { result ≡ values }
    {
        ValuesDraft {
            values,
            places: None,
            searches: 0,
        }
    }

    /// Whether any are left.
    pub(crate) fn has_values(&self) -> bool
        ensures { result ≡ has_values self.now }
    {
        match &self.places {
            None => !self.values.is_empty(),
            Some(places) => places.since.len() > 0,
        }
    }

    // Makes the map before the search, where there were many.
    fn search(&mut self, alloc: Global) -> Result<(), AllocError>
        ensures { OnOk result (self.new ≡ self.old) }
    {
        if self.places.is_some() {
            return Ok(());
        }
        if self.searches < FEW_SEARCHES {
            self.searches += 1;
            return Ok(());
        }
        let places = first_places(alloc, &self.values)?;
        self.places = Some(places);
        Ok(())
    }

    /// Puts a value last, unless an equal one is there, and tells whether it did.
    pub(crate) fn push(&mut self, alloc: Global, value: Value) -> Result<bool, AllocError>
        ensures is_new { IfOk result (λ put. put ≡ not (has_norm value.norm self.old)) }
        ensures values { IfOk result (λ put. self.new ≡ put_if put self.old value) }
    {
        self.search(alloc)?;
        match &mut self.places {
            None => push_new(alloc, &mut self.values, value),
            Some(places) => push_last(alloc, &mut self.values, places, value),
        }
    }

    /// Takes away the values with this normal form, and tells whether there were any.
    pub(crate) fn remove(&mut self, alloc: Global, norm: &[u8]) -> Result<bool, AllocError>
        ensures there { IfOk result (λ there. there ≡ has_norm norm.now self.old) }
        ensures values { OnOk result (self.new ≡ but_norm norm.now self.old) }
    {
        self.search(alloc)?;
        match &mut self.places {
            None => remove_norm(alloc, &mut self.values, norm),
            Some(places) => remove_places(alloc, &self.values, places, norm),
        }
    }

    /// Those that are left.
    pub(crate) fn into_values(self, alloc: Global) -> Result<Values, AllocError>
        ensures { IfOk result (λ values. values ≡ self) }
    {
        let ValuesDraft {
            values,
            places,
            searches: _,
        } = self;
        match places {
            None => Ok(values),
            Some(places) => {
                if places.all_left {
                    return Ok(values);
                }
                left_from(alloc, &values, &places)
            }
        }
    }
}
