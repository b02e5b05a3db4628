//! The lines of an add that were gone through.

ghost use Rattle.std.specs.Prelude.{◌≡◌, ◌++◌, ◌∷◌, [], List, Some, IfOk, OnOk, length};
ghost use Rattle.values.specs.Types.{type_of};
ghost use Rattle.schema.specs.Values.{norm_at};
ghost use Rattle.values.specs.declared.types.AttributeType.{AttributeType};
ghost use Rattle.ldif.specs.Attrs.{Attr};
ghost use Rattle.entries.specs.StoredEntries.{attributes_of, IsMade};
ghost use Rattle.reasons.specs.LineFlaws.{gathered};
ghost use Rattle.reasons.specs.inner.Lines.{ArePlaced, ArePlacedBy, AreSeen, IsTyped, IsSaidBy, IsPlaceIn};

use crate::draft::{Attribute, push_value};
use base::Bytes;
use schema::{TypeId, Value};
use std::alloc::{AllocError, Global};
use std::collections::BTreeMap;

/// As many lines as each is compared with all that came before it; of more, values are looked up in a map.
const FEW_LINES: usize = 64;

/// A value with its type.
type TypedValue = (TypeId, Value);

/// For each type with a normal form, the index of the line that says such a value.
type Places = BTreeMap<(TypeId, Bytes), usize>;

/// Lines that were gone through: what each says, and for many of them where each value is said.
pub(crate) struct SeenLines {
    pub(crate) values: Vec<TypedValue>,
    pub(crate) places: Option<Places>,
}

impl Drop for SeenLines {
    fn drop(self) {
        let SeenLines { values, places } = self;
        drop(values);
        drop(places);
    }
}

// leads to the next line, which has this index and says such a value
fn put_place(
    alloc: Global,
    places: &mut Places,
    t: TypeId,
    norm: &[u8],
    index: usize,
) -> Result<(), AllocError>
    ensures { (types : List AttributeType) (lines : List Attr) (l : Attr) → ArePlaced types lines places.old → index ≡ length lines → type_of types l.name ≡ Some t → norm.now ≡ norm_at types t l.value → OnOk result (ArePlaced types (lines ++ l ∷ []) places.new) }
{
    let key = (t, Bytes::from_slice(alloc, norm)?);
    places.insert(key, index)?;
    Ok(())
}

// the same, where there is a map
fn keep_place(
    alloc: Global,
    places: &mut Option<Places>,
    t: TypeId,
    norm: &[u8],
    index: usize,
) -> Result<(), AllocError>
    ensures { (types : List AttributeType) (lines : List Attr) (l : Attr) → ArePlacedBy types lines places.old → index ≡ length lines → type_of types l.name ≡ Some t → norm.now ≡ norm_at types t l.value → OnOk result (ArePlacedBy types (lines ++ l ∷ []) places.new) }
{
    match places {
        None => Ok(()),
        Some(places) => put_place(alloc, places, t, norm, index),
    }
}

// the index of a value that is of a type and has a normal form
fn place_in(values: &[TypedValue], t: TypeId, norm: &[u8]) -> Option<usize>
    ensures { IsPlaceIn t norm.now values.now result }
{
    for place in 0..values.len() {
        if t == values[place].0 && values[place].1.norm() == norm {
            return Some(place);
        }
    }
    None
}

impl SeenLines {
    /// No line yet, of so many.
    pub(crate) fn new(alloc: Global, count: usize) -> SeenLines
        ensures { (types : List AttributeType) → AreSeen types [] result }
    {
        let places = if count <= FEW_LINES {
            None
        } else {
            Some(BTreeMap::new(alloc))
        };
        SeenLines {
            values: Vec::new(alloc),
            places,
        }
    }

    /// The index of the line that says a value of a type with this normal form.
    pub(crate) fn place_of(
        &self,
        alloc: Global,
        t: TypeId,
        norm: &[u8],
    ) -> Result<Option<usize>, AllocError>
        ensures { (types : List AttributeType) (lines : List Attr) → AreSeen types lines self.now → IfOk result (IsSaidBy types lines t norm.now) }
    {
        match &self.places {
            Some(places) => {
                let key = (t, Bytes::from_slice(alloc, norm)?);
                Ok(places.get(&key).copied())
            }
            None => Ok(place_in(&self.values, t, norm)),
        }
    }

    /// Sees the next line, which says this value.
    pub(crate) fn push(&mut self, alloc: Global, t: TypeId, value: Value) -> Result<(), AllocError>
        ensures { (types : List AttributeType) (lines : List Attr) (l : Attr) → AreSeen types lines self.old → IsTyped types l (t, value) → OnOk result (AreSeen types (lines ++ l ∷ []) self.new) }
    {
        let index = self.values.len();
        keep_place(alloc, &mut self.places, t, value.norm(), index)?;
        self.values.push((t, value))?;
        Ok(())
    }

    /// The attributes that the lines give, in order.
    pub(crate) fn into_attributes(self, alloc: Global) -> Result<Vec<Attribute>, AllocError>
        ensures made { (types : List AttributeType) (lines : List Attr) → AreSeen types lines self → IfOk result (λ attrs. IsMade types attrs.items) }
        ensures attrs { (types : List AttributeType) (lines : List Attr) → AreSeen types lines self → IfOk result (λ attrs. attributes_of attrs.items ≡ gathered types lines) }
    {
        let SeenLines { values, places } = self;
        drop(places);
        let mut attrs = Vec::new(alloc);
        for typed in values {
            let (t, value) = typed;
            push_value(alloc, &mut attrs, t, value)?;
        }
        Ok(attrs)
    }
}
