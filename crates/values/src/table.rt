//! Attribute types that are found by their names.

ghost use Rattle.std.specs.Prelude.{◌≡◌, ◌<◌, ◌≤◌, ◌++◌, ◌∷◌, [], IfOk, IfSome, OnOk, length, map};
ghost use Rattle.values.specs.Tables.{FindsTypes, named};
ghost use Rattle.values.specs.Types.{names_of, name_of, type_of, type_at};

use crate::name_index::NameIndex;
use crate::types::{AttributeType, type_at};
use base::{Bytes, Sequence};
use paths::TypeId;
use std::alloc::{AllocError, Global};
use std::marker::Model;

/// Attribute types, each at its number. A contract sees them as a list.
pub struct TypeTable {
    types: Sequence<AttributeType>,
    // the number of the first type with a name or OID
    numbers: NameIndex,
}

// A call of its own, so that no other crate proves it anew.
impl Drop for TypeTable {
    fn drop(self) {
        let TypeTable {
            types: _,
            numbers: _,
        } = self;
    }
}

impl Model for TypeTable {
    ghost use Rattle.std.specs.Prelude.{◌≤◌, List, length};
    ghost use Rattle.values.specs.declared.types.AttributeType.{AttributeType};
    ghost use Rattle.values.specs.Tables.{FindsTypes};

    ghost Value = { List AttributeType };

    ghost view = { λ t. t.types };

    ghost invariant = { λ t. (length t.types ≤ 65535) × FindsTypes t.numbers t.types };
}

fn add_names(
    alloc: Global,
    numbers: &mut NameIndex,
    names: &[Bytes],
    t: usize,
) -> Result<(), AllocError>
    ensures { OnOk result (numbers.new ≡ numbers.old ++ map (named t) names.now) }
{
    for name in names {
        numbers.add(alloc, name.as_slice(), t)?;
    }
    Ok(())
}

// puts a type's number at its OID and its names
fn add_type(
    alloc: Global,
    numbers: &mut NameIndex,
    new: &AttributeType,
    t: usize,
) -> Result<(), AllocError>
    ensures { OnOk result (numbers.new ≡ numbers.old ++ map (named t) (names_of new.now)) }
{
    numbers.add(alloc, new.oid.as_slice(), t)?;
    add_names(alloc, numbers, new.names.as_slice(), t)
}

impl TypeTable {
    /// No types. As many `names` as are expected are found quickly, more than them less so.
    pub fn with_room(alloc: Global, names: usize) -> Result<TypeTable, AllocError>
        ensures { IfOk result (λ t. t ≡ []) }
    {
        Ok(TypeTable {
            types: Sequence::new(alloc),
            numbers: NameIndex::with_room(alloc, names)?,
        })
    }

    /// These types and one more, at the end.
    pub fn with(self, alloc: Global, new: AttributeType) -> Result<TypeTable, AllocError>
        requires { length self < 65535 }
        ensures { IfOk result (λ t. t ≡ self ++ new ∷ []) }
    {
        let TypeTable {
            mut types,
            mut numbers,
        } = self;
        add_type(alloc, &mut numbers, &new, types.len())?;
        types.push(new)?;
        Ok(TypeTable { types, numbers })
    }

    /// How many types there are.
    pub fn len(&self) -> usize
        ensures { result ≡ length self.now }
    {
        self.types.len()
    }

    /// The types, each at its number.
    pub fn as_slice(&self) -> &[AttributeType]
        ensures { result.now ≡ self.now }
    {
        self.types.as_slice()
    }

    /// The number of the first type with this name or OID, without ASCII case.
    pub fn type_of(&self, name: &[u8]) -> Option<TypeId>
        ensures place { result ≡ type_of self.now name.now }
        ensures known { IfSome result (λ t. t < length self.now) }
    {
        match self.numbers.get(name) {
            Some(number) => Some(TypeId::from_number(number as u16)),
            None => None,
        }
    }

    /// The type of a number.
    pub fn at(&self, t: TypeId) -> &AttributeType
        requires { t < length self.now }
        ensures { result.now ≡ type_at self.now t }
    {
        type_at(self.as_slice(), t)
    }

    /// The name that the type of a number is printed by; nothing where there is no such type.
    pub fn printed_name(&self, t: TypeId) -> &[u8]
        ensures { result.now ≡ name_of self.now t }
    {
        match self.as_slice().get(t.number() as usize) {
            Some(kind) => kind.printed_name(),
            None => b"",
        }
    }
}
