//! The normal forms of the values of a type, over many entries.

ghost use Rattle.std.specs.Prelude.{◌≡◌, IfOk, IfSome, OnOk};
ghost use Rattle.std.specs.List.{AllByRecursion};
ghost use Rattle.entries.specs.StoredEntries.{IsMade};
ghost use Rattle.index_keys.specs.TypeNorms.{AreNormsOf};
ghost use Rattle.index_keys.specs.inner.NormLists.{AddsNorms};

use crate::norms::Norms;
use entries::Entry;
use schema::{Conf, TypeId};
use std::alloc::{AllocError, Global};

/// An entry and its number.
#[derive(Clone, Copy, Drop)]
pub struct Numbered<'a> {
    pub number: u32,
    pub entry: &'a Entry,
}

/// The normal form of a value, and the number of the entry that has it.
#[derive(Clone, Copy, Drop)]
pub struct NumberedNorm<'a> {
    pub number: u32,
    pub norm: &'a [u8],
}

/// The normal forms of the values of a type and of its subtypes, entry by entry.
#[derive(Drop)]
pub struct TypeNorms<'a> {
    pub type_id: TypeId,
    pub norms: Vec<NumberedNorm<'a>>,
}

// puts the normal forms of one entry to others
fn push_norms<'a>(
    all: &mut Vec<NumberedNorm<'a>>,
    norms: Norms<'a>,
    number: u32,
) -> Result<(), AllocError>
    ensures { OnOk result (AddsNorms norms.entry number all.old.items all.new.items) }
{
    for norm in norms {
        all.push(NumberedNorm { number, norm })?;
    }
    Ok(())
}

// those of all entries
fn norms_of<'a>(
    alloc: Global,
    conf: &'a Conf,
    type_id: TypeId,
    entries: &[Numbered<'a>],
) -> Result<Vec<NumberedNorm<'a>>, AllocError>
    requires { AllByRecursion (λ e. IsMade conf.now.types e.entry.now.attrs) entries.now }
    ensures { IfOk result (λ ns. AreNormsOf conf.now.types entries.now type_id ns.items) }
{
    let mut all = Vec::with_capacity(alloc, entries.len())?;
    for numbered in entries {
        let norms = Norms::of(conf, numbered.entry, type_id);
        push_norms(&mut all, norms, numbered.number)?;
    }
    Ok(all)
}

/// Those of a type in these entries, where those of the type that was asked for last are kept: slots of one type follow each other.
pub fn norms_for<'a>(
    alloc: Global,
    conf: &'a Conf,
    kept: Option<TypeNorms<'a>>,
    type_id: TypeId,
    entries: &[Numbered<'a>],
) -> Result<TypeNorms<'a>, AllocError>
    requires made { AllByRecursion (λ e. IsMade conf.now.types e.entry.now.attrs) entries.now }
    requires kept { IfSome kept (λ k. AreNormsOf conf.now.types entries.now k.type_id k.norms.items) }
    ensures of_type { IfOk result (λ k. k.type_id ≡ type_id) }
    ensures norms { IfOk result (λ k. AreNormsOf conf.now.types entries.now k.type_id k.norms.items) }
{
    if let Some(last) = kept {
        if last.type_id == type_id {
            return Ok(last);
        }
    }
    let norms = norms_of(alloc, conf, type_id, entries)?;
    Ok(TypeNorms { type_id, norms })
}
