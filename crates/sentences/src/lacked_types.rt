//! Which types the entry lacks that a record is to make or to change.

ghost use Rattle.std.specs.Prelude.{◌≡◌, not, true, IfOk};
ghost use Rattle.std.specs.List.{AllByRecursion, filter};
ghost use Rattle.schema.specs.Superclasses.{has_number, is_required};

use crate::class_values::first_avas;
use crate::record_parts::lines_in;
use crate::record_words::Refused;
use entries::Values;
use ldif::{Mod, Op, Record};
use schema::TypeId;
use std::alloc::{AllocError, Global};
use std::collections::BTreeMap;

/// How many values of each type an entry has.
type Counts = BTreeMap<TypeId, usize>;

fn count_of(values: &Values) -> usize {
    let mut count = 0usize;
    for _ in values.iter() {
        count = count.saturating_add(1);
    }
    count
}

fn count_in(counts: &Counts, t: TypeId) -> usize {
    counts.get(&t).copied().unwrap_or(0)
}

/// How many values of its type are there behind a block that is carried out, by how many were there before it.
fn count_behind(block: &Mod, before: usize) -> usize {
    let said = block.values.len();
    match block.op {
        Op::Add => before.saturating_add(said),
        Op::Delete if said == 0 => 0,
        Op::Delete => before.saturating_sub(said),
        Op::Replace => said,
    }
}

/// Whether a type is among others.
pub(crate) fn is_among(types: &[TypeId], t: TypeId) -> bool
    ensures { result ≡ has_number types.now t }
{
    types.contains(&t)
}

/// Those types that aren't among others.
fn left(alloc: Global, types: &[TypeId], others: &[TypeId]) -> Result<Vec<TypeId>, AllocError>
    ensures { IfOk result (λ some. some.items ≡ filter (λ t. not (has_number others.now t)) types.now) }
{
    let mut some = Vec::new(alloc);
    for t in types {
        if !is_among(others, *t) {
            some.push(*t)?;
        }
    }
    Ok(some)
}

impl Refused<'_> {
    /// The types of which an add gives the entry values, by its lines and its RDN.
    fn given_types(&self) -> Result<Vec<TypeId>, AllocError> {
        let lines = lines_in(self.asked);
        let mut given = Vec::with_capacity(self.alloc, lines.len())?;
        for line in lines {
            if let Some(t) = self.conf.type_of(line.name()) {
                given.push(t)?;
            }
        }
        if let Some(place) = self.place {
            for (t, _) in place.rdn.avas() {
                given.push(*t)?;
            }
        }
        Ok(given)
    }

    /// How many values of each type the entry has that is there.
    fn counts_there(&self) -> Result<Counts, AllocError> {
        let mut counts = BTreeMap::new(self.alloc);
        if let Some(path) = self.path() {
            if let Some(entry) = self.tree.get(path) {
                for (t, values) in entry.attrs() {
                    counts.insert(*t, count_of(values))?;
                }
            }
        }
        Ok(counts)
    }

    /// The types of which there are values.
    fn types_in(&self, counts: &Counts) -> Result<Vec<TypeId>, AllocError> {
        let mut types = Vec::new(self.alloc);
        for (t, count) in counts.iter() {
            if *count > 0 {
                types.push(*t)?;
            }
        }
        Ok(types)
    }

    /// The types of which blocks leave the entry values.
    fn types_behind(&self, blocks: &[Mod]) -> Result<Vec<TypeId>, AllocError> {
        let mut counts = self.counts_there()?;
        for block in blocks {
            if let Some(t) = self.conf.type_of(block.attr.as_slice()) {
                counts.insert(t, count_behind(block, count_in(&counts, t)))?;
            }
        }
        self.types_in(&counts)
    }

    /// The types of which the entry keeps values where those of its RDN go.
    fn types_without_rdn(&self) -> Result<Vec<TypeId>, AllocError> {
        let mut counts = self.counts_there()?;
        if let Some(path) = self.path() {
            if let Some(entry) = self.tree.get(path) {
                for (t, _) in entry.rdn().avas() {
                    counts.insert(*t, count_in(&counts, *t).saturating_sub(1))?;
                }
            }
        }
        self.types_in(&counts)
    }

    /// The types of which the entry has values by its new RDN: one of each type of that, and those that it keeps.
    fn renamed_types(&self, delete_old: bool) -> Result<Vec<TypeId>, AllocError> {
        let mut types = if delete_old {
            self.types_without_rdn()?
        } else {
            self.types_in(&self.counts_there()?)?
        };
        if let Some(name) = self.naming_name()? {
            for ava in first_avas(&name) {
                if let Some(t) = self.conf.type_of(ava.type_text()) {
                    types.push(t)?;
                }
            }
        }
        Ok(types)
    }

    /// The types of which the entry is to have values.
    fn types_to_be(&self) -> Result<Vec<TypeId>, AllocError> {
        match self.asked {
            Record::Modify { mods, .. } => self.types_behind(mods.as_slice()),
            Record::ModRdn { delete_old, .. } => self.renamed_types(*delete_old),
            _ => self.given_types(),
        }
    }

    /// The types that a class requires, and of which the entry is to have no value, in the order in which the class requires them.
    pub(crate) fn lacked_types(&self, class: usize) -> Result<Vec<TypeId>, AllocError>
        ensures { IfOk result (λ types. AllByRecursion (λ t. is_required self.now.conf.now.classes class t ≡ true) types.items) }
    {
        if class >= self.conf.classes().len() {
            return Ok(Vec::new(self.alloc));
        }
        let there = self.types_to_be()?;
        left(self.alloc, self.conf.required(class), there.as_slice())
    }
}
