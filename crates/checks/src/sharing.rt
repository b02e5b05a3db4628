//! Values that several entries have.

ghost use Rattle.std.specs.Prelude.{◌≡◌, ℕ, List, [], ◌++◌, IfOk, OnOk};
ghost use Rattle.std.specs.List.{IsDistinct};
ghost use Rattle.std.specs.FinMap as finite;
ghost use Rattle.schema.specs.Values.{norm_at};
ghost use Rattle.checks.specs.Sharing.{holders, shared, tell_the_same, EachIsShared, EqualsAreTold};
ghost use Rattle.checks.specs.inner.Holders.{paths_at, shared_by, shared_from};

use crate::holders::{HoldersByNorm, add_holder_of_values, some_share};
use crate::laws::shared_values_are_told;
use crate::shared_value::SharedValue;
use base::Bytes;
use entries::Values;
use schema::{Path, TypeId, Value};
use std::alloc::{AllocError, Global};
use std::collections::BTreeMap;
use tree::Tree;

/// The entries that have values of a type.
fn holders_of<'a>(
    alloc: Global,
    tree: &'a Tree,
    root: &'a Path,
    t: TypeId,
) -> Result<HoldersByNorm<'a>, AllocError>
    requires { root.now ≡ [] }
    ensures { IfOk result (λ m. (v : List ℕ) → paths_at m (norm_at tree.now.conf.types t v)
        ≡ holders tree.now.conf.types (finite.entries tree.now.entries) t v) }
{
    tree.entries_are_a_directory();
    let mut holders = BTreeMap::new(alloc);
    for (path, entry) in tree.range(root) {
        if let Some(values) = entry.values(t) {
            add_holder_of_values(alloc, &mut holders, values, path)?;
        }
    }
    Ok(holders)
}

/// A value of the entry at a path with all that have an equal one, where these are several and the entry is the first of them.
fn shared_from(
    alloc: Global,
    holders: &HoldersByNorm<'_>,
    path: &Path,
    value: &Value,
) -> Result<Option<SharedValue>, AllocError>
    ensures { IfOk result (λ found. found ≡ shared_from holders.now path.now value.now) }
{
    let norm = Bytes::from_slice(alloc, value.norm())?;
    match holders.get(&norm) {
        Some(equal) if equal.begin_sharing(path) => Ok(Some(SharedValue {
            value: Bytes::from_slice(alloc, value.raw())?,
            paths: equal.paths(alloc)?,
        })),
        _ => Ok(None),
    }
}

/// Puts those values that the entry at a path is the first to have.
fn push_shared(
    alloc: Global,
    holders: &HoldersByNorm<'_>,
    found: &mut Vec<SharedValue>,
    path: &Path,
    values: &Values,
) -> Result<(), AllocError>
    ensures { OnOk result (found.new.items ≡ found.old.items ++ shared_by holders.now path.now values.now) }
{
    for value in values.iter() {
        if let Some(shared) = shared_from(alloc, holders, path, value)? {
            found.push(shared)?;
        }
    }
    Ok(())
}

/// The values of a type that several entries have.
fn shared_values(alloc: Global, tree: &Tree, t: TypeId) -> Result<Vec<SharedValue>, AllocError>
    ensures { IfOk result (λ found. found.items ≡ shared tree.now.conf.types tree.now.entries t) }
{
    let root = Path::root(alloc);
    let holders = holders_of(alloc, tree, &root, t)?;
    let mut found = Vec::new(alloc);
    // mostly none is, and to look each up once more takes long
    if !some_share(&holders) {
        return Ok(found);
    }
    for (path, entry) in tree.range(&root) {
        if let Some(values) = entry.values(t) {
            push_shared(alloc, &holders, &mut found, path, values)?;
        }
    }
    Ok(found)
}

/// The values of a type that several entries have: equal ones by the type's equality rule (RFC 4517, 4.2), or without a rule the same bytes. Values
/// of its subtypes aren't looked at. Each is told once, as its first entry spells it, with all entries that have it, in the order of the dump; the
/// values in the order of their first entries, and of one entry in its order. It looks each value up among all, and where one is shared does so
/// once more. The fault is want of memory.
pub fn find_shared(alloc: Global, tree: &Tree, t: TypeId) -> Result<Vec<SharedValue>, AllocError>
    ensures found { IfOk result (λ found. found.items ≡ shared tree.now.conf.types tree.now.entries t) }
    ensures told { IfOk result (λ found. EachIsShared tree.now.conf.types tree.now.entries t found.items) }
    ensures all { IfOk result (λ found. EqualsAreTold tree.now.conf.types tree.now.entries t found.items) }
    ensures once { IfOk result (λ found. IsDistinct (tell_the_same tree.now.conf.types t) found.items) }
{
    shared_values_are_told();
    tree.entries_are_a_directory();
    shared_values(alloc, tree, t)
}
