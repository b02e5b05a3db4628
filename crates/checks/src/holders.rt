//! The entries that have values, by the normal forms of these.

ghost use Rattle.std.specs.Prelude.{◌≡◌, ℕ, List, [], ◌∷◌, ◌++◌, if◌then◌else◌, map, IfOk, OnOk, OnErr};
ghost use Rattle.std.specs.List.{IsDistinct};
ghost use Rattle.std.specs.Str.{bytes_eq};
ghost use Rattle.values.specs.Norms.{has_norm};
ghost use Rattle.checks.specs.Sharing.{begins_sharing};
ghost use Rattle.checks.specs.inner.Holders.{paths_at, have_same_norm, are_several, some_share};

use base::{Bytes, Sequence};
use entries::Values;
use schema::Path;
use std::alloc::{AllocError, Global};
use std::collections::BTreeMap;
use std::marker::Model;

/// The entries that have equal values, in the order of the dump. A contract sees the list of their paths.
#[derive(Drop)]
pub(crate) struct Holders<'a> {
    first: &'a Path,
    // most values have none of these
    others: Vec<&'a Path>,
}

impl<'a> Model for Holders<'a> {
    ghost use Rattle.std.specs.Prelude.{List, ◌∷◌, map};
    ghost use Rattle.paths.specs.Paths as paths;

    ghost Value = { List paths.Path };

    ghost view = { λ h. h.first.now ∷ map (λ p. p.now) h.others.items };
}

/// A path and others behind it, once more.
fn copies(alloc: Global, first: &Path, others: &[&Path]) -> Result<Sequence<Path>, AllocError>
    ensures { IfOk result (λ paths. paths ≡ first.now ∷ map (λ p. p.now) others.now) }
{
    let mut paths = Sequence::new(alloc);
    paths.push(first.copy(alloc)?)?;
    for path in others {
        paths.push(path.copy(alloc)?)?;
    }
    Ok(paths)
}

impl<'a> Holders<'a> {
    fn one(alloc: Global, path: &'a Path) -> Holders<'a>
        ensures { result ≡ path.now ∷ [] }
    {
        Holders {
            first: path,
            others: Vec::new(alloc),
        }
    }

    fn push(&mut self, path: &'a Path) -> Result<(), AllocError>
        ensures ok { OnOk result (self.new ≡ self.old ++ path.now ∷ []) }
        ensures err { OnErr result (self.new ≡ self.old) }
    {
        self.others.push(path)?;
        Ok(())
    }

    fn are_several(&self) -> bool
        ensures { result ≡ are_several self.now }
    {
        !self.others.is_empty()
    }

    /// Whether there are several, of which the first is at this path.
    pub(crate) fn begin_sharing(&self, path: &Path) -> bool
        ensures { result ≡ begins_sharing path.now self.now }
    {
        !self.others.is_empty() && *self.first == *path
    }

    /// Their paths.
    pub(crate) fn paths(&self, alloc: Global) -> Result<Sequence<Path>, AllocError>
        ensures { IfOk result (λ paths. paths ≡ self.now) }
    {
        copies(alloc, self.first, &self.others)
    }
}

/// The entries that have values of a type, by the normal forms of these.
pub(crate) type HoldersByNorm<'a> = BTreeMap<Bytes, Holders<'a>>;

/// Puts an entry behind those that have a value of this normal form.
fn add_holder<'a>(
    alloc: Global,
    holders: &mut HoldersByNorm<'a>,
    norm: &[u8],
    path: &'a Path,
) -> Result<(), AllocError>
    ensures { OnOk result ((q : List ℕ) → paths_at holders.new q
        ≡ (if bytes_eq norm.now q then paths_at holders.old q ++ path.now ∷ [] else paths_at holders.old q)) }
{
    let norm = Bytes::from_slice(alloc, norm)?;
    if let Some(found) = holders.get_mut(&norm) {
        return found.push(path);
    }
    holders.insert(norm, Holders::one(alloc, path))?;
    Ok(())
}

/// Puts an entry with these values behind those that have equal ones.
pub(crate) fn add_holder_of_values<'a>(
    alloc: Global,
    holders: &mut HoldersByNorm<'a>,
    values: &Values,
    path: &'a Path,
) -> Result<(), AllocError>
    requires { IsDistinct have_same_norm values.now }
    ensures { OnOk result ((q : List ℕ) → paths_at holders.new q
        ≡ paths_at holders.old q ++ (if has_norm q values.now then path.now ∷ [] else [])) }
{
    for value in values.iter() {
        add_holder(alloc, holders, value.norm(), path)?;
    }
    Ok(())
}

/// Whether several entries have one of the values.
pub(crate) fn some_share(holders: &HoldersByNorm<'_>) -> bool
    ensures { result ≡ some_share holders.now }
{
    holders.values().any(|equal| equal.are_several())
}
