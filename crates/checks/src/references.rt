//! References: values that name entries, and which of them name none.

ghost use Rattle.std.specs.Prelude.{◌≡◌, ◌<◌, ◌++◌, true, length, nat_eq, IfOk, OnOk};
ghost use Rattle.std.specs.List.{list_any, IsDistinct};
ghost use Rattle.schema.specs.TypeRules.{has_name_syntax};
ghost use Rattle.entries.specs.StoredEntries.{content_of, raws, IsMade};
ghost use Rattle.checks.specs.EntryValues.{attribute_values, entry_values, is_same_value};
ghost use Rattle.checks.specs.References.{dangling, is_looked_at, is_meant, names_no_entry, EachDangles, EachIsTold};
ghost use Rattle.checks.specs.inner.Walks.{dangling_in};

use crate::entry_value::EntryValue;
use crate::finder::Finder;
use crate::laws::dangling_values_are_told;
use base::Bytes;
use entries::{Entry, Values};
use schema::{Conf, Path, PathFault, TypeId, TypeSyntax, is_syntax};
use std::alloc::{AllocError, Global};
use tree::LentTree;

/// Whether the values of a type are names.
fn has_name_syntax(conf: &Conf, t: TypeId) -> bool
    requires { t < length conf.now.types }
    ensures { result ≡ has_name_syntax conf.now.types t }
{
    let kind = &conf.types()[usize::from(t.number())];
    is_syntax(TypeSyntax::Name, kind.syntax)
}

/// Whether a type is among those that are named.
pub(crate) fn is_named(named: &[TypeId], t: TypeId) -> bool
    ensures { result ≡ list_any (λ n. nat_eq n t) named.now }
{
    named.iter().any(|other| *other == t)
}

/// Whether a type is meant where these are named.
fn is_meant(named: &[TypeId], t: TypeId) -> bool
    ensures { result ≡ is_meant named.now t }
{
    match named {
        [] => true,
        _ => is_named(named, t),
    }
}

/// The value of an entry.
fn entry_value(
    alloc: Global,
    path: &Path,
    t: TypeId,
    value: &[u8],
) -> Result<EntryValue, AllocError>
    ensures { IfOk result (λ v. v ≡ record { path = path.now; type_id = t; value = value.now }) }
{
    Ok(EntryValue {
        path: path.copy(alloc)?,
        type_id: t,
        value: Bytes::from_slice(alloc, value)?,
    })
}

impl Finder<'_> {
    /// Whether the values of a type are looked at.
    fn is_looked_at(&self, t: TypeId) -> bool
        requires { t < length self.now.conf.now.types }
        ensures { result ≡ is_looked_at self.now.conf.now.types self.now.named.now t }
    {
        has_name_syntax(self.conf, t) && is_meant(self.named, t)
    }

    /// Whether a text is the name of an entry, at the suffix or below it, that isn't there.
    fn names_no_entry(&self, text: &[u8]) -> Result<bool, AllocError>
        ensures { IfOk result (λ missing. missing
            ≡ names_no_entry self.now.conf.now self.now.tree.now.entries text.now) }
    {
        match self.conf.path_of_text(self.alloc, text) {
            Ok(path) => Ok(self.tree.get(&path).is_none()),
            Err(PathFault::Code(_)) => Ok(false),
            Err(PathFault::OutOfMemory) => Err(AllocError),
        }
    }

    /// Puts those values of a type that is looked at that name no entry.
    fn push_values(
        &self,
        found: &mut Vec<EntryValue>,
        path: &Path,
        t: TypeId,
        values: &Values,
    ) -> Result<(), AllocError>
        requires { is_looked_at self.now.conf.now.types self.now.named.now t ≡ true }
        ensures { OnOk result (found.new.items ≡ found.old.items
            ++ dangling_in self.now (attribute_values path.now (t, raws values.now))) }
    {
        for value in values.iter() {
            if self.names_no_entry(value.raw())? {
                found.push(entry_value(self.alloc, path, t, value.raw())?)?;
            }
        }
        Ok(())
    }

    /// Puts those values of an attribute that dangle.
    fn push_attribute(
        &self,
        found: &mut Vec<EntryValue>,
        path: &Path,
        t: TypeId,
        values: &Values,
    ) -> Result<(), AllocError>
        requires { t < length self.now.conf.now.types }
        ensures { OnOk result (found.new.items ≡ found.old.items
            ++ dangling_in self.now (attribute_values path.now (t, raws values.now))) }
    {
        if !self.is_looked_at(t) {
            return Ok(());
        }
        self.push_values(found, path, t, values)
    }

    /// Puts those values of an entry that dangle.
    fn push_entry(
        &self,
        found: &mut Vec<EntryValue>,
        path: &Path,
        entry: &Entry,
    ) -> Result<(), AllocError>
        requires { IsMade self.now.conf.now.types entry.now.attrs }
        ensures { OnOk result (found.new.items ≡ found.old.items
            ++ dangling_in self.now (entry_values (path.now, content_of entry.now))) }
    {
        for (t, values) in entry.attrs() {
            self.push_attribute(found, path, *t, values)?;
        }
        Ok(())
    }

    /// All values that dangle.
    fn dangling(&self) -> Result<Vec<EntryValue>, AllocError>
        ensures { IfOk result (λ found. found.items
            ≡ dangling self.now.conf.now self.now.tree.now.entries self.now.named.now) }
    {
        let root = Path::root(self.alloc);
        let mut found = Vec::new(self.alloc);
        for (path, entry) in self.tree.range(&root) {
            self.push_entry(&mut found, path, entry)?;
        }
        Ok(found)
    }
}

/// The references that dangle: each value of DN syntax (RFC 4517, 3.3.9) that is the name of an entry at the suffix or below it, where the
/// directory has no entry of this name. All types of that syntax are looked at, or those alone that are named, if there are some. It goes through the
/// entries once. The fault is want of memory.
pub fn find_dangling(
    alloc: Global,
    lent: LentTree<'_>,
    named: &[TypeId],
) -> Result<Vec<EntryValue>, AllocError>
    ensures found { IfOk result (λ found. found.items ≡ dangling lent.entry.conf.now lent.entry.tree.now.entries named.now) }
    ensures told { IfOk result (λ found. EachDangles lent.entry.conf.now lent.entry.tree.now.entries named.now found.items) }
    ensures all { IfOk result (λ found. EachIsTold lent.entry.conf.now lent.entry.tree.now.entries named.now found.items) }
    ensures once { IfOk result (λ found. IsDistinct is_same_value found.items) }
{
    let LentTree { tree, conf } = lent;
    dangling_values_are_told();
    tree.entries_are_a_directory();
    let finder = Finder {
        alloc,
        conf,
        tree,
        named,
    };
    finder.dangling()
}
