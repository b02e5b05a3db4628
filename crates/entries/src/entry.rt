//! Entries.

ghost use Rattle.std.specs.Prelude.{◌≡◌, nat_eq, IfOk};
ghost use Rattle.std.specs.Map.{keys_of, lookup};
ghost use Rattle.std.specs.Option.{option_copied};

use crate::kept_attributes::{Attributes, AttributesIter};
use schema::{TypeId, TypedRdn};
use std::alloc::{AllocError, Global};
use std::marker::Model;
use values::Values;

/// An entry (RFC 4512, 2.2): its RDN as written, and its attributes in order, each with its values in order. A contract sees
/// the RDN's AVAs, and the list of the types with their values.
pub struct Entry {
    rdn: TypedRdn,
    attrs: Attributes,
}

// A call of its own, so that no other crate proves it anew.
impl Drop for Entry {
    fn drop(self) {
        let Entry { rdn: _, attrs: _ } = self;
    }
}

impl Model for Entry {
    ghost use Rattle.entries.specs.StoredEntries.{Entry, entry_code};

    ghost Value = { Entry };

    ghost coded = { entry_code };

    ghost view = { λ e. record { rdn = e.rdn; attrs = e.attrs.entries } };
}

impl Entry {
    /// The entry with this RDN and these attributes.
    pub fn new(rdn: TypedRdn, attrs: Attributes) -> Entry
        ensures { result ≡ record { rdn = rdn; attrs = attrs.entries } }
    {
        Entry { rdn, attrs }
    }

    /// Its RDN as written. That of the suffix's entry is as the configuration has it.
    pub fn rdn(&self) -> &TypedRdn
        ensures { result.now ≡ self.now.rdn }
    {
        &self.rdn
    }

    /// Each type with its values, in order.
    pub fn attrs(&self) -> AttributesIter<'_>
        ensures { result ≡ self.now.attrs }
    {
        self.attrs.iter()
    }

    /// The values of a type, in order, or none where it has no attribute of this type. Those of its subtypes are not among them.
    pub fn values(&self, t: TypeId) -> Option<&Values>
        ensures { option_copied result ≡ lookup (nat_eq t) self.now.attrs }
    {
        self.attrs.get(t)
    }

    /// The types of its attributes, in order.
    pub fn types(&self) -> &[TypeId]
        ensures { result.now ≡ keys_of self.now.attrs }
    {
        self.attrs.types()
    }

    /// Its attributes again.
    pub(crate) fn copy_attributes(&self, alloc: Global) -> Result<Attributes, AllocError>
        ensures { IfOk result (λ attrs. attrs.entries ≡ self.now.attrs) }
    {
        self.attrs.copy(alloc)
    }
}
