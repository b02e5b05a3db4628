//! What a configuration works out of its parts.

ghost use Rattle.std.specs.List.{AllByRecursion};
ghost use Rattle.std.specs.Prelude.{IfOk};
ghost use Rattle.schema.specs.inner.Confs.{AreDerived};
ghost use Rattle.schema.specs.inner.Keys.{AreKnown};
ghost use Rattle.schema.specs.inner.Settled.{AreOrdered};

use crate::dn_values::normal_text;
use crate::locate::path_of;
use crate::names::rdns_text;
use crate::object_class::ObjectClass;
use crate::settled::{Settled, settle};
use base::{Bytes, Sequence};
use paths::{Path, TypedRdn};
use std::alloc::{AllocError, Global};
use values::TypeTable;

/// What a configuration works out of its types, suffix and classes, once.
#[derive(Drop)]
pub struct Derived {
    /// What the suffix's RDNs come to, from the root of the tree down.
    pub root: Path,
    /// The suffix as it is written.
    pub suffix_text: Bytes,
    /// The suffix's normal form as a value.
    pub suffix_norm: Bytes,
    /// What each class asks, with all of its superclasses.
    pub settled: Sequence<Settled>,
}

impl Derived {
    /// What these types, suffix and classes come to.
    pub fn of(
        alloc: Global,
        types: &TypeTable,
        suffix: &[TypedRdn],
        classes: &[ObjectClass],
    ) -> Result<Derived, AllocError>
        requires known { AllByRecursion (AreKnown types.now) suffix.now }
        requires ordered { AreOrdered classes.now }
        ensures { IfOk result (AreDerived types.now suffix.now classes.now) }
    {
        let root = path_of(alloc, types, suffix)?;
        let suffix_text = rdns_text(alloc, types, suffix)?;
        let suffix_norm = normal_text(alloc, types, suffix, suffix_text.len())?;
        let settled = settle(alloc, classes)?;
        Ok(Derived {
            root,
            suffix_text,
            suffix_norm,
            settled,
        })
    }
}
