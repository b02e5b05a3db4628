//! What the attributes of every entry are.

ghost use Rattle.std.specs.Prelude.{◌≡◌, ◌<◌, IfOk, length};
ghost use Rattle.entries.specs.Entries.{is_single, are_single};
ghost use Rattle.entries.specs.Modifies.{entry_fault};
ghost use Rattle.entries.specs.StoredEntries.{attributes_of, raws, IsMade};

use crate::class_checks::has_its_classes;
use crate::kept_attributes::Attributes;
use schema::{Code, Conf, TypeId};
use std::alloc::{AllocError, Global};
use values::Values;

fn is_single(conf: &Conf, t: TypeId, values: &Values) -> bool
    requires { t < length conf.now.types }
    ensures { result ≡ is_single conf.now.types (t, raws values.now) }
{
    !conf.single(t) || values.is_at_most_one()
}

/// Whether each SINGLE-VALUE type has one value at most.
pub fn are_single(conf: &Conf, attrs: &Attributes) -> bool
    requires { IsMade conf.now.types attrs.now.entries }
    ensures { result ≡ are_single conf.now.types (attributes_of attrs.now.entries) }
{
    for (t, values) in attrs.iter() {
        if !is_single(conf, *t, values) {
            return false;
        }
    }
    true
}

/// The first that fails of what is looked at in the end of a change.
pub(crate) fn entry_fault(
    alloc: Global,
    conf: &Conf,
    attrs: &Attributes,
) -> Result<Option<Code>, AllocError>
    requires { IsMade conf.now.types attrs.now.entries }
    ensures { IfOk result (λ fault. fault ≡ entry_fault conf.now (attributes_of attrs.now.entries)) }
{
    if !has_its_classes(alloc, conf, attrs)? {
        return Ok(Some(Code::ObjectClassViolation));
    }
    if !are_single(conf, attrs) {
        return Ok(Some(Code::ConstraintViolation));
    }
    Ok(None)
}
