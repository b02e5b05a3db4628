//! Whether a definition that is repaired keeps all fields but one, byte for byte.

ghost use Rattle.std.specs.Prelude.{◌≡◌, IsTrue};
ghost use Rattle.server_schema.specs.Kept.{HaveSameNames, HaveSameRules, HaveSameUses, IsTypeKept, IsClassKept};

use base::Bytes;
use definitions::{ClassDefinition, Element, TypeDefinition, Usage};

fn is_same_name(a: &Option<Bytes>, b: &Option<Bytes>) -> bool
    ensures { IsTrue result → a.now ≡ b.now }
{
    match (a, b) {
        (None, None) => true,
        (Some(x), Some(y)) => x == y,
        _ => false,
    }
}

fn is_same_usage(a: Option<Usage>, b: Option<Usage>) -> bool
    ensures { IsTrue result → a ≡ b }
{
    match (a, b) {
        (None, None) => true,
        (Some(Usage::UserApplications), Some(Usage::UserApplications)) => true,
        (Some(Usage::DirectoryOperation), Some(Usage::DirectoryOperation)) => true,
        (Some(Usage::DistributedOperation), Some(Usage::DistributedOperation)) => true,
        (Some(Usage::DsaOperation), Some(Usage::DsaOperation)) => true,
        _ => false,
    }
}

fn is_same(a: &Bytes, b: &Bytes) -> bool
    ensures { IsTrue result → a.now ≡ b.now }
{
    a == b
}

fn are_same(a: &[Bytes], b: &[Bytes]) -> bool
    ensures { IsTrue result → a.now ≡ b.now }
{
    if a.len() != b.len() {
        return false;
    }
    for i in 0..a.len() {
        if !is_same(&a[i], &b[i]) {
            return false;
        }
    }
    true
}

fn have_same_names(a: &Element, b: &Element) -> bool
    ensures { IsTrue result → HaveSameNames a.now b.now }
{
    a.oid == b.oid && are_same(a.names.as_slice(), b.names.as_slice())
}

fn have_same_rules(a: &TypeDefinition, b: &TypeDefinition) -> bool
    ensures { IsTrue result → HaveSameRules a.now b.now }
{
    is_same_name(&a.superior, &b.superior)
        && is_same_name(&a.ordering, &b.ordering)
        && is_same_name(&a.substrings, &b.substrings)
        && is_same_name(&a.syntax, &b.syntax)
}

fn have_same_uses(a: &TypeDefinition, b: &TypeDefinition) -> bool
    ensures { IsTrue result → HaveSameUses a.now b.now }
{
    a.is_single_value == b.is_single_value
        && a.is_collective == b.is_collective
        && a.is_fixed == b.is_fixed
        && is_same_usage(a.usage, b.usage)
}

/// Whether a type has the same fields, but for the equality rule and what says nothing of values.
pub(crate) fn is_type_kept(a: &TypeDefinition, b: &TypeDefinition) -> bool
    ensures { IsTrue result → IsTypeKept a.now b.now }
{
    have_same_names(&a.element, &b.element) && have_same_rules(a, b) && have_same_uses(a, b)
}

/// Whether a class has the same fields, but for what it allows and what says nothing of entries.
pub(crate) fn is_class_kept(a: &ClassDefinition, b: &ClassDefinition) -> bool
    ensures { IsTrue result → IsClassKept a.now b.now }
{
    have_same_names(&a.element, &b.element)
        && are_same(a.superiors.as_slice(), b.superiors.as_slice())
        && a.kind == b.kind
        && are_same(a.must.as_slice(), b.must.as_slice())
}
