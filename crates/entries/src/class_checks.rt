//! What its object classes ask of an entry (RFC 4512, 2.4 and 3.3).

ghost use Rattle.std.specs.Prelude.{◌≡◌, ◌<◌, true, [], IfOk, OnOk, length};
ghost use Rattle.std.specs.List.{list_all, AllByRecursion};
ghost use Rattle.schema.specs.Superclasses.{lineage};
ghost use Rattle.entries.specs.Entries.{values_of};
ghost use Rattle.entries.specs.EntryClasses.{has_type, are_classes, named_classes, defines_classes, has_required, fits_classes, has_its_classes};
ghost use Rattle.entries.specs.inner.ClassChecks.{fits_each, has_all_required, is_allowed_by, may_have, may_have_all};
ghost use Rattle.entries.specs.StoredEntries.{attributes_of, raws, IsMade};

use crate::kept_attributes::Attributes;
use schema::{Conf, TypeId};
use smallvec::SmallVec;
use std::alloc::{AllocError, Global};
use values::Values;

// An entry names few classes: up to eight take no allocation.
type ClassNumbers = SmallVec<usize, 8>;

// Puts the classes that values name into a list that has none yet, and tells whether each of them names one.
fn put_classes(conf: &Conf, values: &Values, classes: &mut ClassNumbers) -> Result<bool, AllocError>
    requires { classes.old.items ≡ [] }
    ensures all { IfOk result (λ all. all ≡ are_classes conf.now.classes (raws values.now)) }
    ensures named { IfOk result (λ all. all ≡ true → classes.new.items ≡ named_classes conf.now.classes (raws values.now)) }
    ensures known { OnOk result (AllByRecursion (λ c. c < length conf.now.classes) classes.new.items) }
{
    for value in values.iter() {
        match conf.class_of(value.raw()) {
            Some(class) => classes.push(class)?,
            None => return Ok(false),
        }
    }
    Ok(true)
}

fn has_type(attrs: &Attributes, t: TypeId) -> bool
    ensures { result ≡ has_type (attributes_of attrs.now.entries) t }
{
    attrs.get(t).is_some()
}

// Whether an entry has what a class and its superclasses require.
fn has_required(conf: &Conf, class: usize, attrs: &Attributes) -> bool
    requires { class < length conf.now.classes }
    ensures { result ≡ has_required conf.now.classes (attributes_of attrs.now.entries) (lineage conf.now.classes class) }
{
    let types = conf.required(class);
    for t in types {
        if !has_type(attrs, *t) {
            return false;
        }
    }
    true
}

fn has_all_required(conf: &Conf, named: &[usize], attrs: &Attributes) -> bool
    requires { AllByRecursion (λ c. c < length conf.now.classes) named.now }
    ensures { result ≡ has_all_required conf.now.classes (attributes_of attrs.now.entries) named.now }
{
    for class in named {
        if !has_required(conf, *class, attrs) {
            return false;
        }
    }
    true
}

fn is_allowed_by(conf: &Conf, named: &[usize], t: TypeId) -> bool
    requires { AllByRecursion (λ c. c < length conf.now.classes) named.now }
    ensures { result ≡ is_allowed_by conf.now.classes named.now t }
{
    for class in named {
        if conf.allows(*class, t) {
            return true;
        }
    }
    false
}

fn may_have(conf: &Conf, named: &[usize], t: TypeId) -> bool
    requires classes { AllByRecursion (λ c. c < length conf.now.classes) named.now }
    requires known { t < length conf.now.types }
    ensures { result ≡ may_have conf.now named.now t }
{
    t == TypeId::OBJECT_CLASS || conf.operational(t) || is_allowed_by(conf, named, t)
}

fn may_have_all(conf: &Conf, named: &[usize], attrs: &Attributes) -> bool
    requires classes { AllByRecursion (λ c. c < length conf.now.classes) named.now }
    requires made { IsMade conf.now.types attrs.now.entries }
    ensures { result ≡ may_have_all conf.now named.now (attributes_of attrs.now.entries) }
{
    for (t, _) in attrs.iter() {
        if !may_have(conf, named, *t) {
            return false;
        }
    }
    true
}

// Whether an entry is as the classes that it names ask, with all of their superclasses.
fn fits_each(conf: &Conf, named: &[usize], attrs: &Attributes) -> bool
    requires classes { AllByRecursion (λ c. c < length conf.now.classes) named.now }
    requires made { IsMade conf.now.types attrs.now.entries }
    ensures { result ≡ fits_each conf.now named.now (attributes_of attrs.now.entries) }
{
    has_all_required(conf, named, attrs) && may_have_all(conf, named, attrs)
}

// Whether an entry with these values of objectClass is as its classes ask.
fn fits_classes(
    alloc: Global,
    conf: &Conf,
    values: &Values,
    attrs: &Attributes,
) -> Result<bool, AllocError>
    requires made { IsMade conf.now.types attrs.now.entries }
    requires values { values.now ≡ values_of attrs.now.entries 0 }
    ensures { IfOk result (λ fits. fits ≡ fits_classes conf.now (attributes_of attrs.now.entries)) }
{
    let mut named: ClassNumbers = SmallVec::new(alloc);
    let all = put_classes(conf, values, &mut named)?;
    Ok(all && fits_each(conf, &named, attrs))
}

fn defines_classes(conf: &Conf) -> bool
    ensures { result ≡ defines_classes conf.now }
{
    conf.classes().len() > 2
}

/// Whether an objectClass is there, and where the configuration defines classes, the entry is as its classes ask.
pub fn has_its_classes(alloc: Global, conf: &Conf, attrs: &Attributes) -> Result<bool, AllocError>
    requires { IsMade conf.now.types attrs.now.entries }
    ensures { IfOk result (λ has. has ≡ has_its_classes conf.now (attributes_of attrs.now.entries)) }
{
    let Some(values) = attrs.get(TypeId::OBJECT_CLASS) else {
        return Ok(false);
    };
    if !defines_classes(conf) {
        return Ok(true);
    }
    fits_classes(alloc, conf, values, attrs)
}
