//! Explains entries that are refused as a whole (RFC 4512, 2.4, 2.5.1 and 3.3).

ghost use Rattle.std.specs.Prelude.{◌≡◌, ◌<◌, IfOk, IfSome, IfNone, true, false, length};
ghost use Rattle.std.specs.List.{AllByRecursion};
ghost use Rattle.schema.specs.Superclasses.{lineage, is_required};
ghost use Rattle.values.specs.Types.{type_at};
ghost use Rattle.entries.specs.Entries.{values_of, are_single};
ghost use Rattle.entries.specs.EntryClasses.{has_type, has_required, defines_classes};
ghost use Rattle.entries.specs.StoredEntries.{attributes_of, raws, IsMade};
ghost use Rattle.entries.specs.inner.ClassChecks.{has_all_required, is_allowed_by, may_have, may_have_all};
ghost use Rattle.reasons.specs.EntryFlaws.{UnknownClass, LacksType, TypeNotAllowed, entry_order};
ghost use Rattle.reasons.specs.Reasons.{IsMany};
ghost use Rattle.reasons.specs.inner.Entries.{NamesClasses, LacksIn, FindsInEntry, class_order};

use crate::draft::{Attribute, has_type, values_at};
use crate::explainer::Explainer;
use crate::reason::EntryReason;
use schema::TypeId;
use std::alloc::AllocError;
use values::Values;

// how many values there are
fn count_of(values: &Values) -> Result<usize, AllocError>
    ensures { IfOk result (λ count. count ≡ length values.now) }
{
    let mut count = 0usize;
    for _value in values.iter() {
        count = count.checked_add(1).ok_or(AllocError)?;
    }
    Ok(count)
}

impl Explainer<'_> {
    // whether the configuration has a class besides the two that each one has
    fn defines_classes(&self) -> bool
        ensures { result ≡ defines_classes self.now.conf.now }
    {
        self.conf.classes().len() > 2
    }

    // the classes that values of objectClass name, or the index of the first value that names none
    fn named_classes(&self, values: &Values) -> Result<Result<Vec<usize>, usize>, AllocError>
        ensures { IfOk result (NamesClasses (λ named. named.items) self.now.conf.now.classes (raws values.now)) }
    {
        let mut named = Vec::new(self.alloc);
        let mut index = 0usize;
        for value in values.iter() {
            match self.conf.class_of(value.raw()) {
                Some(class) => named.push(class)?,
                None => return Ok(Err(index)),
            }
            index = index.checked_add(1).ok_or(AllocError)?;
        }
        Ok(Ok(named))
    }

    // a type that a class or one of its superclasses requires, and that isn't there
    fn lacked_type(&self, class: usize, attrs: &[Attribute]) -> Option<TypeId>
        requires { class < length self.now.conf.now.classes }
        ensures some { IfSome result (λ t. (is_required self.now.conf.now.classes class t ≡ true) × (has_type (attributes_of attrs.now) t ≡ false)) }
        ensures none { IfNone result (has_required self.now.conf.now.classes (attributes_of attrs.now) (lineage self.now.conf.now.classes class) ≡ true) }
    {
        let types = self.conf.required(class);
        for t in types {
            if !has_type(attrs, *t) {
                return Some(*t);
            }
        }
        None
    }

    // the same of several classes, with the class that asks for it
    fn lack(&self, named: &[usize], attrs: &[Attribute]) -> Option<(usize, TypeId)>
        requires { AllByRecursion (λ c. c < length self.now.conf.now.classes) named.now }
        ensures { LacksIn self.now.conf.now (attributes_of attrs.now) named.now result }
    {
        for class in named {
            if let Some(needed) = self.lacked_type(*class, attrs) {
                return Some((*class, needed));
            }
        }
        None
    }

    fn is_allowed_by(&self, named: &[usize], t: TypeId) -> bool
        requires { AllByRecursion (λ c. c < length self.now.conf.now.classes) named.now }
        ensures { result ≡ is_allowed_by self.now.conf.now.classes named.now t }
    {
        for class in named {
            if self.conf.allows(*class, t) {
                return true;
            }
        }
        false
    }

    // whether an entry of these classes may have a type
    fn may_have(&self, named: &[usize], t: TypeId) -> bool
        requires classes { AllByRecursion (λ c. c < length self.now.conf.now.classes) named.now }
        requires known { t < length self.now.conf.now.types }
        ensures { result ≡ may_have self.now.conf.now named.now t }
    {
        t == TypeId::OBJECT_CLASS || self.conf.operational(t) || self.is_allowed_by(named, t)
    }

    // a type that is there, and that none of these classes allows
    fn not_allowed(&self, named: &[usize], attrs: &[Attribute]) -> Option<TypeId>
        requires classes { AllByRecursion (λ c. c < length self.now.conf.now.classes) named.now }
        requires made { IsMade self.now.conf.now.types attrs.now }
        ensures some { IfSome result (λ t. (t < length self.now.conf.now.types) × (has_type (attributes_of attrs.now) t ≡ true) × (may_have self.now.conf.now named.now t ≡ false)) }
        ensures none { IfNone result (may_have_all self.now.conf.now named.now (attributes_of attrs.now) ≡ true) }
    {
        for index in 0..attrs.len() {
            let t = attrs[index].0;
            if !self.may_have(named, t) {
                return Some(t);
            }
        }
        None
    }

    // a SINGLE-VALUE type that has more values than one, and how many
    fn many_values(&self, attrs: &[Attribute]) -> Result<Option<(TypeId, usize)>, AllocError>
        requires { IsMade self.now.conf.now.types attrs.now }
        ensures some { IfOk result (λ found. IfSome found (λ many. IsMany self.now.conf.now (attributes_of attrs.now) many.0 many.1)) }
        ensures none { IfOk result (λ found. IfNone found (are_single self.now.conf.now.types (attributes_of attrs.now) ≡ true)) }
    {
        for index in 0..attrs.len() {
            let t = attrs[index].0;
            if self.conf.single(t) && !attrs[index].1.is_at_most_one() {
                return Ok(Some((t, count_of(&attrs[index].1)?)));
            }
        }
        Ok(None)
    }

    // what its classes refuse an entry for
    fn classes_reason(
        &self,
        values: &Values,
        attrs: &[Attribute],
    ) -> Result<Option<EntryReason>, AllocError>
        requires values { values.now ≡ values_of attrs.now 0 }
        requires made { IsMade self.now.conf.now.types attrs.now }
        ensures { IfOk result (FindsInEntry self.now.conf.now (attributes_of attrs.now) class_order) }
    {
        self.conf.rules_are_kept();
        if !self.defines_classes() {
            return Ok(None);
        }
        let named = match self.named_classes(values)? {
            Ok(named) => named,
            Err(value) => return Ok(Some(EntryReason::UnknownClass { value })),
        };
        if let Some(lack) = self.lack(&named, attrs) {
            let (class, needed) = lack;
            return Ok(Some(EntryReason::LacksType { class, needed }));
        }
        if let Some(found) = self.not_allowed(&named, attrs) {
            return Ok(Some(EntryReason::TypeNotAllowed { found }));
        }
        Ok(None)
    }

    /// What an entry with these attributes is refused for as a whole.
    pub(crate) fn entry_reason(
        &self,
        attrs: &[Attribute],
    ) -> Result<Option<EntryReason>, AllocError>
        requires { IsMade self.now.conf.now.types attrs.now }
        ensures { IfOk result (FindsInEntry self.now.conf.now (attributes_of attrs.now) entry_order) }
    {
        let Some(values) = values_at(attrs, TypeId::OBJECT_CLASS) else {
            return Ok(Some(EntryReason::NoObjectClass));
        };
        let found = self.classes_reason(values, attrs)?;
        if found.is_some() {
            return Ok(found);
        }
        if let Some(many) = self.many_values(attrs)? {
            let (single, count) = many;
            return Ok(Some(EntryReason::ManyValues { single, count }));
        }
        Ok(None)
    }
}
