//! The values of a type while a block of a modify changes them (RFC 4511, 4.6).

ghost use Rattle.std.specs.Prelude.{◌≡◌, ◌++◌, ◌∷◌, [], List, not, IfOk, IfNone, filter};
ghost use Rattle.std.specs.Option.{option_map};
ghost use Rattle.std.specs.BTreeSet.{contains};
ghost use Rattle.std.specs.Cmp.Lexicographic.{slice_cmp};
ghost use Rattle.std.specs.Ordering.{nat_cmp};
ghost use Rattle.values.specs.Norms.{has_norm};
ghost use Rattle.values.specs.Values as values;
ghost use Rattle.reasons.specs.Reasons.{value_flaw_of};
ghost use Rattle.reasons.specs.inner.Changes.{HasNormsOf, is_there, value_flaw, changed_values};

use crate::reason::ValueReason;
use base::Bytes;
use ldif::Op;
use schema::Value;
use std::alloc::{AllocError, Global};
use std::collections::BTreeSet;
use values::Values;

/// Normal forms of values.
type Norms = BTreeSet<Bytes>;

/// The values of a type while a block changes them.
pub(crate) struct ChangedValues {
    // the normal forms of those that were there before
    pub(crate) before: Norms,
    // those of the block's values that were looked at, and these values
    pub(crate) seen: Norms,
    pub(crate) come: Values,
}

impl Drop for ChangedValues {
    fn drop(self) {
        let ChangedValues {
            before,
            seen,
            come: _,
        } = self;
        drop(before);
        drop(seen);
    }
}

// the normal forms of values
fn norms_of(alloc: Global, values: &Values) -> Result<Norms, AllocError>
    ensures { IfOk result (λ norms. HasNormsOf norms values.now) }
{
    let mut norms = BTreeSet::new(alloc);
    for value in values.iter() {
        norms.insert(Bytes::from_slice(alloc, value.norm())?)?;
    }
    Ok(norms)
}

// whether a value with a normal form is there, where one was or wasn't there before, and one of the block's was or wasn't looked at
fn is_there(op: Op, was: bool, is_seen: bool) -> bool
    ensures { result ≡ is_there op was is_seen }
{
    match op {
        Op::Add => was || is_seen,
        Op::Delete => was && !is_seen,
        Op::Replace => is_seen,
    }
}

// what a valid value is refused for, where an equal one is there or isn't
fn value_reason(op: Op, there: bool) -> Option<ValueReason>
    ensures { option_map value_flaw_of result ≡ value_flaw op there }
{
    match op {
        Op::Add | Op::Replace => {
            if there {
                return Some(ValueReason::EqualValue);
            }
        }
        Op::Delete => {
            if !there {
                return Some(ValueReason::NoValue);
            }
        }
    }
    None
}

// values behind others
fn appended(alloc: Global, mut values: Values, more: &Values) -> Result<Values, AllocError>
    ensures { IfOk result (λ all. all ≡ values ++ more.now) }
{
    for value in more.iter() {
        values.push(alloc, value.copy(alloc)?)?;
    }
    Ok(values)
}

// those values whose normal forms aren't among these
fn left(alloc: Global, values: &Values, gone: &Norms) -> Result<Values, AllocError>
    ensures { IfOk result (λ some. some ≡ filter (λ v. not (contains (slice_cmp nat_cmp) gone.now v.norm)) values.now) }
{
    let mut some = Values::new();
    for value in values.iter() {
        let norm = Bytes::from_slice(alloc, value.norm())?;
        if !gone.contains(&norm) {
            some.push(alloc, value.copy(alloc)?)?;
        }
    }
    Ok(some)
}

impl ChangedValues {
    /// Those that are there before a block.
    pub(crate) fn new(alloc: Global, old: &Values) -> Result<ChangedValues, AllocError>
        ensures before { IfOk result (λ changed. HasNormsOf changed.before old.now) }
        ensures seen { IfOk result (λ changed. HasNormsOf changed.seen changed.come) }
        ensures come { IfOk result (λ changed. changed.come ≡ []) }
    {
        Ok(ChangedValues {
            before: norms_of(alloc, old)?,
            seen: BTreeSet::new(alloc),
            come: Values::new(),
        })
    }

    /// Looks at the next value of a block, and tells what it is refused for. Where it isn't, it is among those that were looked at.
    pub(crate) fn look(
        &mut self,
        alloc: Global,
        op: Op,
        value: Value,
    ) -> Result<Option<ValueReason>, AllocError>
        requires { HasNormsOf self.old.seen self.old.come }
        ensures found { (old : List values.Value) → HasNormsOf self.old.before old → IfOk result (λ why. option_map value_flaw_of why ≡ value_flaw op (is_there op (has_norm value.norm old) (has_norm value.norm self.old.come))) }
        ensures before { self.new.before ≡ self.old.before }
        ensures seen { IfOk result (λ why. IfNone why (HasNormsOf self.new.seen self.new.come)) }
        ensures come { IfOk result (λ why. IfNone why (self.new.come ≡ self.old.come ++ value ∷ [])) }
    {
        let norm = Bytes::from_slice(alloc, value.norm())?;
        let there = is_there(op, self.before.contains(&norm), self.seen.contains(&norm));
        let found = value_reason(op, there);
        if found.is_some() {
            return Ok(found);
        }
        self.seen.insert(norm)?;
        self.come.push(alloc, value)?;
        Ok(None)
    }

    /// The values that a block leaves of those before it, where all of its values were looked at.
    pub(crate) fn left_of(&self, alloc: Global, op: Op, old: Values) -> Result<Values, AllocError>
        requires { HasNormsOf self.now.seen self.now.come }
        ensures { IfOk result (λ values. values ≡ changed_values op old self.now.come) }
    {
        match op {
            Op::Add => appended(alloc, old, &self.come),
            Op::Delete if self.come.is_empty() => Ok(Values::new()),
            Op::Delete => left(alloc, &old, &self.seen),
            Op::Replace => self.come.copy(alloc),
        }
    }
}
