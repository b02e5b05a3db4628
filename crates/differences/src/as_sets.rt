//! Attributes and values as sets: what stays of an entry, and what is new.

ghost use Rattle.std.specs.Prelude.{◌≡◌, ◌++◌, not, filter, IfOk, OnOk};
ghost use Rattle.values.specs.Norms.{has_norm};
ghost use Rattle.entries.specs.StoredEntries.{attributes_of, raws, IsMade};
ghost use Rattle.differences.specs.EntryChanges.{users};
ghost use Rattle.differences.specs.AsSets.{kept_attributes, new_attributes, settled_attributes};
ghost use Rattle.differences.specs.inner.Cuts.{texts};
ghost use Rattle.differences.specs.inner.LentAttributes.{all_lent, AreLentKnown};
ghost use Rattle.differences.specs.inner.Norms.{HasNormsOf, with_norm_in, without_norm_in};

use crate::attributes::{UserAttribute, raws_of};
use base::Bytes;
use entries::{Entry, Values};
use schema::Conf;
use std::alloc::{AllocError, Global};
use std::collections::BTreeSet;

/// Normal forms of values.
type Norms = BTreeSet<Bytes>;

/// The normal forms of values.
fn norms_of(alloc: Global, values: &Values) -> Result<Norms, AllocError>
    ensures { IfOk result (λ norms. HasNormsOf norms values.now) }
{
    let mut norms = BTreeSet::new(alloc);
    for value in values.iter() {
        norms.insert(Bytes::from_slice(alloc, value.norm())?)?;
    }
    Ok(norms)
}

/// Puts those values whose normal forms are among these.
fn push_equal<'v>(
    alloc: Global,
    found: &mut Vec<&'v [u8]>,
    values: &'v Values,
    norms: &Norms,
) -> Result<(), AllocError>
    ensures { OnOk result (texts found.new.items ≡ texts found.old.items ++ raws (with_norm_in norms.now values.now)) }
{
    for value in values.iter() {
        let norm = Bytes::from_slice(alloc, value.norm())?;
        if norms.contains(&norm) {
            found.push(value.raw())?;
        }
    }
    Ok(())
}

/// Puts those values whose normal forms aren't among these.
fn push_other<'v>(
    alloc: Global,
    found: &mut Vec<&'v [u8]>,
    values: &'v Values,
    norms: &Norms,
) -> Result<(), AllocError>
    ensures { OnOk result (texts found.new.items ≡ texts found.old.items ++ raws (without_norm_in norms.now values.now)) }
{
    for value in values.iter() {
        let norm = Bytes::from_slice(alloc, value.norm())?;
        if !norms.contains(&norm) {
            found.push(value.raw())?;
        }
    }
    Ok(())
}

/// Those of the values before that equal one of the values after, and behind them those after that equal none before.
fn settled_values<'v>(
    alloc: Global,
    before: &'v Values,
    after: &'v Values,
) -> Result<Vec<&'v [u8]>, AllocError>
    ensures { IfOk result (λ v. texts v.items
        ≡ raws (filter (λ v. has_norm v.norm after.now) before.now) ++ raws (filter (λ v. not (has_norm v.norm before.now)) after.now)) }
{
    let old = norms_of(alloc, before)?;
    let new = norms_of(alloc, after)?;
    let mut found = Vec::new(alloc);
    push_equal(alloc, &mut found, before, &new)?;
    push_other(alloc, &mut found, after, &old)?;
    Ok(found)
}

/// Puts the attributes of the first entry whose types the second has, each with the values that are to be there.
fn push_kept<'a>(
    alloc: Global,
    conf: &Conf,
    before: &'a Entry,
    after: &'a Entry,
    found: &mut Vec<UserAttribute<'a>>,
) -> Result<(), AllocError>
    requires first { IsMade conf.now.types before.now.attrs }
    requires second { IsMade conf.now.types after.now.attrs }
    requires known { AreLentKnown conf.now.types found.old.items }
    ensures known { OnOk result (AreLentKnown conf.now.types found.new.items) }
    ensures users { OnOk result (all_lent found.new.items ≡ all_lent found.old.items
        ++ users conf.now.types (kept_attributes conf.now.types (attributes_of after.now.attrs) (attributes_of before.now.attrs))) }
{
    for (t, values) in before.attrs() {
        if !conf.fixed(*t) {
            if let Some(others) = after.values(*t) {
                let values = settled_values(alloc, values, others)?;
                found.push(UserAttribute { t, values })?;
            }
        }
    }
    Ok(())
}

/// Puts the attributes of the second entry whose types the first hasn't.
fn push_new<'a>(
    alloc: Global,
    conf: &Conf,
    before: &Entry,
    after: &'a Entry,
    found: &mut Vec<UserAttribute<'a>>,
) -> Result<(), AllocError>
    requires made { IsMade conf.now.types after.now.attrs }
    requires known { AreLentKnown conf.now.types found.old.items }
    ensures known { OnOk result (AreLentKnown conf.now.types found.new.items) }
    ensures users { OnOk result (all_lent found.new.items ≡ all_lent found.old.items
        ++ users conf.now.types (new_attributes (attributes_of before.now.attrs) (attributes_of after.now.attrs))) }
{
    for (t, values) in after.attrs() {
        if !conf.fixed(*t) {
            if before.values(*t).is_none() {
                let values = raws_of(alloc, values)?;
                found.push(UserAttribute { t, values })?;
            }
        }
    }
    Ok(())
}

/// The attributes of an entry that users can change, as they are to be where they are those of another entry as sets: what stays is as it was.
pub(crate) fn settled_users<'a>(
    alloc: Global,
    conf: &Conf,
    before: &'a Entry,
    after: &'a Entry,
) -> Result<Vec<UserAttribute<'a>>, AllocError>
    requires first { IsMade conf.now.types before.now.attrs }
    requires second { IsMade conf.now.types after.now.attrs }
    ensures known { IfOk result (λ v. AreLentKnown conf.now.types v.items) }
    ensures users { IfOk result (λ v. all_lent v.items
        ≡ users conf.now.types (settled_attributes conf.now.types (attributes_of before.now.attrs) (attributes_of after.now.attrs))) }
{
    let mut found = Vec::new(alloc);
    push_kept(alloc, conf, before, after, &mut found)?;
    push_new(alloc, conf, before, after, &mut found)?;
    Ok(found)
}
