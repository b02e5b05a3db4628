//! The attributes of an entry that users can change.

ghost use Rattle.std.specs.Prelude.{◌≡◌, IfOk};
ghost use Rattle.entries.specs.StoredEntries.{attributes_of, raws};
ghost use Rattle.differences.specs.EntryChanges.{users};
ghost use Rattle.differences.specs.inner.Cuts.{texts};
ghost use Rattle.differences.specs.inner.LentAttributes.{all_lent, AreLentKnown, AreStoredKnown};

use entries::{Entry, Values};
use schema::{Conf, TypeId};
use std::alloc::{AllocError, Global};

/// A type with its values as they are written.
#[derive(Drop)]
pub(crate) struct UserAttribute<'a> {
    pub t: &'a TypeId,
    pub values: Vec<&'a [u8]>,
}

/// The values as they are written.
pub(crate) fn raws_of<'a>(alloc: Global, values: &'a Values) -> Result<Vec<&'a [u8]>, AllocError>
    ensures { IfOk result (λ v. texts v.items ≡ raws values.now) }
{
    let mut found = Vec::new(alloc);
    for value in values.iter() {
        found.push(value.raw())?;
    }
    Ok(found)
}

/// The attributes of an entry that users can change.
pub(crate) fn users_of<'a>(
    alloc: Global,
    conf: &Conf,
    entry: &'a Entry,
) -> Result<Vec<UserAttribute<'a>>, AllocError>
    requires { AreStoredKnown conf.now.types entry.now.attrs }
    ensures known { IfOk result (λ v. AreLentKnown conf.now.types v.items) }
    ensures users { IfOk result (λ v. all_lent v.items ≡ users conf.now.types (attributes_of entry.now.attrs)) }
{
    let mut found = Vec::new(alloc);
    for (t, values) in entry.attrs() {
        if !conf.fixed(*t) {
            let values = raws_of(alloc, values)?;
            found.push(UserAttribute { t, values })?;
        }
    }
    Ok(found)
}
