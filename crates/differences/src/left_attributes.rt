//! The attributes that the changes leave of an entry.

ghost use Rattle.std.specs.Prelude.{◌≡◌, ◌++◌, [], Ok, IfOk, OnOk};
ghost use Rattle.std.specs.List.{AllByRecursion, IsDistinct};
ghost use Rattle.std.specs.Map.{keys_of};
ghost use Rattle.std.specs.Prelude.{nat_eq};
ghost use Rattle.entries.specs.Entries.{with_rdn, lines_of, add_lines, IsGood};
ghost use Rattle.entries.specs.StoredEntries.{attributes_of, content_of, IsMade};
ghost use Rattle.differences.specs.EntryChanges.{users, fixed};
ghost use Rattle.differences.specs.inner.Cuts.{texts};
ghost use Rattle.differences.specs.inner.LentAttributes.{all_lent, AreLentKnown, AreStoredKnown, named_lines};
ghost use Rattle.ldif.specs.declared.record.Mode.TheVariants.{Content};

use crate::attributes::{UserAttribute, raws_of, users_of};
use entries::{Attributes, Entry, Refusal, add_rdn, attributes_of_lines};
use ldif::{Attr, Mode};
use schema::Conf;
use std::alloc::{AllocError, Global};

/// Puts a line for each value under one name.
fn push_lines<'a>(
    name: &'a [u8],
    values: &[&'a [u8]],
    lines: &mut Vec<Attr<'a>>,
) -> Result<(), AllocError>
    ensures { OnOk result (lines.new.items ≡ lines.old.items ++ named_lines name.now (texts values.now)) }
{
    for value in values {
        lines.push(Attr::new(name, *value))?;
    }
    Ok(())
}

/// The lines of attributes.
fn lines_of<'a>(
    alloc: Global,
    conf: &'a Conf,
    attrs: &[UserAttribute<'a>],
) -> Result<Vec<Attr<'a>>, AllocError>
    requires { AreLentKnown conf.now.types attrs.now }
    ensures { IfOk result (λ v. v.items ≡ lines_of conf.now.types (all_lent attrs.now)) }
{
    let mut lines = Vec::new(alloc);
    for i in 0..attrs.len() {
        let attr = &attrs[i];
        push_lines(conf.name(*attr.t), attr.values.as_slice(), &mut lines)?;
    }
    Ok(lines)
}

/// Puts the attributes of an entry that users can't change.
fn push_fixed<'a>(
    alloc: Global,
    conf: &Conf,
    entry: &'a Entry,
    found: &mut Vec<UserAttribute<'a>>,
) -> Result<(), AllocError>
    requires stored { AreStoredKnown conf.now.types entry.now.attrs }
    requires known { AreLentKnown conf.now.types found.old.items }
    ensures known { OnOk result (AreLentKnown conf.now.types found.new.items) }
    ensures fixed { OnOk result (all_lent found.new.items ≡ all_lent found.old.items ++ fixed conf.now.types (attributes_of entry.now.attrs)) }
{
    for (t, values) in entry.attrs() {
        if conf.fixed(*t) {
            let values = raws_of(alloc, values)?;
            found.push(UserAttribute { t, values })?;
        }
    }
    Ok(())
}

/// Attributes made of such that a directory has.
fn made_of(
    alloc: Global,
    conf: &Conf,
    attrs: &[UserAttribute<'_>],
) -> Result<Attributes, AllocError>
    requires known { AreLentKnown conf.now.types attrs.now }
    requires added { add_lines Content conf.now.types [] (lines_of conf.now.types (all_lent attrs.now)) ≡ Ok (all_lent attrs.now) }
    ensures made { IfOk result (λ found. IsMade conf.now.types found.entries) }
    ensures same { IfOk result (λ found. attributes_of found.entries ≡ all_lent attrs.now) }
{
    let lines = lines_of(alloc, conf, attrs)?;
    match attributes_of_lines(alloc, conf, Mode::Content, lines.as_slice(), &[]) {
        Ok(found) => Ok(found),
        Err(Refusal::OutOfMemory) => Err(AllocError),
        Err(Refusal::Code(_)) => unreachable!(),
    }
}

/// The attributes that are left where there was an entry: those of the second directory's that users can change, and those before that they can't.
pub(crate) fn left_of(
    alloc: Global,
    conf: &Conf,
    before: &Entry,
    after: &Entry,
) -> Result<Attributes, AllocError>
    requires first { IsGood conf.now (content_of before.now) }
    requires second { IsGood conf.now (content_of after.now) }
    ensures made { IfOk result (λ found. IsMade conf.now.types found.entries) }
    ensures left { IfOk result (λ found. attributes_of found.entries
        ≡ users conf.now.types (attributes_of after.now.attrs) ++ fixed conf.now.types (attributes_of before.now.attrs)) }
{
    conf.rules_are_kept();
    let mut kept = users_of(alloc, conf, after)?;
    push_fixed(alloc, conf, before, &mut kept)?;
    made_of(alloc, conf, kept.as_slice())
}

/// Those of a new entry: what users can change, and the values of its RDN.
pub(crate) fn left_of_new(
    alloc: Global,
    conf: &Conf,
    after: &Entry,
) -> Result<Attributes, AllocError>
    requires { IsGood conf.now (content_of after.now) }
    ensures made { IfOk result (λ found. IsMade conf.now.types found.entries) }
    ensures left { IfOk result (λ found. attributes_of found.entries
        ≡ with_rdn conf.now.types after.now.rdn (users conf.now.types (attributes_of after.now.attrs))) }
{
    conf.rules_are_kept();
    let kept = users_of(alloc, conf, after)?;
    let mut found = made_of(alloc, conf, kept.as_slice())?;
    add_rdn(alloc, conf, &mut found, after.rdn())?;
    Ok(found)
}
