//! Entries as lines, with their values of DN syntax under another suffix.

ghost use Rattle.std.specs.Prelude.{◌≡◌, ◌<◌, ◌++◌, length, map, IfOk, OnOk};
ghost use Rattle.schema.specs.TypeRules.{has_name_syntax};
ghost use Rattle.entries.specs.Entries.{lines_of};
ghost use Rattle.entries.specs.StoredEntries.{attributes_of, raws, IsMade};
ghost use Rattle.suffixes.specs.MovedDirectories.{moved_attribute, moved_attributes};
ghost use Rattle.suffixes.specs.MovedValues.{moved_value};
ghost use Rattle.suffixes.specs.inner.Lines.{attribute_avas, avas_in, lines_in, AreKnown};

use crate::name_values::NameMover;
use base::Bytes;
use entries::{Entry, Values};
use ldif::Attr;
use schema::{Conf, TypeId, TypeSyntax, is_syntax};
use std::alloc::{AllocError, Global};

/// A type, and a value of it.
pub(crate) type Ava = (TypeId, Bytes);

// whether the values of a type are names
fn has_name_syntax(conf: &Conf, t: TypeId) -> bool
    requires { t < length conf.now.types }
    ensures { result ≡ has_name_syntax conf.now.types t }
{
    let kind = &conf.types()[usize::from(t.number())];
    is_syntax(TypeSyntax::Name, kind.syntax)
}

// puts the values of a type behind others
fn put_values(
    alloc: Global,
    avas: &mut Vec<Ava>,
    t: TypeId,
    values: &Values,
) -> Result<(), AllocError>
    ensures { OnOk result (avas.new.items ≡ avas.old.items ++ attribute_avas (t, raws values.now)) }
{
    for value in values.iter() {
        avas.push((t, Bytes::from_slice(alloc, value.raw())?))?;
    }
    Ok(())
}

// the values of an entry one by one, each with its type
fn all_avas(alloc: Global, entry: &Entry) -> Result<Vec<Ava>, AllocError>
    ensures { IfOk result (λ avas. avas.items ≡ avas_in (attributes_of entry.now.attrs)) }
{
    let mut avas = Vec::new(alloc);
    for (t, values) in entry.attrs() {
        put_values(alloc, &mut avas, *t, values)?;
    }
    Ok(avas)
}

/// The values of an entry one by one, each with its type.
#[tactic(auto, using(crate::proofs::AvaLines::avas_known, crate::proofs::AvaLines::avas_lines))]
pub(crate) fn avas_in(alloc: Global, conf: &Conf, entry: &Entry) -> Result<Vec<Ava>, AllocError>
    requires { IsMade conf.now.types entry.now.attrs }
    ensures known { IfOk result (λ avas. AreKnown conf.now.types avas.items) }
    ensures lines { IfOk result (λ avas. lines_in conf.now.types avas.items ≡ lines_of conf.now.types (attributes_of entry.now.attrs)) }
{
    let _ = conf;
    all_avas(alloc, entry)
}

/// The same as lines, each type by the name that it is printed by.
pub(crate) fn lines_by<'a>(
    alloc: Global,
    conf: &'a Conf,
    avas: &'a [Ava],
) -> Result<Vec<Attr<'a>>, AllocError>
    requires { AreKnown conf.now.types avas.now }
    ensures { IfOk result (λ lines. lines.items ≡ lines_in conf.now.types avas.now) }
{
    let mut lines = Vec::with_capacity(alloc, avas.len())?;
    for (t, value) in avas {
        lines.push(Attr::new(conf.name(*t), value.as_slice()))?;
    }
    Ok(lines)
}

impl NameMover<'_> {
    // puts the values of a type of DN syntax behind others
    fn put_moved(&self, avas: &mut Vec<Ava>, t: TypeId, values: &Values) -> Result<(), AllocError>
        ensures { OnOk result (avas.new.items ≡ avas.old.items
            ++ attribute_avas (t, map (moved_value self.now.conf.now self.now.name.now) (raws values.now))) }
    {
        for value in values.iter() {
            avas.push((t, self.moved_value(value.raw())?))?;
        }
        Ok(())
    }

    // puts the values of an attribute behind others
    fn put_attribute(
        &self,
        avas: &mut Vec<Ava>,
        t: TypeId,
        values: &Values,
    ) -> Result<(), AllocError>
        requires { t < length self.now.conf.now.types }
        ensures { OnOk result (avas.new.items ≡ avas.old.items
            ++ attribute_avas (moved_attribute self.now.conf.now self.now.name.now (t, raws values.now))) }
    {
        if has_name_syntax(self.conf, t) {
            self.put_moved(avas, t, values)
        } else {
            put_values(self.alloc, avas, t, values)
        }
    }

    /// The values of an entry one by one, those of DN syntax under the other suffix.
    #[tactic(auto, using(crate::proofs::AvaLines::moved_known, crate::proofs::AvaLines::avas_lines))]
    pub(crate) fn moved_avas(&self, entry: &Entry) -> Result<Vec<Ava>, AllocError>
        requires { IsMade self.now.conf.now.types entry.now.attrs }
        ensures known { IfOk result (λ avas. AreKnown self.now.conf.now.types avas.items) }
        ensures lines { IfOk result (λ avas. lines_in self.now.conf.now.types avas.items
            ≡ lines_of self.now.conf.now.types (moved_attributes self.now.conf.now self.now.name.now (attributes_of entry.now.attrs))) }
    {
        self.all_moved(entry)
    }

    // the same
    fn all_moved(&self, entry: &Entry) -> Result<Vec<Ava>, AllocError>
        requires { IsMade self.now.conf.now.types entry.now.attrs }
        ensures { IfOk result (λ avas. avas.items
            ≡ avas_in (moved_attributes self.now.conf.now self.now.name.now (attributes_of entry.now.attrs))) }
    {
        let mut avas = Vec::new(self.alloc);
        for (t, values) in entry.attrs() {
            self.put_attribute(&mut avas, *t, values)?;
        }
        Ok(avas)
    }
}
