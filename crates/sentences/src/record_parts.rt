//! What a record says.

ghost use Rattle.std.specs.Prelude.{◌≡◌};
ghost use Rattle.std.specs.Option.{option_map};
ghost use Rattle.tree.specs.Operations.{controls_of};
ghost use Rattle.reasons.specs.Asked.{name_of_record, lines_of_record, blocks_of_record, rdn_of_record, superior_of_record};
ghost use Rattle.sentences.specs.ClassWords.{naming_text};

use ldif::{Attr, Control, Mod, Record};

/// The name of the entry that it is about.
pub(crate) fn name_in<'a>(asked: &'a Record<'_>) -> &'a [u8]
    ensures { result.now ≡ name_of_record asked.now }
{
    match asked {
        Record::Empty => &[],
        Record::Content { dn, .. } => dn.as_slice(),
        Record::Add { dn, .. } => dn.as_slice(),
        Record::Delete { dn, .. } => dn.as_slice(),
        Record::Modify { dn, .. } => dn.as_slice(),
        Record::ModRdn { dn, .. } => dn.as_slice(),
    }
}

/// Whether it is to add an entry.
pub(crate) fn is_add(asked: &Record<'_>) -> bool {
    matches!(asked, Record::Content { .. } | Record::Add { .. })
}

pub(crate) fn controls_in<'a>(asked: &'a Record<'_>) -> &'a [Control]
    ensures { result.now ≡ controls_of asked.now }
{
    match asked {
        Record::Empty | Record::Content { .. } => &[],
        Record::Add { controls, .. } => controls.as_slice(),
        Record::Delete { controls, .. } => controls.as_slice(),
        Record::Modify { controls, .. } => controls.as_slice(),
        Record::ModRdn { controls, .. } => controls.as_slice(),
    }
}

/// The lines of an add.
pub(crate) fn lines_in<'a, 'b>(asked: &'a Record<'b>) -> &'a [Attr<'b>]
    ensures { result.now ≡ lines_of_record asked.now }
{
    match asked {
        Record::Content { attrs, .. } => attrs.as_slice(),
        Record::Add { attrs, .. } => attrs.as_slice(),
        _ => &[],
    }
}

/// The blocks of a modify.
pub(crate) fn blocks_in<'a>(asked: &'a Record<'_>) -> &'a [Mod]
    ensures { result.now ≡ blocks_of_record asked.now }
{
    match asked {
        Record::Modify { mods, .. } => mods.as_slice(),
        _ => &[],
    }
}

/// The new RDN of a modify DN.
pub(crate) fn new_rdn_in<'a>(asked: &'a Record<'_>) -> &'a [u8]
    ensures { result.now ≡ rdn_of_record asked.now }
{
    match asked {
        Record::ModRdn { newrdn, .. } => newrdn.as_slice(),
        _ => &[],
    }
}

/// The text whose first RDN gives the entry values: the name of an add, or the new RDN of a modify DN.
pub(crate) fn naming_text_in<'a>(asked: &'a Record<'_>) -> &'a [u8]
    ensures { result.now ≡ naming_text asked.now }
{
    match asked {
        Record::Content { dn, .. } => dn.as_slice(),
        Record::Add { dn, .. } => dn.as_slice(),
        Record::ModRdn { newrdn, .. } => newrdn.as_slice(),
        _ => &[],
    }
}

/// The name of its new superior, if it has one.
pub(crate) fn new_superior_in<'a>(asked: &'a Record<'_>) -> Option<&'a [u8]>
    ensures { option_map (λ n. n.now) result ≡ superior_of_record asked.now }
{
    match asked {
        Record::ModRdn {
            new_superior: Some(name),
            ..
        } => Some(name.as_slice()),
        _ => None,
    }
}
