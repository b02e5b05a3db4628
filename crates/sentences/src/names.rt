//! Names of types, classes and entries.

ghost use Rattle.std.specs.Prelude.{◌≡◌, OnOk};
ghost use Rattle.std.specs.FinMap as finite;
ghost use Rattle.values.specs.Types.{first_or};
ghost use Rattle.sentences.specs.Putting.{IsPut};
ghost use Rattle.sentences.specs.Missing.{parent_text};
ghost use Rattle.sentences.specs.PartWords.{type_words, class_words};

use crate::lines::ShownText;
use crate::shown::push_type_name;
use schema::{Conf, ObjectClass, Path, TypeId};
use std::alloc::AllocError;
use tree::Tree;

/// Puts the name that a type is printed by behind a text.
#[tactic(auto, unfolding(crate::specs::PartWords::type_words))]
pub(crate) fn push_type(out: &mut ShownText, conf: &Conf, t: TypeId) -> Result<(), AllocError>
    ensures { OnOk result (IsPut out.old out.new (type_words conf.now t)) }
{
    match conf.types().get(t.number() as usize) {
        Some(found) => push_type_name(out, found.printed_name()),
        None => out.push_str("an attribute type"),
    }
}

/// The first name of a class, or its OID where it has none.
fn name_of_class(class: &ObjectClass) -> &[u8]
    ensures { result.now ≡ first_or class.now.names class.now.oid }
{
    match class.names.as_slice() {
        [first, ..] => first.as_slice(),
        [] => class.oid.as_slice(),
    }
}

/// Puts the name of the class with this number behind a text.
#[tactic(auto, unfolding(crate::specs::PartWords::class_words))]
pub(crate) fn push_class(out: &mut ShownText, conf: &Conf, class: usize) -> Result<(), AllocError>
    ensures { OnOk result (IsPut out.old out.new (class_words conf.now class)) }
{
    match conf.classes().get(class) {
        Some(found) => push_type_name(out, name_of_class(found)),
        None => out.push_str("a class"),
    }
}

/// Whether an entry is at a path.
pub(crate) fn is_there(tree: &Tree, path: &Path) -> bool
    ensures { result ≡ finite.contains_key tree.now.entries path.now }
{
    tree.get(path).is_some()
}

/// What stands behind the first RDN of a name (RFC 4514): the name of the entry above.
pub(crate) fn parent_text(name: &[u8]) -> &[u8]
    ensures { result.now ≡ parent_text name.now }
{
    let mut escaped = false;
    for (at, byte) in name.iter().enumerate() {
        if *byte == b',' && !escaped {
            return &name[at + 1..];
        }
        escaped = *byte == b'\\' && !escaped;
    }
    &[]
}
