//! Whether the classes of a configuration ask for types that users can't change (RFC 4512, 4.1.2).

ghost use Rattle.std.specs.Prelude.{◌≡◌, ◌||◌, not, IsTrue};
ghost use Rattle.std.specs.List.{list_all};
ghost use Rattle.values.specs.Types.{type_at};
ghost use Rattle.differences.specs.Follows.{AsksNoFixed};

use schema::{Conf, ObjectClass, TypeId};

/// Whether users can't change a type.
fn is_fixed(conf: &Conf, t: TypeId) -> bool
    ensures { result ≡ (type_at conf.now.types t).is_fixed }
{
    match conf.types().get(t.number() as usize) {
        Some(found) => found.is_fixed,
        None => false,
    }
}

/// Whether users can change each type that a class requires.
fn requires_no_fixed(conf: &Conf, class: &ObjectClass) -> bool
    ensures { result ≡ list_all (λ t. not ((type_at conf.now.types t).is_fixed)) class.now.must }
{
    let types = class.must.as_slice();
    for t in types {
        if is_fixed(conf, *t) {
            return false;
        }
    }
    true
}

/// Whether users can change each type that any class requires.
fn no_class_requires_fixed(conf: &Conf) -> bool
    ensures { result ≡ list_all (λ c. list_all (λ t. not ((type_at conf.now.types t).is_fixed)) c.must) conf.now.classes }
{
    let classes = conf.classes();
    for class in classes {
        if !requires_no_fixed(conf, class) {
            return false;
        }
    }
    true
}

/// Whether servers use each type that users can't change, so that any entry may have it.
fn fixed_are_operational(conf: &Conf) -> bool
    ensures { result ≡ list_all (λ t. not t.is_fixed || t.is_operational) conf.now.types }
{
    let types = conf.types();
    for found in types {
        if found.is_fixed && !found.is_operational {
            return false;
        }
    }
    true
}

/// Whether no class asks for a type that users can't change, nor doesn't allow one.
pub(crate) fn asks_no_fixed(conf: &Conf) -> bool
    ensures { IsTrue result → AsksNoFixed conf.now }
{
    no_class_requires_fixed(conf) && fixed_are_operational(conf)
}
