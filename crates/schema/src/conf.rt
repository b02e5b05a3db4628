//! A configuration, and what it says of types, values and names.

ghost use Rattle.std.specs.Prelude.{◌≡◌, ◌<◌, ◌≤◌, IfOk, IfSome, length, map, reverse};
ghost use Rattle.dn.specs.Writing.{text_of};
ghost use Rattle.schema.specs.Names.{written_rdn};
ghost use Rattle.schema.specs.Rdns.{rdn_key_of};
ghost use Rattle.schema.specs.Classes.{class_of};
ghost use Rattle.schema.specs.Values.{normal_text};
ghost use Rattle.values.specs.Types.{type_of, name_of, type_at};

use crate::class_table::ClassTable;
use crate::derived::Derived;
use crate::object_class::ObjectClass;
use crate::settled::Settled;
use crate::slots::Slot;
use base::Sequence;
use paths::{Path, TypedRdn};
use std::alloc::{AllocError, Global};
use std::marker::Model;
use values::{AttributeType, TypeId, TypeTable};

/// The configuration of a directory. A contract sees its attribute types, its suffix, its slots and its object classes.
pub struct Conf {
    types: TypeTable,
    suffix: Sequence<TypedRdn>,
    slots: Sequence<Slot>,
    classes: ClassTable,
    derived: Derived,
}

// A call of its own, so that no other crate proves it anew.
impl Drop for Conf {
    fn drop(self) {
        let Conf {
            types: _,
            suffix: _,
            slots: _,
            classes: _,
            derived: _,
        } = self;
    }
}

impl Model for Conf {
    ghost use Rattle.schema.specs.Conf.{Conf};
    ghost use Rattle.schema.specs.inner.Confs.{Keeps};

    ghost Value = { Conf };

    ghost view = { λ c. record { types = c.types; suffix = c.suffix; slots = c.slots; classes = c.classes } };

    ghost invariant = { λ c. Keeps (record { types = c.types; suffix = c.suffix; slots = c.slots; classes = c.classes }) c.derived };
}

impl Conf {
    ghost use Rattle.schema.specs.Conf.{IsConf, root_rdn};
    ghost use Rattle.schema.specs.inner.Settled.{IsSettled};

    /// The configuration of these types, suffix, slots and classes.
    pub fn new(
        alloc: Global,
        types: TypeTable,
        suffix: Sequence<TypedRdn>,
        slots: Sequence<Slot>,
        classes: ClassTable,
    ) -> Result<Conf, AllocError>
        requires { IsConf (record { types = types; suffix = suffix; slots = slots; classes = classes }) }
        ensures { IfOk result (λ conf. conf ≡ record { types = types; suffix = suffix; slots = slots; classes = classes }) }
    {
        let derived = Derived::of(alloc, &types, suffix.as_slice(), classes.as_slice())?;
        Ok(Conf {
            types,
            suffix,
            slots,
            classes,
            derived,
        })
    }

    /// Every configuration keeps the rules of one. It does nothing: a call of it is made for what it states.
    pub fn rules_are_kept(&self)
        ensures { IsConf self.now }
    {
        let _ = &self.types;
    }

    pub(crate) fn table(&self) -> &TypeTable
        ensures { result.now ≡ self.now.types }
    {
        &self.types
    }

    /// Its attribute types, each at its number.
    pub fn types(&self) -> &[AttributeType]
        ensures types { result.now ≡ self.now.types }
        ensures few { length result.now ≤ 65535 }
    {
        self.types.as_slice()
    }

    /// The number of the type with this name or OID, without ASCII case.
    pub fn type_of(&self, name: &[u8]) -> Option<TypeId>
        ensures place { result ≡ type_of self.now.types name.now }
        ensures known { IfSome result (λ t. t < length self.now.types) }
    {
        self.types.type_of(name)
    }

    pub(crate) fn at(&self, t: TypeId) -> &AttributeType
        requires { t < length self.now.types }
        ensures { result.now ≡ type_at self.now.types t }
    {
        self.types.at(t)
    }

    /// Its object classes, each at its number.
    pub fn classes(&self) -> &[ObjectClass]
        ensures { result.now ≡ self.now.classes }
    {
        self.classes.as_slice()
    }

    /// What an object class asks, with all of its superclasses.
    pub(crate) fn settled_class(&self, class: usize) -> &Settled
        requires { class < length self.now.classes }
        ensures { IsSettled self.now.classes class result.now }
    {
        &self.derived.settled.as_slice()[class]
    }

    /// The number of the object class with this name or OID, without ASCII case.
    pub fn class_of(&self, name: &[u8]) -> Option<usize>
        ensures place { result ≡ class_of self.now.classes name.now }
        ensures known { IfSome result (λ c. c < length self.now.classes) }
    {
        self.classes.class_of(name)
    }

    /// The suffix's RDNs, its own entry's first.
    pub fn suffix(&self) -> &[TypedRdn]
        ensures { result.now ≡ self.now.suffix }
    {
        self.suffix.as_slice()
    }

    /// The suffix as it is written: each type by the name that it is printed by, and values as the configuration spells them.
    pub fn suffix_text(&self) -> &[u8]
        ensures { result.now ≡ text_of (map (written_rdn self.now.types) self.now.suffix) }
    {
        self.derived.suffix_text.as_slice()
    }

    /// The normal form of the suffix as a value of DN syntax.
    pub(crate) fn suffix_norm(&self) -> &[u8]
        ensures { result.now ≡ normal_text self.now.types self.now.suffix }
    {
        self.derived.suffix_norm.as_slice()
    }

    /// What is indexed: each slot once, by the number of its type, and then by its kind: equality, presence, substrings.
    pub fn slots(&self) -> &[Slot]
        ensures { result.now ≡ self.now.slots }
    {
        self.slots.as_slice()
    }

    /// What the suffix's RDNs come to, from the root of the tree down.
    pub(crate) fn root(&self) -> &Path
        ensures { result.now ≡ map (rdn_key_of self.now.types) (reverse self.now.suffix) }
    {
        &self.derived.root
    }

    /// The RDN of the suffix's own entry.
    pub fn suffix_rdn(&self) -> &TypedRdn
        ensures { result.now ≡ root_rdn self.now }
    {
        match self.suffix.as_slice() {
            [first, ..] => first,
            [] => unreachable!(),
        }
    }
}
