//! The definition of an object class (RFC 4512, 4.1.1).

ghost use Rattle.std.specs.Prelude.{◌≡◌, Some, IfOk, is_some};
ghost use Rattle.definitions.specs.declared.class_definition.ClassField.TheVariants as fields;
ghost use Rattle.definitions.specs.Elements.{fields_to_end, is_some_list, unless};
ghost use Rattle.definitions.specs.ClassDefinitions.{list_of, kind_of, may_be_quoted, field_of, field_at, with_list, with_field, empty_definition, class_with, class_definition_of};
ghost use Rattle.definitions.specs.Gives.{Gives};

use crate::element::{Element, ElementField, Sort, element_field, ends_there, head_at};
use crate::fault::DefinitionFault;
use crate::texts::names_at;
use crate::words::word_at;
use base::{Bytes, ClassKind, Sequence};
use std::alloc::{AllocError, Global};

/// A field that names classes or types.
#[derive(Clone, Copy, PartialEq, Eq)]
pub(crate) enum ClassList {
    /// SUP
    Superiors,
    /// MUST
    Must,
    /// MAY
    May,
}

/// A field of a definition.
#[derive(Drop)]
pub(crate) enum ClassField {
    Element(ElementField),
    List(ClassList, Sequence<Bytes>),
    Kind(ClassKind),
}

/// What a definition says of an object class. Names of classes and types are as written.
#[derive(Drop)]
pub struct ClassDefinition {
    pub element: Element,
    /// The classes that it is derived from (SUP).
    pub superiors: Sequence<Bytes>,
    pub kind: Option<ClassKind>,
    /// The types that an entry of it has.
    pub must: Sequence<Bytes>,
    /// The types that an entry of it may have.
    pub may: Sequence<Bytes>,
}

#[tactic(auto, unfolding(crate::specs::ClassDefinitions::list_of))]
fn list_of(word: &[u8]) -> Option<ClassList>
    ensures { result ≡ list_of word.now }
{
    if word.eq_ignore_ascii_case(b"SUP") {
        Some(ClassList::Superiors)
    } else if word.eq_ignore_ascii_case(b"MUST") {
        Some(ClassList::Must)
    } else if word.eq_ignore_ascii_case(b"MAY") {
        Some(ClassList::May)
    } else {
        None
    }
}

#[tactic(auto, unfolding(crate::specs::ClassDefinitions::kind_of))]
fn kind_of(word: &[u8]) -> Option<ClassKind>
    ensures { result ≡ kind_of word.now }
{
    if word.eq_ignore_ascii_case(b"ABSTRACT") {
        Some(ClassKind::Abstract)
    } else if word.eq_ignore_ascii_case(b"STRUCTURAL") {
        Some(ClassKind::Structural)
    } else if word.eq_ignore_ascii_case(b"AUXILIARY") {
        Some(ClassKind::Auxiliary)
    } else {
        None
    }
}

fn may_be_quoted(which: ClassList) -> bool
    ensures { result ≡ may_be_quoted which }
{
    match which {
        ClassList::Superiors => true,
        ClassList::Must | ClassList::May => false,
    }
}

fn field_of<'a>(
    alloc: Global,
    word: &[u8],
    rest: &'a [u8],
) -> Result<(ClassField, &'a [u8]), DefinitionFault>
    ensures { Gives (λ x. (x.0, x.1.now)) result (field_of (word.now, rest.entry.now)) }
{
    if let Some(which) = list_of(word) {
        let (names, rest) = names_at(alloc, may_be_quoted(which), rest)?;
        return Ok((ClassField::List(which, Sequence::from_vec(names)), rest));
    }
    if let Some(kind) = kind_of(word) {
        return Ok((ClassField::Kind(kind), rest));
    }
    let (field, rest) = element_field(alloc, Sort::ObjectClass, word, rest)?;
    Ok((ClassField::Element(field), rest))
}

// a field of a definition, and what follows it
#[tactic(auto, unfolding(crate::specs::ClassDefinitions::field_at))]
fn field_at(alloc: Global, text: &[u8]) -> Result<(ClassField, &[u8]), DefinitionFault>
    ensures { Gives (λ x. (x.0, x.1.now)) result (field_at text.now) }
{
    match word_at(text) {
        Some((word, rest)) => field_of(alloc, word, rest),
        None => Err(DefinitionFault::Form),
    }
}

fn put(list: &mut Sequence<Bytes>, names: Sequence<Bytes>) -> Result<(), DefinitionFault>
    ensures { Gives (λ _. list.new) result (unless (is_some_list list.old) names) }
{
    if !list.is_empty() {
        return Err(DefinitionFault::Form);
    }
    *list = names;
    Ok(())
}

impl ClassDefinition {
    fn empty(alloc: Global, oid: &[u8]) -> Result<ClassDefinition, AllocError>
        ensures { IfOk result (λ d. d ≡ empty_definition oid.now) }
    {
        Ok(ClassDefinition {
            element: Element::empty(alloc, oid)?,
            superiors: Sequence::new(alloc),
            kind: None,
            must: Sequence::new(alloc),
            may: Sequence::new(alloc),
        })
    }

    #[tactic(auto, unfolding(crate::specs::ClassDefinitions::with_list))]
    fn put_list(&mut self, which: ClassList, names: Sequence<Bytes>) -> Result<(), DefinitionFault>
        ensures { Gives (λ _. self.new) result (with_list self.old which names) }
    {
        match which {
            ClassList::Superiors => put(&mut self.superiors, names),
            ClassList::Must => put(&mut self.must, names),
            ClassList::May => put(&mut self.may, names),
        }
    }

    #[tactic(auto, unfolding(crate::specs::ClassDefinitions::with_field))]
    fn put_kind(&mut self, kind: ClassKind) -> Result<(), DefinitionFault>
        ensures { Gives (λ _. self.new) result (with_field self.old (fields.Kind kind)) }
    {
        if self.kind.is_some() {
            return Err(DefinitionFault::Form);
        }
        self.kind = Some(kind);
        Ok(())
    }

    // one more field, which isn't there yet
    #[tactic(auto, unfolding(crate::specs::ClassDefinitions::with_field))]
    fn put_field(&mut self, field: ClassField) -> Result<(), DefinitionFault>
        ensures { Gives (λ _. self.new) result (with_field self.old field) }
    {
        match field {
            ClassField::Element(field) => self.element.put(field),
            ClassField::List(which, names) => self.put_list(which, names),
            ClassField::Kind(kind) => self.put_kind(kind),
        }
    }

    // the fields up to the end
    fn put_fields(&mut self, alloc: Global, text: &[u8]) -> Result<(), DefinitionFault>
        ensures { Gives (λ _. self.new) result (fields_to_end field_at with_field self.old text.now text.now) }
    {
        let mut rest = text;
        for _ in text {
            if ends_there(rest) {
                return Ok(());
            }
            let (field, behind) = field_at(alloc, rest)?;
            self.put_field(field)?;
            rest = behind;
        }
        Err(DefinitionFault::Form)
    }
}

fn class_with(alloc: Global, oid: &[u8], fields: &[u8]) -> Result<ClassDefinition, DefinitionFault>
    ensures { Gives (λ d. d) result (class_with (oid.now, fields.now)) }
{
    let mut definition = ClassDefinition::empty(alloc, oid)?;
    definition.put_fields(alloc, fields)?;
    Ok(definition)
}

/// The object class that a definition defines: `( OID`, the fields in any order, each at most once, and `)`. `Form` where it
/// can't be read or a name isn't allowed.
#[tactic(auto, unfolding(crate::specs::ClassDefinitions::class_definition_of))]
pub fn read_class_definition(alloc: Global, text: &[u8]) -> Result<ClassDefinition, DefinitionFault>
    ensures { Gives (λ d. d) result (class_definition_of text.now) }
{
    match head_at(text) {
        Some((oid, fields)) => class_with(alloc, oid, fields),
        None => Err(DefinitionFault::Form),
    }
}
