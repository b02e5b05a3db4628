//! What definitions of attribute types and of object classes have in common (RFC 4512, 4.1).

ghost use Rattle.std.specs.Prelude.{◌≡◌, true, IfOk};
ghost use Rattle.std.specs.Option.{option_map};
ghost use Rattle.std.specs.List.{list_all};
ghost use Rattle.definitions.specs.Words.{◌>>>◌, quoted_at};
ghost use Rattle.definitions.specs.Texts.{quoted_texts_at};
ghost use Rattle.definitions.specs.Elements.{is_extension, is_allowed, names_field, description_field, extension_field, element_field, is_extended, unless, empty_element, ends_there, head_at};
ghost use Rattle.definitions.specs.Gives.{Gives};

use crate::fault::DefinitionFault;
use crate::texts::quoted_texts_at;
use crate::words::{quoted_at, sign_at, skip, word_at};
use base::{Bytes, Sequence, is_name, is_oid, is_type_name};
use std::alloc::{AllocError, Global};

/// What a definition defines.
#[derive(Clone, Copy)]
pub(crate) enum Sort {
    AttributeType,
    ObjectClass,
}

/// What a definition says of a type or class as such.
#[derive(Drop)]
pub struct Element {
    /// Its numeric OID.
    pub oid: Bytes,
    /// Its names, perhaps none.
    pub names: Sequence<Bytes>,
    /// Whether it has a DESC.
    pub is_described: bool,
    pub is_obsolete: bool,
    /// The names of its extensions, `X-..`.
    pub extensions: Sequence<Bytes>,
}

/// A field that says something of a type or class as such.
#[derive(Drop)]
pub(crate) enum ElementField {
    Names(Sequence<Bytes>),
    Description,
    Obsolete,
    /// An extension, by its whole name.
    Extension(Bytes),
}

fn is_extension(word: &[u8]) -> bool
    ensures { result ≡ is_extension word.now }
{
    word.len() > 2 && word.split_at(2).0.eq_ignore_ascii_case(b"X-")
}

fn is_allowed(sort: Sort, name: &[u8]) -> bool
    ensures { result ≡ is_allowed sort name.now }
{
    match sort {
        Sort::AttributeType => is_type_name(name),
        Sort::ObjectClass => is_name(name),
    }
}

fn are_allowed(sort: Sort, names: &[Bytes]) -> bool
    ensures { result ≡ list_all (is_allowed sort) names.now }
{
    names.iter().all(|name| is_allowed(sort, name.as_slice()))
}

fn names_field(
    alloc: Global,
    sort: Sort,
    text: &[u8],
) -> Result<(ElementField, &[u8]), DefinitionFault>
    ensures { Gives (λ x. (x.0, x.1.now)) result (quoted_texts_at text.now >>> names_field sort) }
{
    let (names, rest) = quoted_texts_at(alloc, text)?;
    if are_allowed(sort, &names) {
        Ok((ElementField::Names(Sequence::from_vec(names)), rest))
    } else {
        Err(DefinitionFault::Form)
    }
}

fn description_field(text: &[u8]) -> Result<(ElementField, &[u8]), DefinitionFault>
    ensures { Gives (λ x. (x.0, x.1.now)) result (quoted_at text.now >>> description_field) }
{
    match quoted_at(text) {
        Some((_, rest)) => Ok((ElementField::Description, rest)),
        None => Err(DefinitionFault::Form),
    }
}

fn extension_field<'a>(
    alloc: Global,
    word: &[u8],
    text: &'a [u8],
) -> Result<(ElementField, &'a [u8]), DefinitionFault>
    ensures { Gives (λ x. (x.0, x.1.now)) result (quoted_texts_at text.entry.now >>> extension_field word.now) }
{
    let (_, rest) = quoted_texts_at(alloc, text)?;
    Ok((
        ElementField::Extension(Bytes::from_slice(alloc, word)?),
        rest,
    ))
}

/// The field with this word, of what follows it.
#[tactic(auto, unfolding(crate::specs::Elements::element_field))]
pub(crate) fn element_field<'a>(
    alloc: Global,
    sort: Sort,
    word: &[u8],
    rest: &'a [u8],
) -> Result<(ElementField, &'a [u8]), DefinitionFault>
    ensures { Gives (λ x. (x.0, x.1.now)) result (element_field sort word.now rest.entry.now) }
{
    if word.eq_ignore_ascii_case(b"NAME") {
        names_field(alloc, sort, rest)
    } else if word.eq_ignore_ascii_case(b"DESC") {
        description_field(rest)
    } else if word.eq_ignore_ascii_case(b"OBSOLETE") {
        Ok((ElementField::Obsolete, rest))
    } else if is_extension(word) {
        extension_field(alloc, word, rest)
    } else {
        Err(DefinitionFault::Form)
    }
}

impl Element {
    ghost use Rattle.definitions.specs.declared.element.ElementField.TheVariants as fields;
    ghost use Rattle.definitions.specs.Elements.{with_element_field};

    pub(crate) fn empty(alloc: Global, oid: &[u8]) -> Result<Element, AllocError>
        ensures { IfOk result (λ e. e ≡ empty_element oid.now) }
    {
        Ok(Element {
            oid: Bytes::from_slice(alloc, oid)?,
            names: Sequence::new(alloc),
            is_described: false,
            is_obsolete: false,
            extensions: Sequence::new(alloc),
        })
    }

    fn is_extended(&self, name: &[u8]) -> bool
        ensures { result ≡ is_extended self.now name.now }
    {
        self.extensions
            .as_slice()
            .iter()
            .any(|other| other.as_slice().eq_ignore_ascii_case(name))
    }

    #[tactic(auto, unfolding(crate::specs::Elements::with_element_field))]
    fn put_extension(&mut self, name: Bytes) -> Result<(), DefinitionFault>
        ensures { Gives (λ _. self.new) result (with_element_field self.old (fields.Extension name)) }
    {
        if self.is_extended(name.as_slice()) {
            return Err(DefinitionFault::Form);
        }
        self.extensions.push(name)?;
        Ok(())
    }

    #[tactic(auto, unfolding(crate::specs::Elements::with_element_field))]
    fn put_names(&mut self, names: Sequence<Bytes>) -> Result<(), DefinitionFault>
        ensures { Gives (λ _. self.new) result (with_element_field self.old (fields.Names names)) }
    {
        if !self.names.is_empty() {
            return Err(DefinitionFault::Form);
        }
        self.names = names;
        Ok(())
    }

    /// One more field, which isn't there yet.
    #[tactic(auto, unfolding(crate::specs::Elements::with_element_field))]
    pub(crate) fn put(&mut self, field: ElementField) -> Result<(), DefinitionFault>
        ensures { Gives (λ _. self.new) result (with_element_field self.old field) }
    {
        match field {
            ElementField::Names(names) => self.put_names(names),
            ElementField::Description => raise(&mut self.is_described),
            ElementField::Obsolete => raise(&mut self.is_obsolete),
            ElementField::Extension(name) => self.put_extension(name),
        }
    }
}

/// Says what isn't said yet.
pub(crate) fn raise(flag: &mut bool) -> Result<(), DefinitionFault>
    ensures { Gives (λ _. flag.new) result (unless flag.old true) }
{
    if *flag {
        return Err(DefinitionFault::Form);
    }
    *flag = true;
    Ok(())
}

/// Whether `)` stands there and nothing more.
pub(crate) fn ends_there(text: &[u8]) -> bool
    ensures { result ≡ ends_there text.now }
{
    match sign_at(b')', text) {
        Some(rest) => skip(rest).is_empty(),
        None => false,
    }
}

/// `( OID`, and what follows.
#[tactic(auto, unfolding(crate::specs::Elements::head_at))]
pub(crate) fn head_at(text: &[u8]) -> Option<(&[u8], &[u8])>
    ensures { option_map (λ w. (w.0.now, w.1.now)) result ≡ head_at text.now }
{
    let inside = sign_at(b'(', text)?;
    match word_at(inside) {
        Some((oid, fields)) if is_oid(oid) => Some((oid, fields)),
        _ => None,
    }
}
