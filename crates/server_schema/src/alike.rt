//! Whether two definitions say the same.

ghost use Rattle.std.specs.Prelude.{◌≡◌, ◌++◌, IfOk, OnOk, option_copied, option_to_list};
ghost use Rattle.std.specs.List.{list_any, list_all};
ghost use Rattle.std.specs.Option.{option_eq};
ghost use Rattle.std.specs.Str.{bytes_eq, str_eq_ignore_ascii_case};
ghost use Rattle.dir_conf.specs.inner.Views.{defined_view};
ghost use Rattle.values.specs.Types.{type_of};
ghost use Rattle.schema.specs.Classes.{class_of};
ghost use Rattle.definitions.specs.TypeDefinitions.{type_definition_of};
ghost use Rattle.definitions.specs.ClassDefinitions.{class_definition_of};
ghost use Rattle.server_schema.specs.Alike.{is_one, is_same_word, is_among_words, are_same_words, has_name, have_same_names, are_same_elements, is_same_kind, are_same_classes, have_same_rules, is_same_usage, have_same_uses, are_same_types, type_meant, class_meant, meaning_of, meanings_of, are_alike, is_one_alike, is_among};

use crate::definition::{Definition, Sort};
use base::{Bytes, ClassKind};
use definitions::{
    ClassDefinition, DefinitionFault, Element, TypeDefinition, Usage, read_class_definition,
    read_type_definition,
};
use dir_conf::Defined;
use schema::ClassTable;
use std::alloc::{AllocError, Global};
use values::TypeTable;

/// What a definition that can be read says.
pub(crate) enum Meaning {
    OfType(TypeDefinition),
    OfClass(ClassDefinition),
}

impl Drop for Meaning {
    fn drop(self) {
        match self {
            Meaning::OfType(definition) => drop(definition),
            Meaning::OfClass(definition) => drop(definition),
        }
    }
}

// ---- words

fn is_one_type(types: &TypeTable, a: &[u8], b: &[u8]) -> bool
    ensures { result ≡ is_one (type_of types.now a.now) (type_of types.now b.now) }
{
    match (types.type_of(a), types.type_of(b)) {
        (Some(t), Some(u)) => t == u,
        _ => false,
    }
}

fn is_one_class(classes: &ClassTable, a: &[u8], b: &[u8]) -> bool
    ensures { result ≡ is_one (class_of classes.now a.now) (class_of classes.now b.now) }
{
    match (classes.class_of(a), classes.class_of(b)) {
        (Some(c), Some(d)) => c == d,
        _ => false,
    }
}

// whether two words name the same type or class
fn is_same_word(defined: &Defined, sort: Sort, a: &Bytes, b: &Bytes) -> bool
    ensures { result ≡ is_same_word (defined_view defined.now) sort a.now b.now }
{
    let a = a.as_slice();
    let b = b.as_slice();
    a.eq_ignore_ascii_case(b)
        || match sort {
            Sort::AttributeType => is_one_type(&defined.types, a, b),
            Sort::ObjectClass => is_one_class(&defined.classes, a, b),
        }
}

fn is_among_words(defined: &Defined, sort: Sort, words: &[Bytes], word: &Bytes) -> bool
    ensures { result ≡ is_among_words (defined_view defined.now) sort words.now word.now }
{
    words
        .iter()
        .any(|other| is_same_word(defined, sort, other, word))
}

fn are_among_words(defined: &Defined, sort: Sort, words: &[Bytes], others: &[Bytes]) -> bool
    ensures { result ≡ list_all (is_among_words (defined_view defined.now) sort words.now) others.now }
{
    others
        .iter()
        .all(|other| is_among_words(defined, sort, words, other))
}

// whether two lists name the same, in any order, however often
fn are_same_words(defined: &Defined, sort: Sort, a: &[Bytes], b: &[Bytes]) -> bool
    ensures { result ≡ are_same_words (defined_view defined.now) sort a.now b.now }
{
    are_among_words(defined, sort, a, b) && are_among_words(defined, sort, b, a)
}

// ---- names

fn has_name(names: &[Bytes], name: &Bytes) -> bool
    ensures { result ≡ has_name names.now name.now }
{
    let name = name.as_slice();
    names
        .iter()
        .any(|other| other.as_slice().eq_ignore_ascii_case(name))
}

fn has_names(names: &[Bytes], others: &[Bytes]) -> bool
    ensures { result ≡ list_all (has_name names.now) others.now }
{
    others.iter().all(|other| has_name(names, other))
}

fn is_same_text(a: Option<&Bytes>, b: Option<&Bytes>) -> bool
    ensures { result ≡ option_eq bytes_eq (option_copied a.entry) (option_copied b.entry) }
{
    match (a, b) {
        (None, None) => true,
        (Some(x), Some(y)) => x == y,
        _ => false,
    }
}

// whether these are the same names with the same one first
fn have_same_names(a: &[Bytes], b: &[Bytes]) -> bool
    ensures { result ≡ have_same_names a.now b.now }
{
    is_same_text(a.first(), b.first()) && (has_names(a, b) && has_names(b, a))
}

fn are_same_elements(a: &Element, b: &Element) -> bool
    ensures { result ≡ are_same_elements a.now b.now }
{
    a.oid == b.oid && have_same_names(a.names.as_slice(), b.names.as_slice())
}

// ---- classes

fn is_same_kind(a: Option<ClassKind>, b: Option<ClassKind>) -> bool
    ensures { result ≡ is_same_kind a b }
{
    match (
        a.unwrap_or(ClassKind::Structural),
        b.unwrap_or(ClassKind::Structural),
    ) {
        (ClassKind::Abstract, ClassKind::Abstract) => true,
        (ClassKind::Structural, ClassKind::Structural) => true,
        (ClassKind::Auxiliary, ClassKind::Auxiliary) => true,
        _ => false,
    }
}

fn are_same_classes(defined: &Defined, a: &ClassDefinition, b: &ClassDefinition) -> bool
    ensures { result ≡ are_same_classes (defined_view defined.now) a.now b.now }
{
    let types = Sort::AttributeType;
    are_same_elements(&a.element, &b.element)
        && (is_same_kind(a.kind, b.kind)
            && (are_same_words(
                defined,
                Sort::ObjectClass,
                a.superiors.as_slice(),
                b.superiors.as_slice(),
            ) && (are_same_words(defined, types, a.must.as_slice(), b.must.as_slice())
                && are_same_words(defined, types, a.may.as_slice(), b.may.as_slice()))))
}

// ---- types

fn is_same_rule(a: Option<&Bytes>, b: Option<&Bytes>) -> bool
    ensures { result ≡ option_eq str_eq_ignore_ascii_case (option_copied a.entry) (option_copied b.entry) }
{
    match (a, b) {
        (None, None) => true,
        (Some(x), Some(y)) => x.as_slice().eq_ignore_ascii_case(y.as_slice()),
        _ => false,
    }
}

fn is_same_superior(defined: &Defined, a: Option<&Bytes>, b: Option<&Bytes>) -> bool
    ensures { result ≡ option_eq (is_same_word (defined_view defined.now) Sort.AttributeType) (option_copied a.entry) (option_copied b.entry) }
{
    match (a, b) {
        (None, None) => true,
        (Some(x), Some(y)) => is_same_word(defined, Sort::AttributeType, x, y),
        _ => false,
    }
}

fn have_same_rules(a: &TypeDefinition, b: &TypeDefinition) -> bool
    ensures { result ≡ have_same_rules a.now b.now }
{
    is_same_rule(a.equality.as_ref(), b.equality.as_ref())
        && (is_same_rule(a.ordering.as_ref(), b.ordering.as_ref())
            && (is_same_rule(a.substrings.as_ref(), b.substrings.as_ref())
                && is_same_text(a.syntax.as_ref(), b.syntax.as_ref())))
}

fn is_same_usage(a: Option<Usage>, b: Option<Usage>) -> bool
    ensures { result ≡ is_same_usage a b }
{
    match (
        a.unwrap_or(Usage::UserApplications),
        b.unwrap_or(Usage::UserApplications),
    ) {
        (Usage::UserApplications, Usage::UserApplications) => true,
        (Usage::DirectoryOperation, Usage::DirectoryOperation) => true,
        (Usage::DistributedOperation, Usage::DistributedOperation) => true,
        (Usage::DsaOperation, Usage::DsaOperation) => true,
        _ => false,
    }
}

fn have_same_uses(a: &TypeDefinition, b: &TypeDefinition) -> bool
    ensures { result ≡ have_same_uses a.now b.now }
{
    a.is_single_value == b.is_single_value
        && (a.is_collective == b.is_collective
            && (a.is_fixed == b.is_fixed && is_same_usage(a.usage, b.usage)))
}

fn are_same_types(defined: &Defined, a: &TypeDefinition, b: &TypeDefinition) -> bool
    ensures { result ≡ are_same_types (defined_view defined.now) a.now b.now }
{
    are_same_elements(&a.element, &b.element)
        && (is_same_superior(defined, a.superior.as_ref(), b.superior.as_ref())
            && (have_same_rules(a, b) && have_same_uses(a, b)))
}

// ---- definitions

/// The type that a text defines, if it can be read.
pub(crate) fn type_in(alloc: Global, text: &[u8]) -> Result<Option<TypeDefinition>, AllocError>
    ensures { IfOk result (λ d. d ≡ type_definition_of text.now) }
{
    match read_type_definition(alloc, text) {
        Ok(definition) => Ok(Some(definition)),
        Err(DefinitionFault::Form) => Ok(None),
        Err(DefinitionFault::OutOfMemory) => Err(AllocError),
    }
}

/// The class that a text defines, if it can be read.
pub(crate) fn class_in(alloc: Global, text: &[u8]) -> Result<Option<ClassDefinition>, AllocError>
    ensures { IfOk result (λ d. d ≡ class_definition_of text.now) }
{
    match read_class_definition(alloc, text) {
        Ok(definition) => Ok(Some(definition)),
        Err(DefinitionFault::Form) => Ok(None),
        Err(DefinitionFault::OutOfMemory) => Err(AllocError),
    }
}

fn type_meant(alloc: Global, text: &[u8]) -> Result<Option<Meaning>, AllocError>
    ensures { IfOk result (λ m. m ≡ type_meant text.now) }
{
    match type_in(alloc, text)? {
        Some(definition) => Ok(Some(Meaning::OfType(definition))),
        None => Ok(None),
    }
}

fn class_meant(alloc: Global, text: &[u8]) -> Result<Option<Meaning>, AllocError>
    ensures { IfOk result (λ m. m ≡ class_meant text.now) }
{
    match class_in(alloc, text)? {
        Some(definition) => Ok(Some(Meaning::OfClass(definition))),
        None => Ok(None),
    }
}

/// What a definition says, if it can be read.
pub(crate) fn meaning_of(
    alloc: Global,
    definition: &Definition,
) -> Result<Option<Meaning>, AllocError>
    ensures { IfOk result (λ m. m ≡ meaning_of definition.now) }
{
    match definition.sort {
        Sort::AttributeType => type_meant(alloc, definition.text.as_slice()),
        Sort::ObjectClass => class_meant(alloc, definition.text.as_slice()),
    }
}

fn add_meaning(
    alloc: Global,
    definition: &Definition,
    found: &mut Vec<Meaning>,
) -> Result<(), AllocError>
    ensures { OnOk result (found.new.items ≡ found.old.items ++ option_to_list (meaning_of definition.now)) }
{
    match meaning_of(alloc, definition)? {
        Some(meaning) => {
            found.push(meaning)?;
            Ok(())
        }
        None => Ok(()),
    }
}

/// What those of some definitions say that can be read.
pub(crate) fn meanings_of(
    alloc: Global,
    definitions: &[Definition],
) -> Result<Vec<Meaning>, AllocError>
    ensures { IfOk result (λ v. v.items ≡ meanings_of definitions.now) }
{
    let mut found = Vec::new(alloc);
    for definition in definitions {
        add_meaning(alloc, definition, &mut found)?;
    }
    Ok(found)
}

/// Whether two definitions say the same, by the names of what is defined.
pub(crate) fn are_alike(defined: &Defined, a: &Meaning, b: &Meaning) -> bool
    ensures { result ≡ are_alike (defined_view defined.now) a.now b.now }
{
    match (a, b) {
        (Meaning::OfType(a), Meaning::OfType(b)) => are_same_types(defined, a, b),
        (Meaning::OfClass(a), Meaning::OfClass(b)) => are_same_classes(defined, a, b),
        _ => false,
    }
}

fn is_one_alike(defined: &Defined, stated: &[Meaning], meaning: &Meaning) -> bool
    ensures { result ≡ is_one_alike (defined_view defined.now) stated.now meaning.now }
{
    stated
        .iter()
        .any(|other| are_alike(defined, other, meaning))
}

/// Whether one of these says the same as a definition.
pub(crate) fn is_among(
    alloc: Global,
    defined: &Defined,
    stated: &[Meaning],
    definition: &Definition,
) -> Result<bool, AllocError>
    ensures { IfOk result (λ b. b ≡ is_among (defined_view defined.now) stated.now definition.now) }
{
    match meaning_of(alloc, definition)? {
        Some(meaning) => Ok(is_one_alike(defined, stated, &meaning)),
        None => Ok(false),
    }
}

/// Whether a definition can be read.
pub(crate) fn is_readable(alloc: Global, definition: &Definition) -> Result<bool, AllocError> {
    Ok(meaning_of(alloc, definition)?.is_some())
}
