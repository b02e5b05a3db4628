//! What is wrong with an index line, and with what of it.

ghost use Rattle.std.specs.Prelude.{◌≡◌, IfOk, map, not};
ghost use Rattle.std.specs.List.{find, list_any};
ghost use Rattle.std.specs.Option.{option_map};
ghost use Rattle.values.specs.Types.{type_of};
ghost use Rattle.dir_conf.specs.Configurations.{is_type};
ghost use Rattle.dir_conf.specs.FaultyLines.{kind_word, is_kind_word, is_some_kind, lacks};
ghost use Rattle.dir_conf.specs.IndexLines.{words};
ghost use Rattle.dir_conf.specs.inner.ListsView.{lists_view};
ghost use Rattle.dir_conf.specs.inner.FoundFlaws.{missing, listed, both_listed, lacking, unkept_flaw, listed_flaw, index_flaw};

use crate::index_lines::{has_rule_for, is_any_empty, parts_of, words};
use crate::reason::ConfFlaw;
use crate::type_lines::is_type;
use base::Bytes;
use schema::IndexKind;
use std::alloc::{AllocError, Global};
use values::TypeTable;

/// The two lists of an index line.
#[derive(Drop)]
struct Lists<'a> {
    names: Vec<&'a [u8]>,
    kinds: Vec<&'a [u8]>,
}

// the members of two lists, where none is empty
fn both_listed<'a>(
    alloc: Global,
    names: &'a [u8],
    kinds: &'a [u8],
) -> Result<Option<Lists<'a>>, AllocError>
    ensures { IfOk result (λ o. option_map lists_view o ≡ both_listed names.now kinds.now) }
{
    let names = parts_of(alloc, names)?;
    let kinds = parts_of(alloc, kinds)?;
    if is_any_empty(&names) || is_any_empty(&kinds) {
        Ok(None)
    } else {
        Ok(Some(Lists { names, kinds }))
    }
}

// the two lists that a text says, if it does
fn lists_in<'a>(alloc: Global, text: &'a [u8]) -> Result<Option<Lists<'a>>, AllocError>
    ensures { IfOk result (λ o. option_map lists_view o ≡ listed (words text.now)) }
{
    match words(alloc, text)?.as_slice() {
        [names, kinds] => both_listed(alloc, *names, *kinds),
        _ => Ok(None),
    }
}

// the word for a kind
fn kind_word(kind: IndexKind) -> &'static [u8]
    ensures { result.now ≡ kind_word kind }
{
    match kind {
        IndexKind::Equality => b"eq",
        IndexKind::Presence => b"pres",
        IndexKind::Substrings => b"sub",
    }
}

fn is_kind_word(kind: IndexKind, word: &[u8]) -> bool
    ensures { result ≡ is_kind_word kind word.now }
{
    word == kind_word(kind)
}

fn is_some_kind(word: &[u8]) -> bool
    ensures { result ≡ is_some_kind word.now }
{
    is_kind_word(IndexKind::Equality, word)
        || (is_kind_word(IndexKind::Presence, word) || is_kind_word(IndexKind::Substrings, word))
}

// the first of these that names no type
fn unknown_type<'a>(types: &TypeTable, names: &[&'a [u8]]) -> Option<&'a [u8]>
    ensures { option_map (λ n. n.now) result ≡ missing (is_type types.now) (map (λ n. n.now) names.now) }
{
    for name in names {
        if !is_type(types, name) {
            return Some(*name);
        }
    }
    None
}

// the first of these that stands for no kind
fn unknown_kind<'a>(words: &[&'a [u8]]) -> Option<&'a [u8]>
    ensures { option_map (λ n. n.now) result ≡ missing is_some_kind (map (λ w. w.now) words.now) }
{
    for word in words {
        if !is_some_kind(word) {
            return Some(*word);
        }
    }
    None
}

// whether a name is that of a type without the rule that a kind goes by
fn lacks(types: &TypeTable, kind: IndexKind, name: &[u8]) -> bool
    ensures { result ≡ lacks types.now kind (type_of types.now name.now) }
{
    match types.type_of(name) {
        Some(t) => !has_rule_for(types.at(t), kind),
        None => false,
    }
}

// whether a kind is among these words
fn is_listed(kind: IndexKind, words: &[&[u8]]) -> bool
    ensures { result ≡ list_any (is_kind_word kind) (map (λ w. w.now) words.now) }
{
    words.iter().any(|word| is_kind_word(kind, word))
}

// the first of these whose type lacks the rule for a kind
fn name_without<'a>(types: &TypeTable, kind: IndexKind, names: &[&'a [u8]]) -> Option<&'a [u8]>
    ensures { option_map (λ n. n.now) result ≡ find (λ n. lacks types.now kind (type_of types.now n)) (map (λ n. n.now) names.now) }
{
    for name in names {
        if lacks(types, kind, name) {
            return Some(*name);
        }
    }
    None
}

// the same where the kind is listed
fn lacking(
    alloc: Global,
    types: &TypeTable,
    lists: &Lists<'_>,
    kind: IndexKind,
) -> Result<Option<ConfFlaw>, AllocError>
    ensures { IfOk result (λ found. found ≡ lacking types.now (lists_view lists.now).0 (lists_view lists.now).1 kind) }
{
    if !is_listed(kind, &lists.kinds) {
        return Ok(None);
    }
    match name_without(types, kind, &lists.names) {
        Some(name) => {
            let word = Bytes::from_slice(alloc, name)?;
            Ok(Some(ConfFlaw::NoRule { word, kind }))
        }
        None => Ok(None),
    }
}

// a type without the rule for one of the kinds
fn unkept_flaw(
    alloc: Global,
    types: &TypeTable,
    lists: &Lists<'_>,
) -> Result<Option<ConfFlaw>, AllocError>
    ensures { IfOk result (λ found. found ≡ unkept_flaw types.now (lists_view lists.now)) }
{
    if let Some(flaw) = lacking(alloc, types, lists, IndexKind::Equality)? {
        return Ok(Some(flaw));
    }
    if let Some(flaw) = lacking(alloc, types, lists, IndexKind::Presence)? {
        return Ok(Some(flaw));
    }
    lacking(alloc, types, lists, IndexKind::Substrings)
}

fn listed_flaw(
    alloc: Global,
    types: &TypeTable,
    lists: &Lists<'_>,
) -> Result<Option<ConfFlaw>, AllocError>
    ensures { IfOk result (λ found. found ≡ listed_flaw types.now (lists_view lists.now)) }
{
    if let Some(word) = unknown_type(types, &lists.names) {
        let word = Bytes::from_slice(alloc, word)?;
        return Ok(Some(ConfFlaw::UnknownIndexed { word }));
    }
    if let Some(word) = unknown_kind(&lists.kinds) {
        let word = Bytes::from_slice(alloc, word)?;
        return Ok(Some(ConfFlaw::UnknownKind { word }));
    }
    unkept_flaw(alloc, types, lists)
}

/// What is wrong with what stands behind the word `index`, under types that are all defined.
pub(crate) fn index_flaw(
    alloc: Global,
    types: &TypeTable,
    text: &[u8],
) -> Result<Option<ConfFlaw>, AllocError>
    ensures { IfOk result (λ found. found ≡ index_flaw types.now text.now) }
{
    match lists_in(alloc, text)? {
        Some(lists) => listed_flaw(alloc, types, &lists),
        None => Ok(Some(ConfFlaw::Lists)),
    }
}
