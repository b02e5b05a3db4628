//! Names that are lost: those that lines at fault of a dir.conf would have defined.

ghost use Rattle.std.specs.Prelude.{◌≡◌, ◌++◌, ◌∷◌, [], IfOk, OnOk, true, take, map};
ghost use Rattle.std.specs.Option.{option_copied};
ghost use Rattle.checks.specs.LostNames.{ends_piece, pieces, is_quoted, unquoted, quoted_names, is_name_word, behind_name, spelled_words, words_of, type_words, class_words};
ghost use Rattle.checks.specs.LostNames.{lost_at, lost_types, lost_classes, line_at, is_of_class};

use base::{Bytes, begins_with};
use definitions::{
    DefinitionFault, Element, Line, read_class_definition, read_type_definition, split_first_word,
};
use std::alloc::{AllocError, Global};

/// A name or an OID that a line at fault would have defined.
#[derive(Drop)]
pub(crate) struct LostName {
    pub word: Bytes,
    /// The line with whose report faults count that need it.
    pub line: u64,
}

/// What lines at fault would have defined, each by its OID and its names.
#[derive(Drop)]
pub(crate) struct LostNames {
    pub types: Vec<LostName>,
    pub classes: Vec<LostName>,
}

/// What stands between spaces, tabs and parentheses.
fn pieces<'a>(alloc: Global, text: &'a [u8]) -> Result<Vec<&'a [u8]>, AllocError>
    ensures { IfOk result (λ v. map (λ p. p.now) v.items ≡ pieces text.now) }
{
    text.split(|b| *b == b' ' || *b == b'\t' || *b == b'(' || *b == b')')
        .filter(|piece| !piece.is_empty())
        .collect(alloc)
}

/// Whether a piece stands in quotes.
fn is_quoted(piece: &[u8]) -> bool
    ensures { result ≡ is_quoted piece.now }
{
    piece.len() >= 2
        && begins_with(piece, b'\'')
        && piece.split_at(piece.len() - 1).1 == b"'".as_slice()
}

/// What stands between the quotes of a piece.
fn unquoted(piece: &[u8]) -> &[u8]
    requires { is_quoted piece.now ≡ true }
    ensures { result.now ≡ unquoted piece.now }
{
    piece.split_at(1).1.split_at(piece.len() - 2).0
}

/// Whether a piece is the word before names.
fn is_name_word(piece: &[u8]) -> bool
    ensures { result ≡ is_name_word piece.now }
{
    piece.eq_ignore_ascii_case(b"NAME")
}

/// The pieces behind the first NAME.
#[tactic(auto, unfolding(crate::specs::LostNames::behind_name))]
fn behind_name<'a, 'p>(pieces: &'p [&'a [u8]]) -> &'p [&'a [u8]]
    ensures { map (λ p. p.now) result.now ≡ behind_name (map (λ p. p.now) pieces.entry.now) }
{
    for (at, piece) in pieces.iter().enumerate() {
        if is_name_word(piece) {
            return &pieces[at + 1..];
        }
    }
    &pieces[pieces.len()..]
}

/// Puts a word behind those that are lost.
fn put_word(
    alloc: Global,
    word: &[u8],
    line: u64,
    lost: &mut Vec<LostName>,
) -> Result<(), AllocError>
    ensures { OnOk result (lost.new.items ≡ lost.old.items ++ lost_at line (word.now ∷ [])) }
{
    let word = Bytes::from_slice(alloc, word)?;
    lost.push(LostName { word, line })?;
    Ok(())
}

/// Puts the OID and the names of what is defined behind those that are lost.
fn put_element(
    alloc: Global,
    element: &Element,
    line: u64,
    lost: &mut Vec<LostName>,
) -> Result<(), AllocError>
    ensures { OnOk result (lost.new.items ≡ lost.old.items ++ lost_at line (words_of element.now)) }
{
    put_word(alloc, element.oid.as_slice(), line, lost)?;
    for name in element.names.as_slice() {
        put_word(alloc, name.as_slice(), line, lost)?;
    }
    Ok(())
}

/// Puts the names that stand in quotes in front of these pieces behind those that are lost.
fn put_quoted(
    alloc: Global,
    pieces: &[&[u8]],
    line: u64,
    lost: &mut Vec<LostName>,
) -> Result<(), AllocError>
    ensures { OnOk result (lost.new.items ≡ lost.old.items ++ lost_at line (quoted_names (map (λ p. p.now) pieces.now))) }
{
    for piece in pieces {
        if !is_quoted(piece) {
            return Ok(());
        }
        put_word(alloc, unquoted(piece), line, lost)?;
    }
    Ok(())
}

/// Puts the first of these pieces, if there is one, behind those that are lost.
fn put_first(
    alloc: Global,
    pieces: &[&[u8]],
    line: u64,
    lost: &mut Vec<LostName>,
) -> Result<(), AllocError>
    ensures { OnOk result (lost.new.items ≡ lost.old.items ++ lost_at line (take 1 (map (λ p. p.now) pieces.now))) }
{
    match pieces.split_first() {
        Some((first, _)) => put_word(alloc, first, line, lost),
        None => Ok(()),
    }
}

/// Puts what a definition that can't be read is called behind what is lost.
fn put_spelled(
    alloc: Global,
    text: &[u8],
    line: u64,
    lost: &mut Vec<LostName>,
) -> Result<(), AllocError>
    ensures { OnOk result (lost.new.items ≡ lost.old.items ++ lost_at line (spelled_words text.now)) }
{
    let pieces = pieces(alloc, text)?;
    put_first(alloc, pieces.as_slice(), line, lost)?;
    put_quoted(alloc, behind_name(pieces.as_slice()), line, lost)
}

/// Puts what the definition of a type defines behind what is lost.
fn put_type(
    alloc: Global,
    text: &[u8],
    line: u64,
    lost: &mut Vec<LostName>,
) -> Result<(), AllocError>
    ensures { OnOk result (lost.new.items ≡ lost.old.items ++ lost_at line (type_words text.now)) }
{
    match read_type_definition(alloc, text) {
        Ok(definition) => put_element(alloc, &definition.element, line, lost),
        Err(DefinitionFault::Form) => put_spelled(alloc, text, line, lost),
        Err(DefinitionFault::OutOfMemory) => Err(AllocError),
    }
}

/// Puts what the definition of a class defines behind what is lost.
fn put_class(
    alloc: Global,
    text: &[u8],
    line: u64,
    lost: &mut Vec<LostName>,
) -> Result<(), AllocError>
    ensures { OnOk result (lost.new.items ≡ lost.old.items ++ lost_at line (class_words text.now)) }
{
    match read_class_definition(alloc, text) {
        Ok(definition) => put_element(alloc, &definition.element, line, lost),
        Err(DefinitionFault::Form) => put_spelled(alloc, text, line, lost),
        Err(DefinitionFault::OutOfMemory) => Err(AllocError),
    }
}

/// Puts the types that a line would define behind those that are lost.
fn lose_types(
    alloc: Global,
    line: &Line,
    at: u64,
    lost: &mut Vec<LostName>,
) -> Result<(), AllocError>
    ensures { OnOk result (lost.new.items ≡ lost.old.items ++ lost_types at line.now) }
{
    let (word, rest) = split_first_word(line.text.as_slice());
    if word.eq_ignore_ascii_case(b"attributetype") {
        put_type(alloc, rest, at, lost)
    } else {
        Ok(())
    }
}

/// Puts the classes that a line would define behind those that are lost.
fn lose_classes(
    alloc: Global,
    line: &Line,
    at: u64,
    lost: &mut Vec<LostName>,
) -> Result<(), AllocError>
    ensures { OnOk result (lost.new.items ≡ lost.old.items ++ lost_classes at line.now) }
{
    let (word, rest) = split_first_word(line.text.as_slice());
    if word.eq_ignore_ascii_case(b"objectclass") {
        put_class(alloc, rest, at, lost)
    } else {
        Ok(())
    }
}

/// Puts what a line would define behind what is lost. Faults that need it count with the line of this number.
pub(crate) fn lose(
    alloc: Global,
    line: &Line,
    at: u64,
    lost: &mut LostNames,
) -> Result<(), AllocError>
    ensures types { OnOk result (lost.new.types.items ≡ lost.old.types.items ++ lost_types at line.now) }
    ensures classes { OnOk result (lost.new.classes.items ≡ lost.old.classes.items ++ lost_classes at line.now) }
{
    lose_types(alloc, line, at, &mut lost.types)?;
    lose_classes(alloc, line, at, &mut lost.classes)
}

/// The line of this number.
pub(crate) fn line_at(lines: &[Line], number: u64) -> Option<&Line>
    ensures { option_copied result ≡ line_at lines.now number }
{
    lines.iter().find(|line| line.number == number)
}

/// Whether the line of this number is to define a class.
pub(crate) fn is_of_class(lines: &[Line], number: u64) -> bool
    ensures { result ≡ is_of_class lines.now number }
{
    match line_at(lines, number) {
        Some(line) => split_first_word(line.text.as_slice())
            .0
            .eq_ignore_ascii_case(b"objectclass"),
        None => false,
    }
}
