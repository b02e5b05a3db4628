//! What the lines of a schema's text say.

ghost use Rattle.std.specs.Prelude.{◌≡◌, ◌<◌, ◌++◌, ◌||◌, IfOk, IfSome, OnOk, length, position};
ghost use Rattle.std.specs.Str.{str_eq_ignore_ascii_case};
ghost use Rattle.server_schema.specs.Sources.{is_colon};
ghost use Rattle.server_schema.specs.Statements.{directive, ldif_word, decoded_or, value_behind, is_right_brace, without_number, in_line, said_in, ldif_statement, conf_statement, said, all_said, statements_on, statements_in};

use crate::definition::Sort;
use crate::sources::{is_ldif, source_lines};
use base::{Bytes, begins_with, without_end, without_front};
use base64::DecodeAllocError;
use base64::engine::general_purpose::STANDARD;
use definitions::{skip, split_first_word};
use std::alloc::{AllocError, Global};

/// What a line begins with.
#[derive(Clone, Copy)]
pub(crate) enum Word {
    Definition(Sort),
    /// A name that stands for an OID.
    Macro,
}

/// A line that says something of a schema.
pub(crate) struct Statement {
    pub(crate) word: Word,
    /// What stands behind the word, in one line.
    pub(crate) text: Bytes,
}

impl Drop for Statement {
    fn drop(self) {
        let Statement { word: _, text } = self;
        drop(text);
    }
}

fn directive(word: &[u8]) -> Option<Word>
    ensures { result ≡ directive word.now }
{
    if word.eq_ignore_ascii_case(b"attributetype") {
        Some(Word::Definition(Sort::AttributeType))
    } else if word.eq_ignore_ascii_case(b"objectclass") {
        Some(Word::Definition(Sort::ObjectClass))
    } else if word.eq_ignore_ascii_case(b"objectidentifier") {
        Some(Word::Macro)
    } else {
        None
    }
}

fn is_either(name: &[u8], word: &[u8], other: &[u8]) -> bool
    ensures { result ≡ (str_eq_ignore_ascii_case name.now word.now || str_eq_ignore_ascii_case name.now other.now) }
{
    name.eq_ignore_ascii_case(word) || name.eq_ignore_ascii_case(other)
}

fn ldif_word(name: &[u8]) -> Option<Word>
    ensures { result ≡ ldif_word name.now }
{
    if is_either(name, b"attributeTypes", b"olcAttributeTypes") {
        Some(Word::Definition(Sort::AttributeType))
    } else if is_either(name, b"objectClasses", b"olcObjectClasses") {
        Some(Word::Definition(Sort::ObjectClass))
    } else if name.eq_ignore_ascii_case(b"olcObjectIdentifier") {
        Some(Word::Macro)
    } else {
        None
    }
}

// what a text says in base64; where it is none, what stands there
#[inline(never)]
#[tactic(auto, unfolding(crate::specs::Statements::decoded_or))]
fn decoded_or(alloc: Global, text: &[u8], rest: &[u8]) -> Result<Bytes, AllocError>
    ensures { IfOk result (λ b. b ≡ decoded_or text.now rest.now) }
{
    match STANDARD.decode(alloc, text) {
        Ok(bytes) => Ok(Bytes::from_vec(bytes)),
        Err(DecodeAllocError::DecodeError(_)) => Bytes::from_slice(alloc, rest),
        Err(DecodeAllocError::OutOfMemory) => Err(AllocError),
    }
}

// the value of a line of LDIF, by what stands behind the first colon
fn value_behind(alloc: Global, rest: &[u8]) -> Result<Bytes, AllocError>
    ensures { IfOk result (λ b. b ≡ value_behind rest.now) }
{
    match rest {
        [b':', text @ ..] => decoded_or(alloc, without_end(without_front(text)), rest),
        _ => Bytes::from_slice(alloc, without_front(rest)),
    }
}

fn right_brace_in(value: &[u8]) -> Option<usize>
    ensures place { result ≡ position is_right_brace value.now }
    ensures bound { IfSome result (λ at. at < length value.now) }
{
    value.iter().position(|b| *b == b'}')
}

// without the place of the value that cn=config has in front, as `{3}`
fn without_number(value: &[u8]) -> &[u8]
    ensures { result.now ≡ without_number value.now }
{
    if !begins_with(value, b'{') {
        return value;
    }
    match right_brace_in(value) {
        Some(at) => value.split_at(at).1.split_at(1).1,
        None => value,
    }
}

/// A byte of a line: no break is one.
pub(crate) fn in_line(b: u8) -> u8
    ensures { result ≡ in_line b }
{
    if b == b'\n' || b == b'\r' { b' ' } else { b }
}

// in one line, without the blanks in front
fn said_in(alloc: Global, text: &[u8]) -> Result<Bytes, AllocError>
    ensures { IfOk result (λ b. b ≡ said_in text.now) }
{
    let mut said = Vec::new(alloc);
    for b in skip(text) {
        said.push(in_line(*b))?;
    }
    Ok(Bytes::from_vec(said))
}

fn colon_in(line: &[u8]) -> Option<usize>
    ensures at { result ≡ position is_colon line.now }
    ensures within { IfSome result (λ at. at < length line.now) }
{
    line.iter().position(|b| *b == b':')
}

fn ldif_statement(alloc: Global, line: &[u8]) -> Result<Option<Statement>, AllocError>
    ensures { IfOk result (λ s. s ≡ ldif_statement line.now) }
{
    let Some(at) = colon_in(line) else {
        return Ok(None);
    };
    let Some(word) = ldif_word(&line[..at]) else {
        return Ok(None);
    };
    let value = value_behind(alloc, &line[at + 1..])?;
    let text = said_in(alloc, without_number(value.as_slice()))?;
    Ok(Some(Statement { word, text }))
}

fn conf_statement(alloc: Global, line: &[u8]) -> Result<Option<Statement>, AllocError>
    ensures { IfOk result (λ s. s ≡ conf_statement line.now) }
{
    let (first, rest) = split_first_word(line);
    let Some(word) = directive(first) else {
        return Ok(None);
    };
    let text = said_in(alloc, rest)?;
    Ok(Some(Statement { word, text }))
}

fn said(alloc: Global, line: &[u8]) -> Result<Option<Statement>, AllocError>
    ensures { IfOk result (λ s. s ≡ said line.now) }
{
    if is_ldif(line) {
        ldif_statement(alloc, line)
    } else {
        conf_statement(alloc, line)
    }
}

fn add_said(alloc: Global, line: &[u8], found: &mut Vec<Statement>) -> Result<(), AllocError>
    ensures { OnOk result (found.new.items ≡ found.old.items ++ all_said (said line.now)) }
{
    match said(alloc, line)? {
        Some(statement) => {
            found.push(statement)?;
            Ok(())
        }
        None => Ok(()),
    }
}

fn statements_on(alloc: Global, lines: &[Bytes]) -> Result<Vec<Statement>, AllocError>
    ensures { IfOk result (λ v. v.items ≡ statements_on lines.now) }
{
    let mut found = Vec::new(alloc);
    for line in lines {
        add_said(alloc, line.as_slice(), &mut found)?;
    }
    Ok(found)
}

/// What the lines of a schema's text say of types, classes and macros, in their order.
#[tactic(auto, unfolding(crate::specs::Statements::statements_in))]
pub(crate) fn statements_in(alloc: Global, text: &[u8]) -> Result<Vec<Statement>, AllocError>
    ensures { IfOk result (λ v. v.items ≡ statements_in text.now) }
{
    let lines = source_lines(alloc, text)?;
    statements_on(alloc, &lines)
}
