//! Repairs of definitions that can't be taken as they stand. Each step that is tried is shown to change nothing else.

ghost use Rattle.std.specs.Prelude.{◌≡◌, ◌↔◌, ◌∷◌, ◌++◌, ℕ, List, IsTrue, IfOk, IfSome};
ghost use Rattle.std.specs.List.{Contains};
ghost use Rattle.server_schema.specs.declared.definition.Sort.TheVariants.{AttributeType, ObjectClass};
ghost use Rattle.server_schema.specs.Repairs.{is_allowed, is_one_line, IsNameCut, IsRuleChanged, IsMayCut, IsStep, IsRepaired, IsRepairOf};

use crate::alike::{class_in, is_readable, type_in};
use crate::definition::{Definition, Sort};
use crate::fields::{Token, TokenKind, called, field_named, part, text_of, tokens_of, words_of};
use crate::kept::{is_class_kept, is_type_kept};
use crate::lines::put_line;
use base::{Bytes, is_name, is_type_name};
use definitions::ClassDefinition;
use dir_conf::{ConfFault, ConfFaultKind, Defined, read_definitions};
use std::alloc::{AllocError, Global};

/// A definition that can be taken in the place of another one, and what was done about that.
#[derive(Drop)]
pub(crate) struct Repair {
    pub(crate) definition: Definition,
    pub(crate) remark: Vec<u8>,
}

/// What a step makes of a text, and what is said of it.
#[derive(Drop)]
struct Step {
    text: Bytes,
    remark: Vec<u8>,
}

/// As many steps as a definition is worth.
const STEPS: u32 = 16;

fn is_allowed(sort: Sort, name: &[u8]) -> bool
    ensures { result ≡ is_allowed sort name.now }
{
    match sort {
        Sort::AttributeType => is_type_name(name),
        Sort::ObjectClass => is_name(name),
    }
}

// ---- steps that change no more than they may

fn is_one_line(text: &[u8]) -> bool
    ensures { result ≡ is_one_line text.now }
{
    text.iter().all(|b| *b != b'\n')
}

fn is_same_text(a: &[u8], b: &[u8]) -> bool
    ensures { IsTrue result ↔ (a.now ≡ b.now) }
{
    a == b
}

// two parts of a text with a name in quotes between
fn with_quoted(alloc: Global, front: &[u8], name: &[u8], behind: &[u8]) -> Result<Bytes, AllocError>
    ensures { IfOk result (λ b. b ≡ front.now ++ (39 ∷ (name.now ++ 39 ∷ behind.now))) }
{
    let mut text = Bytes::from_slice(alloc, front)?;
    text.extend_from_slice(b"'")?;
    text.extend_from_slice(name)?;
    text.extend_from_slice(b"'")?;
    text.extend_from_slice(behind)?;
    Ok(text)
}

fn joined(alloc: Global, front: &[u8], behind: &[u8]) -> Result<Bytes, AllocError>
    ensures { IfOk result (λ b. b ≡ front.now ++ behind.now) }
{
    let mut text = Bytes::from_slice(alloc, front)?;
    text.extend_from_slice(behind)?;
    Ok(text)
}

// a text without this name in quotes, where it isn't allowed and stands there
fn without_name(
    alloc: Global,
    sort: Sort,
    text: &[u8],
    front: &[u8],
    name: &[u8],
    behind: &[u8],
) -> Result<Option<Bytes>, AllocError>
    ensures { IfOk result (λ o. IfSome o (λ b. IsNameCut sort text.now b)) }
{
    if is_allowed(sort, name) {
        return Ok(None);
    }
    let whole = with_quoted(alloc, front, name, behind)?;
    if !is_same_text(text, whole.as_slice()) {
        return Ok(None);
    }
    Ok(Some(joined(alloc, front, behind)?))
}

// whether only the equality rule of a type changes, in one line
fn is_rule_changed(alloc: Global, old: &[u8], new: &[u8]) -> Result<bool, AllocError>
    ensures { IfOk result (λ b. IsTrue b → IsRuleChanged old.now new.now) }
{
    if !is_one_line(new) {
        return Ok(false);
    }
    let Some(was) = type_in(alloc, old)? else {
        return Ok(false);
    };
    let Some(is_now) = type_in(alloc, new)? else {
        return Ok(false);
    };
    Ok(is_type_kept(&was, &is_now))
}

fn allows(class: &ClassDefinition, name: &Bytes) -> bool
    ensures { IsTrue result → Contains class.now.may name.now }
{
    class.may.as_slice().iter().any(|other| other == name)
}

fn allows_all(class: &ClassDefinition, names: &[Bytes]) -> bool
    ensures { IsTrue result → (name : List ℕ) → Contains names.now name → Contains class.now.may name }
{
    for name in names {
        if !allows(class, name) {
            return false;
        }
    }
    true
}

// whether a class only loses some of what it allows, in one line
fn is_may_cut(alloc: Global, old: &[u8], new: &[u8]) -> Result<bool, AllocError>
    ensures { IfOk result (λ b. IsTrue b → IsMayCut old.now new.now) }
{
    if !is_one_line(new) {
        return Ok(false);
    }
    let Some(was) = class_in(alloc, old)? else {
        return Ok(false);
    };
    let Some(is_now) = class_in(alloc, new)? else {
        return Ok(false);
    };
    Ok(is_class_kept(&was, &is_now) && allows_all(&was, is_now.may.as_slice()))
}

// whether this step may be done
fn is_step(alloc: Global, sort: Sort, old: &[u8], new: &[u8]) -> Result<bool, AllocError>
    ensures { IfOk result (λ b. IsTrue b → IsStep sort old.now new.now) }
{
    match sort {
        Sort::AttributeType => is_rule_changed(alloc, old, new),
        Sort::ObjectClass => is_may_cut(alloc, old, new),
    }
}

// ---- which steps are tried

// what a definition is called, a colon and a space
fn remark_of(alloc: Global, text: &[u8]) -> Result<Vec<u8>, AllocError> {
    let mut remark = Vec::from_slice(alloc, called(alloc, text)?)?;
    remark.extend_from_slice(b": ")?;
    Ok(remark)
}

fn name_step(
    alloc: Global,
    sort: Sort,
    text: &[u8],
    token: Token,
) -> Result<Option<Step>, AllocError>
    ensures { IfOk result (λ o. IfSome o (λ s. IsNameCut sort text.now s.text)) }
{
    let front = part(text, 0, token.start);
    let name = text_of(text, token);
    let behind = part(text, token.end, text.len());
    let Some(cut) = without_name(alloc, sort, text, front, name, behind)? else {
        return Ok(None);
    };
    let mut remark = remark_of(alloc, text)?;
    remark.extend_from_slice(b"the name ")?;
    remark.extend_from_slice(name)?;
    remark.extend_from_slice(b" isn't allowed here, so it is left out")?;
    Ok(Some(Step { text: cut, remark }))
}

// the first name that isn't allowed goes
fn names_step(alloc: Global, sort: Sort, text: &[u8]) -> Result<Option<Step>, AllocError>
    ensures { IfOk result (λ o. IfSome o (λ s. IsNameCut sort text.now s.text)) }
{
    let tokens = tokens_of(alloc, text)?;
    let Some(field) = field_named(text, &tokens, b"NAME") else {
        return Ok(None);
    };
    for token in field.value {
        if token.kind == TokenKind::Quoted {
            let step = name_step(alloc, sort, text, *token)?;
            if step.is_some() {
                return Ok(step);
            }
        }
    }
    Ok(None)
}

fn put_words(words: &[&[u8]], between: &[u8], out: &mut Vec<u8>) -> Result<(), AllocError> {
    for (i, word) in words.iter().enumerate() {
        if i > 0 {
            out.extend_from_slice(between)?;
        }
        out.extend_from_slice(word)?;
    }
    Ok(())
}

// another text from one place up to another
fn replaced(
    alloc: Global,
    text: &[u8],
    start: usize,
    end: usize,
    new: &[u8],
) -> Result<Bytes, AllocError> {
    let mut out = Vec::from_slice(alloc, part(text, 0, start))?;
    out.extend_from_slice(new)?;
    out.extend_from_slice(part(text, end, text.len()))?;
    Ok(Bytes::from_vec(out))
}

// the first word of the value of a field
fn word_behind<'a>(
    alloc: Global,
    text: &'a [u8],
    tokens: &[Token],
    word: &[u8],
) -> Result<&'a [u8], AllocError> {
    match field_named(text, tokens, word) {
        Some(field) => Ok(
            words_of(alloc, text, field.value)?
                .first()
                .copied()
                .unwrap_or(b""),
        ),
        None => Ok(b""),
    }
}

fn rule_remark(alloc: Global, text: &[u8], tokens: &[Token]) -> Result<Vec<u8>, AllocError> {
    let mut remark = remark_of(alloc, text)?;
    remark.extend_from_slice(b"EQUALITY ")?;
    remark.extend_from_slice(word_behind(alloc, text, tokens, b"EQUALITY")?)?;
    remark.extend_from_slice(b" isn't for SYNTAX ")?;
    remark.extend_from_slice(word_behind(alloc, text, tokens, b"SYNTAX")?)?;
    remark.extend_from_slice(b": caseIgnoreMatch stands in its place")?;
    Ok(remark)
}

// caseIgnoreMatch in the place of the equality rule
fn rule_step(alloc: Global, text: &[u8]) -> Result<Option<Step>, AllocError> {
    let tokens = tokens_of(alloc, text)?;
    let Some(field) = field_named(text, &tokens, b"EQUALITY") else {
        return Ok(None);
    };
    let Some(rule) = field.value.first() else {
        return Ok(None);
    };
    Ok(Some(Step {
        text: replaced(alloc, text, rule.start, rule.end, b"caseIgnoreMatch")?,
        remark: rule_remark(alloc, text, &tokens)?,
    }))
}

fn may_remark(alloc: Global, text: &[u8], unknown: &[&[u8]]) -> Result<Vec<u8>, AllocError> {
    let mut remark = remark_of(alloc, text)?;
    remark.extend_from_slice(b"MAY of ")?;
    put_words(unknown, b", ", &mut remark)?;
    remark.extend_from_slice(if unknown.len() == 1 {
        b", which isn't defined, is left out".as_slice()
    } else {
        b", which aren't defined, is left out".as_slice()
    })?;
    Ok(remark)
}

fn may_value(alloc: Global, known: &[&[u8]]) -> Result<Vec<u8>, AllocError> {
    let mut value = Vec::new(alloc);
    if !known.is_empty() {
        value.extend_from_slice(b"MAY ( ")?;
        put_words(known, b" $ ", &mut value)?;
        value.extend_from_slice(b" )")?;
    }
    Ok(value)
}

fn are_known<'a>(
    alloc: Global,
    defined: &Defined,
    names: &[&'a [u8]],
    known: bool,
) -> Result<Vec<&'a [u8]>, AllocError> {
    let mut found = Vec::new(alloc);
    for name in names {
        if defined.types.type_of(name).is_some() == known {
            found.push(*name)?;
        }
    }
    Ok(found)
}

// what a class allows without what isn't defined
fn may_step(alloc: Global, defined: &Defined, text: &[u8]) -> Result<Option<Step>, AllocError> {
    let tokens = tokens_of(alloc, text)?;
    let Some(field) = field_named(text, &tokens, b"MAY") else {
        return Ok(None);
    };
    let Some(last) = field.value.last() else {
        return Ok(None);
    };
    let names = words_of(alloc, text, field.value)?;
    let known = are_known(alloc, defined, &names, true)?;
    let unknown = are_known(alloc, defined, &names, false)?;
    let value = may_value(alloc, &known)?;
    Ok(Some(Step {
        text: replaced(alloc, text, field.word.start, last.end, &value)?,
        remark: may_remark(alloc, text, &unknown)?,
    }))
}

// what is wrong with a definition behind a text, and what is defined above it
fn fault_of(
    alloc: Global,
    conf: &[u8],
    definition: &Definition,
) -> Result<Option<ConfFaultKind>, AllocError> {
    if !is_readable(alloc, definition)? {
        return Ok(Some(ConfFaultKind::Form));
    }
    let mut whole = Vec::from_slice(alloc, conf)?;
    put_line(definition, &mut whole)?;
    match read_definitions(alloc, &whole) {
        Ok(_) => Ok(None),
        Err(ConfFault::Line { line: _, kind }) => Ok(Some(kind)),
        Err(ConfFault::OutOfMemory) => Err(AllocError),
    }
}

// a step for a fault of this kind
fn tried(
    alloc: Global,
    conf: &[u8],
    definition: &Definition,
    kind: ConfFaultKind,
) -> Result<Option<Step>, AllocError> {
    let text = definition.text.as_slice();
    match (definition.sort, kind) {
        (Sort::AttributeType, ConfFaultKind::RuleSyntax) => rule_step(alloc, text),
        (Sort::ObjectClass, ConfFaultKind::UnknownName) => match read_definitions(alloc, conf) {
            Ok(defined) => may_step(alloc, &defined, text),
            Err(ConfFault::OutOfMemory) => Err(AllocError),
            Err(_) => Ok(None),
        },
        _ => Ok(None),
    }
}

// a step that changes what a definition says, if one serves
fn change_step(
    alloc: Global,
    conf: &[u8],
    definition: &Definition,
    kind: ConfFaultKind,
) -> Result<Option<Step>, AllocError>
    ensures { IfOk result (λ o. IfSome o (λ s. IsStep definition.now.sort definition.now.text s.text)) }
{
    let Some(step) = tried(alloc, conf, definition, kind)? else {
        return Ok(None);
    };
    if is_step(
        alloc,
        definition.sort,
        definition.text.as_slice(),
        step.text.as_slice(),
    )? {
        Ok(Some(step))
    } else {
        Ok(None)
    }
}

// the next step for a definition with a fault of this kind
fn next_step(
    alloc: Global,
    conf: &[u8],
    definition: &Definition,
    kind: ConfFaultKind,
) -> Result<Option<Step>, AllocError>
    ensures { IfOk result (λ o. IfSome o (λ s. IsStep definition.now.sort definition.now.text s.text)) }
{
    match kind {
        ConfFaultKind::Form => names_step(alloc, definition.sort, definition.text.as_slice()),
        _ => change_step(alloc, conf, definition, kind),
    }
}

fn put_remark(out: &mut Vec<u8>, remark: &[u8]) -> Result<(), AllocError> {
    if !out.is_empty() {
        out.extend_from_slice(b"; ")?;
    }
    out.extend_from_slice(remark)
}

// a repair of a text with what was done; none where that is nothing
fn repair_of(text: &[u8], definition: Definition, remark: Vec<u8>) -> Option<Repair>
    ensures is { IfSome result (λ r. r.definition ≡ definition) }
    ensures other { IfSome result (λ r. text.now ≡ r.definition.text → ⊥) }
{
    if is_same_text(text, definition.text.as_slice()) {
        None
    } else {
        Some(Repair { definition, remark })
    }
}

/// What can be taken behind a text in place of a definition that can't, with what was done; `None` where no repair serves.
pub(crate) fn repaired(
    alloc: Global,
    conf: &[u8],
    definition: &Definition,
) -> Result<Option<Repair>, AllocError>
    ensures { IfOk result (λ o. IfSome o (λ r. IsRepairOf definition.now r.definition)) }
{
    let sort = definition.sort;
    let mut current = Definition {
        sort,
        text: definition.text.copy(alloc)?,
    };
    let mut remark = Vec::new(alloc);
    for _ in 0..STEPS {
        let Some(kind) = fault_of(alloc, conf, &current)? else {
            return Ok(repair_of(definition.text.as_slice(), current, remark));
        };
        let Some(step) = next_step(alloc, conf, &current, kind)? else {
            return Ok(None);
        };
        let Step { text, remark: what } = step;
        put_remark(&mut remark, &what)?;
        current = Definition { sort, text };
    }
    Ok(None)
}
