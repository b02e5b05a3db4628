//! Comments on what can't be taken.

ghost use Rattle.std.specs.Prelude.{◌≡◌, ◌⊎◌, true, [], IfOk, OnOk};
ghost use Rattle.dir_conf.specs.inner.Views.{defined_view};
ghost use Rattle.server_schema.specs.Growth.{comment_of};
ghost use Rattle.server_schema.specs.Stated.{built_in_definitions, is_built_in, stated_in};
ghost use Rattle.server_schema.specs.Alike.{meanings_of, is_among};
ghost use Rattle.server_schema.specs.Transfers.{AreComments, AddsComments, NeedNoRemark, SayBuiltIn, no_definition};

use crate::alike::{Meaning, is_among, meanings_of};
use crate::definition::{Definition, Sort};
use crate::fields::sort_name;
use crate::growth::put_comment;
use crate::lines::put_line;
use crate::stated::{is_built_in, meanings_in};
use crate::taking::Candidate;
use base::Bytes;
use dir_conf::{ConfFlaw, Defined, NameField, SyntaxRule, UnreadPart, explain};
use std::alloc::{AllocError, Global};

fn put_field(field: NameField, out: &mut Vec<u8>) -> Result<(), AllocError> {
    out.extend_from_slice(match field {
        NameField::Superior => b", SUP ".as_slice(),
        NameField::Must => b", MUST ".as_slice(),
        NameField::May => b", MAY ".as_slice(),
    })
}

fn put_word(front: &[u8], word: &Bytes, out: &mut Vec<u8>) -> Result<(), AllocError> {
    out.extend_from_slice(front)?;
    out.extend_from_slice(word.as_slice())
}

// where a definition can't be read
fn put_part(part: &UnreadPart, out: &mut Vec<u8>) -> Result<(), AllocError> {
    match part {
        UnreadPart::Head => out.extend_from_slice(b", no number in front"),
        UnreadPart::NoField { word } => put_word(b", no field ", word, out),
        UnreadPart::Field { word } => put_word(b", field ", word, out),
        UnreadPart::Again { word } => put_word(b", twice ", word, out),
        UnreadPart::NoSyntax => out.extend_from_slice(b", neither SYNTAX nor SUP"),
        UnreadPart::End => out.extend_from_slice(b", no end"),
    }
}

// which word of a definition a flaw is of
fn put_detail(flaw: &ConfFlaw, out: &mut Vec<u8>) -> Result<(), AllocError> {
    match flaw {
        ConfFlaw::Unread { of: _, part } => put_part(part, out),
        ConfFlaw::Twice { of: _, word } => put_word(b", ", word, out),
        ConfFlaw::UnknownName { of: _, field, word } => {
            put_field(*field, out)?;
            out.extend_from_slice(word.as_slice())
        }
        ConfFlaw::Subtype { of: _, superior } => put_word(b", SUP ", superior, out),
        ConfFlaw::RuleSyntax { rule, .. } => out.extend_from_slice(match rule {
            SyntaxRule::Integer => b", integerMatch".as_slice(),
            SyntaxRule::Name => b", distinguishedNameMatch".as_slice(),
        }),
        _ => Ok(()),
    }
}

fn put_flaw(alloc: Global, flaw: &ConfFlaw, out: &mut Vec<u8>) -> Result<(), AllocError> {
    let kind = flaw.kind();
    let words = format!(in alloc; "{kind}")?;
    out.extend_from_slice(words.as_bytes())?;
    put_detail(flaw, out)
}

// why a definition can't be taken behind a text
fn put_reason(
    alloc: Global,
    conf: &[u8],
    definition: &Definition,
    out: &mut Vec<u8>,
) -> Result<(), AllocError> {
    let mut whole = Vec::from_slice(alloc, conf)?;
    put_line(definition, &mut whole)?;
    match explain(alloc, &whole)? {
        Some(reason) => put_flaw(alloc, &reason.flaw, out),
        None => Ok(()),
    }
}

fn put_definition(definition: &Definition, out: &mut Vec<u8>) -> Result<(), AllocError> {
    out.extend_from_slice(b": ")?;
    out.extend_from_slice(sort_name(definition.sort))?;
    out.push(b' ')?;
    out.extend_from_slice(definition.text.as_slice())
}

fn left_out(alloc: Global, conf: &[u8], definition: &Definition) -> Result<Vec<u8>, AllocError> {
    let mut comment = Vec::from_slice(alloc, b"left out: ")?;
    put_reason(alloc, conf, definition, &mut comment)?;
    put_definition(definition, &mut comment)?;
    Ok(comment)
}

fn defined_as(alloc: Global, sort: Sort, text: &[u8]) -> Result<Definition, AllocError>
    ensures { IfOk result (λ d. d ≡ record { sort = sort; text = text.now }) }
{
    Ok(Definition {
        sort,
        text: Bytes::from_slice(alloc, text)?,
    })
}

// the definitions of what is built in
fn built_in(alloc: Global) -> Result<Vec<Definition>, AllocError>
    ensures { IfOk result (λ v. v.items ≡ built_in_definitions) }
{
    let object_class =
        b"( 2.5.4.0 NAME 'objectClass' EQUALITY objectIdentifierMatch SYNTAX 1.3.6.1.4.1.1466.115.121.1.38 )";
    let top = b"( 2.5.6.0 NAME 'top' ABSTRACT MUST objectClass )";
    let extensible_object =
        b"( 1.3.6.1.4.1.1466.101.120.111 NAME 'extensibleObject' SUP top AUXILIARY )";
    let mut definitions = Vec::new(alloc);
    definitions.push(defined_as(alloc, Sort::AttributeType, object_class)?)?;
    definitions.push(defined_as(alloc, Sort::ObjectClass, top)?)?;
    definitions.push(defined_as(alloc, Sort::ObjectClass, extensible_object)?)?;
    Ok(definitions)
}

// says of a definition of what is built in that it says something else
fn remark_on_built_in(
    alloc: Global,
    defined: &Defined,
    built_in: &[Meaning],
    definition: &Definition,
    out: &mut Vec<u8>,
) -> Result<(), AllocError>
    ensures adds { OnOk result (AddsComments out.old.items out.new.items) }
    ensures none { OnOk result (out.new.items ≡ [] → is_built_in definition.now ≡ true
        → is_among (defined_view defined.now) built_in.now definition.now ≡ true) }
{
    if !is_built_in(alloc, definition)? || is_among(alloc, defined, built_in, definition)? {
        return Ok(());
    }
    let mut comment = Vec::from_slice(alloc, b"left out: built in with other fields")?;
    put_definition(definition, &mut comment)?;
    put_comment(&comment, out)
}

// says why a definition is left out, unless it stands there with repairs, or one that says the same
fn remark_on_candidate(
    alloc: Global,
    defined: &Defined,
    conf: &[u8],
    stated: &[Meaning],
    candidate: &Candidate<'_>,
    out: &mut Vec<u8>,
) -> Result<(), AllocError>
    ensures adds { OnOk result (AddsComments out.old.items out.new.items) }
    ensures none { OnOk result (out.new.items ≡ [] → (candidate.now.is_repaired ≡ true)
        ⊎ (is_among (defined_view defined.now) stated.now candidate.now.definition.now ≡ true)) }
{
    if candidate.is_repaired || is_among(alloc, defined, stated, candidate.definition)? {
        return Ok(());
    }
    let comment = left_out(alloc, conf, candidate.definition)?;
    put_comment(&comment, out)
}

fn put_built_in(
    alloc: Global,
    defined: &Defined,
    definitions: &[Definition],
    out: &mut Vec<u8>,
) -> Result<(), AllocError>
    ensures adds { OnOk result (AddsComments out.old.items out.new.items) }
    ensures none { OnOk result (out.new.items ≡ [] → SayBuiltIn (defined_view defined.now) definitions.now) }
{
    let known = built_in(alloc)?;
    let meanings = meanings_of(alloc, &known)?;
    for definition in definitions {
        remark_on_built_in(alloc, defined, &meanings, definition, out)?;
    }
    Ok(())
}

fn put_left(
    alloc: Global,
    defined: &Defined,
    conf: &[u8],
    left: &[Candidate<'_>],
    out: &mut Vec<u8>,
) -> Result<(), AllocError>
    ensures adds { OnOk result (AddsComments out.old.items out.new.items) }
    ensures none { OnOk result (out.new.items ≡ [] → NeedNoRemark (defined_view defined.now) (meanings_of (stated_in conf.now)) left.now) }
{
    let stated = meanings_in(alloc, conf)?;
    for candidate in left {
        remark_on_candidate(alloc, defined, conf, &stated, candidate, out)?;
    }
    Ok(())
}

// says that there is no definition
fn none_stands(alloc: Global) -> Result<Vec<u8>, AllocError>
    ensures { IfOk result (λ v. v.items ≡ comment_of no_definition) }
{
    let mut out = Vec::new(alloc);
    put_comment(b"no definition of a type or a class stands here", &mut out)?;
    Ok(out)
}

fn all_remarks(
    alloc: Global,
    defined: &Defined,
    conf: &[u8],
    definitions: &[Definition],
    left: &[Candidate<'_>],
) -> Result<Vec<u8>, AllocError>
    ensures comments { IfOk result (λ v. AreComments v.items) }
    ensures none { IfOk result (λ v. v.items ≡ [] → NeedNoRemark (defined_view defined.now) (meanings_of (stated_in conf.now)) left.now) }
    ensures built_in { IfOk result (λ v. v.items ≡ [] → SayBuiltIn (defined_view defined.now) definitions.now) }
{
    let mut out = Vec::new(alloc);
    put_built_in(alloc, defined, definitions, &mut out)?;
    put_left(alloc, defined, conf, left, &mut out)?;
    Ok(out)
}

/// A comment on each definition in a text that is left out, though nothing says the same: what is left behind a dir.conf, or is built in with other
/// fields. Where there is no definition, a comment says so. `defined` is what the dir.conf defines.
pub(crate) fn remarks_on(
    alloc: Global,
    defined: &Defined,
    conf: &[u8],
    definitions: &[Definition],
    left: &[Candidate<'_>],
) -> Result<Vec<u8>, AllocError>
    ensures comments { IfOk result (λ v. AreComments v.items) }
    ensures none { IfOk result (λ v. definitions.now ≡ [] → v.items ≡ comment_of no_definition) }
    ensures whole { IfOk result (λ v. v.items ≡ [] → NeedNoRemark (defined_view defined.now) (meanings_of (stated_in conf.now)) left.now) }
    ensures built_in { IfOk result (λ v. v.items ≡ [] → SayBuiltIn (defined_view defined.now) definitions.now) }
{
    if definitions.is_empty() {
        none_stands(alloc)
    } else {
        all_remarks(alloc, defined, conf, definitions, left)
    }
}
