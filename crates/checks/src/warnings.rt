//! What the text of a dir.conf says that counts for nothing, though it is no fault.

ghost use Rattle.std.specs.Prelude.{◌≡◌, ◌++◌, Some, map, OnOk, IfOk, codes};
ghost use Rattle.std.specs.List.{flat_map};
ghost use Rattle.std.specs.Option.{option_map};
ghost use Rattle.definitions.specs.TypeDefinitions.{type_definition_of};
ghost use Rattle.definitions.specs.ClassDefinitions.{class_definition_of};
ghost use Rattle.dir_conf.specs.Configurations.{is_built_in};
ghost use Rattle.checks.specs.Warnings.{is_syntax, line_front, called, near_text, field_text, word_text, unknown_text, skipped_text};
ghost use Rattle.checks.specs.Warnings.{warning, rule_warning, syntax_warning, unknown_warnings, type_warnings, class_warnings, line_warnings, warnings};

use crate::file_names::shown_name;
use crate::known_rules::{EQUALITY_RULES, ORDERING_RULES, SUBSTRINGS_RULES, SYNTAXES};
use crate::near_names::{is_among, is_one_of, nearest};
use crate::reports::put_report;
use base::Bytes;
use definitions::{
    ClassDefinition, DefinitionFault, Element, Line, TypeDefinition, lines_of,
    read_class_definition, read_type_definition, split_first_word,
};
use std::alloc::{AllocError, Global};

/// What is said of the line with this number.
fn said_of(alloc: Global, line: u64, what: &[u8]) -> Result<Vec<u8>, AllocError>
    ensures { IfOk result (λ v. v.items ≡ line_front line ++ what.now) }
{
    let place = format!(in alloc; "line {line}: ")?;
    let mut text = Vec::from_slice(alloc, place.as_bytes())?;
    text.extend_from_slice(what)?;
    Ok(text)
}

/// Warns of what stands on the line with this number.
fn put_warning(alloc: Global, line: u64, what: &[u8], out: &mut Vec<u8>) -> Result<(), AllocError>
    ensures { OnOk result (out.new.items ≡ out.old.items ++ warning line what.now) }
{
    let text = said_of(alloc, line, what)?;
    put_report(out, "warning", b"dir.conf", text.as_slice())
}

/// The first name of what is defined, or its OID.
fn called(element: &Element) -> &[u8]
    ensures { result.now ≡ called element.now }
{
    match element.names.as_slice() {
        [first, ..] => first.as_slice(),
        [] => element.oid.as_slice(),
    }
}

/// Puts a name that is known, if there is one, at the end of a text.
fn put_near(text: &mut Vec<u8>, near: Option<&[u8]>) -> Result<(), AllocError>
    ensures { OnOk result (text.new.items ≡ text.old.items ++ near_text (option_map (λ k. k.now) near.entry)) }
{
    let Some(known) = near else {
        return Ok(());
    };
    text.extend_from_slice(b" (")?;
    text.extend_from_slice(known)?;
    text.extend_from_slice(b" is)")
}

/// Puts the name of what is defined and of a field at the end of a text.
fn put_field(text: &mut Vec<u8>, element: &Element, field: &str) -> Result<(), AllocError>
    ensures { OnOk result (text.new.items ≡ text.old.items ++ field_text element.now field.now) }
{
    text.extend_from_slice(called(element))?;
    text.extend_from_slice(b"'s ")?;
    text.extend_from_slice(field.as_bytes())?;
    text.extend_from_slice(b": ")
}

/// Puts a word that isn't known at the end of a text, given without control characters.
fn put_shown(text: &mut Vec<u8>, shown: &[u8]) -> Result<(), AllocError>
    ensures { OnOk result (text.new.items ≡ text.old.items ++ (shown.now ++ codes " isn't known")) }
{
    text.extend_from_slice(shown)?;
    text.extend_from_slice(b" isn't known")
}

/// Puts a word that isn't known at the end of a text.
fn put_word(alloc: Global, text: &mut Vec<u8>, word: &[u8]) -> Result<(), AllocError>
    ensures { OnOk result (text.new.items ≡ text.old.items ++ word_text word.now) }
{
    let shown = shown_name(alloc, word)?;
    put_shown(text, shown.as_slice())
}

/// That what a field of a definition names isn't known.
fn unknown_text(
    alloc: Global,
    element: &Element,
    field: &str,
    word: &[u8],
    near: Option<&[u8]>,
) -> Result<Vec<u8>, AllocError>
    ensures { IfOk result (λ v. v.items ≡ unknown_text element.now field.now word.now (option_map (λ k. k.now) near.entry)) }
{
    let mut text = Vec::new(alloc);
    put_field(&mut text, element, field)?;
    put_word(alloc, &mut text, word)?;
    put_near(&mut text, near)?;
    Ok(text)
}

/// Warns that what a field of a definition names isn't known.
fn put_unknown_word(
    alloc: Global,
    line: u64,
    element: &Element,
    field: &str,
    word: &[u8],
    near: Option<&[u8]>,
    out: &mut Vec<u8>,
) -> Result<(), AllocError>
    ensures { OnOk result (out.new.items ≡ out.old.items
        ++ warning line (unknown_text element.now field.now word.now (option_map (λ k. k.now) near.entry))) }
{
    let what = unknown_text(alloc, element, field, word, near)?;
    put_warning(alloc, line, what.as_slice(), out)
}

/// Warns of a rule that a field states, if that isn't one of those that are known.
fn put_rule(
    alloc: Global,
    line: u64,
    element: &Element,
    field: &str,
    known: &[&[u8]],
    word: &Option<Bytes>,
    out: &mut Vec<u8>,
) -> Result<(), AllocError>
    ensures { OnOk result (out.new.items ≡ out.old.items
        ++ rule_warning line element.now field.now (map (λ k. k.now) known.now) word.now) }
{
    let Some(word) = word else {
        return Ok(());
    };
    if is_one_of(known, word.as_slice()) {
        return Ok(());
    }
    let near = nearest(known, word.as_slice());
    put_unknown_word(alloc, line, element, field, word.as_slice(), near, out)
}

/// Whether a syntax of this OID is known.
fn is_syntax(oid: &[u8]) -> bool
    ensures { result ≡ is_syntax oid.now }
{
    is_among(&SYNTAXES, oid)
}

/// Warns of the syntax that a definition states, if that isn't known.
fn put_syntax(
    alloc: Global,
    line: u64,
    element: &Element,
    oid: &Option<Bytes>,
    out: &mut Vec<u8>,
) -> Result<(), AllocError>
    ensures { OnOk result (out.new.items ≡ out.old.items ++ syntax_warning line element.now oid.now) }
{
    let Some(oid) = oid else {
        return Ok(());
    };
    if is_syntax(oid.as_slice()) {
        return Ok(());
    }
    put_unknown_word(alloc, line, element, "SYNTAX", oid.as_slice(), None, out)
}

/// Warns of what a definition states that isn't known.
fn put_unknown(
    alloc: Global,
    line: u64,
    definition: &TypeDefinition,
    out: &mut Vec<u8>,
) -> Result<(), AllocError>
    ensures { OnOk result (out.new.items ≡ out.old.items ++ unknown_warnings line definition.now) }
{
    let d = definition;
    let of = &d.element;
    put_rule(
        alloc,
        line,
        of,
        "EQUALITY",
        &EQUALITY_RULES,
        &d.equality,
        out,
    )?;
    put_rule(
        alloc,
        line,
        of,
        "ORDERING",
        &ORDERING_RULES,
        &d.ordering,
        out,
    )?;
    put_rule(
        alloc,
        line,
        of,
        "SUBSTR",
        &SUBSTRINGS_RULES,
        &d.substrings,
        out,
    )?;
    put_syntax(alloc, line, of, &d.syntax, out)
}

/// Whether what is defined is what every configuration has.
fn is_built_in(element: &Element) -> bool
    ensures { result ≡ is_built_in element.now.oid }
{
    let oid = element.oid.as_slice();
    b"2.5.4.0".as_slice() == oid
        || (b"2.5.6.0".as_slice() == oid || b"1.3.6.1.4.1.1466.101.120.111".as_slice() == oid)
}

/// Warns that a definition is skipped.
fn put_skipped(
    alloc: Global,
    line: u64,
    element: &Element,
    out: &mut Vec<u8>,
) -> Result<(), AllocError>
    ensures { OnOk result (out.new.items ≡ out.old.items ++ warning line (skipped_text element.now)) }
{
    let mut what = Vec::from_slice(alloc, called(element))?;
    what.extend_from_slice(b" is built in, and this definition is skipped")?;
    put_warning(alloc, line, what.as_slice(), out)
}

/// Warns of a definition of a type.
fn put_definition(
    alloc: Global,
    line: u64,
    definition: &TypeDefinition,
    out: &mut Vec<u8>,
) -> Result<(), AllocError>
    ensures { OnOk result (out.new.items ≡ out.old.items ++ type_warnings line (Some definition.now)) }
{
    if is_built_in(&definition.element) {
        put_skipped(alloc, line, &definition.element, out)
    } else {
        put_unknown(alloc, line, definition, out)
    }
}

/// Warns of a text that is to define a type.
fn put_type(alloc: Global, line: u64, text: &[u8], out: &mut Vec<u8>) -> Result<(), AllocError>
    ensures { OnOk result (out.new.items ≡ out.old.items ++ type_warnings line (type_definition_of text.now)) }
{
    match read_type_definition(alloc, text) {
        Ok(definition) => put_definition(alloc, line, &definition, out),
        Err(DefinitionFault::Form) => Ok(()),
        Err(DefinitionFault::OutOfMemory) => Err(AllocError),
    }
}

/// Warns of a definition of a class.
fn put_class_definition(
    alloc: Global,
    line: u64,
    definition: &ClassDefinition,
    out: &mut Vec<u8>,
) -> Result<(), AllocError>
    ensures { OnOk result (out.new.items ≡ out.old.items ++ class_warnings line (Some definition.now)) }
{
    if is_built_in(&definition.element) {
        put_skipped(alloc, line, &definition.element, out)
    } else {
        Ok(())
    }
}

/// Warns of a text that is to define a class.
fn put_class(alloc: Global, line: u64, text: &[u8], out: &mut Vec<u8>) -> Result<(), AllocError>
    ensures { OnOk result (out.new.items ≡ out.old.items ++ class_warnings line (class_definition_of text.now)) }
{
    match read_class_definition(alloc, text) {
        Ok(definition) => put_class_definition(alloc, line, &definition, out),
        Err(DefinitionFault::Form) => Ok(()),
        Err(DefinitionFault::OutOfMemory) => Err(AllocError),
    }
}

/// Warns of what a line says.
#[tactic(auto, unfolding(crate::specs::Warnings::line_warnings))]
fn put_line_warnings(alloc: Global, line: &Line, out: &mut Vec<u8>) -> Result<(), AllocError>
    ensures { OnOk result (out.new.items ≡ out.old.items ++ line_warnings line.now) }
{
    let (word, rest) = split_first_word(line.text.as_slice());
    if word.eq_ignore_ascii_case(b"attributetype") {
        put_type(alloc, line.number, rest, out)
    } else if word.eq_ignore_ascii_case(b"objectclass") {
        put_class(alloc, line.number, rest, out)
    } else {
        Ok(())
    }
}

/// Warns of what lines say.
fn put_warnings(alloc: Global, lines: &[Line], out: &mut Vec<u8>) -> Result<(), AllocError>
    ensures { OnOk result (out.new.items ≡ out.old.items ++ flat_map line_warnings lines.now) }
{
    for line in lines {
        put_line_warnings(alloc, line, out)?;
    }
    Ok(())
}

/// Puts a report of each thing that the text of a dir.conf says and that counts for nothing at the end of a text: the word `warning`, the name of the
/// file, and the line and what it is. That is an equality, ordering or substrings rule or a syntax that isn't known, the rule with a known one from
/// which it differs by one letter, if there is one; and a definition of `objectClass`, `top` or `extensibleObject`, which is skipped. The fault is want
/// of memory.
pub fn report_warnings(alloc: Global, text: &[u8], out: &mut Vec<u8>) -> Result<(), AllocError>
    ensures { OnOk result (out.new.items ≡ out.old.items ++ warnings text.now) }
{
    let lines = lines_of(alloc, text)?;
    put_warnings(alloc, &lines, out)
}
