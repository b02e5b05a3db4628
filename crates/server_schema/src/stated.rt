//! What needs no line, since it is built in or a dir.conf says it already.

ghost use Rattle.std.specs.Prelude.{◌≡◌, ◌++◌, IfOk, OnOk};
ghost use Rattle.dir_conf.specs.Configurations.{is_first};
ghost use Rattle.dir_conf.specs.Configurations as configurations;
ghost use Rattle.server_schema.specs.Alike.{meanings_of};
ghost use Rattle.server_schema.specs.Stated.{stated_on, stated_by, stated_in, sort_on, is_built_in_type, is_built_in_class, is_built_in};

use crate::alike::{Meaning, class_in, meanings_of, type_in};
use crate::definition::{Definition, Sort};
use base::Bytes;
use definitions::{Line, lines_of, split_first_word};
use std::alloc::{AllocError, Global};

fn is_built_in_oid(oid: &[u8]) -> bool
    ensures { result ≡ configurations.is_built_in oid.now }
{
    b"2.5.4.0".as_slice() == oid
        || (b"2.5.6.0".as_slice() == oid || b"1.3.6.1.4.1.1466.101.120.111".as_slice() == oid)
}

fn is_built_in_type(alloc: Global, text: &[u8]) -> Result<bool, AllocError>
    ensures { IfOk result (λ b. b ≡ is_built_in_type text.now) }
{
    match type_in(alloc, text)? {
        Some(definition) => Ok(is_built_in_oid(definition.element.oid.as_slice())),
        None => Ok(false),
    }
}

fn is_built_in_class(alloc: Global, text: &[u8]) -> Result<bool, AllocError>
    ensures { IfOk result (λ b. b ≡ is_built_in_class text.now) }
{
    match class_in(alloc, text)? {
        Some(definition) => Ok(is_built_in_oid(definition.element.oid.as_slice())),
        None => Ok(false),
    }
}

/// Whether a definition has the OID of something that is built in.
pub(crate) fn is_built_in(alloc: Global, definition: &Definition) -> Result<bool, AllocError>
    ensures { IfOk result (λ b. b ≡ is_built_in definition.now) }
{
    match definition.sort {
        Sort::AttributeType => is_built_in_type(alloc, definition.text.as_slice()),
        Sort::ObjectClass => is_built_in_class(alloc, definition.text.as_slice()),
    }
}

// the definition on a line of a dir.conf, if it is of this word
fn sort_on(line: &Line) -> Option<Sort>
    ensures { result ≡ sort_on line.now }
{
    let word = split_first_word(line.text.as_slice()).0;
    if word.eq_ignore_ascii_case(b"attributetype") {
        Some(Sort::AttributeType)
    } else if word.eq_ignore_ascii_case(b"objectclass") {
        Some(Sort::ObjectClass)
    } else {
        None
    }
}

fn add_stated(alloc: Global, line: &Line, found: &mut Vec<Definition>) -> Result<(), AllocError>
    ensures { OnOk result (found.new.items ≡ found.old.items ++ stated_on line.now) }
{
    match sort_on(line) {
        Some(sort) => {
            let text = Bytes::from_slice(alloc, split_first_word(line.text.as_slice()).1)?;
            found.push(Definition { sort, text })?;
            Ok(())
        }
        None => Ok(()),
    }
}

fn stated_by(alloc: Global, lines: &[Line]) -> Result<Vec<Definition>, AllocError>
    ensures { IfOk result (λ v. v.items ≡ stated_by lines.now) }
{
    let mut found = Vec::new(alloc);
    for line in lines {
        add_stated(alloc, line, &mut found)?;
    }
    Ok(found)
}

// the definitions on the lines of a dir.conf, readable or not
fn stated_in(alloc: Global, conf: &[u8]) -> Result<Vec<Definition>, AllocError>
    ensures { IfOk result (λ v. v.items ≡ stated_in conf.now) }
{
    let lines = lines_of(alloc, conf)?;
    stated_by(alloc, &lines)
}

/// What the definitions on the lines of a dir.conf say.
pub(crate) fn meanings_in(alloc: Global, conf: &[u8]) -> Result<Vec<Meaning>, AllocError>
    ensures { IfOk result (λ v. v.items ≡ meanings_of (stated_in conf.now)) }
{
    let definitions = stated_in(alloc, conf)?;
    meanings_of(alloc, &definitions)
}
