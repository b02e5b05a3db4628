//! What is wrong with a line, and with what of it.

ghost use Rattle.std.specs.Prelude.{◌≡◌, IfOk};
ghost use Rattle.definitions.specs.Words.{first_word};
ghost use Rattle.dir_conf.specs.declared.reason.ConfFlaw.TheVariants as flaws;
ghost use Rattle.dir_conf.specs.inner.FoundFlaws.{IsBadSuffix, TellsDefinition, TellsName, TellsSuffix, TellsLater};
ghost use Rattle.dir_conf.specs.inner.Views.{defined_view};
ghost use Rattle.schema.specs.Values.{rdns_in};

use crate::class_flaws::class_flaw_in;
use crate::conf_lines::{is_first, says_nothing};
use crate::defined::{Defined, begins_blank};
use crate::index_flaws::index_flaw;
use crate::reason::ConfFlaw;
use crate::suffix_lines::suffix_text;
use crate::type_flaws::type_flaw_in;
use base::Bytes;
use definitions::split_first_word;
use schema::{PathFault, rdns_in};
use std::alloc::{AllocError, Global};
use values::TypeTable;

fn keyword(alloc: Global, line: &[u8]) -> Result<ConfFlaw, AllocError>
    ensures { IfOk result (λ flaw. flaw ≡ flaws.Keyword (first_word line.now)) }
{
    let word = Bytes::from_slice(alloc, split_first_word(line).0)?;
    Ok(ConfFlaw::Keyword { word })
}

/// What is wrong with a line of the first pass, behind those that define so much.
#[tactic(auto, unfolding(crate::specs::inner::FoundFlaws::TellsDefinition))]
pub(crate) fn definition_flaw(
    alloc: Global,
    known: &Defined,
    line: &[u8],
) -> Result<Option<ConfFlaw>, AllocError>
    ensures { IfOk result (TellsDefinition (defined_view known.now) line.now) }
{
    if says_nothing(line) {
        Ok(None)
    } else if begins_blank(line) {
        Ok(Some(ConfFlaw::Indented))
    } else if is_first(b"suffix", line) || is_first(b"index", line) {
        Ok(None)
    } else if is_first(b"attributetype", line) {
        type_flaw_in(alloc, &known.types, split_first_word(line).1)
    } else if is_first(b"objectclass", line) {
        class_flaw_in(
            alloc,
            &known.types,
            &known.classes,
            split_first_word(line).1,
        )
    } else {
        Ok(Some(keyword(alloc, line)?))
    }
}

// the first RDN up to a comma that isn't escaped, and what stands behind that
fn split_rdn(name: &[u8]) -> (&[u8], &[u8]) {
    let mut is_escaped = false;
    for (i, byte) in name.iter().enumerate() {
        if *byte == b',' && !is_escaped {
            return (name.split_at(i).0, name.split_at(i + 1).1);
        }
        is_escaped = *byte == b'\\' && !is_escaped;
    }
    name.split_at(name.len())
}

// whether a text is a name under these types
fn is_name(alloc: Global, types: &TypeTable, text: &[u8]) -> Result<bool, AllocError> {
    match rdns_in(alloc, types, text) {
        Ok(rdns) => Ok(!rdns.as_slice().is_empty()),
        Err(PathFault::OutOfMemory) => Err(AllocError),
        Err(PathFault::Code(_)) => Ok(false),
    }
}

// the first RDN of a text that is none, or the whole text
fn part_at_fault<'a>(
    alloc: Global,
    types: &TypeTable,
    name: &'a [u8],
) -> Result<&'a [u8], AllocError> {
    let mut rest = name;
    for _ in name {
        let (rdn, behind) = split_rdn(rest);
        if !is_name(alloc, types, rdn)? {
            return Ok(rdn);
        }
        rest = behind;
    }
    Ok(name)
}

fn bad_suffix(alloc: Global, types: &TypeTable, name: &[u8]) -> Result<Option<ConfFlaw>, AllocError>
    ensures { IfOk result IsBadSuffix }
{
    let part = Bytes::from_slice(alloc, part_at_fault(alloc, types, name)?)?;
    Ok(Some(ConfFlaw::BadSuffix { part }))
}

// what is wrong with the name of a suffix
fn name_flaw(alloc: Global, types: &TypeTable, name: &[u8]) -> Result<Option<ConfFlaw>, AllocError>
    ensures { IfOk result (TellsName (rdns_in types.now name.now)) }
{
    match rdns_in(alloc, types, name) {
        Ok(rdns) => {
            if rdns.as_slice().is_empty() {
                bad_suffix(alloc, types, name)
            } else {
                Ok(None)
            }
        }
        Err(PathFault::OutOfMemory) => Err(AllocError),
        Err(PathFault::Code(_)) => bad_suffix(alloc, types, name),
    }
}

fn suffix_flaw(
    alloc: Global,
    types: &TypeTable,
    has_suffix: bool,
    line: &[u8],
) -> Result<Option<ConfFlaw>, AllocError>
    ensures { IfOk result (TellsSuffix types.now has_suffix line.now) }
{
    if has_suffix {
        Ok(Some(ConfFlaw::SecondSuffix))
    } else {
        name_flaw(alloc, types, suffix_text(line))
    }
}

/// What is wrong with a line of the second pass, where a suffix stands above it or not.
#[tactic(auto, unfolding(crate::specs::inner::FoundFlaws::TellsLater))]
pub(crate) fn later_flaw(
    alloc: Global,
    types: &TypeTable,
    has_suffix: bool,
    line: &[u8],
) -> Result<Option<ConfFlaw>, AllocError>
    ensures { IfOk result (TellsLater types.now has_suffix line.now) }
{
    if says_nothing(line) {
        Ok(None)
    } else if is_first(b"index", line) {
        index_flaw(alloc, types, split_first_word(line).1)
    } else if is_first(b"suffix", line) {
        suffix_flaw(alloc, types, has_suffix, line)
    } else {
        Ok(None)
    }
}
