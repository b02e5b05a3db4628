//! Reading the suffix of a configuration.

ghost use Rattle.std.specs.Prelude.{◌≡◌, Some};
ghost use Rattle.dir_conf.specs.Configurations.{is_quoted, unquoted, suffix_text, suffix_at};
ghost use Rattle.dir_conf.specs.Reads.{Reads};

use crate::conf_fault::{ConfFault, ConfFaultKind};
use crate::conf_lines::fault;
use base::{Sequence, begins_with, without_end};
use definitions::{skip, split_first_word};
use paths::TypedRdn;
use schema::{PathFault, rdns_in};
use std::alloc::Global;
use values::TypeTable;

fn is_quoted(text: &[u8]) -> bool
    ensures { result ≡ is_quoted text.now }
{
    text.len() >= 2
        && begins_with(text, b'"')
        && text.split_at(text.len() - 1).1 == b"\"".as_slice()
}

// without the quotes, where both are there
fn unquoted(text: &[u8]) -> &[u8]
    ensures { result.now ≡ unquoted text.now }
{
    if is_quoted(text) {
        text.split_at(1).1.split_at(text.len() - 2).0
    } else {
        text
    }
}

/// What a suffix line says behind its first word.
pub(crate) fn suffix_text(line: &[u8]) -> &[u8]
    ensures { result.now ≡ suffix_text line.now }
{
    unquoted(without_end(skip(split_first_word(line).1)))
}

/// The suffix that a text spells.
pub(crate) fn suffix_at(
    alloc: Global,
    types: &TypeTable,
    line: u64,
    text: &[u8],
) -> Result<Sequence<TypedRdn>, ConfFault>
    ensures { Reads (λ rdns. Some rdns) result (suffix_at types.now line text.now) }
{
    match rdns_in(alloc, types, text) {
        Ok(rdns) => {
            if rdns.as_slice().is_empty() {
                Err(fault(line, ConfFaultKind::Suffix))
            } else {
                Ok(rdns)
            }
        }
        Err(PathFault::OutOfMemory) => Err(ConfFault::OutOfMemory),
        Err(PathFault::Code(_)) => Err(fault(line, ConfFaultKind::Suffix)),
    }
}
