//! Reading the lines that are looked at after all others: the suffix and the indexes.

ghost use Rattle.definitions.specs.Words.{after_word};
ghost use Rattle.dir_conf.specs.Configurations.{with_slots, later_line, found_in, none_found};
ghost use Rattle.dir_conf.specs.IndexLines.{slots_in};
ghost use Rattle.dir_conf.specs.Reads.{Reads};
ghost use Rattle.dir_conf.specs.inner.Views.{found_view};

use crate::conf_fault::{ConfFault, ConfFaultKind};
use crate::conf_lines::{fault, is_first, says_nothing};
use crate::index_lines::slots_in;
use crate::suffix_lines::{suffix_at, suffix_text};
use base::Sequence;
use definitions::{Line, split_first_word};
use paths::TypedRdn;
use schema::Slot;
use std::alloc::Global;
use values::TypeTable;

/// What the lines say: a suffix, and slots as often as they are said.
#[derive(Drop)]
pub(crate) struct Found {
    pub(crate) suffix: Option<Sequence<TypedRdn>>,
    pub(crate) slots: Vec<Slot>,
}

// puts the slots that an index line says behind those before it
fn read_index_line(
    alloc: Global,
    types: &TypeTable,
    found: &mut Found,
    line: &Line,
) -> Result<(), ConfFault>
    ensures { Reads (λ _. found_view found.new) result (with_slots (found_view found.old) (slots_in types.now line.now.number (after_word line.now.text))) }
{
    let text = split_first_word(line.text.as_slice()).1;
    let slots = slots_in(alloc, types, line.number, text)?;
    Ok(found.slots.extend_from_slice(&slots)?)
}

#[tactic(auto, unfolding(crate::specs::Configurations::later_line))]
fn read_later_line(
    alloc: Global,
    types: &TypeTable,
    found: &mut Found,
    line: &Line,
) -> Result<(), ConfFault>
    ensures { Reads (λ _. found_view found.new) result (later_line types.now (found_view found.old) line.now) }
{
    let text = line.text.as_slice();
    if says_nothing(text) {
        return Ok(());
    }
    if is_first(b"index", text) {
        return read_index_line(alloc, types, found, line);
    }
    if !is_first(b"suffix", text) {
        return Ok(());
    }
    if found.suffix.is_some() {
        return Err(fault(line.number, ConfFaultKind::Suffix));
    }
    found.suffix = Some(suffix_at(alloc, types, line.number, suffix_text(text))?);
    Ok(())
}

/// The suffix and the slots that the lines say.
pub(crate) fn found_in(alloc: Global, types: &TypeTable, lines: &[Line]) -> Result<Found, ConfFault>
    ensures { Reads found_view result (found_in types.now none_found lines.now) }
{
    let mut found = Found {
        suffix: None,
        slots: Vec::new(alloc),
    };
    for line in lines {
        read_later_line(alloc, types, &mut found, line)?;
    }
    Ok(found)
}
