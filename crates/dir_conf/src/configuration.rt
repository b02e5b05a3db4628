//! Reading the text of a configuration.

ghost use Rattle.dir_conf.specs.Configurations.{conf_on_lines, conf_of, definitions_of};
ghost use Rattle.dir_conf.specs.Reads.{Reads};
ghost use Rattle.dir_conf.specs.inner.Views.{defined_view, suffix_and_slots};

use crate::conf_fault::{ConfFault, ConfFaultKind};
use crate::conf_lines::fault;
use crate::defined::{Defined, defined_by};
use crate::later_lines::{Found, found_in};
use crate::slots::in_order;
use base::Sequence;
use definitions::{Line, defined_types_have_names, lines_of};
use dn::spelled_names_are_read;
use paths::TypedRdn;
use schema::{Conf, Slot};
use std::alloc::Global;
use values::TypeTable;

/// Few texts have more names and OIDs than one in so many bytes.
const BYTES_OF_A_NAME: usize = 32;

fn suffix_and_slots(
    alloc: Global,
    types: &TypeTable,
    lines: &[Line],
) -> Result<(Sequence<TypedRdn>, Sequence<Slot>), ConfFault>
    ensures { Reads (λ x. (x.0, x.1)) result (suffix_and_slots types.now lines.now) }
{
    spelled_names_are_read();
    let Found { suffix, slots } = found_in(alloc, types, lines)?;
    match suffix {
        Some(suffix) => Ok((suffix, in_order(alloc, slots)?)),
        None => Err(fault(0, ConfFaultKind::Suffix)),
    }
}

fn conf_on_lines(alloc: Global, names: usize, lines: &[Line]) -> Result<Conf, ConfFault>
    ensures { Reads (λ c. c) result (conf_on_lines lines.now) }
{
    defined_types_have_names();
    spelled_names_are_read();
    let defined = defined_by(alloc, names, lines)?;
    let (suffix, slots) = suffix_and_slots(alloc, &defined.types, lines)?;
    let Defined { types, classes } = defined;
    Ok(Conf::new(alloc, types, suffix, slots, classes)?)
}

/// The configuration that the text of a `dir.conf` says. It is refused with the first line that is at fault; lines of suffixes and
/// indexes are looked at after all others, and a missing suffix last of all.
///
/// Behind the first word of an index line stand two words: a comma list of names or OIDs of types, and one of the kinds `eq`, `pres` and
/// `sub`. Else, or where a member of a list is empty, it is at fault with `Form`; where no type has one of the names, with
/// `UnknownName`; and where one of the kinds is no such word, or one of the types has no rule of equality for `eq` or of substrings for
/// `sub`, with `Index`. The first of these answers.
#[tactic(auto, unfolding(crate::specs::Configurations::conf_of))]
pub fn read_conf(alloc: Global, text: &[u8]) -> Result<Conf, ConfFault>
    ensures { Reads (λ c. c) result (conf_of text.now) }
{
    let lines = lines_of(alloc, text)?;
    conf_on_lines(alloc, text.len() / BYTES_OF_A_NAME, &lines)
}

/// The types and classes that a text of a `dir.conf` defines, beside those that are built in. Lines of suffixes and indexes aren't looked at. It is
/// refused with the first line of another kind that is at fault.
#[tactic(auto, unfolding(crate::specs::Configurations::definitions_of))]
pub fn read_definitions(alloc: Global, text: &[u8]) -> Result<Defined, ConfFault>
    ensures { Reads defined_view result (definitions_of text.now) }
{
    let lines = lines_of(alloc, text)?;
    defined_by(alloc, text.len() / BYTES_OF_A_NAME, &lines)
}
