//! The lines on which the parts of a record stand.

ghost use Rattle.std.specs.Prelude.{◌≡◌, ◌∷◌, ◌<◌, ◌+◌, [], ℕ, List, false, drop, length, MatchOption, IfOk, Ok};
ghost use Rattle.ldif.specs.Parts.{attrs_in, mods_in, controls_in, superior_in, IsPartLine};
ghost use Rattle.ldif.specs.Reading.{reading};
ghost use Rattle.ldif.specs.PartLines.{last_dash, block_end, block_line, line_of_value, is_named, begins_with_version, name_line, from_end, name_in, control_line, newrdn_line, superior_line, line_of};

use crate::fault::LdifFault;
use crate::line::colon_in;
use crate::modify::is_dash;
use crate::read::{are_in_range, read_record};
use crate::record::{Control, Mod, Mode, Record};
use crate::value::Attr;
use crate::word::same_name;
use ldif_lines::{LinesFrom, RawRecord};
use std::alloc::{AllocError, Global};

/// A part of a record that a line says.
#[derive(Clone, Copy, PartialEq, Eq)]
pub enum Part {
    /// The name, by `dn:`.
    Name,
    /// The attribute of this index, of a content record or an add.
    Attribute(usize),
    /// The block of this index, by its first line.
    Block(usize),
    /// A value of a block.
    Value { block: usize, value: usize },
    /// The control of this index.
    Control(usize),
    NewRdn,
    NewSuperior,
}

fn attrs_in<'a, 'b>(asked: &'a Record<'b>) -> &'a [Attr<'b>]
    ensures { result.now ≡ attrs_in asked.now }
{
    match asked {
        Record::Content { attrs, .. } => attrs.as_slice(),
        Record::Add { attrs, .. } => attrs.as_slice(),
        _ => &[],
    }
}

fn mods_in<'a>(asked: &'a Record<'_>) -> &'a [Mod]
    ensures { result.now ≡ mods_in asked.now }
{
    match asked {
        Record::Modify { mods, .. } => mods.as_slice(),
        _ => &[],
    }
}

fn controls_in<'a>(asked: &'a Record<'_>) -> &'a [Control]
    ensures { result.now ≡ controls_in asked.now }
{
    match asked {
        Record::Empty | Record::Content { .. } => &[],
        Record::Add { controls, .. } => controls.as_slice(),
        Record::Delete { controls, .. } => controls.as_slice(),
        Record::Modify { controls, .. } => controls.as_slice(),
        Record::ModRdn { controls, .. } => controls.as_slice(),
    }
}

/// Whether the last line is a `-`.
#[tactic(auto, unfolding(crate::specs::PartLines::last_dash))]
fn last_dash(lines: LinesFrom<'_>) -> bool
    ensures { result ≡ last_dash false lines.entry }
{
    let mut dash = false;
    let mut rest = lines;
    'walk: while let Some((line, after)) = rest.split_first() {
        dash = is_dash(line);
        rest = after;
    }
    dash
}

/// The index behind a block, where these blocks follow.
fn block_end(lines: LinesFrom<'_>, others: &[Mod]) -> usize
    ensures { result ≡ block_end lines.entry others.now }
{
    let len = lines.len();
    let mut at = if last_dash(lines) {
        len.saturating_sub(1)
    } else {
        len
    };
    for other in others {
        at = at.saturating_sub(2).saturating_sub(other.values.len());
    }
    at
}

/// The block of this index, and those behind it.
fn blocks_from(mods: &[Mod], block: usize) -> Option<(&Mod, &[Mod])>
    ensures { MatchOption result (drop block mods.now ≡ []) (λ p. drop block mods.now ≡ p.0.now ∷ p.1.now) }
{
    if block < mods.len() {
        mods[block..].split_first()
    } else {
        None
    }
}

fn block_line(mods: &[Mod], lines: LinesFrom<'_>, block: usize) -> Option<usize>
    ensures { result ≡ block_line mods.now lines.entry block }
{
    let (change, others) = blocks_from(mods, block)?;
    let end = block_end(lines, others);
    Some(end.saturating_sub(change.values.len()).saturating_sub(1))
}

fn line_of_value(mods: &[Mod], lines: LinesFrom<'_>, block: usize, value: usize) -> Option<usize>
    ensures { result ≡ line_of_value mods.now lines.entry block value }
{
    let (change, others) = blocks_from(mods, block)?;
    let count = change.values.len();
    if value < count {
        let end = block_end(lines, others);
        Some(end.saturating_sub(count - value))
    } else {
        None
    }
}

/// Whether this is the name before a line's first colon.
fn is_named(line: &[u8], key: &[u8]) -> bool
    ensures { result ≡ is_named line.now key.now }
{
    match colon_in(line) {
        None => false,
        Some(at) => same_name(&line[..at], key),
    }
}

fn begins_with_version(lines: LinesFrom<'_>) -> bool
    ensures { result ≡ begins_with_version lines.entry }
{
    match lines.split_first() {
        None => false,
        Some((line, _)) => is_named(line, b"version"),
    }
}

/// How many lines stand before `dn:`.
fn name_line(raw: &RawRecord) -> usize
    ensures { result ≡ name_line raw.now.first raw.now.lines }
{
    if raw.first && begins_with_version(raw.lines.all()) {
        1
    } else {
        0
    }
}

/// The line of an item, where so many items stand on the last lines.
fn from_end(len: usize, count: usize, index: usize) -> Option<usize>
    ensures { result ≡ from_end len count index }
{
    if index < count {
        Some(len.saturating_sub(count - index))
    } else {
        None
    }
}

fn name_in(asked: &Record<'_>, raw: &RawRecord) -> Option<usize>
    ensures { result ≡ name_in raw.now.first raw.now.lines asked.now }
{
    match asked {
        Record::Empty => None,
        _ => Some(name_line(raw)),
    }
}

fn control_line(raw: &RawRecord, len: usize, count: usize, index: usize) -> Option<usize>
    ensures { (0 < count → name_line raw.now.first raw.now.lines + count < len) → result ≡ control_line raw.now.first raw.now.lines count index }
{
    let _len = len;
    if index < count {
        Some(name_line(raw).saturating_add(1).saturating_add(index))
    } else {
        None
    }
}

fn newrdn_line(asked: &Record<'_>, len: usize) -> Option<usize>
    ensures { (lines : List (List ℕ)) → len ≡ length lines → result ≡ newrdn_line lines asked.now }
{
    match asked {
        Record::ModRdn {
            new_superior: None,
            ..
        } => Some(len.saturating_sub(2)),
        Record::ModRdn {
            new_superior: Some(_),
            ..
        } => Some(len.saturating_sub(3)),
        _ => None,
    }
}

fn superior_line(asked: &Record<'_>, len: usize) -> Option<usize>
    ensures { (lines : List (List ℕ)) → len ≡ length lines → result ≡ superior_line lines (superior_in asked.now) }
{
    match asked {
        Record::ModRdn {
            new_superior: Some(_),
            ..
        } => Some(len.saturating_sub(1)),
        _ => None,
    }
}

fn line_of(asked: &Record<'_>, raw: &RawRecord, part: Part) -> Option<usize>
    ensures { (0 < length (controls_in asked.now) → name_line raw.now.first raw.now.lines + length (controls_in asked.now) < length raw.now.lines) → result ≡ line_of asked.now raw.now.first raw.now.lines part }
{
    let len = raw.lines.len();
    match part {
        Part::Name => name_in(asked, raw),
        Part::Attribute(index) => from_end(len, attrs_in(asked).len(), index),
        Part::Block(block) => block_line(mods_in(asked), raw.lines.all(), block),
        Part::Value { block, value } => {
            line_of_value(mods_in(asked), raw.lines.all(), block, value)
        }
        Part::Control(index) => control_line(raw, len, controls_in(asked).len(), index),
        Part::NewRdn => newrdn_line(asked, len),
        Part::NewSuperior => superior_line(asked, len),
    }
}

/// The index of the line that says a part of a record, or `None` where it has no such part. The record is the one that these lines
/// read as.
pub fn part_line(asked: &Record<'_>, raw: &RawRecord, part: Part) -> Option<usize>
    ensures { (mode : Mode) → reading mode raw.now.first raw.now.lines ≡ Ok asked.now → IsPartLine mode asked.now part raw.now.lines result }
{
    are_in_range(raw.lines.all());
    line_of(asked, raw, part)
}

/// The same of the lines alone, which are read once more.
pub fn read_part_line(
    alloc: Global,
    raw: &RawRecord,
    mode: Mode,
    part: Part,
) -> Result<Option<usize>, AllocError>
    ensures { IfOk result (λ index. (found : Record) → reading mode raw.now.first raw.now.lines ≡ Ok found → IsPartLine mode found part raw.now.lines index) }
{
    match read_record(alloc, raw, mode) {
        Ok(asked) => Ok(part_line(&asked, raw, part)),
        Err(LdifFault::Fault(_)) => Ok(None),
        Err(LdifFault::OutOfMemory) => Err(AllocError),
    }
}
