//! Values of objectClass that name no class.

ghost use Rattle.std.specs.Prelude.{◌≡◌, ◌++◌, ◌&&◌, not, slice_get, OnOk, IfOk};
ghost use Rattle.std.specs.List.{list_any};
ghost use Rattle.std.specs.Option.{option_copied};
ghost use Rattle.std.specs.Str.{str_eq_ignore_ascii_case};
ghost use Rattle.schema.specs.Names.{name_in};
ghost use Rattle.reasons.specs.Asked.{lines_of_record, blocks_of_record};
ghost use Rattle.sentences.specs.ClassWords.{is_object_class, names_no_class, takes, takes_away, is_delete, line_classes, block_classes, brought_classes, blocks_classes, first_avas, avas_if_read, rdn_classes, name_classes, naming_text, unknown_class, unknown_class_words};
ghost use Rattle.sentences.specs.Putting.{IsPut};

use crate::lines::ShownText;
use crate::record_parts::{lines_in, naming_text_in};
use crate::record_words::Refused;
use crate::shown::push_quoted;
use base::Bytes;
use dn::{Ava, Name};
use ldif::{Mod, Op};
use schema::{PathFault, read_dn};
use std::alloc::AllocError;

/// The AVAs of the first RDN of a name.
pub(crate) fn first_avas(name: &Name) -> &[Ava]
    ensures { result.now ≡ first_avas name.now }
{
    match name.rdns() {
        [first, ..] => first.avas(),
        [] => &[],
    }
}

/// Whether a value is a class name, in any case.
fn is_class_name(value: &[u8], name: &[u8]) -> bool
    ensures { result ≡ str_eq_ignore_ascii_case value.now name.now }
{
    value.eq_ignore_ascii_case(name)
}

/// Whether one of the values is a class name, in any case.
fn has_class_name(values: &[Bytes], name: &[u8]) -> bool
    ensures { result ≡ list_any (λ w. str_eq_ignore_ascii_case w name.now) values.now }
{
    for value in values {
        if is_class_name(value.as_slice(), name) {
            return true;
        }
    }
    false
}

/// Whether a block of objectClass takes a class name away.
fn takes(block: &Mod, name: &[u8]) -> bool
    ensures { result ≡ takes block.now.op block.now.values name.now }
{
    match block.op {
        Op::Add => false,
        Op::Replace => true,
        Op::Delete => {
            block.values.as_slice().is_empty() || has_class_name(block.values.as_slice(), name)
        }
    }
}

fn is_delete(op: Op) -> bool
    ensures { result ≡ is_delete op }
{
    match op {
        Op::Delete => true,
        Op::Add | Op::Replace => false,
    }
}

/// Puts that a value of objectClass names no class behind words, and which, if that is known.
fn push_no_class(words: &mut ShownText, value: Option<&[u8]>) -> Result<(), AllocError>
    ensures { OnOk result (IsPut words.old words.new (unknown_class (option_copied value.entry))) }
{
    match value {
        Some(value) => {
            words.push_str("objectClass: ")?;
            push_quoted(words, value)?;
            words.push_str(" is no object class of dir.conf")
        }
        None => words.push_str("a value of objectClass is no object class of dir.conf"),
    }
}

impl Refused<'_> {
    /// Whether an attribute name means objectClass.
    fn is_object_class(&self, name: &[u8]) -> bool
        ensures { result ≡ is_object_class self.now.conf.now name.now }
    {
        match self.conf.type_of(name) {
            Some(t) => t.number() == 0,
            None => false,
        }
    }

    /// Whether a value names no class, under an attribute name that means objectClass.
    fn names_no_class(&self, name: &[u8], value: &[u8]) -> bool
        ensures { result ≡ names_no_class self.now.conf.now name.now value.now }
    {
        self.is_object_class(name) && self.conf.class_of(value).is_none()
    }

    /// Whether a block takes a value of objectClass away that names no class.
    fn takes_away(&self, block: &Mod, value: &[u8]) -> bool
        ensures { result ≡ takes_away self.now.conf.now value.now block.now }
    {
        self.is_object_class(block.attr.as_slice()) && takes(block, value)
    }

    /// Whether no block takes a value of objectClass away.
    fn stays(&self, later: &[Mod], value: &[u8]) -> bool
        ensures { result ≡ not (list_any (takes_away self.now.conf.now value.now) later.now) }
    {
        for block in later {
            if self.takes_away(block, value) {
                return false;
            }
        }
        true
    }

    /// Whether a value of a block names no class and no later block takes it away.
    fn is_unknown(&self, later: &[Mod], block: &Mod, value: &[u8]) -> bool
        ensures { result ≡ (names_no_class self.now.conf.now block.now.attr value.now && not (list_any (takes_away self.now.conf.now value.now) later.now)) }
    {
        self.names_no_class(block.attr.as_slice(), value) && self.stays(later, value)
    }

    /// The first value of a block that names no class and stays.
    fn class_in_block<'b>(&self, later: &[Mod], block: &'b Mod) -> Option<&'b [u8]>
        ensures { option_copied result ≡ slice_get (block_classes self.now.conf.now later.now block.now) 0 }
    {
        let values = block.values.as_slice();
        for value in values {
            if self.is_unknown(later, block, value.as_slice()) {
                return Some(value.as_slice());
            }
        }
        None
    }

    /// The first such value of a block that gives the entry values.
    fn class_brought<'b>(&self, later: &[Mod], block: &'b Mod) -> Option<&'b [u8]>
        ensures { option_copied result ≡ slice_get (brought_classes self.now.conf.now later.now block.now) 0 }
    {
        if is_delete(block.op) {
            return None;
        }
        self.class_in_block(later, block)
    }

    /// The first such value of all blocks.
    fn class_in_blocks(&self) -> Option<&[u8]>
        ensures { option_copied result ≡ slice_get (blocks_classes self.now.conf.now (blocks_of_record self.now.asked.now)) 0 }
    {
        let blocks = self.blocks();
        for (place, block) in blocks.iter().enumerate() {
            if let Some(value) = self.class_brought(blocks.split_at(place + 1).1, block) {
                return Some(value);
            }
        }
        None
    }

    /// The first value of the lines of an add that names no class.
    fn class_in_lines(&self) -> Option<&[u8]>
        ensures { option_copied result ≡ slice_get (line_classes self.now.conf.now (lines_of_record self.now.asked.now)) 0 }
    {
        let lines = lines_in(self.asked);
        for line in lines {
            if self.names_no_class(line.name(), line.value()) {
                return Some(line.value());
            }
        }
        None
    }

    /// The first of the lines and the blocks.
    fn class_said(&self) -> Option<&[u8]>
        ensures { option_copied result ≡ slice_get (line_classes self.now.conf.now (lines_of_record self.now.asked.now) ++ blocks_classes self.now.conf.now (blocks_of_record self.now.asked.now)) 0 }
    {
        match self.class_in_lines() {
            Some(value) => Some(value),
            None => self.class_in_blocks(),
        }
    }

    /// The first value of an RDN that names no class.
    fn class_in_rdn<'b>(&self, avas: &'b [Ava]) -> Option<&'b [u8]>
        ensures { option_copied result ≡ slice_get (rdn_classes self.now.conf.now avas.now) 0 }
    {
        for ava in avas {
            if self.names_no_class(ava.type_text(), ava.value()) {
                return Some(ava.value());
            }
        }
        None
    }

    /// The name whose first RDN gives the entry values, if it can be read.
    pub(crate) fn naming_name(&self) -> Result<Option<Name>, AllocError>
        ensures { IfOk result (λ found. name_classes self.now.conf.now (name_in (naming_text self.now.asked.now)) ≡ rdn_classes self.now.conf.now (avas_if_read found)) }
    {
        match read_dn(self.alloc, naming_text_in(self.asked)) {
            Ok(name) => Ok(Some(name)),
            Err(PathFault::Code(_)) => Ok(None),
            Err(PathFault::OutOfMemory) => Err(AllocError),
        }
    }

    /// Puts that a value of the RDN names no class behind words, or where none does that some value names none.
    fn push_class_in_rdn(&self, words: &mut ShownText) -> Result<(), AllocError>
        ensures { OnOk result (IsPut words.old words.new (unknown_class (slice_get (name_classes self.now.conf.now (name_in (naming_text self.now.asked.now))) 0))) }
    {
        match self.naming_name()? {
            Some(name) => push_no_class(words, self.class_in_rdn(first_avas(&name))),
            None => push_no_class(words, None),
        }
    }

    /// Puts which value names no class behind words.
    pub(crate) fn push_unknown_class(&self, words: &mut ShownText) -> Result<(), AllocError>
        ensures { OnOk result (IsPut words.old words.new (unknown_class_words self.now.conf.now self.now.asked.now)) }
    {
        match self.class_said() {
            Some(value) => push_no_class(words, Some(value)),
            None => self.push_class_in_rdn(words),
        }
    }
}
