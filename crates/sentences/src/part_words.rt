//! Words for lines, blocks and values of a record.

ghost use Rattle.std.specs.Prelude.{◌≡◌, ◌<◌, length, codes, slice_get, OnOk};
ghost use Rattle.std.specs.Option.{option_map, option_copied};
ghost use Rattle.std.specs.Str.{str_eq_ignore_ascii_case};
ghost use Rattle.ldif.specs.Forms as forms;
ghost use Rattle.reasons.specs.Asked.{lines_of_record, blocks_of_record};
ghost use Rattle.sentences.specs.Putting.{IsPut, Puts};
ghost use Rattle.sentences.specs.Cases.{case_of};
ghost use Rattle.sentences.specs.Sentence.{IsShown};
ghost use Rattle.sentences.specs.PartWords.{unknown_type, fixed_type, named_value, bad_value, line_words, equal_to, equal_words, operation_words, block_words, value_words};
ghost use Rattle.sentences.specs.RecordWords.{words_of_block, rdn_value_at, rdn_value_words, EarlierBeginsOn, IsLineWords, IsValueWords, IsBlockValueWords};

use crate::lines::ShownText;
use crate::names::push_type;
use crate::places::line_of;
use crate::record_parts::lines_in;
use crate::record_words::Refused;
use crate::shown::{push_number, push_quoted, push_type_name};
use crate::value_words::push_no_such_value;
use base::Bytes;
use ldif::{Attr, Mod, Op, Part};
use reasons::{BlockReason, LineReason, ValueReason};
use schema::{TypeId, ValueFault};
use std::alloc::AllocError;

fn is_dn(name: &[u8]) -> bool
    ensures { result ≡ str_eq_ignore_ascii_case name.now (codes "dn") }
{
    name.eq_ignore_ascii_case(b"dn")
}

/// The word that a block begins with.
fn op_word(op: Op) -> &'static str
    ensures word { result.now ≡ forms.op_word op }
    ensures shown { IsShown result.now }
{
    match op {
        Op::Add => "add",
        Op::Delete => "delete",
        Op::Replace => "replace",
    }
}

/// Puts that a name is none of an attribute type behind words.
#[tactic(auto, unfolding(crate::specs::PartWords::unknown_type))]
fn push_unknown_type(words: &mut ShownText, name: &[u8]) -> Result<(), AllocError>
    ensures { OnOk result (IsPut words.old words.new (unknown_type name.now)) }
{
    if is_dn(name) {
        return words.push_str("a dn: line within a record; an empty line is missing before it");
    }
    push_type_name(words, name)?;
    if name.contains(&b';') {
        words.push_str(": attribute options aren't kept")
    } else {
        words.push_str(" is no attribute type of dir.conf")
    }
}

/// Puts that users can't change values of the type with this name behind words.
#[tactic(auto, unfolding(crate::specs::PartWords::fixed_type))]
fn push_fixed_type(words: &mut ShownText, name: &[u8]) -> Result<(), AllocError>
    ensures { OnOk result (IsPut words.old words.new (fixed_type name.now)) }
{
    push_type_name(words, name)?;
    words.push_str(": users can't change it (NO-USER-MODIFICATION)")
}

/// Puts a value of the type with this name behind words.
#[tactic(auto, unfolding(crate::specs::PartWords::named_value))]
fn push_named_value(words: &mut ShownText, name: &[u8], value: &[u8]) -> Result<(), AllocError>
    ensures { OnOk result (IsPut words.old words.new (named_value name.now value.now)) }
{
    push_type_name(words, name)?;
    words.push_str(": ")?;
    push_quoted(words, value)
}

/// Puts what is wrong with a block behind words.
fn push_block_fault(words: &mut ShownText, block: &Mod, why: BlockReason) -> Result<(), AllocError>
    ensures { OnOk result (IsPut words.old words.new (block_words block.now why)) }
{
    let attr = block.attr.as_slice();
    match why {
        BlockReason::UnknownType => push_unknown_type(words, attr),
        BlockReason::UsersCantChange => push_fixed_type(words, attr),
        BlockReason::NoValues => push_operation(words, block, "", " has no values to add"),
        BlockReason::NoEquality => push_operation(
            words,
            block,
            "",
            " has no equality rule, so its values can't be compared; replace them",
        ),
        BlockReason::NoAttribute => push_operation(words, block, "the entry has no ", ""),
    }
}

/// Puts what a block is to do behind words, and its type between others.
#[tactic(auto, unfolding(crate::specs::PartWords::operation_words))]
fn push_operation(
    words: &mut ShownText,
    block: &Mod,
    before: &str,
    behind: &str,
) -> Result<(), AllocError>
    requires before { IsShown before.now }
    requires behind { IsShown behind.now }
    ensures { OnOk result (IsPut words.old words.new (operation_words block.now before.now behind.now)) }
{
    words.push_str(op_word(block.op))?;
    words.push_str(": ")?;
    words.push_str(before)?;
    push_type_name(words, block.attr.as_slice())?;
    words.push_str(behind)
}

/// Puts that a line's value equals that of an earlier one behind words, and the line on which that begins.
fn push_equal_to(
    words: &mut ShownText,
    other: Option<&Attr<'_>>,
    number: Option<u64>,
) -> Result<(), AllocError>
    ensures { OnOk result (IsPut words.old words.new (equal_to (option_copied other.entry) number)) }
{
    let Some(other) = other else {
        return words.push_str(" stands twice");
    };
    words.push_str(" equals ")?;
    push_quoted(words, other.value())?;
    match number {
        Some(number) => {
            words.push_str(" on line ")?;
            push_number(words, number)
        }
        None => words.push_str(" before it"),
    }
}

/// Puts that a value is to come behind words, and is there, or comes twice.
fn push_equal_value(words: &mut ShownText, there: Option<&[u8]>) -> Result<(), AllocError>
    ensures { OnOk result (IsPut words.old words.new (equal_words (option_copied there.entry))) }
{
    match there {
        Some(other) => {
            words.push_str(" is there already, as ")?;
            push_quoted(words, other)
        }
        None => words.push_str(" stands twice in the block"),
    }
}

impl Refused<'_> {
    /// Puts that a value is none of the type with this name behind words.
    #[tactic(auto, unfolding(crate::specs::PartWords::bad_value))]
    fn push_bad_value(
        &self,
        words: &mut ShownText,
        name: &[u8],
        value: &[u8],
    ) -> Result<(), AllocError>
        ensures { OnOk result (IsPut words.old words.new (bad_value self.now.conf.now name.now value.now)) }
    {
        match self.conf.type_of(name) {
            Some(t) => push_no_such_value(words, self.conf, t, value),
            None => push_unknown_type(words, name),
        }
    }

    /// Puts what is wrong with a line of an add behind words; where it equals an earlier one, that begins on a line with this number.
    fn push_line_fault(
        &self,
        words: &mut ShownText,
        line: &Attr<'_>,
        number: Option<u64>,
        why: LineReason,
    ) -> Result<(), AllocError>
        ensures { OnOk result (IsPut words.old words.new (line_words self.now.conf.now (lines_of_record self.now.asked.now) number line.now why)) }
    {
        match why {
            LineReason::UnknownType => push_unknown_type(words, line.name()),
            LineReason::UsersCantChange => push_fixed_type(words, line.name()),
            LineReason::BadSyntax => self.push_bad_value(words, line.name(), line.value()),
            LineReason::EqualTo { earlier } => {
                push_named_value(words, line.name(), line.value())?;
                push_equal_to(words, lines_in(self.asked).get(earlier), number)
            }
        }
    }

    /// The number of the text's line on which an earlier line begins that a line equals.
    fn earlier_line(&self, why: LineReason) -> Option<u64>
        ensures { EarlierBeginsOn self.now.raw.now self.now.asked.now why result }
    {
        match why {
            LineReason::EqualTo { earlier } => {
                line_of(self.asked, self.raw, Part::Attribute(earlier))
            }
            _ => None,
        }
    }

    /// Puts what is wrong with a line of an add behind words.
    pub(crate) fn push_line_words(
        &self,
        words: &mut ShownText,
        index: usize,
        why: LineReason,
    ) -> Result<(), AllocError>
        ensures { OnOk result (Puts words.old words.new (IsLineWords (case_of self.now) why (slice_get (lines_of_record self.now.asked.now) index))) }
    {
        match lines_in(self.asked).get(index) {
            Some(line) => self.push_line_fault(words, line, self.earlier_line(why), why),
            None => Ok(()),
        }
    }

    /// Puts what is wrong with a block of a modify behind words.
    pub(crate) fn push_block_words(
        &self,
        words: &mut ShownText,
        index: usize,
        why: BlockReason,
    ) -> Result<(), AllocError>
        ensures { OnOk result (IsPut words.old words.new (words_of_block why (slice_get (blocks_of_record self.now.asked.now) index))) }
    {
        match self.blocks().get(index) {
            Some(block) => push_block_fault(words, block, why),
            None => Ok(()),
        }
    }

    /// A value of the entry, as it is spelled there, that equals this one of a type.
    fn equal_there(&self, t: TypeId, value: &[u8]) -> Result<Option<&[u8]>, AllocError>
        requires { t < length self.now.conf.now.types }
    {
        let Some(path) = self.path() else {
            return Ok(None);
        };
        let wanted = match self.conf.make_value(self.alloc, t, value) {
            Ok(made) => made,
            Err(ValueFault::Invalid) => return Ok(None),
            Err(ValueFault::OutOfMemory) => return Err(AllocError),
        };
        let Some(entry) = self.tree.get(path) else {
            return Ok(None);
        };
        if let Some(values) = entry.values(t) {
            for found in values.iter() {
                if found.norm() == wanted.norm() {
                    return Ok(Some(found.raw()));
                }
            }
        }
        Ok(None)
    }

    /// The same under the name of the type, where a value is refused for it.
    fn equal_value(
        &self,
        name: &[u8],
        value: &[u8],
        why: ValueReason,
    ) -> Result<Option<&[u8]>, AllocError> {
        match (why, self.conf.type_of(name)) {
            (ValueReason::EqualValue, Some(t)) => self.equal_there(t, value),
            _ => Ok(None),
        }
    }

    /// Puts what is wrong with a value behind words; perhaps an equal one is there, spelled so.
    fn push_value_fault(
        &self,
        words: &mut ShownText,
        name: &[u8],
        value: &[u8],
        there: Option<&[u8]>,
        why: ValueReason,
    ) -> Result<(), AllocError>
        ensures { OnOk result (IsPut words.old words.new (value_words self.now.conf.now (option_copied there.entry) name.now value.now why)) }
    {
        match why {
            ValueReason::BadSyntax => self.push_bad_value(words, name, value),
            ValueReason::EqualValue => {
                push_named_value(words, name, value)?;
                push_equal_value(words, there)
            }
            ValueReason::NoValue => {
                push_named_value(words, name, value)?;
                words.push_str(" isn't there")
            }
        }
    }

    /// Puts what is wrong with a value of a block behind words.
    fn push_block_value(
        &self,
        words: &mut ShownText,
        block: &Mod,
        index: usize,
        why: ValueReason,
    ) -> Result<(), AllocError>
        ensures { OnOk result (Puts words.old words.new (IsValueWords (case_of self.now) why block.now (slice_get block.now.values index))) }
    {
        match block.values.as_slice().get(index) {
            Some(value) => {
                let name = block.attr.as_slice();
                let there = self.equal_value(name, value.as_slice(), why)?;
                self.push_value_fault(words, name, value.as_slice(), there, why)
            }
            None => Ok(()),
        }
    }

    /// The same of the block with this index.
    pub(crate) fn push_value_words(
        &self,
        words: &mut ShownText,
        block: usize,
        index: usize,
        why: ValueReason,
    ) -> Result<(), AllocError>
        ensures { OnOk result (Puts words.old words.new (IsBlockValueWords (case_of self.now) why index (slice_get (blocks_of_record self.now.asked.now) block))) }
    {
        match self.blocks().get(block) {
            Some(found) => self.push_block_value(words, found, index, why),
            None => Ok(()),
        }
    }

    /// A value of the entry's RDN, with its type, if the entry is there.
    fn rdn_value(&self, ava: usize) -> Option<&(TypeId, Bytes)>
        ensures { option_map (λ p. p.now) result ≡ rdn_value_at (case_of self.now) ava }
    {
        match self.path() {
            Some(path) => match self.tree.get(path) {
                Some(entry) => entry.rdn().avas().get(ava),
                None => None,
            },
            None => None,
        }
    }

    /// Puts which value of the entry's RDN is to go behind words.
    pub(crate) fn push_rdn_value(&self, words: &mut ShownText, ava: usize) -> Result<(), AllocError>
        ensures { OnOk result (IsPut words.old words.new (rdn_value_words self.now.conf.now (rdn_value_at (case_of self.now) ava))) }
    {
        match self.rdn_value(ava) {
            Some((t, value)) => {
                push_type(words, self.conf, *t)?;
                words.push_str(": ")?;
                push_quoted(words, value.as_slice())?;
                words.push_str(" is in its RDN, so it has to stay")
            }
            None => words.push_str("a value of its RDN is to go"),
        }
    }
}
