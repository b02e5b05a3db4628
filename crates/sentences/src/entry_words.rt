//! Words for entries that aren't as their classes and types ask.

ghost use Rattle.std.specs.Prelude.{◌≡◌, ◌==◌, if◌then◌else◌, [], map, codes, OnOk};
ghost use Rattle.sentences.specs.Cases.{case_of};
ghost use Rattle.sentences.specs.ClassWords.{many_values, not_allowed, listed, and_more, types_words, with_needed, requires_types, IsLackedWords};
ghost use Rattle.sentences.specs.PartWords.{type_words};
ghost use Rattle.sentences.specs.Putting.{IsPut, Puts};
ghost use Rattle.sentences.specs.RecordWords.{IsEntryWords};

use crate::counts::push_grouped;
use crate::lacked_types::is_among;
use crate::lines::ShownText;
use crate::names::{push_class, push_type};
use crate::record_words::Refused;
use reasons::EntryReason;
use schema::{Conf, TypeId};
use std::alloc::AllocError;

/// The most types that a sentence names.
const MOST_NAMED: usize = 3;

/// Puts what stands before the name of a type behind words, by how many stand before it.
fn push_comma(words: &mut ShownText, place: usize) -> Result<(), AllocError>
    ensures { OnOk result (IsPut words.old words.new (if place == 0 then [] else codes ", ")) }
{
    if place == 0 {
        return Ok(());
    }
    words.push_str(", ")
}

/// Puts the names of types behind words, with a comma between each two.
fn push_listed(words: &mut ShownText, conf: &Conf, types: &[TypeId]) -> Result<(), AllocError>
    ensures { OnOk result (IsPut words.old words.new (listed (map (type_words conf.now) types.now))) }
{
    for (place, t) in types.iter().enumerate() {
        push_comma(words, place)?;
        push_type(words, conf, *t)?;
    }
    Ok(())
}

/// Puts how many more there are behind words, if there are more.
fn push_more(words: &mut ShownText, more: usize) -> Result<(), AllocError>
    ensures { OnOk result (IsPut words.old words.new (and_more more)) }
{
    if more == 0 {
        return Ok(());
    }
    words.push_str(" and ")?;
    push_grouped(words, more as u64)?;
    words.push_str(" more")
}

/// Puts the names of the first types behind words, and how many more there are.
#[tactic(auto, unfolding(crate::specs::ClassWords::types_words))]
fn push_types(words: &mut ShownText, conf: &Conf, types: &[TypeId]) -> Result<(), AllocError>
    ensures { OnOk result (IsPut words.old words.new (types_words conf.now types.now)) }
{
    push_listed(words, conf, types.split_at(types.len().min(MOST_NAMED)).0)?;
    push_more(words, types.len().saturating_sub(MOST_NAMED))
}

/// Puts what a class requires behind words.
#[tactic(auto, unfolding(crate::specs::ClassWords::requires_types))]
fn push_required(
    words: &mut ShownText,
    conf: &Conf,
    class: usize,
    types: &[TypeId],
) -> Result<(), AllocError>
    ensures { OnOk result (IsPut words.old words.new (requires_types conf.now class types.now)) }
{
    push_class(words, conf, class)?;
    words.push_str(" requires ")?;
    push_types(words, conf, types)
}

/// Puts the types of a class behind words that an entry lacks, if the one is among them that is known to be lacking; else that alone.
fn push_with_needed(
    words: &mut ShownText,
    conf: &Conf,
    class: usize,
    types: &[TypeId],
    needed: TypeId,
) -> Result<(), AllocError>
    ensures { OnOk result (IsPut words.old words.new (requires_types conf.now class (with_needed needed types.now))) }
{
    if is_among(types, needed) {
        push_required(words, conf, class, types)
    } else {
        push_required(words, conf, class, &[needed])
    }
}

impl Refused<'_> {
    /// Puts what is wrong with the entry as it is to be behind words.
    pub(crate) fn push_entry_words(
        &self,
        words: &mut ShownText,
        why: EntryReason,
    ) -> Result<(), AllocError>
        ensures { OnOk result (Puts words.old words.new (IsEntryWords (case_of self.now) why)) }
    {
        match why {
            EntryReason::NoObjectClass => words.push_str("the entry has no objectClass"),
            EntryReason::UnknownClass { .. } => self.push_unknown_class(words),
            EntryReason::LacksType { class, needed } => {
                self.push_lacked_types(words, class, needed)
            }
            EntryReason::TypeNotAllowed { found } => { self.push_not_allowed(words, found) }
            EntryReason::ManyValues { single, count } => {
                self.push_many_values(words, single, count)
            }
        }
    }

    #[tactic(auto, unfolding(crate::specs::ClassWords::not_allowed))]
    fn push_not_allowed(&self, words: &mut ShownText, found: TypeId) -> Result<(), AllocError>
        ensures { OnOk result (IsPut words.old words.new (not_allowed self.now.conf.now found)) }
    {
        words.push_str("none of its object classes allows ")?;
        push_type(words, self.conf, found)
    }

    #[tactic(auto, unfolding(crate::specs::ClassWords::many_values))]
    fn push_many_values(
        &self,
        words: &mut ShownText,
        single: TypeId,
        count: usize,
    ) -> Result<(), AllocError>
        ensures { OnOk result (IsPut words.old words.new (many_values self.now.conf.now single count)) }
    {
        push_type(words, self.conf, single)?;
        words.push_str(" is SINGLE-VALUE, and the entry would have ")?;
        push_grouped(words, count as u64)?;
        words.push_str(" values")
    }

    /// Puts what a class requires that the entry lacks behind words. One such type is known.
    fn push_lacked_types(
        &self,
        words: &mut ShownText,
        class: usize,
        needed: TypeId,
    ) -> Result<(), AllocError>
        ensures { OnOk result (Puts words.old words.new (IsLackedWords self.now.conf.now class needed)) }
    {
        let lacked = self.lacked_types(class)?;
        push_with_needed(words, self.conf, class, lacked.as_slice(), needed)
    }
}
