//! Sentences for records that are refused with a result code.

ghost use Rattle.std.specs.Prelude.{◌≡◌, [], true, Ok, OnOk, IfOk, IfSome, slice_get};
ghost use Rattle.std.specs.FinMap as finite;
ghost use Rattle.std.specs.Option.{option_map, option_copied, unwrap_or, ForSome};
ghost use Rattle.std.specs.String.{string_bytes};
ghost use Rattle.paths.specs.Paths.{parent_of};
ghost use Rattle.schema.specs.Names.{name_in};
ghost use Rattle.tree.specs.Directories.{name_of_entry};
ghost use Rattle.tree.specs.Operations.{controls_of};
ghost use Rattle.reasons.specs.Asked.{name_of_record, blocks_of_record, rdn_of_record, superior_of_record};
ghost use Rattle.sentences.specs.Putting.{IsPut, Puts};
ghost use Rattle.sentences.specs.Missing.{as_name, there_words, count_below, some_below, below_words, parent_text, path_named};
ghost use Rattle.sentences.specs.NameWords.{IsNameWords};
ghost use Rattle.sentences.specs.RecordWords as told;
ghost use Rattle.sentences.specs.Sentence.{IsShown};

use crate::counts::push_grouped;
use crate::lines::{Sentence, ShownText};
use crate::missing::RefusedAdds;
use crate::name_words::NameText;
use crate::names::{is_there, parent_text};
use crate::places::line_of;
use crate::record_parts::{blocks_in, controls_in, name_in, new_rdn_in, new_superior_in};
use crate::shown::{push_name, push_number};
use dn::Name;
use ldif::{Control, Mod, Part, RawRecord, Record};
use reasons::{NameReason, Reason};
use schema::{Conf, Located, Path, PathFault};
use std::alloc::{AllocError, Global};
use tree::{LentTree, Tree};

/// A refused record, with the entries and the configuration that it was refused under.
#[derive(Drop)]
pub(crate) struct Refused<'a> {
    pub(crate) alloc: Global,
    pub(crate) conf: &'a Conf,
    pub(crate) tree: &'a Tree,
    pub(crate) raw: &'a RawRecord,
    pub(crate) asked: &'a Record<'a>,
    /// Where its name stands, if it has a place.
    pub(crate) place: Option<&'a Located>,
    /// Its name as it was read, if that has a flaw.
    pub(crate) name: Option<&'a Name>,
    /// The adds that were refused before it.
    pub(crate) adds: &'a RefusedAdds,
    ghost same_conf: { tree.now.conf ≡ conf.now },
    ghost named: { ForSome name (λ n. name_in (name_of_record asked.now) ≡ Ok n.now) },
}

/// In which part of a record it is refused, if in one by itself.
fn part_of(reason: &Reason) -> Option<Part>
    ensures { result ≡ told.part_of reason.now }
{
    match reason {
        Reason::CriticalControl { control } => Some(Part::Control(*control)),
        Reason::Line { line, .. } => Some(Part::Attribute(*line)),
        Reason::Block { block, .. } => Some(Part::Block(*block)),
        Reason::Value { block, value, .. } => Some(Part::Value {
            block: *block,
            value: *value,
        }),
        Reason::NewRdn(_) => Some(Part::NewRdn),
        Reason::Superior(_) => Some(Part::NewSuperior),
        _ => None,
    }
}

/// Puts a line of the text behind words, if it is known.
fn push_line(words: &mut ShownText, line: Option<u64>) -> Result<(), AllocError>
    ensures { OnOk result (IsPut words.old words.new (told.at_line line)) }
{
    match line {
        Some(line) => {
            words.push_str("line ")?;
            push_number(words, line)?;
            words.push_str(", ")
        }
        None => Ok(()),
    }
}

/// Puts that so many entries are below another behind words.
#[tactic(auto, unfolding(crate::specs::Missing::some_below))]
fn push_below(words: &mut ShownText, count: u64) -> Result<(), AllocError>
    ensures { OnOk result (IsPut words.old words.new (some_below count)) }
{
    if count == 1 {
        return words.push_str("an entry is below it: delete that first");
    }
    push_grouped(words, count)?;
    words.push_str(" entries are below it: delete those first")
}

impl Refused<'_> {
    ghost use Rattle.sentences.specs.Cases.{case_of};
    ghost use Rattle.sentences.specs.Cuts.{sentence_of};
    ghost use Rattle.sentences.specs.RecordWords.{IsWords, IsMissing, IsParentMissing, IsSuperiorMissing, IsSentenceOf, is_place, place_words, shown_control, control_words, PartBeginsOn};

    pub(crate) fn dn(&self) -> &[u8]
        ensures { result.now ≡ name_of_record self.now.asked.now }
    {
        name_in(self.asked)
    }

    /// The entries and the configuration.
    fn lent(&self) -> LentTree<'_>
        ensures tree { result.tree.now ≡ self.now.tree.now }
        ensures conf { result.conf.now ≡ self.now.conf.now }
    {
        LentTree::new(self.tree, self.conf)
    }

    fn controls(&self) -> &[Control]
        ensures { result.now ≡ controls_of self.now.asked.now }
    {
        controls_in(self.asked)
    }

    pub(crate) fn blocks(&self) -> &[Mod]
        ensures { result.now ≡ blocks_of_record self.now.asked.now }
    {
        blocks_in(self.asked)
    }

    fn new_rdn(&self) -> &[u8]
        ensures { result.now ≡ rdn_of_record self.now.asked.now }
    {
        new_rdn_in(self.asked)
    }

    fn new_superior(&self) -> Option<&[u8]>
        ensures { option_copied result ≡ superior_of_record self.now.asked.now }
    {
        new_superior_in(self.asked)
    }

    /// The name of its new superior, or nothing where it names none.
    fn superior_text(&self) -> &[u8]
        ensures { result.now ≡ unwrap_or (superior_of_record self.now.asked.now) [] }
    {
        match self.new_superior() {
            Some(name) => name,
            None => &[],
        }
    }

    /// The path of its own name, if it has one.
    pub(crate) fn path(&self) -> Option<&Path>
        ensures { option_copied result ≡ option_map (λ p. p.now.path) self.now.place }
    {
        match self.place {
            Some(place) => Some(&place.path),
            None => None,
        }
    }

    /// The path of a name, if it has one.
    fn path_of(&self, name: &[u8]) -> Result<Option<Path>, AllocError>
        ensures { IfOk result (λ path. path ≡ path_named self.now.conf.now name.now) }
    {
        match self.conf.path_of_text(self.alloc, name) {
            Ok(path) => Ok(Some(path)),
            Err(PathFault::Code(_)) => Ok(None),
            Err(PathFault::OutOfMemory) => Err(AllocError),
        }
    }

    fn push_name_words(
        &self,
        words: &mut ShownText,
        what: &str,
        text: &[u8],
        name: Option<&Name>,
        why: NameReason,
    ) -> Result<(), AllocError>
        requires shown { IsShown what.now }
        requires named { IfSome name (λ n. name_in text.now ≡ Ok n.now) }
        ensures { OnOk result (Puts words.old words.new (IsNameWords self.now.conf.now what.now text.now why)) }
    {
        let name_text = NameText {
            alloc: self.alloc,
            conf: self.conf,
            what,
            text,
        };
        name_text.push_words(words, name, why)
    }

    /// Puts the line of the text behind words, if it is known, and the name of the entry.
    #[tactic(auto, unfolding(crate::specs::RecordWords::place_words))]
    fn push_place(&self, words: &mut ShownText, line: Option<u64>) -> Result<(), AllocError>
        ensures { OnOk result (IsPut words.old words.new (place_words line (name_of_record self.now.asked.now))) }
    {
        push_line(words, line)?;
        push_name(words, self.dn())?;
        words.push_str(": ")
    }

    /// Where in the text, of which entry, and what is wrong.
    pub(crate) fn sentence(&self, reason: &Reason) -> Result<Sentence, AllocError>
        ensures { IfOk result (λ s. IsSentenceOf (case_of self.now) reason.now (string_bytes s.text)) }
    {
        let mut words = ShownText::roomy(self.alloc)?;
        self.push_place(&mut words, self.line_of(reason))?;
        self.push_words(&mut words, reason)?;
        Sentence::of(words)
    }

    /// The number of the line of the text on which the part begins that is refused.
    fn line_of(&self, reason: &Reason) -> Option<u64>
        ensures { PartBeginsOn self.now.raw.now self.now.asked.now (told.part_of reason.now) result }
    {
        match part_of(reason) {
            Some(part) => line_of(self.asked, self.raw, part),
            None => None,
        }
    }

    /// Puts what is wrong behind words.
    fn push_words(&self, words: &mut ShownText, reason: &Reason) -> Result<(), AllocError>
        ensures { OnOk result (Puts words.old words.new (IsWords (case_of self.now) reason.now)) }
    {
        match reason {
            Reason::CriticalControl { control } => self.push_control(words, *control),
            Reason::Name(why) => {
                self.push_name_words(words, "the name", self.dn(), self.name, *why)
            }
            Reason::Line { line, why } => self.push_line_words(words, *line, *why),
            Reason::Block { block, why } => self.push_block_words(words, *block, *why),
            Reason::Value { block, value, why } => {
                self.push_value_words(words, *block, *value, *why)
            }
            Reason::NewRdn(why) => {
                self.push_name_words(words, "newrdn", self.new_rdn(), None, *why)
            }
            Reason::Superior(why) => {
                self.push_name_words(words, "newsuperior", self.superior_text(), None, *why)
            }
            Reason::Entry(why) => self.push_entry_words(words, *why),
            _ => self.push_place_words(words, reason),
        }
    }

    /// Puts what is wrong with where the entry stands, or is to stand, behind words.
    fn push_place_words(&self, words: &mut ShownText, reason: &Reason) -> Result<(), AllocError>
        ensures { is_place reason.now ≡ true → OnOk result (Puts words.old words.new (IsWords (case_of self.now) reason.now)) }
    {
        match reason {
            Reason::IsThere => self.push_there(words),
            Reason::NoParent => self.push_no_parent(words),
            Reason::NoEntry => self.push_missing(words, self.dn(), self.path()),
            Reason::HasChildren => self.push_children(words),
            Reason::NoRdnValue { ava } => self.push_rdn_value(words, *ava),
            Reason::IsSuffix => {
                words.push_str("the entry of the suffix keeps its name and its place")
            }
            Reason::BelowItself => words.push_str("it can't be moved below itself"),
            Reason::NoSuperior => self.push_no_superior(words),
            Reason::IsTaken => words.push_str("another entry has the new name"),
            Reason::Full => {
                words.push_str("the directory has 4,294,967,295 entries, and takes no more")
            }
            _ => Ok(()),
        }
    }

    /// Puts the OID of a control behind words.
    fn push_oid(&self, words: &mut ShownText, control: usize) -> Result<(), AllocError>
        ensures { OnOk result (IsPut words.old words.new (shown_control (slice_get (controls_of self.now.asked.now) control))) }
    {
        match self.controls().get(control) {
            Some(found) => push_name(words, found.oid.as_slice()),
            None => Ok(()),
        }
    }

    #[tactic(auto, unfolding(crate::specs::RecordWords::control_words))]
    fn push_control(&self, words: &mut ShownText, control: usize) -> Result<(), AllocError>
        ensures { OnOk result (IsPut words.old words.new (control_words (controls_of self.now.asked.now) control)) }
    {
        words.push_str("control ")?;
        self.push_oid(words, control)?;
        words.push_str(" is critical, and no control is known")
    }

    /// Puts that the name is there, as it is spelled there, behind words.
    fn push_there(&self, words: &mut ShownText) -> Result<(), AllocError>
        ensures { OnOk result (IsPut words.old words.new (there_words self.now.conf.now self.now.tree.now.entries (option_map (λ p. p.now.path) self.now.place))) }
    {
        words.push_str("there already")?;
        match self.path() {
            Some(path) => self.push_as_name(words, path),
            None => Ok(()),
        }
    }

    /// Puts how the name of the entry at a path is spelled there behind words.
    fn push_as_name(&self, words: &mut ShownText, path: &Path) -> Result<(), AllocError>
        ensures { OnOk result (IsPut words.old words.new (as_name (finite.contains_key self.now.tree.now.entries path.now) (name_of_entry self.now.conf.now self.now.tree.now.entries path.now))) }
    {
        if !is_there(self.tree, path) {
            return Ok(());
        }
        let name = self.tree.name_of(self.alloc, self.conf, path)?;
        words.push_str(", as ")?;
        push_name(words, name.as_slice())
    }

    /// Puts that no entry has a name behind words, if it leads to this path.
    fn push_missing(
        &self,
        words: &mut ShownText,
        name: &[u8],
        path: Option<&Path>,
    ) -> Result<(), AllocError>
        ensures { OnOk result (Puts words.old words.new (IsMissing (case_of self.now) name.now (option_copied path.entry))) }
    {
        match path {
            Some(path) => {
                self.adds
                    .push_looked_up(self.alloc, words, self.lent(), name, path)
            }
            None => {
                words.push_str("no entry ")?;
                push_name(words, name)
            }
        }
    }

    /// The path above its own, if it has one.
    fn path_above(&self) -> Result<Option<Path>, AllocError>
        ensures { IfOk result (λ above. above ≡ option_map parent_of (case_of self.now).path) }
    {
        match self.path() {
            Some(path) => Ok(Some(path.parent(self.alloc)?)),
            None => Ok(None),
        }
    }

    /// Puts that no entry is above it behind words.
    fn push_no_parent(&self, words: &mut ShownText) -> Result<(), AllocError>
        ensures { OnOk result (Puts words.old words.new (IsParentMissing (case_of self.now))) }
    {
        let above = self.path_above()?;
        self.push_missing(words, parent_text(self.dn()), above.as_ref())
    }

    /// Puts that no entry has the name of its new superior behind words.
    fn push_no_superior(&self, words: &mut ShownText) -> Result<(), AllocError>
        ensures { OnOk result (Puts words.old words.new (IsSuperiorMissing (case_of self.now) (superior_of_record self.now.asked.now))) }
    {
        match self.new_superior() {
            Some(name) => self.push_named_missing(words, name),
            None => self.push_no_parent(words),
        }
    }

    /// Puts that no entry has a name behind words.
    fn push_named_missing(&self, words: &mut ShownText, name: &[u8]) -> Result<(), AllocError>
        ensures { OnOk result (Puts words.old words.new (IsMissing (case_of self.now) name.now (path_named self.now.conf.now name.now))) }
    {
        let path = self.path_of(name)?;
        self.push_missing(words, name, path.as_ref())
    }

    /// How many entries are below a path.
    fn count_below(&self, path: &Path) -> u64
        ensures { result ≡ count_below self.now.tree.now.entries path.now }
    {
        self.tree.entries_are_a_directory();
        let mut below: u64 = 0;
        for (found, _) in self.tree.range(path) {
            if path.is_above(found) {
                below += 1;
            }
        }
        below
    }

    /// Puts how many entries are below it behind words.
    fn push_children(&self, words: &mut ShownText) -> Result<(), AllocError>
        ensures { OnOk result (IsPut words.old words.new (below_words self.now.tree.now.entries (option_map (λ p. p.now.path) self.now.place))) }
    {
        match self.path() {
            Some(path) => push_below(words, self.count_below(path)),
            None => words.push_str("entries are below it"),
        }
    }
}
