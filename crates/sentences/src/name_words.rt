//! Words for names that no entry has or may have.

ghost use Rattle.std.specs.Prelude.{◌≡◌, ◌++◌, [], Ok, OnOk, IfSome, codes};
ghost use Rattle.std.specs.Option.{option_copied};
ghost use Rattle.dn.specs.Reading.{name_of};
ghost use Rattle.values.specs.Types.{type_of};
ghost use Rattle.schema.specs.Names.{name_in};
ghost use Rattle.sentences.specs.NameWords.{IsNameWords, IsUnreadable, IsFaultWords, IsAvaWords, IsAvaWordsIf, IsBadValue, ava_in, ava_of_name, not_one_rdn, name_or_empty, outside_suffix, type_fault, fault_words};
ghost use Rattle.sentences.specs.PartWords.{no_such_value};
ghost use Rattle.sentences.specs.Putting.{IsPut, Puts};
ghost use Rattle.sentences.specs.Sentence.{IsShown};

use crate::lines::ShownText;
use crate::name_places::name_like_len;
use crate::shown::{push_name, push_number, push_quoted, push_type_name};
use crate::value_words::push_no_such_value;
use dn::{Ava, Name, NameFault, NameFaultKind, read_name};
use reasons::{AvaReason, NameReason};
use schema::{Conf, PathFault, TypeId, read_dn};
use std::alloc::{AllocError, Global};

/// The AVA of a name with these indices.
fn ava_at(name: &Name, rdn: usize, ava: usize) -> Option<&Ava>
    ensures { option_copied result ≡ ava_of_name name.now rdn ava }
{
    match name.rdns().get(rdn) {
        Some(found) => found.avas().get(ava),
        None => None,
    }
}

/// A name that is looked at, and what it is called.
#[derive(Clone, Copy)]
pub(crate) struct NameText<'a> {
    pub(crate) alloc: Global,
    pub(crate) conf: &'a Conf,
    pub(crate) what: &'a str,
    pub(crate) text: &'a [u8],
    ghost shown: { IsShown what.now },
}

impl NameText<'_> {
    /// Puts what is wrong with the name behind words. Where it was read before, it is not read again.
    pub(crate) fn push_words(
        &self,
        words: &mut ShownText,
        name: Option<&Name>,
        why: NameReason,
    ) -> Result<(), AllocError>
        requires { IfSome name (λ n. name_in self.now.text.now ≡ Ok n.now) }
        ensures { OnOk result (Puts words.old words.new (IsNameWords self.now.conf.now self.now.what.now self.now.text.now why)) }
    {
        match why {
            NameReason::Unreadable => self.push_unreadable(words),
            NameReason::NotOneRdn => self.push_not_one(words),
            NameReason::Ava { rdn, ava, why } => match name {
                Some(name) => self.push_ava_of(words, name, rdn, ava, why),
                None => self.push_ava_words(words, rdn, ava, why),
            },
            NameReason::OutsideSuffix => self.push_outside(words),
        }
    }

    /// Puts that it isn't one RDN behind words.
    #[tactic(auto, unfolding(crate::specs::NameWords::not_one_rdn))]
    fn push_not_one(&self, words: &mut ShownText) -> Result<(), AllocError>
        ensures { OnOk result (IsPut words.old words.new (not_one_rdn self.now.what.now self.now.text.now)) }
    {
        words.push_str(self.what)?;
        words.push_str(" ")?;
        push_quoted(words, self.text)?;
        words.push_str(" is not one RDN")
    }

    /// Puts it behind words, or that it is empty.
    fn push_name_or_empty(&self, words: &mut ShownText) -> Result<(), AllocError>
        ensures { OnOk result (IsPut words.old words.new (name_or_empty self.now.text.now)) }
    {
        if self.text.is_empty() {
            return words.push_str(" is empty, and");
        }
        words.push_str(" ")?;
        push_name(words, self.text)
    }

    /// Puts that it doesn't end with the suffix behind words.
    #[tactic(auto, unfolding(crate::specs::NameWords::outside_suffix))]
    fn push_outside(&self, words: &mut ShownText) -> Result<(), AllocError>
        ensures { OnOk result (IsPut words.old words.new (outside_suffix self.now.conf.now self.now.what.now self.now.text.now)) }
    {
        words.push_str(self.what)?;
        self.push_name_or_empty(words)?;
        words.push_str(" doesn't end with the suffix ")?;
        push_name(words, self.conf.suffix_text())
    }

    /// Puts why the text spells no name behind words.
    fn push_unreadable(&self, words: &mut ShownText) -> Result<(), AllocError>
        ensures { OnOk result (Puts words.old words.new (IsUnreadable self.now.what.now self.now.text.now)) }
    {
        words.push_str(self.what)?;
        match str::from_utf8(self.text) {
            Ok(text) => self.push_faulty(words, text),
            Err(_) => words.push_str(" isn't UTF-8"),
        }
    }

    /// The same behind what it is called, where it is text.
    fn push_faulty(&self, words: &mut ShownText, text: &str) -> Result<(), AllocError>
        ensures { OnOk result (Puts words.old words.new (IsFaultWords text.now (name_of text.now))) }
    {
        words.push_str(" can't be read")?;
        match read_name(self.alloc, text) {
            Err(NameFault::Fault(kind)) => {
                push_name_fault(words, kind, name_like_len(text.as_bytes()))
            }
            Err(NameFault::OutOfMemory) => Err(AllocError),
            Ok(_) => Ok(()),
        }
    }

    /// Puts what is wrong with an AVA of the name behind words.
    fn push_ava_words(
        &self,
        words: &mut ShownText,
        rdn: usize,
        ava: usize,
        why: AvaReason,
    ) -> Result<(), AllocError>
        ensures { OnOk result (Puts words.old words.new (IsAvaWordsIf self.now.conf.now self.now.what.now self.now.text.now why (ava_in self.now.text.now rdn ava))) }
    {
        match read_dn(self.alloc, self.text) {
            Ok(name) => self.push_ava_of(words, &name, rdn, ava, why),
            Err(PathFault::Code(_)) => self.push_unreadable(words),
            Err(PathFault::OutOfMemory) => Err(AllocError),
        }
    }

    /// The same, of the name as it was read.
    fn push_ava_of(
        &self,
        words: &mut ShownText,
        name: &Name,
        rdn: usize,
        ava: usize,
        why: AvaReason,
    ) -> Result<(), AllocError>
        requires { name_in self.now.text.now ≡ Ok name.now }
        ensures { OnOk result (Puts words.old words.new (IsAvaWordsIf self.now.conf.now self.now.what.now self.now.text.now why (ava_in self.now.text.now rdn ava))) }
    {
        match ava_at(name, rdn, ava) {
            Some(found) => self.push_ava_fault(words, found, why),
            None => self.push_unreadable(words),
        }
    }

    fn push_ava_fault(
        &self,
        words: &mut ShownText,
        found: &Ava,
        why: AvaReason,
    ) -> Result<(), AllocError>
        ensures { OnOk result (Puts words.old words.new (IsAvaWords self.now.conf.now self.now.what.now self.now.text.now why found.now)) }
    {
        match why {
            AvaReason::UnknownType => {
                self.push_type_fault(words, found, ", which is no attribute type of dir.conf")
            }
            AvaReason::NameSyntax => {
                self.push_type_fault(words, found, ", whose values are names themselves")
            }
            AvaReason::NoEquality => {
                self.push_type_fault(words, found, ", which has no equality rule")
            }
            AvaReason::TypeTwice => self.push_type_fault(words, found, " twice in one RDN"),
            AvaReason::BadValue => self.push_bad_value(words, found),
        }
    }

    /// Puts behind words that the name has a type, and what is wrong with that.
    #[tactic(auto, unfolding(crate::specs::NameWords::type_fault))]
    fn push_type_fault(
        &self,
        words: &mut ShownText,
        found: &Ava,
        fault: &str,
    ) -> Result<(), AllocError>
        requires { IsShown fault.now }
        ensures { OnOk result (IsPut words.old words.new (type_fault self.now.what.now found.now.0 fault.now)) }
    {
        words.push_str(self.what)?;
        words.push_str(" has ")?;
        push_type_name(words, found.type_text())?;
        words.push_str(fault)
    }

    fn push_bad_value(&self, words: &mut ShownText, found: &Ava) -> Result<(), AllocError>
        ensures { OnOk result (Puts words.old words.new (IsBadValue self.now.conf.now self.now.what.now self.now.text.now found.now.1 (type_of self.now.conf.now.types found.now.0))) }
    {
        match self.conf.type_of(found.type_text()) {
            Some(t) => self.push_value_fault(words, t, found.value()),
            None => self.push_unreadable(words),
        }
    }

    /// Puts behind words that a value is none of its type.
    fn push_value_fault(
        &self,
        words: &mut ShownText,
        t: TypeId,
        value: &[u8],
    ) -> Result<(), AllocError>
        ensures { OnOk result (IsPut words.old words.new (self.now.what.now ++ codes ": " ++ no_such_value self.now.conf.now t value.now)) }
    {
        words.push_str(self.what)?;
        words.push_str(": ")?;
        push_no_such_value(words, self.conf, t, value)
    }
}

/// Puts which fault a text has that spells no name behind words, and at which byte.
#[tactic(auto, unfolding(crate::specs::NameWords::fault_words))]
fn push_name_fault(
    words: &mut ShownText,
    kind: NameFaultKind,
    place: usize,
) -> Result<(), AllocError>
    ensures { OnOk result (IsPut words.old words.new (fault_words kind place)) }
{
    words.push_str(": N")?;
    push_number(words, u64::from(kind.number()))?;
    words.push_str(" ")?;
    words.push_str(kind.text())?;
    words.push_str(" at byte ")?;
    push_number(words, place as u64)
}
