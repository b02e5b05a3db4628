//! Tells why records are refused.

ghost use Rattle.std.specs.Prelude.{◌≡◌, Ok, IfOk, IfSome};
ghost use Rattle.schema.specs.Names.{name_in};
ghost use Rattle.reasons.specs.Asked.{name_of_record};
ghost use Rattle.sentences.specs.RecordWords.{TellsReason};
ghost use Rattle.sentences.specs.Noted.{TellsNoted, IsNoted};
ghost use Rattle.sentences.specs.Telling.{TellsLine, TellsSentence};

use crate::conf_words::configuration_sentence;
use crate::difference_words::difference_line;
use crate::failure_words::failure_sentence;
use crate::index_words::index_sentence;
use crate::ldif_words::fault_sentence;
use crate::lines::Sentence;
use crate::missing::RefusedAdds;
use crate::record_parts::{is_add, name_in};
use crate::record_words::Refused;
use crate::search_words::{base_sentence, filter_sentence, limit_sentence};
use crate::summary::Summary;
use crate::telling::{tell_line, tell_sentence};
use databases::{Gauge, NotedRecord, RecordRefusal, Tally, Teller};
use device::Sink;
use differences::Counts;
use filter_text::FilterFault;
use ldif::Record;
use reasons::{Explanation, Reason, explain_in_place};
use schema::{Code, Conf, Located, PathFault};
use std::alloc::{AllocError, Global};
use std::io::ErrorKind;
use stored_index::FaultLine;
use tree::{LentTree, Tree};

/// Tells why records are refused, a sentence each, to a sink of its own. Where memory runs out it tells nothing of that record, and where the sink
/// fails nothing more. A gauge shows how far a run is.
#[derive(Drop)]
pub struct Explainer<'a, V, G> {
    told: &'a mut V,
    gauge: &'a G,
    /// The sentence of the refusal that it took note of last.
    sentence: Option<Sentence>,
    /// The text of the filter, where the words have one.
    filter: Option<String>,
    /// What is wrong with the name of the base, if something is.
    base: Option<Sentence>,
    refused_adds: RefusedAdds,
    summary: Summary,
}

impl<'a, V: Sink, G: Gauge> Explainer<'a, V, G> {
    pub fn new(alloc: Global, told: &'a mut V, gauge: &'a G) -> Explainer<'a, V, G> {
        Explainer {
            told,
            gauge,
            sentence: None,
            filter: None,
            base: None,
            refused_adds: RefusedAdds::new(alloc),
            summary: Summary::new(alloc),
        }
    }

    /// Takes note of the text of a filter, which may be at fault.
    pub fn note_filter(&mut self, alloc: Global, text: Option<&str>)
        ensures { V.written self.new.told.now ≡ V.written self.old.told.now }
    {
        self.filter = match text {
            Some(text) => String::from_str(alloc, text).ok(),
            None => None,
        };
    }

    /// Tells what is wrong with the filter that it took note of.
    pub fn tell_filter(&mut self, alloc: Global, fault: &FilterFault)
        ensures { TellsSentence (V.written self.old.told.now) (V.written self.new.told.now) }
    {
        if let Some(text) = self.filter.take() {
            self.tell_filter_text(alloc, text.as_bytes(), fault);
        }
    }

    /// Tells what is wrong with this text, which is no filter.
    pub fn tell_filter_text(&mut self, alloc: Global, text: &[u8], fault: &FilterFault)
        ensures { TellsSentence (V.written self.old.told.now) (V.written self.new.told.now) }
    {
        if let Ok(sentence) = filter_sentence(alloc, text, fault) {
            tell_sentence(self.told, &sentence);
        }
    }

    /// Takes note of the name of a base, at which no entry may be.
    pub fn note_base(&mut self, alloc: Global, lent: LentTree<'_>, name: Option<&str>)
        ensures { V.written self.new.told.now ≡ V.written self.old.told.now }
    {
        self.base = match name {
            Some(name) => base_sentence(alloc, lent, name.as_bytes()).ok(),
            None => Sentence::fixed(alloc, "the directory has no entry").ok(),
        };
    }

    /// Tells what is wrong with the base that it took note of.
    pub fn tell_base(&mut self)
        ensures sentence { TellsSentence (V.written self.old.told.now) (V.written self.new.told.now) }
        ensures noted { TellsNoted (V.written self.old.told.now) (V.written self.new.told.now) self.old.base }
    {
        if let Some(sentence) = self.base.take() {
            tell_sentence(self.told, &sentence);
        }
    }

    /// Tells that more entries were found than this.
    pub fn tell_limit(&mut self, alloc: Global, limit: Option<u32>)
        ensures { TellsSentence (V.written self.old.told.now) (V.written self.new.told.now) }
    {
        if let Ok(sentence) = limit_sentence(alloc, limit) {
            tell_sentence(self.told, &sentence);
        }
    }

    /// Takes note of the line at which an index text is at fault.
    pub fn note_index_line(&mut self, alloc: Global, fault: &FaultLine)
        ensures { V.written self.new.told.now ≡ V.written self.old.told.now }
    {
        self.sentence = index_sentence(alloc, fault).ok();
    }

    /// Takes note of a configuration that is at fault, by its text.
    pub fn note_configuration(&mut self, alloc: Global, text: &[u8])
        ensures { V.written self.new.told.now ≡ V.written self.old.told.now }
    {
        self.sentence = match configuration_sentence(alloc, text) {
            Ok(sentence) => sentence,
            Err(_) => None,
        };
    }

    /// Tells what the system said where something failed, if it said something.
    pub fn tell_failure(&mut self, alloc: Global, failure: Option<ErrorKind>)
        ensures { TellsSentence (V.written self.old.told.now) (V.written self.new.told.now) }
    {
        if let Some(kind) = failure {
            if let Ok(sentence) = failure_sentence(alloc, kind) {
                tell_sentence(self.told, &sentence);
            }
        }
    }

    /// Tells at the end of a run what became of its records. `done` says what was done with those that were accepted.
    pub fn tell_summary(&mut self, alloc: Global, tally: Tally, done: &str, stored: bool)
        ensures { TellsLine (V.written self.old.told.now) (V.written self.new.told.now) }
    {
        if let Ok(line) = self.summary.line(alloc, tally, done, stored) {
            tell_line(self.told, &line);
        }
    }

    /// Tells how much is changed between two directories.
    pub fn tell_difference(&mut self, alloc: Global, counts: &Counts)
        ensures { TellsLine (V.written self.old.told.now) (V.written self.new.told.now) }
    {
        if let Ok(line) = difference_line(alloc, counts) {
            tell_line(self.told, &line);
        }
    }
}

/// A record that is refused, with the entries and the configuration that it was refused under.
#[derive(Drop)]
struct Refusal<'a> {
    alloc: Global,
    conf: &'a Conf,
    tree: &'a Tree,
    refused: &'a NotedRecord<'a>,
    ghost same_conf: { tree.now.conf ≡ conf.now },
}

fn code_of(refusal: RecordRefusal) -> Option<Code> {
    match refusal {
        RecordRefusal::Code(code) => Some(code),
        RecordRefusal::Fault(_) => None,
    }
}

/// Whether an add that is refused for this leaves a place without an entry: its name has one, and none is there.
fn leaves_place_empty(reason: &Option<Reason>) -> bool {
    !matches!(reason, Some(Reason::IsThere | Reason::Name(_)))
}

impl Refusal<'_> {
    ghost use Rattle.sentences.specs.Refusals.{case_at, text_in, IsToldOf};

    /// The entries and the configuration.
    fn lent(&self) -> LentTree<'_>
        ensures tree { result.tree.now ≡ self.now.tree.now }
        ensures conf { result.conf.now ≡ self.now.conf.now }
    {
        LentTree::new(self.tree, self.conf)
    }

    /// The sentence of a record that can be read, for why it is refused.
    fn reason_sentence(
        &self,
        asked: &Record<'_>,
        explanation: &Explanation,
        adds: &RefusedAdds,
    ) -> Result<Option<Sentence>, AllocError>
        requires { IfSome explanation.now.name (λ n. name_in (name_of_record asked.now) ≡ Ok n) }
        ensures { IfOk result (λ s. TellsReason (case_at self.now adds.now asked.now explanation.now.place) explanation.now.reason (text_in s)) }
    {
        let Some(reason) = explanation.reason else {
            return Ok(None);
        };
        let refused = Refused {
            alloc: self.alloc,
            conf: self.conf,
            tree: self.tree,
            raw: self.refused.raw,
            asked,
            place: explanation.place.as_ref(),
            name: explanation.name.as_ref(),
            adds,
        };
        Ok(Some(refused.sentence(&reason)?))
    }

    /// The sentence of a record that can be read. An add of an entry that isn't there is kept.
    fn record_sentence(
        &self,
        asked: &Record<'_>,
        adds: &mut RefusedAdds,
    ) -> Result<Option<Sentence>, AllocError>
        ensures { IfOk result (IsToldOf self.now adds.old asked.now) }
    {
        let mode = self.refused.mode;
        let code = code_of(self.refused.refusal);
        let explanation = explain_in_place(self.alloc, self.lent(), asked, mode, code)?;
        let sentence = self.reason_sentence(asked, &explanation, adds)?;
        let leaves_place = leaves_place_empty(&explanation.reason);
        if is_add(asked) && leaves_place {
            self.keep_add(asked, explanation.place.as_ref(), adds)?;
        }
        Ok(sentence)
    }

    /// Keeps where the entry of an add was to stand. One with a critical control is refused before its name is looked up.
    fn keep_add(
        &self,
        asked: &Record<'_>,
        place: Option<&Located>,
        adds: &mut RefusedAdds,
    ) -> Result<(), AllocError> {
        let line = self.refused.raw.line;
        match place {
            Some(place) => adds.keep(self.alloc, &place.path, line),
            None => match self.conf.path_of_text(self.alloc, name_in(asked)) {
                Ok(path) => adds.keep(self.alloc, &path, line),
                Err(PathFault::Code(_)) => Ok(()),
                Err(PathFault::OutOfMemory) => Err(AllocError),
            },
        }
    }

    fn sentence(&self, adds: &mut RefusedAdds) -> Result<Option<Sentence>, AllocError>
        ensures { IfOk result (λ s. IfSome self.now.refused.now.asked (λ asked. IsToldOf self.now adds.old asked.now s)) }
    {
        let NotedRecord {
            raw,
            asked,
            mode,
            refusal,
        } = self.refused;
        match asked {
            Some(asked) => self.record_sentence(asked, adds),
            None => match refusal {
                RecordRefusal::Fault(kind) => {
                    Ok(Some(fault_sentence(self.alloc, raw, *mode, *kind)?))
                }
                RecordRefusal::Code(_) => Ok(None),
            },
        }
    }
}

impl<V: Sink, G: Gauge> Teller for Explainer<'_, V, G> {
    fn note(&mut self, alloc: Global, lent: LentTree<'_>, refused: &NotedRecord<'_>)
        ensures written { V.written self.new.told.now ≡ V.written self.old.told.now }
        ensures noted { IfSome refused.now.asked (λ asked. IfSome self.new.sentence
            (IsNoted lent.entry.conf.now lent.entry.tree.now self.old.refused_adds refused.now asked.now)) }
    {
        let _ = self.summary.count(refused.refusal);
        let LentTree { tree, conf } = lent;
        let refusal = Refusal {
            alloc,
            conf,
            tree,
            refused,
        };
        self.sentence = match refusal.sentence(&mut self.refused_adds) {
            Ok(sentence) => sentence,
            Err(_) => None,
        };
    }

    fn tell(&mut self)
        ensures sentence { TellsSentence (V.written self.old.told.now) (V.written self.new.told.now) }
        ensures noted { TellsNoted (V.written self.old.told.now) (V.written self.new.told.now) self.old.sentence }
    {
        if let Some(sentence) = self.sentence.take() {
            tell_sentence(self.told, &sentence);
        }
    }

    fn pass(&mut self, tally: Tally)
        ensures { V.written self.new.told.now ≡ V.written self.old.told.now }
    {
        self.gauge.show(tally);
    }
}
