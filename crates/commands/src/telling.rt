//! What is told behind the lines that a command reports.

ghost use Rattle.std.specs.Prelude.{◌<◌, ◌-◌, ◌^◌};

use crate::messages::{CommandFault, Stop};
use databases::{Gauge, Silent, Tally, Teller};
use device::{Sink, Source};
use differences::Counts;
use filter_text::FilterFault;
use ldif::Mode;
use schema::Conf;
use sentences::Explainer;
use std::alloc::Global;
use std::io::ErrorKind;
use stored_index::fault_line;
use tree::LentTree;

/// Tells why a command refuses or stops, behind the lines that report it. Nothing else that the command does depends on it.
pub trait CommandTeller: Teller {
    /// Takes note of the text of a filter, which may be at fault.
    fn note_filter(&mut self, alloc: Global, text: Option<&str>);

    /// Tells what is wrong with this text, which is no filter.
    fn tell_line(&mut self, alloc: Global, text: &[u8], fault: &FilterFault);

    /// Takes note of the name of a base, at which no entry may be.
    fn note_base(&mut self, alloc: Global, lent: LentTree<'_>, name: Option<&str>);

    /// Whether what it tells goes anywhere.
    fn is_heard(&self) -> bool;

    /// Takes note of an index text that is at fault, from a source of it; so many entries have this stamp under this configuration.
    fn note_index<S: Source>(
        &mut self,
        alloc: Global,
        source: &mut S,
        conf: &Conf,
        stamp: &[u8],
        entries: usize,
    )
        requires { (S.seen source.old).failed < 2 ^ 64 - 1 };

    /// Tells that more entries were found than are to be printed.
    fn tell_limit(&mut self, alloc: Global, limit: Option<u32>);

    /// Takes note of a dir.conf that is at fault, by its text.
    fn note_configuration(&mut self, alloc: Global, text: &[u8]);

    /// Tells what became of the records of a run, and whether it was stored.
    fn tell_tally(&mut self, alloc: Global, tally: Tally, mode: Mode, stored: bool);

    /// Tells how much is changed between two directories.
    fn tell_difference(&mut self, alloc: Global, counts: &Counts);

    /// Tells why the command stopped, where the line that reported it doesn't. `failure` is what the system said where something failed last.
    fn tell_stop(&mut self, alloc: Global, stop: &Stop, failure: Option<ErrorKind>);
}

impl CommandTeller for Silent {
    fn note_filter(&mut self, _alloc: Global, _text: Option<&str>) {}

    fn tell_line(&mut self, _alloc: Global, _text: &[u8], _fault: &FilterFault) {}

    fn note_base(&mut self, _alloc: Global, _lent: LentTree<'_>, _name: Option<&str>) {}

    fn is_heard(&self) -> bool {
        false
    }

    fn note_index<S: Source>(
        &mut self,
        _alloc: Global,
        _source: &mut S,
        _conf: &Conf,
        _stamp: &[u8],
        _entries: usize,
    ) {}

    fn tell_limit(&mut self, _alloc: Global, _limit: Option<u32>) {}

    fn note_configuration(&mut self, _alloc: Global, _text: &[u8]) {}

    fn tell_tally(&mut self, _alloc: Global, _tally: Tally, _mode: Mode, _stored: bool) {}

    fn tell_difference(&mut self, _alloc: Global, _counts: &Counts) {}

    fn tell_stop(&mut self, _alloc: Global, _stop: &Stop, _failure: Option<ErrorKind>) {}
}

/// What is done with a record that is accepted.
fn done_word(mode: Mode) -> &'static str {
    match mode {
        Mode::Content => "added",
        Mode::Changes { .. } => "carried out",
    }
}

impl<V: Sink, G: Gauge> CommandTeller for Explainer<'_, V, G> {
    fn note_filter(&mut self, alloc: Global, text: Option<&str>) {
        Explainer::note_filter(self, alloc, text);
    }

    fn tell_line(&mut self, alloc: Global, text: &[u8], fault: &FilterFault) {
        self.tell_filter_text(alloc, text, fault);
    }

    fn note_base(&mut self, alloc: Global, lent: LentTree<'_>, name: Option<&str>) {
        Explainer::note_base(self, alloc, lent, name);
    }

    fn is_heard(&self) -> bool {
        true
    }

    fn note_index<S: Source>(
        &mut self,
        alloc: Global,
        source: &mut S,
        conf: &Conf,
        stamp: &[u8],
        entries: usize,
    ) {
        if let Ok(Some(fault)) = fault_line(alloc, source, conf, stamp, entries) {
            self.note_index_line(alloc, &fault);
        }
    }

    fn tell_limit(&mut self, alloc: Global, limit: Option<u32>) {
        Explainer::tell_limit(self, alloc, limit);
    }

    fn note_configuration(&mut self, alloc: Global, text: &[u8]) {
        Explainer::note_configuration(self, alloc, text);
    }

    fn tell_tally(&mut self, alloc: Global, tally: Tally, mode: Mode, stored: bool) {
        self.tell_summary(alloc, tally, done_word(mode), stored);
    }

    fn tell_difference(&mut self, alloc: Global, counts: &Counts) {
        Explainer::tell_difference(self, alloc, counts);
    }

    fn tell_stop(&mut self, alloc: Global, stop: &Stop, failure: Option<ErrorKind>) {
        match stop {
            Stop::Fault(CommandFault::Filter(fault)) => self.tell_filter(alloc, fault),
            Stop::Fault(CommandFault::Code { .. }) => {
                self.tell_base();
                self.tell();
            }
            Stop::Usage(_) => self.tell_base(),
            Stop::Fault(
                CommandFault::Configuration { .. }
                | CommandFault::Data { .. }
                | CommandFault::Content { .. },
            ) => {
                self.tell();
            }
            Stop::Fault(CommandFault::CannotRead(_) | CommandFault::CannotWrite(_)) => {
                self.tell_failure(alloc, failure);
            }
            _ => {}
        }
    }
}
