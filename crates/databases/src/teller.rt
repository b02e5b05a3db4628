//! Who tells why records are refused.

ghost use Rattle.std.specs.Prelude.{◌≡◌};

use crate::refusal::RecordRefusal;
use crate::runs::Tally;
use ldif::{Mode, RawRecord, Record};
use std::alloc::Global;
use tree::LentTree;

/// A record that is refused: its lines, what it asks for where they can be read, and why.
#[derive(Drop)]
pub struct NotedRecord<'a> {
    pub raw: &'a RawRecord,
    pub asked: Option<&'a Record<'a>>,
    pub mode: Mode,
    pub refusal: RecordRefusal,
}

/// Tells why records are refused, beside the lines that report it. What it tells is no part of a run.
pub trait Teller {
    /// Takes note of a record that is refused, with the entries as they are, under the configuration that they were made with.
    fn note(&mut self, alloc: Global, lent: LentTree<'_>, refused: &NotedRecord<'_>);

    /// Tells of the refusal that it took note of last, now that its line is reported.
    fn tell(&mut self);

    /// Takes note that a record went by. So many were carried out and refused by now.
    fn pass(&mut self, tally: Tally);
}

/// Tells nothing.
#[derive(Drop)]
pub struct Silent;

impl Teller for Silent {
    fn note(&mut self, _alloc: Global, _lent: LentTree<'_>, _refused: &NotedRecord<'_>) {}

    fn tell(&mut self) {}

    fn pass(&mut self, _tally: Tally) {}
}

/// Shows people how far a run is. Nothing that a command does depends on it.
pub trait Gauge {
    /// Shows that so many records were carried out and refused by now, if it is time to.
    fn show(&self, tally: Tally);
}

/// Shows nothing.
#[derive(Drop)]
pub struct NoGauge;

impl Gauge for NoGauge {
    fn show(&self, _tally: Tally) {}
}
