//! Where the parts of a record stand in its text.

ghost use Rattle.sentences.specs.RecordWords.{BeginsOn};

use ldif::{Part, RawRecord, Record, part_line};

/// The number of the line of the text on which a part of a record begins.
pub(crate) fn line_of(asked: &Record<'_>, raw: &RawRecord, part: Part) -> Option<u64>
    ensures { BeginsOn raw.now asked.now part result }
{
    raw.number_of(part_line(asked, raw, part)?)
}
