//! Lines that are told to a sink.

ghost use Rattle.std.specs.String.{string_bytes};
ghost use Rattle.sentences.specs.Telling.{Tells, TellsLine, TellsSentence};

use crate::lines::{Line, Sentence};
use device::{Sink, push_all};

/// Pushes a text, if the sink never failed.
fn tell<V: Sink>(told: &mut V, text: &[u8])
    ensures { Tells (V.written told.old) (V.written told.new) text.now }
{
    if told.failures() == 0 {
        let _ = push_all(told, text);
    }
}

pub(crate) fn tell_sentence<V: Sink>(told: &mut V, sentence: &Sentence)
    ensures sentence { TellsSentence (V.written told.old) (V.written told.new) }
    ensures text { Tells (V.written told.old) (V.written told.new) (string_bytes sentence.now.text) }
{
    tell(told, sentence.as_bytes());
}

pub(crate) fn tell_line<V: Sink>(told: &mut V, line: &Line)
    ensures { TellsLine (V.written told.old) (V.written told.new) }
{
    tell(told, line.as_bytes());
}
