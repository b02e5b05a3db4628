//! Going through the values of an attribute.

ghost use Rattle.std.specs.Prelude.{◌++◌, ◌≡◌};
ghost use Rattle.std.specs.Slice.Iter.{iter_rest};
ghost use Rattle.std.specs.Map.Iter.{TakesFirst, deref};
ghost use Rattle.values.specs.inner.Chunks.{chunk_values};

use crate::shared_chunks::Chunk;
use crate::value::Value;
use std::marker::Model;
use std::rc::Rc;
use std::slice::Iter;

/// The values of an attribute in order, which are lent. A contract sees the list of those that are still to come.
#[derive(Drop)]
pub struct ValuesIter<'a> {
    // the chunk in hand
    chunk: Iter<'a, Value>,
    // the chunks behind it, and those values that stand behind all
    rest: Option<(Iter<'a, Rc<Chunk>>, Iter<'a, Value>)>,
}

impl<'a> Model for ValuesIter<'a> {
    ghost use Rattle.std.specs.Prelude.{List, ◌++◌};
    ghost use Rattle.std.specs.List.{flat_map};
    ghost use Rattle.std.specs.Slice.Iter.{iter_rest};
    ghost use Rattle.values.specs.Values as values;
    ghost use Rattle.values.specs.Elements.{elements_in};

    ghost Value = { List values.Value };

    ghost view = { λ s. iter_rest s.chunk ++ elements_in (λ r. flat_map (λ chunk. chunk.value.items) (iter_rest r.0) ++ iter_rest r.1) s.rest };
}

// The next value of the chunk in hand, or else of the first chunk behind it that has one.
fn next_in_chunks<'a>(
    chunk: &mut Iter<'a, Value>,
    chunks: &mut Iter<'a, Rc<Chunk>>,
) -> Option<&'a Value>
    ensures { TakesFirst deref (iter_rest chunk.old ++ chunk_values (iter_rest chunks.old)) result (iter_rest chunk.new ++ chunk_values (iter_rest chunks.new)) }
{
    if let Some(value) = chunk.next() {
        return Some(value);
    }
    while let Some(next) = chunks.next() {
        *chunk = next.as_ref().as_slice().iter();
        if let Some(value) = chunk.next() {
            return Some(value);
        }
    }
    None
}

impl<'a> ValuesIter<'a> {
    // These values.
    pub(crate) fn of_slice(values: &'a [Value]) -> ValuesIter<'a>
        ensures { result ≡ values.now }
    {
        ValuesIter {
            chunk: values.iter(),
            rest: None,
        }
    }

    // The values of some chunks, and those behind them.
    pub(crate) fn of_chunks(chunks: Iter<'a, Rc<Chunk>>, last: &'a Chunk) -> ValuesIter<'a>
        ensures { result ≡ chunk_values (iter_rest chunks.entry) ++ last.now.items }
    {
        let (none, last) = last.as_slice().split_at(0);
        ValuesIter {
            chunk: none.iter(),
            rest: Some((chunks, last.iter())),
        }
    }
}

impl<'a> Iterator for ValuesIter<'a> {
    ghost use Rattle.std.specs.Prelude.{length};
    ghost use Rattle.std.specs.Iterator.{at_most};
    ghost use Rattle.std.specs.Map.Iter.{TakesFirst, deref};

    type Item = &'a Value;

    ghost next_gives = { TakesFirst deref };

    ghost remaining = { λ s. at_most (length s) };

    fn next(&mut self) -> Option<&'a Value> {
        match &mut self.rest {
            None => self.chunk.next(),
            Some(rest) => match next_in_chunks(&mut self.chunk, &mut rest.0) {
                Some(value) => Some(value),
                None => rest.1.next(),
            },
        }
    }
}
