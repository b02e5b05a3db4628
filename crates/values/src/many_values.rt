//! Many values of an attribute.

ghost use Rattle.std.specs.Prelude.{◌≡◌, ◌++◌, ◌∷◌, ◌≤◌, [], OnOk, OnErr, IfOk, vec_capacity};
ghost use Rattle.values.specs.Norms.{but_norm};

use crate::shared_chunks::{Chunk, SharedChunks, copy_chunk, keep_others};
use crate::value::Value;
use crate::values_iter::ValuesIter;
use std::alloc::{AllocError, Global};
use std::marker::Model;
use std::mem;

/// As many values as make a chunk that copies share.
const FULL: usize = 256;

/// As many values as there is room for at first.
const PAIR: usize = 2;

/// Values in chunks that copies share, so that a copy takes a step for each 256 of them. A contract sees the list of them.
pub(crate) struct ManyValues {
    chunks: SharedChunks,
    // those behind the chunks
    last: Chunk,
}

impl Drop for ManyValues {
    fn drop(self) {
        let ManyValues { chunks, last } = self;
        drop(chunks);
        drop(last);
    }
}

impl Model for ManyValues {
    ghost use Rattle.std.specs.Prelude.{List, ◌++◌};
    ghost use Rattle.values.specs.Values as values;

    ghost Value = { List values.Value };

    ghost view = { λ v. v.chunks ++ v.last.items };
}

/// Room for two values.
pub(crate) fn room_for_two(alloc: Global) -> Result<Chunk, AllocError>
    ensures none { IfOk result (λ chunk. chunk.items ≡ []) }
    ensures room { IfOk result (λ chunk. 2 ≤ vec_capacity chunk) }
{
    Vec::with_capacity(alloc, PAIR)
}

/// Two values, where there is room for them.
pub(crate) fn pair(room: Chunk, one: Value, other: Value) -> Chunk
    requires none { room.items ≡ [] }
    requires room { 2 ≤ vec_capacity room }
    ensures { result.items ≡ one ∷ other ∷ [] }
{
    let mut room = room;
    match room.push(one) {
        Ok(()) => {}
        Err(_) => unreachable!(),
    }
    match room.push(other) {
        Ok(()) => room,
        Err(_) => unreachable!(),
    }
}

impl ManyValues {
    /// No value.
    pub(crate) fn new(alloc: Global) -> ManyValues
        ensures { result ≡ [] }
    {
        ManyValues {
            chunks: SharedChunks::new(alloc),
            last: Vec::new(alloc),
        }
    }

    /// Puts these values in place of all.
    pub(crate) fn set(&mut self, values: Chunk)
        ensures { self.new ≡ values.items }
    {
        let alloc = *values.allocator();
        self.chunks = SharedChunks::new(alloc);
        self.last = values;
    }

    /// The same values again.
    pub(crate) fn copy(&self, alloc: Global) -> Result<ManyValues, AllocError>
        ensures { IfOk result (λ v. v ≡ self.now) }
    {
        Ok(ManyValues {
            chunks: self.chunks.copy(alloc)?,
            last: copy_chunk(alloc, &self.last)?,
        })
    }

    /// The values in order.
    pub(crate) fn iter(&self) -> ValuesIter<'_>
        ensures { result ≡ self.now }
    {
        ValuesIter::of_chunks(self.chunks.iter(), &self.last)
    }

    // Makes a chunk of the last values, and leaves none behind it; or changes nothing.
    fn share_last(&mut self, alloc: Global) -> Result<(), AllocError>
        ensures { self.new ≡ self.old }
    {
        let full = mem::replace(&mut self.last, Vec::new(alloc));
        match self.chunks.push(alloc, full) {
            Ok(()) => Ok(()),
            Err(refused) => {
                self.last = refused.value;
                Err(AllocError)
            }
        }
    }

    /// Puts a value last, or changes nothing where memory runs out.
    pub(crate) fn push(&mut self, alloc: Global, value: Value) -> Result<(), AllocError>
        ensures ok { OnOk result (self.new ≡ self.old ++ value ∷ []) }
        ensures err { OnErr result (self.new ≡ self.old) }
    {
        if self.last.len() >= FULL {
            self.share_last(alloc)?;
        }
        self.last.push(value)?;
        Ok(())
    }

    /// Takes away each value with this normal form, or changes nothing where memory runs out.
    pub(crate) fn remove_norm(&mut self, alloc: Global, norm: &[u8]) -> Result<(), AllocError>
        ensures ok { OnOk result (self.new ≡ but_norm norm.now self.old) }
        ensures err { OnErr result (self.new ≡ self.old) }
    {
        self.chunks = self.chunks.but_norm(alloc, norm)?;
        keep_others(&mut self.last, norm);
        Ok(())
    }
}
