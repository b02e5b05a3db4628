//! Chunks of values that copies of an attribute share.

ghost use Rattle.std.specs.Prelude.{◌≡◌, ◌++◌, [], OnOk, OnErr, IfOk, IfErr};
ghost use Rattle.std.specs.Slice.Iter.{iter_rest};
ghost use Rattle.values.specs.Norms.{has_norm, but_norm};
ghost use Rattle.values.specs.inner.Chunks.{chunk_values};

use crate::value::Value;
use std::alloc::{AllocError, AllocFailed, Global};
use std::marker::Model;
use std::rc::Rc;
use std::slice::Iter;

/// Values next to each other.
pub(crate) type Chunk = Vec<Value>;

/// Chunks of values, in order. A copy shares them, and takes no more time for a longer one. A contract sees the list of all values.
pub(crate) struct SharedChunks {
    chunks: Vec<Rc<Chunk>>,
}

impl Drop for SharedChunks {
    fn drop(self) {
        let SharedChunks { chunks } = self;
        drop(chunks);
    }
}

impl Model for SharedChunks {
    ghost use Rattle.std.specs.Prelude.{List};
    ghost use Rattle.values.specs.Values as values;
    ghost use Rattle.std.specs.List.{flat_map};

    ghost Value = { List values.Value };

    ghost view = { λ s. flat_map (λ r. r.value.items) s.chunks.items };
}

/// The same values again, each by itself.
pub(crate) fn copy_chunk(alloc: Global, chunk: &Chunk) -> Result<Chunk, AllocError>
    ensures { IfOk result (λ copied. copied.items ≡ chunk.now.items) }
{
    let mut copied = Vec::with_capacity(alloc, chunk.len())?;
    for value in chunk.as_slice() {
        copied.push(value.copy(alloc)?)?;
    }
    Ok(copied)
}

/// Whether one of the values has this normal form.
fn is_among(chunk: &Chunk, norm: &[u8]) -> bool
    ensures { result ≡ has_norm norm.now chunk.now.items }
{
    chunk.as_slice().iter().any(|value| value.norm() == norm)
}

/// Copies of those values that have another normal form.
fn copy_others(alloc: Global, chunk: &Chunk, norm: &[u8]) -> Result<Chunk, AllocError>
    ensures { IfOk result (λ others. others.items ≡ but_norm norm.now chunk.now.items) }
{
    let mut others = Vec::with_capacity(alloc, chunk.len())?;
    for value in chunk.as_slice() {
        if value.norm() != norm {
            others.push(value.copy(alloc)?)?;
        }
    }
    Ok(others)
}

/// Keeps those values that have another normal form.
pub(crate) fn keep_others(chunk: &mut Chunk, norm: &[u8])
    ensures { chunk.new.items ≡ but_norm norm.now chunk.old.items }
{
    chunk.retain_mut(|value| value.norm() != norm);
}

// Puts those values of a chunk last that have another normal form. A chunk without the form is shared.
fn push_others(
    alloc: Global,
    chunks: &mut Vec<Rc<Chunk>>,
    chunk: &Rc<Chunk>,
    norm: &[u8],
) -> Result<(), AllocError>
    ensures { OnOk result (chunk_values chunks.new.items ≡ chunk_values chunks.old.items ++ but_norm norm.now chunk.now.value.items) }
{
    if !is_among(chunk.as_ref(), norm) {
        chunks.push(chunk.clone()?)?;
        return Ok(());
    }
    let others = copy_others(alloc, chunk.as_ref(), norm)?;
    if !others.is_empty() {
        chunks.push(Rc::new(alloc, others)?)?;
    }
    Ok(())
}

impl SharedChunks {
    /// No values.
    pub(crate) fn new(alloc: Global) -> SharedChunks
        ensures { result ≡ [] }
    {
        SharedChunks {
            chunks: Vec::new(alloc),
        }
    }

    /// Puts a chunk last, or changes nothing where memory runs out, and gives it back.
    pub(crate) fn push(&mut self, alloc: Global, chunk: Chunk) -> Result<(), AllocFailed<Chunk>>
        ensures ok { OnOk result (self.new ≡ self.old ++ chunk.items) }
        ensures err { OnErr result (self.new ≡ self.old) }
        ensures given_back { IfErr result (λ refused. refused.value ≡ chunk) }
    {
        if self.chunks.reserve(1).is_err() {
            return Err(AllocFailed { value: chunk });
        }
        let chunk = Rc::new(alloc, chunk)?;
        match self.chunks.push(chunk) {
            Ok(()) => Ok(()),
            Err(_) => unreachable!(),
        }
    }

    /// The same values again, shared.
    pub(crate) fn copy(&self, alloc: Global) -> Result<SharedChunks, AllocError>
        ensures { IfOk result (λ copied. copied ≡ self.now) }
    {
        let mut chunks = Vec::with_capacity(alloc, self.chunks.len())?;
        for chunk in self.chunks.as_slice() {
            chunks.push(chunk.clone()?)?;
        }
        Ok(SharedChunks { chunks })
    }

    /// The values that have another normal form. Only the chunks that have it are made anew, and all others are shared.
    pub(crate) fn but_norm(&self, alloc: Global, norm: &[u8]) -> Result<SharedChunks, AllocError>
        ensures { IfOk result (λ left. left ≡ but_norm norm.now self.now) }
    {
        let mut chunks = Vec::with_capacity(alloc, self.chunks.len())?;
        for chunk in self.chunks.as_slice() {
            push_others(alloc, &mut chunks, chunk, norm)?;
        }
        Ok(SharedChunks { chunks })
    }

    /// Chunk by chunk.
    pub(crate) fn iter(&self) -> Iter<'_, Rc<Chunk>>
        ensures { chunk_values (iter_rest result) ≡ self.now }
    {
        self.chunks.as_slice().iter()
    }
}
