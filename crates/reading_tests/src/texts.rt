//! Texts that are made of others.

use std::alloc::{AllocError, Global};

/// Puts words behind a text.
pub fn push_words(out: &mut Vec<u8>, words: &[&[u8]]) -> Result<(), AllocError> {
    for word in words {
        out.extend_from_slice(word)?;
    }
    Ok(())
}

/// A text, so many times this, and another text.
pub fn repeated(
    alloc: Global,
    front: &[u8],
    again: &[u8],
    count: usize,
    end: &[u8],
) -> Result<Vec<u8>, AllocError> {
    let mut text = Vec::from_slice(alloc, front)?;
    for _ in 0..count {
        text.extend_from_slice(again)?;
    }
    text.extend_from_slice(end)?;
    Ok(text)
}
