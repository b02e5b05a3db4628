//! Texts that are made of words.

use std::alloc::AllocError;

/// Puts words behind a text.
pub(crate) fn push_words(out: &mut Vec<u8>, words: &[&[u8]]) -> Result<(), AllocError> {
    for word in words {
        out.extend_from_slice(word)?;
    }
    Ok(())
}
