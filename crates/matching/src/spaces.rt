//! Spaces in values.

ghost use Rattle.std.specs.Prelude.{◌≡◌, ◌&&◌, ◌+◌, ◌<◌, IfOk, drop, length, slice_index};
ghost use Rattle.base.specs.Ends.{is_space};
ghost use Rattle.matching.specs.Forms.{begins_with_space, one_spaces};

use std::alloc::{AllocError, Global};

// whether two spaces stand here
fn is_double(text: &[u8], at: usize) -> bool
    requires { at < length text.now }
    ensures { result ≡ (is_space (slice_index text.now at) && begins_with_space (drop (at + 1) text.now)) }
{
    text[at] == b' ' && at + 1 < text.len() && text[at + 1] == b' '
}

/// Each run of spaces made one.
pub(crate) fn one_spaces(alloc: Global, text: &[u8]) -> Result<Vec<u8>, AllocError>
    ensures { IfOk result (λ v. v.items ≡ one_spaces text.now) }
{
    let mut out = Vec::with_capacity(alloc, text.len())?;
    for i in 0..text.len() {
        if !is_double(text, i) {
            out.push(text[i])?;
        }
    }
    Ok(out)
}
