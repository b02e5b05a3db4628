//! The words of a line that has few.

ghost use Rattle.std.specs.Prelude.{◌≡◌, IfOk, map};
ghost use Rattle.base.specs.Ascii.{space};
ghost use Rattle.stored_index.specs.Cuts.{parts};

use std::alloc::{AllocError, Global};

/// What stands between single spaces.
pub(crate) fn words<'a>(alloc: Global, line: &'a [u8]) -> Result<Vec<&'a [u8]>, AllocError>
    ensures { IfOk result (λ v. map (λ w. w.now) v.items ≡ parts space line.now) }
{
    line.split(|b| *b == b' ').collect(alloc)
}
