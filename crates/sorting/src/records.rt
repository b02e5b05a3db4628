//! The first record of a text in memory.

ghost use Rattle.std.specs.Prelude.{◌≡◌, ◌<◌, ◌-◌, ◌^◌, ℕ, List, IfOk, Some};
ghost use Rattle.std.specs.Option.{option_map};
ghost use Rattle.ldif_lines.specs.View.{view};
ghost use Rattle.ldif_lines.specs.Records.{records};
ghost use Rattle.sorting.specs.inner.Records.{first_of};

use device::{OfRead, Source};
use ldif_lines::{RawRecord, Reader};
use std::alloc::{AllocError, Global};

/// The first record of a source.
fn first_of<S: Source>(alloc: Global, source: &mut S) -> Result<Option<RawRecord>, AllocError>
    requires { (S.seen source.old).failed < 2 ^ 64 - 1 }
    ensures { (text : List ℕ) → (S.seen source.old).left ≡ Some text → IfOk result (λ r. option_map view r ≡ first_of (records text)) }
{
    let mut reader = Reader::new(alloc, source);
    match reader.next() {
        Ok(record) => Ok(record),
        Err(_) => Err(AllocError),
    }
}

/// The first record of a text, None where it has none.
pub(crate) fn first_record(alloc: Global, text: &[u8]) -> Result<Option<RawRecord>, AllocError>
    ensures { IfOk result (λ r. option_map view r ≡ first_of (records text.now)) }
{
    first_of(alloc, &mut OfRead::new(text))
}
