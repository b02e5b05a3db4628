//! The names of entries under another suffix.

ghost use Rattle.std.specs.Prelude.{◌≡◌, List, IfOk};
ghost use Rattle.schema.specs.Rdns.{TypedRdn};
ghost use Rattle.schema.specs.Conf.{name_text};

use base::Bytes;
use schema::Conf;
use std::alloc::{AllocError, Global};

/// The name of an entry with another configuration's suffix in place of its own.
pub(crate) fn moved_name(
    alloc: Global,
    conf: &Conf,
    new: &Conf,
    name: &[u8],
) -> Result<Bytes, AllocError>
    requires { new.now.types ≡ conf.now.types }
    ensures { (rs : List TypedRdn) → name.now ≡ name_text conf.now rs → IfOk result (λ moved. moved ≡ name_text new.now rs) }
{
    conf.rules_are_kept();
    new.rules_are_kept();
    let front = name.len().saturating_sub(conf.suffix_text().len());
    let room = front.saturating_add(new.suffix_text().len());
    let mut moved = Vec::with_capacity(alloc, room)?;
    moved.extend_from_slice(&name[..front])?;
    moved.extend_from_slice(new.suffix_text())?;
    Ok(Bytes::from_vec(moved))
}
