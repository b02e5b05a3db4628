//! The slots that were said, in order.

ghost use Rattle.std.specs.Prelude.{◌≡◌, ◌<◌, ℕ, IfOk};
ghost use Rattle.std.specs.List.{AllByRecursion};
ghost use Rattle.std.specs.BTreeSet.{IsFromIterResult};
ghost use Rattle.schema.specs.Slots.{slot_cmp};
ghost use Rattle.dir_conf.specs.IndexLines.{in_order};

use base::Sequence;
use schema::Slot;
use std::alloc::{AllocError, Global};
use std::collections::BTreeSet;

fn set_of(alloc: Global, said: Vec<Slot>) -> Result<BTreeSet<Slot>, AllocError>
    ensures { IfOk result (IsFromIterResult slot_cmp said.items) }
{
    said.into_iter().collect(alloc)
}

fn keys_of(alloc: Global, set: BTreeSet<Slot>) -> Result<Vec<Slot>, AllocError>
    ensures { IfOk result (λ v. v.items ≡ set.keys) }
{
    set.into_iter().collect(alloc)
}

/// The slots that were said, in order and each once.
pub(crate) fn in_order(alloc: Global, said: Vec<Slot>) -> Result<Sequence<Slot>, AllocError>
    ensures { (count : ℕ) → AllByRecursion (λ s. s.type_id < count) said.items → IfOk result (λ slots. slots ≡ in_order count said.items) }
{
    let set = set_of(alloc, said)?;
    Ok(Sequence::from_vec(keys_of(alloc, set)?))
}
