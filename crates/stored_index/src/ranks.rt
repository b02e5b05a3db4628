//! The ranks behind a key.

ghost use Rattle.std.specs.Prelude.{◌≡◌, ◌++◌, ◌∷◌, [], if◌then◌else◌, OnOk};
ghost use Rattle.base.specs.Ascii.{space};
ghost use Rattle.stored_index.specs.Cuts.{parts};
ghost use Rattle.stored_index.specs.KeyLines.{ranks_in};
ghost use Rattle.stored_index.specs.inner.Reads.{Reads, SetIfAsked};

use crate::fault::{IndexFaultKind, LineFault};
use crate::numbers::cut_number;
use id_sets::ListSet;
use std::alloc::{AllocError, Global};

// puts a rank behind others; one that is no u32 has no room
fn add(ranks: &mut Vec<u32>, rank: u64) -> Result<(), AllocError>
    ensures { OnOk result (ranks.new.items ≡ ranks.old.items ++ rank ∷ []) }
{
    let Ok(number) = u32::try_from(rank) else {
        return Err(AllocError);
    };
    ranks.push(number)?;
    Ok(())
}

// puts a rank that is wanted behind others
fn keep(ranks: &mut Vec<u32>, rank: u64, is_wanted: bool) -> Result<(), AllocError>
    ensures { OnOk result (ranks.new.items ≡ (if is_wanted then ranks.old.items ++ rank ∷ [] else ranks.old.items)) }
{
    if is_wanted {
        add(ranks, rank)?;
    }
    Ok(())
}

/// The ranks that stand behind a key, which is in order itself or not. None is kept where they aren't asked for.
pub(crate) fn read_ranks(
    alloc: Global,
    text: &[u8],
    is_key_in_order: bool,
    entries: usize,
    is_asked: bool,
) -> Result<ListSet, LineFault>
    ensures { Reads (SetIfAsked is_asked) result (ranks_in is_key_in_order entries (parts space text.now)) }
{
    let mut ranks = Vec::new(alloc);
    let mut rest = Some(text);
    let mut is_in_order = is_key_in_order;
    let mut least: u64 = 0;
    while let Some(words) = rest {
        let (_, number, next) = cut_number(words);
        let rank = number?;
        is_in_order = is_in_order & (least <= rank);
        let is_wanted = is_asked & is_in_order & (rank < entries as u64);
        keep(&mut ranks, rank, is_wanted)?;
        least = rank + 1;
        rest = next;
    }
    if !is_in_order {
        return Err(LineFault::Fault(IndexFaultKind::Order));
    }
    if least > entries as u64 {
        return Err(LineFault::Fault(IndexFaultKind::Rank));
    }
    Ok(ListSet::of_list(ranks))
}
