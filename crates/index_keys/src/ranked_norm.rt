//! Keys that are normal forms.

ghost use Rattle.std.specs.Prelude.{◌≡◌};

use crate::norm_key::NormKey;
use crate::ranked_key::RankedKey;
use index_text::put_key;
use std::alloc::{AllocError, Global};

/// A normal form as a key, and the rank of an entry that has it. Only the bytes are lent.
#[derive(Clone, Copy, Drop, PartialEq, Eq, PartialOrd, Ord)]
pub struct RankedNorm<'a> {
    key: NormKey<'a>,
    rank: u32,
}

impl<'a> RankedNorm<'a> {
    pub(crate) fn of(norm: &'a [u8], rank: u32) -> RankedNorm<'a>
        ensures norm { result.key.norm.now ≡ norm.now }
        ensures rank { result.rank ≡ rank }
    {
        RankedNorm {
            key: NormKey::of(norm),
            rank,
        }
    }
}

impl RankedKey for RankedNorm<'_> {
    ghost use Rattle.std.specs.Prelude.{refl};

    ghost pair = { λ k. (k.key.norm.now, k.rank) };

    ghost by_pair = { λ p q. refl };

    fn rank(&self) -> u32 {
        self.rank
    }

    fn has_key_of(&self, other: &Self) -> bool {
        other.key == self.key
    }

    fn put_line(&self, alloc: Global, ranks: &[u32], out: &mut Vec<u8>) -> Result<(), AllocError> {
        put_key(alloc, out, self.key.norm, ranks)
    }
}
