//! Keys that are windows.

ghost use Rattle.std.specs.Prelude.{◌≡◌, ◌<◌, ◌^◌, ◌/◌};
ghost use Rattle.index_keys.specs.inner.Windows.{window_in, rank_in};

use crate::ranked_key::RankedKey;
use index_text::put_key;
use std::alloc::{AllocError, Global};

/// A window as a key, and the rank of an entry that has it. They lie in one number, the bytes of the window above the rank, so that sorting
/// compares numbers alone.
#[derive(Clone, Copy, Drop, PartialEq, Eq, PartialOrd, Ord)]
pub struct RankedWindow {
    number: u64,
    ghost small: { number < 2 ^ 56 },
}

impl RankedWindow {
    pub(crate) fn of(window: [u8; 3], rank: u32) -> RankedWindow
        ensures window { window_in result.number ≡ window }
        ensures rank { rank_in result.number ≡ rank }
    {
        let [first, second, third] = window;
        let key = (u64::from(first) * 256 + u64::from(second)) * 256 + u64::from(third);
        RankedWindow {
            number: key * 4294967296 + u64::from(rank),
        }
    }

    fn window(&self) -> [u8; 3]
        ensures { result ≡ window_in self.now.number }
    {
        let key = self.number / 4294967296;
        [
            (key / 256 / 256) as u8,
            (key / 256 % 256) as u8,
            (key % 256) as u8,
        ]
    }
}

impl RankedKey for RankedWindow {
    ghost use Rattle.index_keys.specs.inner.Windows.{window_in, rank_in};
    ghost use Rattle.index_keys.specs.inner.WindowOrder.{in_order};

    ghost pair = { λ w. (window_in w.number, rank_in w.number) };

    ghost by_pair = { λ p q. in_order p.number q.number };

    fn rank(&self) -> u32 {
        (self.number % 4294967296) as u32
    }

    fn has_key_of(&self, other: &Self) -> bool {
        other.number / 4294967296 == self.number / 4294967296
    }

    fn put_line(&self, alloc: Global, ranks: &[u32], out: &mut Vec<u8>) -> Result<(), AllocError> {
        put_key(alloc, out, &self.window(), ranks)
    }
}
