//! Keys with a rank.

ghost use Rattle.std.specs.Prelude.{◌≡◌, ◌++◌, OnErr, OnOk};
ghost use Rattle.std.specs.Str.{bytes_eq};
ghost use Rattle.index_text.specs.Begun.{HasBegun};
ghost use Rattle.index_text.specs.IndexTexts.{ended, key_line};
ghost use Rattle.index_keys.specs.RankedKeys.{Ranked, ranked_cmp};

use std::alloc::{AllocError, Global};

/// A key, and the rank of an entry that has it. They are ordered by the bytes of the key, and then by the rank.
pub trait RankedKey: Ord + Copy + Drop {
    /// The bytes of the key, and the rank.
    ghost pair: { Self → Ranked };

    fn rank(&self) -> u32
        ensures { result ≡ (pair self.now).1 };

    /// Whether the other one has the same key.
    fn has_key_of(&self, other: &Self) -> bool
        ensures { result ≡ bytes_eq (pair other.now).0 (pair self.now).0 };

    /// Puts the line of the key with these ranks at the end of a text. Where memory runs out, a beginning of the line is put, perhaps nothing.
    fn put_line(&self, alloc: Global, ranks: &[u32], out: &mut Vec<u8>) -> Result<(), AllocError>
        ensures put { OnOk result (out.new.items ≡ out.old.items ++ ended (key_line ((pair self.now).0, ranks.now))) }
        ensures kept { OnErr result (HasBegun (ended (key_line ((pair self.now).0, ranks.now))) out.old.items out.new.items) };

    ghost by_pair: { (p q : Self) → Self.cmp p q ≡ ranked_cmp (pair p) (pair q) };
}
