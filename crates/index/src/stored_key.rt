//! Keys as a map stores them.

ghost use Rattle.std.specs.Prelude.{◌≡◌, ℕ, List, IfOk};
ghost use Rattle.std.specs.Cmp.Lexicographic.{slice_cmp};
ghost use Rattle.std.specs.Ordering.{nat_cmp};

use std::alloc::{AllocError, Global};
use std::collections::btree_map::Comparable;

/// A key that a map stores. Such keys are ordered by their bytes.
pub trait StoredKey: Ord + Drop {
    /// The bytes of a key.
    ghost bytes: { Self → List ℕ };

    fn as_slice(&self) -> &[u8]
        ensures { result.now ≡ bytes self.now };

    ghost by_bytes: { (p q : Self) → Self.cmp p q ≡ slice_cmp nat_cmp (bytes p) (bytes q) };
}

impl StoredKey for Vec<u8> {
    ghost use Rattle.std.specs.Prelude.{refl};

    ghost bytes = { λ v. v.items };

    ghost by_bytes = { λ p q. refl };

    fn as_slice(&self) -> &[u8] {
        self.as_slice()
    }
}

/// What a stored key is looked up by, and made of where it is new.
pub trait Wanted<K: StoredKey>: Comparable<K> {
    /// The bytes of the key that is looked up.
    ghost wanted: { Self → List ℕ };

    /// The key itself.
    fn stored(self, alloc: Global) -> Result<K, AllocError>
        ensures { IfOk result (λ k. K.bytes k ≡ wanted self) };

    ghost finds: { (q : Self) (k : K) → Self.compare q k ≡ slice_cmp nat_cmp (wanted q) (K.bytes k) };
}

impl<K: StoredKey + Copy> Wanted<K> for &K {
    ghost wanted = { λ q. K.bytes q.now };

    ghost finds = { λ q k. K.by_bytes q.now k };

    fn stored(self, _alloc: Global) -> Result<K, AllocError> {
        Ok(*self)
    }
}

impl Wanted<Vec<u8>> for &[u8] {
    ghost use Rattle.std.specs.Prelude.{refl};

    ghost wanted = { λ q. q.now };

    ghost finds = { λ q k. refl };

    fn stored(self, alloc: Global) -> Result<Vec<u8>, AllocError> {
        Vec::from_slice(alloc, self)
    }
}
