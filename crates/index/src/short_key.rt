//! Keys of few bytes.

ghost use Rattle.std.specs.Prelude.{◌≡◌, ◌+◌, ◌-◌, ◌<◌, ◌≤◌, true, false, length, take, drop, slice_index_or, MatchOption};
ghost use Rattle.std.specs.Cmp.Lexicographic.{slice_cmp};
ghost use Rattle.std.specs.Ordering.{nat_cmp};
ghost use Rattle.index.specs.inner.ShortKeys.{IsNumberOf, padded, key_in, fits};

use crate::stored_key::StoredKey;
use std::cmp::Ordering;

/// A key of fewer than `N` bytes, which has no allocation of its own.
#[derive(Clone, Copy, Drop)]
pub struct ShortKey<const N: usize> {
    // those of the key, zeros, and at the last place how many bytes the key has
    bytes: [u8; N],
    ghost few: { slice_index_or bytes (N - 1) 0 < N },
    ghost padded: { bytes ≡ padded (N - 1) (key_in N bytes) },
}

impl<const N: usize> ShortKey<N> {
    /// A key, or none where it has too many bytes.
    pub(crate) fn of(key: &[u8]) -> Option<ShortKey<N>>
        requires { N ≤ 256 }
        ensures { MatchOption result (fits N key.now ≡ false) (λ k. (fits N key.now ≡ true) × (key_in N k.bytes ≡ key.now)) }
    {
        if key.len() >= N {
            return None;
        }
        let mut bytes = [0u8; N];
        bytes[..key.len()].copy_from_slice(key);
        bytes[N - 1] = key.len() as u8;
        Some(ShortKey { bytes })
    }
}

impl ShortKey<4> {
    /// The same of at most three bytes, without a detour by memory: most keys are windows.
    pub(crate) fn tiny(key: &[u8]) -> Option<ShortKey<4>>
        ensures { MatchOption result (fits 4 key.now ≡ false) (λ k. (fits 4 key.now ≡ true) × (key_in 4 k.bytes ≡ key.now)) }
    {
        let bytes = match key {
            [] => [0, 0, 0, 0],
            [a] => [*a, 0, 0, 1],
            [a, b] => [*a, *b, 0, 2],
            [a, b, c] => [*a, *b, *c, 3],
            _ => return None,
        };
        Some(ShortKey { bytes })
    }
}

/// Four bytes as one number, the first of them as the highest.
fn word(bytes: &[u8], at: usize) -> u32
    requires { at + 4 ≤ length bytes.now }
    ensures { IsNumberOf result (take 4 (drop at bytes.now)) }
{
    u32::from(bytes[at]) * 16777216
        + u32::from(bytes[at + 1]) * 65536
        + u32::from(bytes[at + 2]) * 256
        + u32::from(bytes[at + 3])
}

/// Compares as many bytes on both sides, four at a time.
fn compare(left: &[u8], right: &[u8]) -> Ordering
    requires { length left.now ≡ length right.now }
    ensures { result ≡ slice_cmp nat_cmp left.now right.now }
{
    let mut at = 0usize;
    while left.len() - at >= 4 {
        let (one, other) = (word(left, at), word(right, at));
        if one != other {
            return one.cmp(&other);
        }
        at += 4;
    }
    left[at..].cmp(&right[at..])
}

impl<const N: usize> PartialEq for ShortKey<N> {
    ghost use Rattle.std.specs.Ordering.{nat_cmp, eq_by_cmp};
    ghost use Rattle.std.specs.Cmp.{on_total, partial_equiv_from_equiv, eq_by_cmp_equiv};
    ghost use Rattle.std.specs.Cmp.Lexicographic.{slice_cmp, nat_list_cmp_total};

    ghost eq = { eq_by_cmp (λ p q. slice_cmp nat_cmp p.bytes q.bytes) };

    ghost laws = { partial_equiv_from_equiv (eq_by_cmp_equiv (on_total (λ k. k.bytes) nat_list_cmp_total)) };

    fn eq(&self, other: &Self) -> bool {
        self.cmp(other).is_eq()
    }
}

impl<const N: usize> Eq for ShortKey<N> {
    ghost use Rattle.std.specs.Cmp.{on_total, eq_by_cmp_equiv};
    ghost use Rattle.std.specs.Cmp.Lexicographic.{nat_list_cmp_total};

    ghost laws = { eq_by_cmp_equiv (on_total (λ k. k.bytes) nat_list_cmp_total) };
}

impl<const N: usize> PartialOrd for ShortKey<N> {
    ghost use Rattle.std.specs.Prelude.{Some};
    ghost use Rattle.std.specs.Ordering.{nat_cmp};
    ghost use Rattle.std.specs.Cmp.{on_total, partial_order_from_total};
    ghost use Rattle.std.specs.Cmp.Lexicographic.{slice_cmp, nat_list_cmp_total};

    ghost partial_cmp = { λ p q. Some (slice_cmp nat_cmp p.bytes q.bytes) };

    ghost laws = { partial_order_from_total (on_total (λ k. k.bytes) nat_list_cmp_total) };

    fn partial_cmp(&self, other: &Self) -> Option<Ordering> {
        Some(self.cmp(other))
    }
}

impl<const N: usize> Ord for ShortKey<N> {
    ghost use Rattle.std.specs.Prelude.{refl};
    ghost use Rattle.std.specs.Ordering.{nat_cmp};
    ghost use Rattle.std.specs.Cmp.{on_total};
    ghost use Rattle.std.specs.Cmp.Lexicographic.{slice_cmp, nat_list_cmp_total};

    ghost cmp = { λ p q. slice_cmp nat_cmp p.bytes q.bytes };

    ghost total = { on_total (λ k. k.bytes) nat_list_cmp_total };

    ghost matches_partial_cmp = { λ p q. refl };

    ghost matches_eq = { λ p q. refl };

    fn cmp(&self, other: &Self) -> Ordering {
        compare(&self.bytes, &other.bytes)
    }
}

impl<const N: usize> StoredKey for ShortKey<N> {
    ghost use Rattle.index.specs.inner.ShortKeys.{key_in};
    ghost use Rattle.index.specs.inner.ShortKeyOrder.{keys_in_order};

    ghost bytes = { λ k. key_in N k.bytes };

    ghost by_bytes = { λ p q. keys_in_order N p.bytes q.bytes p.padded q.padded p.few q.few };

    fn as_slice(&self) -> &[u8] {
        &self.bytes[..usize::from(self.bytes[N - 1])]
    }
}
