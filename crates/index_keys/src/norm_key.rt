//! Normal forms as keys that are compared fast.

ghost use Rattle.std.specs.Prelude.{◌≡◌, ℕ, ◌<◌, ◌≤◌, slice_index_or};
ghost use Rattle.index_keys.specs.inner.NormFronts.{number_at};

use std::cmp::Ordering;

/// A normal form, and its first sixteen bytes as two numbers. Most keys differ there, or have no more bytes, so that they are compared without a
/// look at where their bytes lie.
#[derive(Clone, Copy, Drop)]
pub(crate) struct NormKey<'a> {
    first: u64,
    second: u64,
    pub(crate) norm: &'a [u8],
    ghost first_is: { first ≡ number_at 0 norm.now },
    ghost second_is: { second ≡ number_at 8 norm.now },
    ghost bytes: { (place : ℕ) → slice_index_or norm.now place 0 < 256 },
}

// the byte at a place, or zero where there is none
fn byte_at(bytes: &[u8], at: usize) -> u64
    ensures byte { result ≡ slice_index_or bytes.now at 0 }
    ensures small { result < 256 }
{
    match bytes.get(at) {
        Some(byte) => u64::from(*byte),
        None => 0,
    }
}

// eight bytes from a place on as one number, the first of them as the highest digit
fn number_at(bytes: &[u8], at: usize) -> u64
    requires { at ≤ 8 }
    ensures { result ≡ number_at at bytes.now }
{
    let four = ((byte_at(bytes, at) * 256 + byte_at(bytes, at + 1)) * 256 + byte_at(bytes, at + 2))
        * 256
        + byte_at(bytes, at + 3);
    let six = (four * 256 + byte_at(bytes, at + 4)) * 256 + byte_at(bytes, at + 5);
    (six * 256 + byte_at(bytes, at + 6)) * 256 + byte_at(bytes, at + 7)
}

impl<'a> NormKey<'a> {
    pub(crate) fn of(norm: &'a [u8]) -> NormKey<'a>
        ensures { result.norm.now ≡ norm.now }
    {
        NormKey {
            first: number_at(norm, 0),
            second: number_at(norm, 8),
            norm,
        }
    }
}

impl PartialEq for NormKey<'_> {
    ghost use Rattle.std.specs.Ordering.{nat_cmp, eq_by_cmp};
    ghost use Rattle.std.specs.Cmp.{on_total, partial_equiv_from_equiv, eq_by_cmp_equiv};
    ghost use Rattle.std.specs.Cmp.Lexicographic.{slice_cmp, nat_list_cmp_total};

    ghost eq = { eq_by_cmp (λ p q. slice_cmp nat_cmp p.norm.now q.norm.now) };

    ghost laws = { partial_equiv_from_equiv (eq_by_cmp_equiv (on_total (λ k. k.norm.now) nat_list_cmp_total)) };

    fn eq(&self, other: &Self) -> bool {
        self.cmp(other).is_eq()
    }
}

impl Eq for NormKey<'_> {
    ghost use Rattle.std.specs.Cmp.{on_total, eq_by_cmp_equiv};
    ghost use Rattle.std.specs.Cmp.Lexicographic.{nat_list_cmp_total};

    ghost laws = { eq_by_cmp_equiv (on_total (λ k. k.norm.now) nat_list_cmp_total) };
}

impl PartialOrd for NormKey<'_> {
    ghost use Rattle.std.specs.Prelude.{Some};
    ghost use Rattle.std.specs.Ordering.{nat_cmp};
    ghost use Rattle.std.specs.Cmp.{on_total, partial_order_from_total};
    ghost use Rattle.std.specs.Cmp.Lexicographic.{slice_cmp, nat_list_cmp_total};

    ghost partial_cmp = { λ p q. Some (slice_cmp nat_cmp p.norm.now q.norm.now) };

    ghost laws = { partial_order_from_total (on_total (λ k. k.norm.now) nat_list_cmp_total) };

    fn partial_cmp(&self, other: &Self) -> Option<Ordering> {
        Some(self.cmp(other))
    }
}

impl Ord for NormKey<'_> {
    ghost use Rattle.std.specs.Prelude.{refl};
    ghost use Rattle.std.specs.Ordering.{nat_cmp};
    ghost use Rattle.std.specs.Cmp.{on_total};
    ghost use Rattle.std.specs.Cmp.Lexicographic.{slice_cmp, nat_list_cmp_total};

    ghost cmp = { λ p q. slice_cmp nat_cmp p.norm.now q.norm.now };

    ghost total = { on_total (λ k. k.norm.now) nat_list_cmp_total };

    ghost matches_partial_cmp = { λ p q. refl };

    ghost matches_eq = { λ p q. refl };

    fn cmp(&self, other: &Self) -> Ordering {
        if self.first != other.first {
            return self.first.cmp(&other.first);
        }
        if self.second != other.second {
            return self.second.cmp(&other.second);
        }
        let (one, two) = (self.norm, other.norm);
        if one.len() <= 16 && two.len() <= 16 {
            return one.len().cmp(&two.len());
        }
        one.cmp(two)
    }
}
