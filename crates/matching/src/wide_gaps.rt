//! Texts in which a space follows a space.

ghost use Rattle.std.specs.Prelude.{◌≡◌, ◌≤◌, ◌<◌, ◌*◌, false, length};
ghost use Rattle.matching.specs.inner.Gaps.{has_wide_gap_after};

#[inline(always)]
fn has_wide_gap_in(run: &[u8]) -> bool
    ensures { result ≡ has_wide_gap_after false run.now }
{
    let mut found = false;
    for i in 1..run.len() {
        found |= (run[i - 1] == b' ') & (run[i] == b' ');
    }
    found
}

// two runs, which cover all bytes and have one in common
#[inline(always)]
fn has_wide_gap_at_ends(bytes: &[u8], len: usize) -> bool
    requires { (len ≤ length bytes.now) × (length bytes.now < 2 * len) }
    ensures { result ≡ has_wide_gap_after false bytes.now }
{
    has_wide_gap_in(&bytes[..len]) | has_wide_gap_in(&bytes[bytes.len() - len..])
}

/// Whether a space follows a space.
// A run of a known length takes no loop.
pub(crate) fn has_wide_gap(bytes: &[u8]) -> bool
    ensures { result ≡ has_wide_gap_after false bytes.now }
{
    match bytes.len() {
        5..=9 => has_wide_gap_at_ends(bytes, 5),
        10..=17 => has_wide_gap_at_ends(bytes, 9),
        18..=33 => has_wide_gap_at_ends(bytes, 17),
        34..=65 => has_wide_gap_at_ends(bytes, 33),
        _ => has_wide_gap_in(bytes),
    }
}
