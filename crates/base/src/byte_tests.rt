//! Whether the bytes of a text pass a test.

ghost use Rattle.std.specs.Prelude.{◌≡◌, ◌≤◌, ◌*◌, ℕ, Bool, length};
ghost use Rattle.std.specs.List.{list_any};

/// A test of a byte. Contracts see which bytes it holds for.
pub trait ByteTest {
    ghost holds: { ℕ → Bool };

    fn test(byte: u8) -> bool
        ensures { result ≡ holds byte };
}

#[inline(always)]
fn any_in<T: ByteTest>(run: &[u8]) -> bool
    ensures { result ≡ list_any T.holds run.now }
{
    let mut found = false;
    for b in run {
        found |= T::test(*b);
    }
    found
}

// two runs, which cover all bytes
#[inline(always)]
fn any_at_ends<T: ByteTest>(bytes: &[u8], len: usize) -> bool
    requires { (len ≤ length bytes.now) × (length bytes.now ≤ 2 * len) }
    ensures { result ≡ list_any T.holds bytes.now }
{
    any_in::<T>(&bytes[..len]) | any_in::<T>(&bytes[bytes.len() - len..])
}

/// Whether a test holds for some byte. Of a short text two runs of a known length are tested, which takes no loop.
pub fn any_byte<T: ByteTest>(bytes: &[u8]) -> bool
    ensures { result ≡ list_any T.holds bytes.now }
{
    match bytes.len() {
        4..=8 => any_at_ends::<T>(bytes, 4),
        9..=16 => any_at_ends::<T>(bytes, 8),
        17..=32 => any_at_ends::<T>(bytes, 16),
        33..=64 => any_at_ends::<T>(bytes, 32),
        _ => any_in::<T>(bytes),
    }
}
