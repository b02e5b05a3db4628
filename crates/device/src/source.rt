//! Where bytes come from.

ghost use Rattle.std.specs.Prelude.{◌≡◌, ◌<◌, ◌≤◌, ◌-◌, ◌^◌, length, take, true, IfOk, OnErr};
ghost use Rattle.std.specs.Io.KnownBytes.{IsAtEnd};
ghost use Rattle.device.specs.Device.{Seen, Gave, PullFailed};

use thiserror::Error;

/// A source or a sink failed.
#[derive(Clone, Copy, Debug, PartialEq, Eq, Error)]
#[error("the device failed")]
pub struct Device;

/// Bytes that come in pieces, at most 2^64 - 1 of them in all.
///
/// Contracts see of it what `seen` says: the bytes that are left, where they are known, how many were pulled,
/// how often it failed, and whether its end was met.
pub trait Source {
    ghost seen: { Self → Seen };

    /// How often it failed. At the count's last value no call is made.
    fn failures(&self) -> u64
        ensures { result ≡ (seen self.now).failed };

    /// Puts the next bytes at the front of `buffer`, and answers how many came.
    ///
    /// For a buffer that is not empty, 0 is the end of the bytes, for good.
    /// Where it fails, `Device` comes and the count of failures rises by one; no byte is lost.
    fn pull(&mut self, buffer: &mut [u8]) -> Result<usize, Device>
        requires { (seen self.old).failed < 2 ^ 64 - 1 }
        ensures bound { IfOk result (λ n. n ≤ length buffer.new) }
        ensures gave { IfOk result (λ n. Gave (seen self.old) (seen self.new) (take n buffer.new)) }
        ensures fits { IfOk result (λ _. (seen self.new).pulled < 2 ^ 64) }
        ensures end { IfOk result (λ n. n ≡ 0 → 0 < length buffer.new
            → ((seen self.new).ended ≡ true) × IsAtEnd (seen self.new).left) }
        ensures device { OnErr result (PullFailed (seen self.old) (seen self.new)) };
}
