//! Where bytes go.

ghost use Rattle.std.specs.Prelude.{◌≡◌, ◌<◌, ◌≤◌, ◌-◌, ◌^◌, length, take, IfOk, OnOk, OnErr};
ghost use Rattle.device.specs.Device.{Written, Took, PushFailed, Broke};

use crate::source::Device;

/// Takes bytes in pieces.
///
/// Contracts see of it what `written` says: the bytes that it took, where they are known, how many they are,
/// and how often it failed.
pub trait Sink {
    ghost written: { Self → Written };

    /// How often it failed. At the count's last value no call is made.
    fn failures(&self) -> u64
        ensures { result ≡ (written self.now).failed };

    /// Takes the first of these bytes, and answers how many: one at least, where there is one.
    ///
    /// Where it fails, `Device` comes and the count of failures rises by one; no byte was taken.
    fn push(&mut self, bytes: &[u8]) -> Result<usize, Device>
        requires { (written self.old).failed < 2 ^ 64 - 1 }
        ensures bound { IfOk result (λ n. n ≤ length bytes.now) }
        ensures some { IfOk result (λ n. 0 < length bytes.now → 0 < n) }
        ensures took { IfOk result (λ n. Took (written self.old) (written self.new) (take n bytes.now)) }
        ensures device { OnErr result (PushFailed (written self.old) (written self.new)) };
}

/// Pushes all of these bytes, in as many pushes as the sink needs.
///
/// `Device` comes with the first push that fails: the sink then has a beginning of them.
pub fn push_all<W: Sink>(sink: &mut W, bytes: &[u8]) -> Result<(), Device>
    requires { (W.written sink.old).failed < 2 ^ 64 - 1 }
    ensures ok { OnOk result (Took (W.written sink.old) (W.written sink.new) bytes.now) }
    ensures device { OnErr result (Broke (W.written sink.old) (W.written sink.new) bytes.now) }
{
    let mut at = 0;
    'pushes: while at < bytes.len() {
        at += sink.push(&bytes[at..])?;
    }
    Ok(())
}
