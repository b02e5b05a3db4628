//! Lines of a piece, the last of them perhaps not whole.

ghost use Rattle.std.specs.Prelude.{◌≡◌, ◌<◌, ◌≤◌, ◌-◌, ◌+◌, ◌^◌, true, false, length, take, IfOk};
ghost use Rattle.ldif_lines.specs.inner.View.{state_of, state_behind};
ghost use Rattle.ldif_lines.specs.inner.Moves.{GoesOn, EndsBlock};

use crate::draft::RecordDraft;
use memchr::memchr;
use std::alloc::AllocError;

/// What was taken of some bytes.
#[derive(Clone, Copy)]
pub struct Taken {
    pub len: usize,
    /// The lines before the next byte's.
    pub count: u64,
    /// Whether the last byte is a carriage return that may belong to the line's end.
    pub after_return: bool,
    /// Whether a record ended.
    pub ended: bool,
}

/// Takes bytes up to the first line's end, or all.
fn take_line(
    draft: &mut RecordDraft,
    count: u64,
    after_return: bool,
    bytes: &[u8],
) -> Result<Taken, AllocError>
    requires some { 0 < length bytes.now }
    requires fits { count < 2 ^ 64 - 1 }
    ensures some { IfOk result (λ t. 0 < t.len) }
    ensures within { IfOk result (λ t. t.len ≤ length bytes.now) }
    ensures counted { IfOk result (λ t. t.count ≤ count + t.len) }
    ensures waits { IfOk result (λ t. t.after_return ≡ true → t.count < count + t.len) }
    ensures moved { IfOk result (λ t. t.ended ≡ false → GoesOn (state_of draft.old after_return count) (take t.len bytes.now) (state_behind draft.new t)) }
    ensures ended { IfOk result (λ t. t.ended ≡ true → EndsBlock (state_of draft.old after_return count) (take t.len bytes.now) (state_behind draft.new t)) }
    ensures settled { IfOk result (λ t. t.ended ≡ true → t.after_return ≡ false) }
{
    match memchr(b'\n', bytes) {
        None => {
            let waits = draft.take(count + 1, after_return, bytes)?;
            Ok(Taken {
                len: bytes.len(),
                count,
                after_return: waits,
                ended: false,
            })
        }
        Some(i) => {
            let waits = draft.take(count + 1, after_return, &bytes[..i])?;
            let ended = draft.end_line();
            let _ = waits;
            Ok(Taken {
                len: i + 1,
                count: count + 1,
                after_return: false,
                ended,
            })
        }
    }
}

/// Takes bytes up to the end of a record, or all.
pub fn take_lines(
    draft: &mut RecordDraft,
    count: u64,
    after_return: bool,
    bytes: &[u8],
) -> Result<Taken, AllocError>
    requires some { 0 < length bytes.now }
    requires fits { count + length bytes.now < 2 ^ 64 }
    ensures some { IfOk result (λ t. 0 < t.len) }
    ensures within { IfOk result (λ t. t.len ≤ length bytes.now) }
    ensures counted { IfOk result (λ t. t.count ≤ count + t.len) }
    ensures waits { IfOk result (λ t. t.after_return ≡ true → t.count < count + t.len) }
    ensures moved { IfOk result (λ t. t.ended ≡ false → GoesOn (state_of draft.old after_return count) (take t.len bytes.now) (state_behind draft.new t)) }
    ensures ended { IfOk result (λ t. t.ended ≡ true → EndsBlock (state_of draft.old after_return count) (take t.len bytes.now) (state_behind draft.new t)) }
    ensures settled { IfOk result (λ t. t.ended ≡ true → t.after_return ≡ false) }
{
    let mut all = Taken {
        len: 0,
        count,
        after_return,
        ended: false,
    };
    'lines: while !all.ended && all.len < bytes.len() {
        let taken = take_line(draft, all.count, all.after_return, &bytes[all.len..])?;
        all = Taken {
            len: all.len + taken.len,
            ..taken
        };
    }
    Ok(all)
}
