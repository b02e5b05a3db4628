//! The whole text, piece by piece.

ghost use Rattle.std.specs.Prelude.{◌≡◌, ◌<◌, ◌-◌, ◌+◌, ◌^◌, ◌++◌, ◌∷◌, [], ℕ, List, Err, OnOk, IfErr, IfOk};
ghost use Rattle.std.specs.Io.KnownBytes.{IsAtEnd};
ghost use Rattle.base.specs.Answers.{Fails};
ghost use Rattle.device.specs.Device.{GaveSome};
ghost use Rattle.stored_index.specs.Gives.{failures_by, fault_of, kind_of};
ghost use Rattle.stored_index.specs.Stored.{HasText};
ghost use Rattle.stored_index.specs.inner.Drafts.{GoesOn, FailsBehind, Comes, TakesOn, FailsIn, read_by};

use crate::cuts::first_line;
use crate::draft::Draft;
use crate::fault::{IndexFault, LineFault};
use crate::given::Given;
use crate::row::Row;
use base::Sequence;
use device::Source;

/// How many bytes are asked of a source at a time.
const PIECE: usize = 65536;

// the line that ends here, behind the bytes that are held of it
fn take_line(draft: &mut Draft<'_>, held: &mut Vec<u8>, line: &[u8]) -> Result<(), LineFault>
    ensures ok { OnOk result (GoesOn draft.old draft.new (held.old.items ++ line.now)) }
    ensures held { OnOk result (held.new.items ≡ []) }
    ensures err { IfErr result (FailsBehind draft.old (held.old.items ++ line.now)) }
{
    if held.is_empty() {
        return draft.read_line(line);
    }
    held.extend_from_slice(line)?;
    draft.read_line(held.as_slice())?;
    held.clear();
    Ok(())
}

// the next bytes of the text
fn take_piece(draft: &mut Draft<'_>, held: &mut Vec<u8>, piece: &[u8]) -> Result<(), LineFault>
    ensures ok { OnOk result (TakesOn draft.old held.old.items piece.now draft.new held.new.items) }
    ensures err { IfErr result (FailsIn draft.old held.old.items piece.now) }
{
    let mut rest = piece;
    while let Some((line, next)) = first_line(rest) {
        take_line(draft, held, line)?;
        rest = next;
    }
    held.extend_from_slice(rest)?;
    Ok(())
}

/// The rows of each slot whose keys are asked for, as the text of a source says them.
pub(crate) fn read_rows<S: Source>(
    given: Given<'_>,
    source: &mut S,
) -> Result<Sequence<Sequence<Row>>, IndexFault>
    requires { (S.seen source.old).failed < 2 ^ 64 - 1 }
    ensures ok { IfOk result (λ slots. HasText (S.seen source.old).left (λ text. Comes given.entry.asked.now slots (read_by given.entry text))) }
    ensures err { IfErr result (λ e. HasText (S.seen source.old).left (λ text. Fails (fault_of e) (read_by given.entry text))) }
    ensures failures { (S.seen source.new).failed ≡ failures_by result (S.seen source.old).failed }
    ensures gave { GaveSome (S.seen source.old) (S.seen source.new) }
    ensures end { OnOk result (IsAtEnd (S.seen source.new).left) }
{
    let mut draft = Draft::new(given);
    let mut held = Vec::new(given.alloc);
    let mut piece = [0; PIECE];
    'pulls: loop {
        let n = source.pull(&mut piece)?;
        if n == 0 {
            return Ok(draft.finish(held.as_slice())?);
        }
        take_piece(&mut draft, &mut held, &piece[..n])?;
    }
}
