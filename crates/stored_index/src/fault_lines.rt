//! On which line an index text is at fault.

ghost use Rattle.std.specs.Prelude.{◌≡◌, ◌<◌, ◌-◌, ◌+◌, ◌^◌, ◌++◌, [], ℕ, List, take, None, IfOk, IfErr};
ghost use Rattle.device.specs.Device.{GaveSome};
ghost use Rattle.stored_index.specs.FaultLines.{TellsLine};
ghost use Rattle.stored_index.specs.Gives.{failures_by, fault_of};
ghost use Rattle.stored_index.specs.Stored.{HasText};
ghost use Rattle.stored_index.specs.inner.FaultLines.{LineTells, Going, PieceTells, EndTells};

use crate::asked::AskedTexts;
use crate::cuts::first_line;
use crate::draft::Draft;
use crate::fault::{IndexFault, IndexFaultKind, LineFault};
use crate::given::Given;
use base::Bytes;
use device::Source;
use schema::Conf;
use std::alloc::{AllocError, Global};

/// How many bytes are asked of a source at a time.
const PIECE: usize = 65536;

/// How many bytes of a line are told.
const TOLD: usize = 60;

/// A line of an index text that is at fault.
pub struct FaultLine {
    /// Its number, from 1.
    pub number: u64,
    pub kind: IndexFaultKind,
    /// Its first bytes, 60 at most.
    pub text: Bytes,
}

// A call of its own, so that no other crate proves it anew.
impl Drop for FaultLine {
    fn drop(self) {
        let FaultLine {
            number: _,
            kind: _,
            text: _,
        } = self;
    }
}

// the number of the line behind so many; one that is no u64 has no room
fn next_number(lines: u64) -> Result<u64, AllocError>
    ensures { IfOk result (λ n. n ≡ lines + 1) }
{
    match lines.checked_add(1) {
        Some(number) => Ok(number),
        None => Err(AllocError),
    }
}

// the first bytes of a line
fn beginning(alloc: Global, line: &[u8]) -> Result<Bytes, AllocError>
    ensures { IfOk result (λ text. text ≡ take 60 line.now) }
{
    Bytes::from_slice(alloc, line.split_at(TOLD.min(line.len())).0)
}

// reads the line of this number, and tells it where it is at fault
fn fault_in_line(
    draft: &mut Draft<'_>,
    alloc: Global,
    number: u64,
    line: &[u8],
) -> Result<Option<FaultLine>, AllocError>
    ensures { IfOk result (LineTells draft.old draft.new number line.now) }
{
    match draft.read_line(line) {
        Ok(()) => Ok(None),
        Err(LineFault::Fault(kind)) => {
            let text = beginning(alloc, line)?;
            Ok(Some(FaultLine { number, kind, text }))
        }
        Err(LineFault::OutOfMemory) => Err(AllocError),
    }
}

// reads the next bytes of a text, behind so many lines, and tells the first line that is at fault and ends in them
fn fault_in_piece(
    draft: &mut Draft<'_>,
    alloc: Global,
    held: &mut Vec<u8>,
    lines: &mut u64,
    piece: &[u8],
) -> Result<Option<FaultLine>, AllocError>
    ensures { (known : List ℕ) → Going known draft.old held.old.items [] lines.old → IfOk result (PieceTells (known ++ piece.now) draft.old draft.new held.new.items lines.new) }
{
    let mut rest = piece;
    while let Some((line, next)) = first_line(rest) {
        held.extend_from_slice(line)?;
        *lines = next_number(*lines)?;
        if let Some(fault) = fault_in_line(draft, alloc, *lines, held.as_slice())? {
            return Ok(Some(fault));
        }
        held.clear();
        rest = next;
    }
    held.extend_from_slice(rest)?;
    Ok(None)
}

// tells the last line where the text that ends here is at fault
fn fault_at_end(
    draft: Draft<'_>,
    alloc: Global,
    held: &[u8],
    lines: u64,
) -> Result<Option<FaultLine>, AllocError>
    ensures { (known : List ℕ) → Going known draft.entry held.now [] lines → IfOk result (EndTells known draft.entry) }
{
    match draft.finish(held) {
        Ok(_rows) => Ok(None),
        Err(LineFault::Fault(kind)) => {
            let number = next_number(lines)?;
            let text = beginning(alloc, held)?;
            Ok(Some(FaultLine { number, kind, text }))
        }
        Err(LineFault::OutOfMemory) => Err(AllocError),
    }
}

fn fault_with<S: Source>(given: Given<'_>, source: &mut S) -> Result<Option<FaultLine>, IndexFault>
    requires { (S.seen source.old).failed < 2 ^ 64 - 1 }
    ensures told { IfOk result (λ found. HasText (S.seen source.old).left (λ text. TellsLine given.entry.conf.now given.entry.entries given.entry.stamp.now text found)) }
    ensures err { IfErr result (λ e. fault_of e ≡ None) }
    ensures failures { (S.seen source.new).failed ≡ failures_by result (S.seen source.old).failed }
    ensures gave { GaveSome (S.seen source.old) (S.seen source.new) }
{
    given.conf.rules_are_kept();
    schema::printed_names_name_their_types();
    let mut draft = Draft::new(given);
    let mut held = Vec::new(given.alloc);
    let mut lines = 0;
    let mut piece = [0; PIECE];
    'pulls: loop {
        let n = source.pull(&mut piece)?;
        if n == 0 {
            return Ok(fault_at_end(draft, given.alloc, held.as_slice(), lines)?);
        }
        let got = &piece[..n];
        if let Some(fault) = fault_in_piece(&mut draft, given.alloc, &mut held, &mut lines, got)? {
            return Ok(Some(fault));
        }
    }
}

/// The line on which the text of a source is at fault, where it is no index under a configuration, of so many entries, for the dump with
/// this stamp. The text is read once more for this, as `StoredIndex::read` reads it, so that reading itself counts no lines.
pub fn fault_line<S: Source>(
    alloc: Global,
    source: &mut S,
    conf: &Conf,
    stamp: &[u8],
    entries: usize,
) -> Result<Option<FaultLine>, IndexFault>
    requires { (S.seen source.old).failed < 2 ^ 64 - 1 }
    ensures told { IfOk result (λ found. HasText (S.seen source.old).left (λ text. TellsLine conf.now entries stamp.now text found)) }
    ensures err { IfErr result (λ e. fault_of e ≡ None) }
    ensures failures { (S.seen source.new).failed ≡ failures_by result (S.seen source.old).failed }
    ensures gave { GaveSome (S.seen source.old) (S.seen source.new) }
{
    let asked = AskedTexts::of(alloc, &[])?;
    let given = Given {
        alloc,
        conf,
        stamp,
        entries,
        asked: &asked,
    };
    fault_with(given, source)
}
