//! Where a record is at fault.

ghost use Rattle.std.specs.Prelude.{IfOk};
ghost use Rattle.ldif.specs.FaultPlaces.{IsFaultPlace};

use crate::due::Due;
use crate::fault::LdifFault;
use crate::read::are_in_range;
use crate::record::Mode;
use ldif_lines::RawRecord;
use std::alloc::{AllocError, Global};

/// Where a record is at fault.
#[derive(Drop)]
pub struct FaultPlace {
    /// The index of the line; as many as there are lines where it is the record's end.
    pub index: usize,
    /// What may stand there instead.
    pub due: Due,
}

/// Where a record is at fault, by the rules of `read_record`; `None` where it can be read.
pub fn fault_place(
    alloc: Global,
    raw: &RawRecord,
    mode: Mode,
) -> Result<Option<FaultPlace>, AllocError>
    ensures { IfOk result (IsFaultPlace mode raw.now.first raw.now.lines) }
{
    are_in_range(raw.lines.all());
    let len = raw.lines.len();
    let mut due = Due::start(raw.first);
    let mut rest = raw.lines.all();
    'walk: while let Some((line, after)) = rest.split_first() {
        match due.next(alloc, mode, line) {
            Ok(next) => due = next,
            Err(LdifFault::Fault(_)) => {
                let index = len - rest.len();
                return Ok(Some(FaultPlace { index, due }));
            }
            Err(LdifFault::OutOfMemory) => return Err(AllocError),
        }
        rest = after;
    }
    match due.end() {
        Ok(()) => Ok(None),
        Err(LdifFault::Fault(_)) => Ok(Some(FaultPlace { index: len, due })),
        Err(LdifFault::OutOfMemory) => Err(AllocError),
    }
}
