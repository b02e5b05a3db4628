//! Why the lines of the dir.conf of a directory are at fault.

use crate::messages::{CommandFault, Stop};
use crate::telling::CommandTeller;
use checks::{ConfLineFault, FoundFault, commented};
use std::alloc::{AllocError, Global};

/// Has a teller tell why a line of a dir.conf is at fault.
fn tell_fault<T: CommandTeller>(alloc: Global, text: &[u8], fault: ConfLineFault, teller: &mut T) {
    let ConfLineFault { line, kind } = fault;
    teller.note_configuration(alloc, text);
    teller.tell_stop(
        alloc,
        &Stop::Fault(CommandFault::Configuration { line, kind }),
        None,
    );
}

/// Has a teller tell why the lines of a dir.conf are at fault that aren't left out, each as it is where the lines that were found at fault before it
/// are comments.
pub fn tell_faults<T: CommandTeller>(
    alloc: Global,
    text: &[u8],
    faults: &[FoundFault],
    teller: &mut T,
) -> Result<(), AllocError> {
    let mut left = Vec::from_slice(alloc, text)?;
    for found in faults {
        let fault = found.fault;
        if found.counted_with.is_none() {
            tell_fault(alloc, left.as_slice(), fault, teller);
        }
        if fault.line > 0 {
            left = commented(alloc, left.as_slice(), fault.line)?;
        }
    }
    Ok(())
}
