//! Definitions as lines of a dir.conf.

ghost use Rattle.std.specs.Prelude.{◌≡◌, ◌++◌, OnOk};
ghost use Rattle.server_schema.specs.Definitions.{keyword, line_of};

use crate::definition::{Definition, Sort};
use std::alloc::AllocError;

fn keyword(sort: Sort) -> &'static [u8]
    ensures { result.now ≡ keyword sort }
{
    match sort {
        Sort::AttributeType => b"attributetype ",
        Sort::ObjectClass => b"objectclass ",
    }
}

/// Puts the line that a definition is at the end of a text.
pub(crate) fn put_line(definition: &Definition, out: &mut Vec<u8>) -> Result<(), AllocError>
    ensures { OnOk result (out.new.items ≡ out.old.items ++ line_of definition.now) }
{
    out.extend_from_slice(keyword(definition.sort))?;
    out.extend_from_slice(definition.text.as_slice())?;
    out.push(b'\n')?;
    Ok(())
}
