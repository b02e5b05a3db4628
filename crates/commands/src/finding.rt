//! What searches are asked for, read under a configuration.

ghost use Rattle.std.specs.Prelude.{◌≡◌, Some, IfOk, IfErr, Err};
ghost use Rattle.std.specs.Option.{option_copied};
ghost use Rattle.filter_text.specs.Spells.{view};
ghost use Rattle.commands.specs.Asked.{IsFilter, base_of, IsBase};
ghost use Rattle.commands.specs.inner.Refusals.{FilterFails, refusal_fault};
ghost use Rattle.commands.specs.Failures.{Refuses};

use crate::messages::CommandFault;
use entries::Refusal;
use filter_text::{Filter, FilterFault, read_filter};
use schema::{Conf, Path, PathFault};
use std::alloc::Global;

/// A filter that is True of every entry, since each has an object class (RFC 4512, 2.4).
const ANY_ENTRY: &str = "(objectClass=*)";

/// The filter of this text (RFC 4515); without one, a filter that is True of every entry. The fault is as of `filter_of_text`.
pub fn filter_of(alloc: Global, text: Option<&str>) -> Result<Filter, CommandFault>
    ensures found { IfOk result (λ f. IsFilter (option_copied text.entry) (view f)) }
    ensures fault { IfErr result (FilterFails (option_copied text.entry)) }
{
    filter_of_text(alloc, text.unwrap_or(ANY_ENTRY).as_bytes())
}

/// The filter of this text (RFC 4515). The fault is `Filter` where the text spells none, or one that is too deep, and else `OutOfMemory`.
pub fn filter_of_text(alloc: Global, text: &[u8]) -> Result<Filter, CommandFault>
    ensures found { IfOk result (λ f. IsFilter (Some text.now) (view f)) }
    ensures fault { IfErr result (FilterFails (Some text.now)) }
{
    match read_filter(alloc, text) {
        Ok(filter) => Ok(filter),
        Err(FilterFault::At { at, kind }) => {
            Err(CommandFault::Filter(FilterFault::At { at, kind }))
        }
        Err(FilterFault::OutOfMemory) => Err(CommandFault::OutOfMemory),
    }
}

/// The path of the entry with this name (RFC 4514); without one, that of the suffix's entry. `command` is who asks: its fault is the code
/// of a name that has no path under the configuration, or `OutOfMemory`.
pub fn path_of(
    alloc: Global,
    conf: &Conf,
    name: Option<&str>,
    command: &'static str,
) -> Result<Path, CommandFault>
    ensures found { IfOk result (IsBase conf.now (option_copied name.entry)) }
    ensures fault { IfErr result (Refuses command.entry.now
        (λ code. base_of conf.now (option_copied name.entry) ≡ Err code)) }
{
    let Some(name) = name else {
        return Ok(Path::root(alloc));
    };
    match conf.path_of_text(alloc, name.as_bytes()) {
        Ok(path) => Ok(path),
        Err(PathFault::Code(code)) => Err(CommandFault::Code { command, code }),
        Err(PathFault::OutOfMemory) => Err(CommandFault::OutOfMemory),
    }
}

/// The fault of a search that is refused.
pub fn refused(refusal: Refusal, command: &'static str) -> CommandFault
    ensures { result ≡ refusal_fault command.entry refusal }
{
    match refusal {
        Refusal::Code(code) => CommandFault::Code { command, code },
        Refusal::OutOfMemory => CommandFault::OutOfMemory,
    }
}
