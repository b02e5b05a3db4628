//! The reader of whole texts.
ghost use Rattle.std.specs.Prelude.{◌≡◌, ◌↔◌, ℕ, IfOk, IfErr, MatchResult};
ghost use Rattle.filter_text.specs.Depth.{IsShallow, IsDeepAt};
ghost use Rattle.filter_text.specs.Faults.{IsOutOfMemory, BeginsAt};
ghost use Rattle.filter_text.specs.Spells.{FilterContent, view, FilterText, SomeText};
ghost use Rattle.filter_text.specs.inner.Begins.{IsMemory, Faulty};
ghost use Rattle.filter_text.specs.declared.filter_fault.FilterFaultKind.TheVariants.{Deep};

use crate::cursor::{after_spaces, opens};
use crate::depth::deep_at;
use crate::descent::{comp_at, filter_at};
use crate::fault::{Fault, read_whole};
use crate::filter_fault::{FilterFault, FilterFaultKind};
use crate::filters::Filter;
use std::alloc::Global;

/// The filter that the whole text spells, however deep.
fn whole(alloc: Global, text: &[u8]) -> Result<Filter, Fault>
    ensures found { IfOk result (λ f. FilterText (view f) text.now) }
    ensures only { (f : FilterContent) → FilterText f text.now → MatchResult result (λ g. view g ≡ f) IsMemory }
    ensures front { IfErr result (Faulty SomeText text.now) }
{
    let start = after_spaces(text);
    if opens(start) {
        let (filter, end) = filter_at(alloc, start)?;
        return read_whole(filter, after_spaces(end));
    }
    let (filter, end) = comp_at(alloc, start)?;
    read_whole(filter, end)
}

/// The filter that a text spells (RFC 4515, section 3). Spaces round the whole, behind `&`, `|` and `!`, and behind a filter are skipped. A
/// text whose first byte that is no space is no `(` is read, from that byte on, as if `(` and `)` stood round it.
///
/// Where a parenthesis, the added one counted, is the 513th that is open at once, the fault is `Deep`, at the first such; the parentheses
/// are counted before anything is read, also in what is no filter. Where the text spells no filter otherwise, the fault is `Syntax`: the
/// bytes before it begin some filter.
pub fn read_filter(alloc: Global, text: &[u8]) -> Result<Filter, FilterFault>
    // What is read is spelled so, and not too deep.
    ensures found { IfOk result (λ f. FilterText (view f) text.now × IsShallow text.now) }
    // What is spelled so and is not too deep is read, unless memory runs out.
    ensures only { (f : FilterContent) → FilterText f text.now → IsShallow text.now → MatchResult result (λ g. view g ≡ f) IsOutOfMemory }
    // Deep comes first.
    ensures deep { (at : ℕ) → IsDeepAt text.now at ↔ (result ≡ Err (FilterFault.At at Deep)) }
    // The bytes before a fault begin some text.
    ensures front { IfErr result (BeginsAt text.now) }
{
    if let Some(at) = deep_at(text) {
        return Err(FilterFault::At {
            at,
            kind: FilterFaultKind::Deep,
        });
    }
    match whole(alloc, text) {
        Ok(filter) => Ok(filter),
        Err(Fault::OutOfMemory) => Err(FilterFault::OutOfMemory),
        Err(Fault::Syntax(left)) => Err(FilterFault::At {
            at: text.len() - left,
            kind: FilterFaultKind::Syntax,
        }),
    }
}
