//! The entries that a search finds, as LDIF.

ghost use Rattle.std.specs.Prelude.{◌≡◌, ◌<◌, ◌-◌, ◌^◌, ◌++◌, false, length, map};
ghost use Rattle.databases.specs.Walks.{seen};
ghost use Rattle.databases.specs.Found.{AreThere, up_to, limited_text, goes_past, WritesFound};
ghost use Rattle.databases.specs.inner.Found.{is_used_up, one_fewer, WritesFoundOn};

use crate::database::Database;
use crate::dump::{Printer, pass_on};
use crate::hits::Hits;
use crate::listening::Nobody;
use crate::selection::Selection;
use device::Sink;
use id_sets::IdSet;
use ldif::{LineWidth, WriteFault};
use std::alloc::Global;
use tree::Names;

fn is_used_up(left: Option<u32>) -> bool
    ensures { result ≡ is_used_up left }
{
    match left {
        Some(number) => number == 0,
        None => false,
    }
}

// what is left of a limit when one more was written
fn one_fewer(left: Option<u32>) -> Option<u32>
    requires { is_used_up left ≡ false }
    ensures { result ≡ one_fewer left }
{
    match left {
        Some(number) => Some(number - 1),
        None => None,
    }
}

// puts the records of entries that a search found behind a text, up to the limit, and hands the text on where it is long; answers whether
// there are more
fn put_found<W: Sink, S: IdSet>(
    printer: &Printer<'_>,
    sink: &mut W,
    names: &mut Names<'_>,
    hits: Hits<'_, S>,
    limit: Option<u32>,
    selection: &Selection,
    text: &mut Vec<u8>,
) -> Result<bool, WriteFault>
    requires can_fail { (W.written sink.old).failed < 2 ^ 64 - 1 }
    requires names { names.old ≡ printer.now.tree.now }
    requires there { AreThere printer.now.tree.now.entries (map seen hits.to_come) }
    ensures { WritesFoundOn result (goes_past limit hits.entry.to_come) (W.written sink.old) (W.written sink.new)
        (text.old.items ++ limited_text printer.now.width printer.now.tree.now.conf printer.now.tree.now.entries selection.now limit (map seen hits.entry.to_come)) text.new.items }
{
    let mut left = limit;
    for found in hits {
        if is_used_up(left) {
            return Ok(true);
        }
        printer.write_entry(sink, &mut Nobody, names, selection, found, text)?;
        left = one_fewer(left);
    }
    Ok(false)
}

// writes a text and the records of entries that a search found, up to the limit; answers whether there are more
fn write_all_found<W: Sink, S: IdSet>(
    alloc: Global,
    printer: &Printer<'_>,
    sink: &mut W,
    front: &[u8],
    hits: Hits<'_, S>,
    limit: Option<u32>,
    selection: &Selection,
) -> Result<bool, WriteFault>
    requires can_fail { (W.written sink.old).failed < 2 ^ 64 - 1 }
    requires there { AreThere printer.now.tree.now.entries (map seen hits.to_come) }
    ensures { WritesFound result (goes_past limit hits.entry.to_come) (W.written sink.old) (W.written sink.new)
        (front.now ++ limited_text printer.now.width printer.now.tree.now.conf printer.now.tree.now.entries selection.now limit (map seen hits.entry.to_come)) }
{
    let mut names = printer.names();
    let mut text = Vec::from_slice(alloc, front)?;
    let past = put_found(printer, sink, &mut names, hits, limit, selection, &mut text)?;
    pass_on(sink, &mut text)?;
    Ok(past)
}

impl Database {
    /// Writes entries that a search found, each as a content record with the attributes that are selected (RFC 2849; RFC 4511, 4.5.1.8),
    /// its lines folded to a width, in pieces of some 64 KiB. With a limit it writes the first ones up to it, and answers whether there are more (RFC 4511, 4.5.1.4).
    /// On a fault a beginning was written.
    pub fn write_found<W: Sink, S: IdSet>(
        &self,
        alloc: Global,
        sink: &mut W,
        hits: Hits<'_, S>,
        limit: Option<u32>,
        selection: &Selection,
        width: LineWidth,
    ) -> Result<bool, WriteFault>
        requires can_fail { (W.written sink.old).failed < 2 ^ 64 - 1 }
        requires there { AreThere self.now.entries (map seen hits.to_come) }
        ensures { WritesFound result (goes_past limit hits.entry.to_come) (W.written sink.old) (W.written sink.new)
            (limited_text width self.now.conf self.now.entries selection.now limit (map seen hits.entry.to_come)) }
    {
        self.write_found_behind(alloc, sink, &[], hits, limit, selection, width)
    }

    /// The same, with a text in front of all records.
    pub fn write_found_behind<W: Sink, S: IdSet>(
        &self,
        alloc: Global,
        sink: &mut W,
        front: &[u8],
        hits: Hits<'_, S>,
        limit: Option<u32>,
        selection: &Selection,
        width: LineWidth,
    ) -> Result<bool, WriteFault>
        requires can_fail { (W.written sink.old).failed < 2 ^ 64 - 1 }
        requires there { AreThere self.now.entries (map seen hits.to_come) }
        ensures { WritesFound result (goes_past limit hits.entry.to_come) (W.written sink.old) (W.written sink.new)
            (front.now ++ limited_text width self.now.conf self.now.entries selection.now limit (map seen hits.entry.to_come)) }
    {
        let printer = Printer::new(alloc, self.lent(), width);
        write_all_found(alloc, &printer, sink, front, hits, limit, selection)
    }
}

/// How many entries a search found, up to a limit.
#[derive(Clone, Copy)]
pub struct FoundCount {
    pub entries: u64,
    /// Whether there are more.
    pub past: bool,
}

/// Counts the entries that a search found, up to the limit (RFC 4511, 4.5.1.4).
pub fn count_found<S: IdSet>(hits: Hits<'_, S>, limit: Option<u32>) -> FoundCount
    ensures entries { result.entries ≡ length (up_to limit hits.entry.to_come) }
    ensures past { result.past ≡ goes_past limit hits.entry.to_come }
{
    hits.are_few();
    let mut left = limit;
    let mut entries: u64 = 0;
    for _ in hits {
        if is_used_up(left) {
            return FoundCount {
                entries,
                past: true,
            };
        }
        entries += 1;
        left = one_fewer(left);
    }
    FoundCount {
        entries,
        past: false,
    }
}
