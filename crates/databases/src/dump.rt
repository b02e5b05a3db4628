//! The dump of a directory.

ghost use Rattle.std.specs.Prelude.{◌≡◌, ◌<◌, ◌-◌, ◌^◌, ◌++◌, ◌∷◌, [], List, ℕ, Some, OnOk, length};
ghost use Rattle.std.specs.FinMap as finite;
ghost use Rattle.ldif.specs.Writing.{written_line_to};
ghost use Rattle.entries.specs.StoredEntries.{content_of};
ghost use Rattle.databases.specs.Runs.{dump, dump_to, LoadsBack, LoadsBackAt};
ghost use Rattle.ldif.specs.Written.{Writes, WritesOn};
ghost use Rattle.databases.specs.inner.Dumps.{AreKnown, HearsOn, values_text, attribute_text, selected_text, entry_text, tree_entry_text};

use crate::database::Database;
use crate::laws::{loading_a_dump, loading_a_folded_dump};
use crate::listening::{Listener, Nobody};
use crate::selection::Selection;
use device::{Sink, push_all};
use entries::{Entry, Values};
use ldif::{LineWidth, WriteFault, put_line_to};
use schema::{Conf, Path, TypeId};
use std::alloc::{AllocError, Global};
use tree::{LentTree, Names, Tree};

// so many bytes are handed on at once
const PIECE: usize = 65536;

// the lines of values under one name
fn put_values(
    alloc: Global,
    out: &mut Vec<u8>,
    width: LineWidth,
    name: &[u8],
    values: &Values,
) -> Result<(), AllocError>
    ensures { OnOk result (out.new.items ≡ out.old.items ++ values_text width name.now values.now) }
{
    for value in values.iter() {
        put_line_to(alloc, out, width, name, value.raw())?;
    }
    Ok(())
}

// the lines of an attribute, where it is selected
fn put_attribute(
    alloc: Global,
    out: &mut Vec<u8>,
    width: LineWidth,
    conf: &Conf,
    selection: &Selection,
    t: TypeId,
    values: &Values,
) -> Result<(), AllocError>
    requires { t < length conf.now.types }
    ensures { OnOk result (out.new.items ≡ out.old.items ++ attribute_text width conf.now.types selection.now (t, values.now)) }
{
    if !selection.has(t) {
        return Ok(());
    }
    put_values(alloc, out, width, conf.name(t), values)
}

// the lines of the attributes that are selected, and an empty line
fn put_attributes(
    alloc: Global,
    out: &mut Vec<u8>,
    width: LineWidth,
    conf: &Conf,
    selection: &Selection,
    entry: &Entry,
) -> Result<(), AllocError>
    requires { AreKnown conf.now.types entry.now.attrs }
    ensures { OnOk result (out.new.items ≡ out.old.items ++ selected_text width conf.now.types selection.now entry.now.attrs) }
{
    for (t, values) in entry.attrs() {
        put_attribute(alloc, out, width, conf, selection, *t, values)?;
    }
    out.push(b'\n')?;
    Ok(())
}

// the content record of an entry with this name, and an empty line
fn put_entry(
    alloc: Global,
    out: &mut Vec<u8>,
    width: LineWidth,
    conf: &Conf,
    selection: &Selection,
    name: &[u8],
    entry: &Entry,
) -> Result<(), AllocError>
    requires { AreKnown conf.now.types entry.now.attrs }
    ensures { OnOk result (out.new.items ≡ out.old.items ++ written_line_to width (100 ∷ 110 ∷ []) name.now ++ selected_text width conf.now.types selection.now entry.now.attrs) }
{
    put_line_to(alloc, out, width, b"dn", name)?;
    put_attributes(alloc, out, width, conf, selection, entry)
}

/// Hands all bytes of a text on to a sink, and clears it. On a fault a beginning was written.
pub fn pass_on<W: Sink>(sink: &mut W, text: &mut Vec<u8>) -> Result<(), WriteFault>
    requires { (W.written sink.old).failed < 2 ^ 64 - 1 }
    ensures writes { Writes result (W.written sink.old) (W.written sink.new) text.old.items }
    ensures empty { OnOk result (text.new.items ≡ []) }
{
    push_all(sink, text.as_slice())?;
    text.clear();
    Ok(())
}

/// The same where the text has 64 KiB or more; a shorter one is left as it is.
pub fn pass_on_long<W: Sink>(sink: &mut W, text: &mut Vec<u8>) -> Result<(), WriteFault>
    requires { (W.written sink.old).failed < 2 ^ 64 - 1 }
    ensures writes { WritesOn result (W.written sink.old) (W.written sink.new) text.old.items text.new.items }
    ensures short { OnOk result (length text.new.items < 65536) }
{
    if text.len() < PIECE {
        return Ok(());
    }
    pass_on(sink, text)
}

// has all bytes of a text heard and hands them on, and clears it
fn pass_on_heard<W: Sink, L: Listener>(
    sink: &mut W,
    listener: &mut L,
    text: &mut Vec<u8>,
) -> Result<(), WriteFault>
    requires { (W.written sink.old).failed < 2 ^ 64 - 1 }
    ensures writes { Writes result (W.written sink.old) (W.written sink.new) text.old.items }
    ensures empty { OnOk result (text.new.items ≡ []) }
    ensures heard { (m : List ℕ) → L.heard listener.old m → L.heard listener.new (m ++ text.old.items) }
{
    listener.hear(text.as_slice());
    pass_on(sink, text)
}

// the same of a text that is long
fn pass_on_long_heard<W: Sink, L: Listener>(
    sink: &mut W,
    listener: &mut L,
    text: &mut Vec<u8>,
) -> Result<(), WriteFault>
    requires { (W.written sink.old).failed < 2 ^ 64 - 1 }
    ensures writes { WritesOn result (W.written sink.old) (W.written sink.new) text.old.items text.new.items }
    ensures short { OnOk result (length text.new.items < 65536) }
    ensures heard { OnOk result (HearsOn L.heard listener.old listener.new text.old.items text.new.items) }
{
    if text.len() < PIECE {
        return Ok(());
    }
    pass_on_heard(sink, listener, text)
}

/// The entries of a tree, the configuration that they are printed under: the one that they were made with, and how long a printed line may
/// be.
#[derive(Drop)]
pub(crate) struct Printer<'a> {
    alloc: Global,
    tree: &'a Tree,
    conf: &'a Conf,
    width: LineWidth,
    ghost same_conf: { tree.now.conf ≡ conf.now },
}

impl<'a> Printer<'a> {
    pub(crate) fn new(alloc: Global, lent: LentTree<'a>, width: LineWidth) -> Printer<'a>
        ensures tree { result.tree.now ≡ lent.entry.tree.now }
        ensures width { result.width ≡ width }
    {
        let LentTree { tree, conf } = lent;
        Printer {
            alloc,
            tree,
            conf,
            width,
        }
    }

    // names the entries, in the order of the dump
    pub(crate) fn names(&self) -> Names<'a>
        ensures { result ≡ self.now.tree.now }
    {
        Names::new(self.alloc, LentTree::new(self.tree, self.conf))
    }

    // the content record of the entry at a path, behind what `out` holds
    fn put_record(
        &self,
        names: &mut Names<'_>,
        selection: &Selection,
        path: &Path,
        entry: &Entry,
        out: &mut Vec<u8>,
    ) -> Result<(), AllocError>
        requires names { names.old ≡ self.now.tree.now }
        requires there { finite.get self.now.tree.now.entries path.now ≡ Some (content_of entry.now) }
        ensures names { names.new ≡ self.now.tree.now }
        ensures text { OnOk result (out.new.items ≡ out.old.items ++ entry_text self.now.width self.now.tree.now.conf self.now.tree.now.entries selection.now (path.now, entry.now)) }
    {
        self.tree.entries_are_a_directory();
        let name = names.name_of(self.alloc, path, entry)?;
        put_entry(
            self.alloc,
            out,
            self.width,
            self.conf,
            selection,
            name.as_slice(),
            entry,
        )
    }

    // puts the content record of the entry at a path behind a text, and hands the text on where it is long
    pub(crate) fn write_entry<W: Sink, L: Listener>(
        &self,
        sink: &mut W,
        listener: &mut L,
        names: &mut Names<'_>,
        selection: &Selection,
        found: (&Path, &Entry),
        text: &mut Vec<u8>,
    ) -> Result<(), WriteFault>
        requires can_fail { (W.written sink.old).failed < 2 ^ 64 - 1 }
        requires names { names.old ≡ self.now.tree.now }
        requires there { finite.get self.now.tree.now.entries found.0.now ≡ Some (content_of found.1.now) }
        ensures names { names.new ≡ self.now.tree.now }
        ensures writes { WritesOn result (W.written sink.old) (W.written sink.new) (text.old.items ++ tree_entry_text self.now.width self.now.tree.now selection.now found.entry) text.new.items }
        ensures short { OnOk result (length text.new.items < 65536) }
        ensures heard { OnOk result (HearsOn L.heard listener.old listener.new (text.old.items ++ tree_entry_text self.now.width self.now.tree.now selection.now found.entry) text.new.items) }
    {
        let (path, entry) = found;
        self.put_record(names, selection, path, entry, text)?;
        pass_on_long_heard(sink, listener, text)
    }

    /// Writes each entry as a content record, in the order of paths (RFC 2849), in pieces of some 64 KiB. On a fault a beginning was written.
    pub(crate) fn write_dump<W: Sink, L: Listener>(
        &self,
        sink: &mut W,
        listener: &mut L,
    ) -> Result<(), WriteFault>
        requires { (W.written sink.old).failed < 2 ^ 64 - 1 }
        ensures writes { Writes result (W.written sink.old) (W.written sink.new) (dump_to self.now.width self.now.tree.now.conf self.now.tree.now.entries) }
        ensures heard { OnOk result ((m : List ℕ) → L.heard listener.old m → L.heard listener.new (m ++ dump_to self.now.width self.now.tree.now.conf self.now.tree.now.entries)) }
    {
        self.tree.entries_are_a_directory();
        schema::order_of_paths();
        let root = Path::root(self.alloc);
        let mut names = self.names();
        let mut text = Vec::new(self.alloc);
        for found in self.tree.range(&root) {
            self.write_entry(
                sink,
                listener,
                &mut names,
                &Selection::all(),
                found,
                &mut text,
            )?;
        }
        pass_on_heard(sink, listener, &mut text)
    }
}

impl Database {
    /// Writes each entry as a content record, in the order of paths (RFC 2849), in pieces of some 64 KiB. On a fault a beginning was written.
    ///
    /// Loading what a whole dump holds gives these entries again, and refuses none of its records.
    pub fn dump<W: Sink>(&self, alloc: Global, sink: &mut W) -> Result<(), WriteFault>
        requires { (W.written sink.old).failed < 2 ^ 64 - 1 }
        ensures writes { Writes result (W.written sink.old) (W.written sink.new) (dump self.now.conf self.now.entries) }
        ensures loads { LoadsBack self.now.conf self.now.entries }
    {
        self.tree().entries_are_a_directory();
        self.conf().rules_are_kept();
        loading_a_dump();
        let printer = Printer::new(alloc, self.lent(), LineWidth::STANDARD);
        printer.write_dump(sink, &mut Nobody)
    }

    /// Writes the dump as `dump` does, its lines folded to a width. What is written loads back from every width.
    pub fn dump_to<W: Sink>(
        &self,
        alloc: Global,
        width: LineWidth,
        sink: &mut W,
    ) -> Result<(), WriteFault>
        requires { (W.written sink.old).failed < 2 ^ 64 - 1 }
        ensures writes { Writes result (W.written sink.old) (W.written sink.new) (dump_to width self.now.conf self.now.entries) }
        ensures loads { LoadsBackAt width self.now.conf self.now.entries }
    {
        width.holds_a_byte();
        self.tree().entries_are_a_directory();
        self.conf().rules_are_kept();
        loading_a_folded_dump();
        let printer = Printer::new(alloc, self.lent(), width);
        printer.write_dump(sink, &mut Nobody)
    }
}
