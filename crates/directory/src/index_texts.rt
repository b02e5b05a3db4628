//! The text of a directory's index, as it is written.

ghost use Rattle.std.specs.Prelude.{◌≡◌, ◌<◌, ◌-◌, ◌^◌, ◌++◌, Some, OnOk};
ghost use Rattle.std.specs.List.{slice_get};
ghost use Rattle.ldif.specs.Written.{Writes, WritesOn};
ghost use Rattle.directory.specs.Directories.{tree_of};
ghost use Rattle.databases.specs.IndexTexts.{stamp as stamp_by, index_text, slot_lines, slots_lines};
ghost use Rattle.directory.specs.inner.IndexRows.{row_text, rows_text, AreRanked, numbers_in_order};

use crate::directory::Directory;
use crate::ranks::{ranks_by_number, ranks_of};
use databases::{Stamp, pass_on, pass_on_long};
use dense_sets::KeySet;
use device::Sink;
use index::Keys;
use index_text::{SlotNumber, put_end, put_key, put_slot};
use ldif::WriteFault;
use schema::Slot;
use std::alloc::{AllocError, Global};

// the line of a key with its members, behind what `text` holds
fn put_row(
    alloc: Global,
    ranks: &[u32],
    key: &[u8],
    members: &KeySet,
    text: &mut Vec<u8>,
) -> Result<(), AllocError>
    ensures { OnOk result (text.new.items ≡ text.old.items ++ row_text ranks.now (key.now, members.now.members)) }
{
    let found = ranks_of(alloc, ranks, members)?;
    put_key(alloc, text, key, found.as_slice())
}

// puts the line of a key with its members behind a text, and hands the text on where it is long
fn write_row<W: Sink>(
    alloc: Global,
    sink: &mut W,
    ranks: &[u32],
    row: (&[u8], &KeySet),
    text: &mut Vec<u8>,
) -> Result<(), WriteFault>
    requires { (W.written sink.old).failed < 2 ^ 64 - 1 }
    ensures { WritesOn result (W.written sink.old) (W.written sink.new) (text.old.items ++ row_text ranks.now (row.entry.0.now, row.entry.1.now.members)) text.new.items }
{
    let (key, members) = row;
    put_row(alloc, ranks, key, members, text)?;
    pass_on_long(sink, text)
}

// the same of all these keys
fn write_rows<W: Sink>(
    alloc: Global,
    sink: &mut W,
    ranks: &[u32],
    keys: Keys<'_>,
    text: &mut Vec<u8>,
) -> Result<(), WriteFault>
    requires { (W.written sink.old).failed < 2 ^ 64 - 1 }
    ensures { WritesOn result (W.written sink.old) (W.written sink.new) (text.old.items ++ rows_text ranks.now keys.entry) text.new.items }
{
    for row in keys {
        write_row(alloc, sink, ranks, row, text)?;
    }
    Ok(())
}

/// The entries of a directory with their index, and the rank of each entry at its number.
#[derive(Drop)]
struct Listing<'a> {
    alloc: Global,
    directory: &'a Directory,
    ranks: &'a [u32],
}

impl Listing<'_> {
    // puts the lines of the slot at a place behind a text, and hands the text on where it is long
    fn write_slot<W: Sink>(
        &self,
        sink: &mut W,
        place: usize,
        slot: &Slot,
        text: &mut Vec<u8>,
    ) -> Result<(), WriteFault>
        requires can_fail { (W.written sink.old).failed < 2 ^ 64 - 1 }
        requires ranked { AreRanked self.now.ranks.now 0 (numbers_in_order (tree_of self.now.directory.now)) }
        requires place { slice_get self.now.directory.now.conf.slots place ≡ Some slot.now }
        ensures { WritesOn result (W.written sink.old) (W.written sink.new) (text.old.items ++ slot_lines self.now.directory.now.conf self.now.directory.now.entries slot.now) text.new.items }
    {
        let tree = self.directory.tree();
        tree.entries_are_a_directory();
        tree.entries_are_numbered();
        let conf = self.directory.conf();
        conf.rules_are_kept();
        put_slot(text, conf, slot)?;
        let index = self.directory.index();
        let keys = index.keys(SlotNumber(place));
        write_rows(self.alloc, sink, self.ranks, keys, text)
    }

    // the same of all slots
    fn write_slots<W: Sink>(&self, sink: &mut W, text: &mut Vec<u8>) -> Result<(), WriteFault>
        requires can_fail { (W.written sink.old).failed < 2 ^ 64 - 1 }
        requires ranked { AreRanked self.now.ranks.now 0 (numbers_in_order (tree_of self.now.directory.now)) }
        ensures { WritesOn result (W.written sink.old) (W.written sink.new) (text.old.items ++ slots_lines self.now.directory.now.conf self.now.directory.now.entries self.now.directory.now.conf.slots) text.new.items }
    {
        let conf = self.directory.conf();
        for (place, slot) in conf.slots().iter().enumerate() {
            self.write_slot(sink, place, slot, text)?;
        }
        Ok(())
    }
}

impl Directory {
    /// Writes the text of the index, in pieces of some 64 KiB: how many entries there are, the stamp of the directory, and for each slot of
    /// the configuration the keys that the entries have, each with the places in the dump of the entries that have it. On a fault a
    /// beginning was written.
    pub fn index_text<W: Sink>(&self, alloc: Global, sink: &mut W) -> Result<(), WriteFault>
        requires { (W.written sink.old).failed < 2 ^ 64 - 1 }
        ensures { Writes result (W.written sink.old) (W.written sink.new) (index_text self.now.conf self.now.entries) }
    {
        let stamp = self.database().stamp(alloc)?;
        self.index_text_with(alloc, &stamp, sink)
    }

    /// The same where the stamp of the directory is at hand.
    pub fn index_text_with<W: Sink>(
        &self,
        alloc: Global,
        stamp: &Stamp,
        sink: &mut W,
    ) -> Result<(), WriteFault>
        requires stamped { stamp.now ≡ stamp_by self.now.conf self.now.entries }
        requires can_fail { (W.written sink.old).failed < 2 ^ 64 - 1 }
        ensures { Writes result (W.written sink.old) (W.written sink.new) (index_text self.now.conf self.now.entries) }
    {
        let mut text = self.database().begin_index_text(alloc, stamp)?;
        let ranks = ranks_by_number(alloc, self.tree())?;
        let listing = Listing {
            alloc,
            directory: self,
            ranks: ranks.as_slice(),
        };
        listing.write_slots(sink, &mut text)?;
        put_end(&mut text)?;
        pass_on(sink, &mut text)
    }
}
