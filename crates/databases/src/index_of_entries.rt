//! The text of an index, made of the entries alone.

ghost use Rattle.std.specs.Prelude.{◌≡◌, ◌<◌, ◌≤◌, ◌-◌, ◌^◌, ◌++◌, ◌∷◌, [], List, ℕ, map, length, IfOk, IfErr, Err};
ghost use Rattle.index_keys.specs.TypeNorms.{AreNormsOf};
ghost use Rattle.index_keys.specs.RankedKeys.{rows_text};
ghost use Rattle.ldif.specs.Written.{SoFar, Writes, WritesOn};
ghost use Rattle.databases.specs.IndexTexts.{stamp as stamp_by, index_text, first_line, slot_lines, slots_lines, keys_lines};
ghost use Rattle.databases.specs.inner.RankedEntries.{AreRankedEntries};

use crate::database::Database;
use crate::dump::{pass_on, pass_on_long};
use crate::placed_entries::ranked_entries;
use crate::stamps::Stamp;
use device::Sink;
use index_keys::{
    Numbered, NumberedNorm, RankedKey, bytes_of, norms_for, put_row, ranked_norms, ranked_presence,
    ranked_windows,
};
use index_text::{put_end, put_header, put_slot};
use ldif::WriteFault;
use schema::{IndexKind, Path, Slot};
use std::alloc::{AllocError, Global};

// puts the row of the first key behind a text, hands the text on where it is long, and hands out the keys of the other rows
fn write_row<'k, K: RankedKey, W: Sink>(
    alloc: Global,
    sink: &mut W,
    first: &K,
    others: &'k [K],
    ranks: &mut Vec<u32>,
    text: &mut Vec<u8>,
) -> Result<&'k [K], WriteFault>
    requires { (W.written sink.old).failed < 2 ^ 64 - 1 }
    ensures ok { IfOk result (λ rest. SoFar (W.written sink.old) (W.written sink.new) (text.old.items ++ rows_text (map K.pair (first.now ∷ others.now))) (text.new.items ++ rows_text (map K.pair rest.now))) }
    ensures err { IfErr result (λ e. Writes (Err e) (W.written sink.old) (W.written sink.new) (text.old.items ++ rows_text (map K.pair (first.now ∷ others.now)))) }
    ensures fewer { IfOk result (λ rest. length rest.now ≤ length others.now) }
{
    let rest = put_row(alloc, first, others, ranks, text)?;
    pass_on_long(sink, text)?;
    Ok(rest)
}

// puts the rows of keys behind a text, and hands the text on where it is long
fn write_rows<K: RankedKey, W: Sink>(
    alloc: Global,
    sink: &mut W,
    keys: &[K],
    text: &mut Vec<u8>,
) -> Result<(), WriteFault>
    requires { (W.written sink.old).failed < 2 ^ 64 - 1 }
    ensures { WritesOn result (W.written sink.old) (W.written sink.new) (text.old.items ++ rows_text (map K.pair keys.now)) text.new.items }
{
    let mut ranks = Vec::new(alloc);
    let mut left = keys;
    while let Some(parts) = left.split_first() {
        let (first, others) = parts;
        left = write_row(alloc, sink, first, others, &mut ranks, text)?;
    }
    Ok(())
}

/// The entries of a database, each with its rank as its number.
#[derive(Drop)]
struct RankedEntries<'a> {
    alloc: Global,
    database: &'a Database,
    entries: &'a [Numbered<'a>],
}

impl<'a> RankedEntries<'a> {
    // puts the rows of a slot behind a text, where these are the normal forms of its type
    fn write_keys<W: Sink>(
        &self,
        sink: &mut W,
        slot: &Slot,
        norms: &[NumberedNorm<'_>],
        text: &mut Vec<u8>,
    ) -> Result<(), WriteFault>
        requires can_fail { (W.written sink.old).failed < 2 ^ 64 - 1 }
        requires ranked { AreRankedEntries self.now.database.now.conf self.now.database.now.entries self.now.entries.now }
        requires norms { AreNormsOf self.now.database.now.conf.types self.now.entries.now slot.now.type_id norms.now }
        ensures { WritesOn result (W.written sink.old) (W.written sink.new) (text.old.items ++ keys_lines self.now.database.now.conf self.now.database.now.entries slot.now) text.new.items }
    {
        let alloc = self.alloc;
        match slot.kind {
            IndexKind::Equality => {
                let bytes = bytes_of(alloc, norms)?;
                let keys = ranked_norms(alloc, norms, bytes.as_slice())?;
                write_rows(alloc, sink, keys.as_slice(), text)
            }
            IndexKind::Presence => {
                let keys = ranked_presence(alloc, norms)?;
                write_rows(alloc, sink, keys.as_slice(), text)
            }
            IndexKind::Substrings => {
                let keys = ranked_windows(alloc, norms)?;
                write_rows(alloc, sink, keys.as_slice(), text)
            }
        }
    }

    // puts the lines of a slot behind a text, likewise
    fn write_slot<W: Sink>(
        &self,
        sink: &mut W,
        slot: &Slot,
        norms: &[NumberedNorm<'_>],
        text: &mut Vec<u8>,
    ) -> Result<(), WriteFault>
        requires can_fail { (W.written sink.old).failed < 2 ^ 64 - 1 }
        requires known { slot.now.type_id < length self.now.database.now.conf.types }
        requires ranked { AreRankedEntries self.now.database.now.conf self.now.database.now.entries self.now.entries.now }
        requires norms { AreNormsOf self.now.database.now.conf.types self.now.entries.now slot.now.type_id norms.now }
        ensures { WritesOn result (W.written sink.old) (W.written sink.new) (text.old.items ++ slot_lines self.now.database.now.conf self.now.database.now.entries slot.now) text.new.items }
    {
        put_slot(text, self.database.conf(), slot)?;
        self.write_keys(sink, slot, norms, text)
    }

    // the same of all slots
    fn write_slots<W: Sink>(&self, sink: &mut W, text: &mut Vec<u8>) -> Result<(), WriteFault>
        requires can_fail { (W.written sink.old).failed < 2 ^ 64 - 1 }
        requires ranked { AreRankedEntries self.now.database.now.conf self.now.database.now.entries self.now.entries.now }
        ensures { WritesOn result (W.written sink.old) (W.written sink.new) (text.old.items ++ slots_lines self.now.database.now.conf self.now.database.now.entries self.now.database.now.conf.slots) text.new.items }
    {
        let conf = self.database.conf();
        conf.rules_are_kept();
        let mut kept = None;
        for slot in conf.slots() {
            let of_type = norms_for(self.alloc, conf, kept, slot.type_id, self.entries)?;
            self.write_slot(sink, slot, of_type.norms.as_slice(), text)?;
            kept = Some(of_type);
        }
        Ok(())
    }
}

impl Database {
    /// A text that begins as the text of the index does: with the line that says how many entries there are, and the stamp of their dump.
    pub fn begin_index_text(&self, alloc: Global, stamp: &Stamp) -> Result<Vec<u8>, AllocError>
        requires { stamp.now ≡ stamp_by self.now.conf self.now.entries }
        ensures { IfOk result (λ text. text.items ≡ first_line self.now.conf self.now.entries) }
    {
        let mut text = Vec::new(alloc);
        put_header(alloc, &mut text, self.tree().len(), stamp)?;
        Ok(text)
    }

    // puts the lines of all slots behind a text, and hands the text on where it is long; without a slot it looks at no entry
    fn write_all_slots<W: Sink>(
        &self,
        alloc: Global,
        sink: &mut W,
        text: &mut Vec<u8>,
    ) -> Result<(), WriteFault>
        requires { (W.written sink.old).failed < 2 ^ 64 - 1 }
        ensures { WritesOn result (W.written sink.old) (W.written sink.new) (text.old.items ++ slots_lines self.now.conf self.now.entries self.now.conf.slots) text.new.items }
    {
        if self.conf().slots().is_empty() {
            return Ok(());
        }
        let root = Path::root(alloc);
        let entries = ranked_entries(alloc, self, &root)?;
        let ranked = RankedEntries {
            alloc,
            database: self,
            entries: entries.as_slice(),
        };
        ranked.write_slots(sink, text)
    }

    /// Writes the text of the index, in pieces of some 64 KiB: how many entries there are, the stamp of their dump, and for each slot the keys
    /// that the entries have, each with the places in the dump of the entries that have it. It is made of the entries alone: slot by slot the
    /// keys of all entries are sorted, so it takes the memory of one slot. On a fault a beginning was written.
    pub fn write_index_text<W: Sink>(
        &self,
        alloc: Global,
        stamp: &Stamp,
        sink: &mut W,
    ) -> Result<(), WriteFault>
        requires stamped { stamp.now ≡ stamp_by self.now.conf self.now.entries }
        requires can_fail { (W.written sink.old).failed < 2 ^ 64 - 1 }
        ensures { Writes result (W.written sink.old) (W.written sink.new) (index_text self.now.conf self.now.entries) }
    {
        let mut text = self.begin_index_text(alloc, stamp)?;
        self.write_all_slots(alloc, sink, &mut text)?;
        put_end(&mut text)?;
        pass_on(sink, &mut text)
    }
}
