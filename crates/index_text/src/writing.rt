//! The lines of an index text, put behind what a vector holds. Where memory runs out, a beginning of the line may stand there.

ghost use Rattle.std.specs.Prelude.{◌≡◌, ◌<◌, ◌++◌, ◌∷◌, [], OnErr, OnOk, length, codes};
ghost use Rattle.std.specs.List.{flat_map};
ghost use Rattle.std.specs.Fmt.{decimal};
ghost use Rattle.base.specs.Ascii.{space, line_feed};
ghost use Rattle.hex.specs.Hex.{encode_lower};
ghost use Rattle.index_text.specs.Begun.{HasBegun};
ghost use Rattle.index_text.specs.IndexTexts.{ended, header_line, slot_line, kind_name, key_text, key_line, rank_text, end_line};

use itoa::Buffer;
use schema::{Conf, IndexKind, Slot};
use std::alloc::{AllocError, Global};

// the digits of bytes
fn put_hex(alloc: Global, out: &mut Vec<u8>, bytes: &[u8]) -> Result<(), AllocError>
    ensures put { OnOk result (out.new.items ≡ out.old.items ++ encode_lower bytes.now) }
    ensures kept { OnErr result (out.new.items ≡ out.old.items) }
{
    let digits = hex::encode(alloc, bytes)?;
    out.extend_from_slice(digits.as_bytes())
}

// the number of the format, and how many entries there are
fn put_count(out: &mut Vec<u8>, entries: usize) -> Result<(), AllocError>
    ensures put { OnOk result (out.new.items ≡ out.old.items ++ codes "slapindex 1 " ++ decimal entries) }
    ensures kept { OnErr result (HasBegun (codes "slapindex 1 " ++ decimal entries) out.old.items out.new.items) }
{
    let mut digits = Buffer::new();
    out.extend_from_slice(b"slapindex 1 ")?;
    out.extend_from_slice(digits.format(entries).as_bytes())
}

// the stamp, which ends the line
fn put_stamp(alloc: Global, out: &mut Vec<u8>, stamp: &[u8]) -> Result<(), AllocError>
    ensures put { OnOk result (out.new.items ≡ out.old.items ++ space ∷ encode_lower stamp.now ++ line_feed ∷ []) }
    ensures kept { OnErr result (HasBegun (space ∷ encode_lower stamp.now ++ line_feed ∷ []) out.old.items out.new.items) }
{
    out.push(b' ')?;
    put_hex(alloc, out, stamp)?;
    out.push(b'\n')?;
    Ok(())
}

/// The first line: the number of the format, how many entries there are, and the stamp of the dump.
pub fn put_header(
    alloc: Global,
    out: &mut Vec<u8>,
    entries: usize,
    stamp: &[u8],
) -> Result<(), AllocError>
    ensures put { OnOk result (out.new.items ≡ out.old.items ++ ended (header_line entries stamp.now)) }
    ensures kept { OnErr result (HasBegun (ended (header_line entries stamp.now)) out.old.items out.new.items) }
{
    put_count(out, entries)?;
    put_stamp(alloc, out, stamp)
}

fn kind_name(kind: IndexKind) -> &'static str
    ensures { result.now ≡ kind_name kind }
{
    match kind {
        IndexKind::Equality => "eq",
        IndexKind::Presence => "pres",
        IndexKind::Substrings => "sub",
    }
}

/// The line of a slot, whose keys follow: the name of its type, and its kind.
pub fn put_slot(out: &mut Vec<u8>, conf: &Conf, slot: &Slot) -> Result<(), AllocError>
    requires { slot.now.type_id < length conf.now.types }
    ensures put { OnOk result (out.new.items ≡ out.old.items ++ ended (slot_line conf.now.types slot.now)) }
    ensures kept { OnErr result (HasBegun (ended (slot_line conf.now.types slot.now)) out.old.items out.new.items) }
{
    out.extend_from_slice(b"slot ")?;
    out.extend_from_slice(conf.name(slot.type_id))?;
    out.push(b' ')?;
    out.extend_from_slice(kind_name(slot.kind).as_bytes())?;
    out.push(b'\n')?;
    Ok(())
}

fn put_key_text(alloc: Global, out: &mut Vec<u8>, key: &[u8]) -> Result<(), AllocError>
    ensures put { OnOk result (out.new.items ≡ out.old.items ++ key_text key.now) }
    ensures kept { OnErr result (out.new.items ≡ out.old.items) }
{
    if key.is_empty() {
        out.push(b'-')?;
        return Ok(());
    }
    put_hex(alloc, out, key)
}

fn put_rank(out: &mut Vec<u8>, rank: u32) -> Result<(), AllocError>
    ensures put { OnOk result (out.new.items ≡ out.old.items ++ rank_text rank) }
    ensures kept { OnErr result (HasBegun (rank_text rank) out.old.items out.new.items) }
{
    let mut digits = Buffer::new();
    out.push(b' ')?;
    out.extend_from_slice(digits.format(rank).as_bytes())
}

fn put_ranks(out: &mut Vec<u8>, ranks: &[u32]) -> Result<(), AllocError>
    ensures put { OnOk result (out.new.items ≡ out.old.items ++ flat_map rank_text ranks.now) }
    ensures kept { OnErr result (HasBegun (flat_map rank_text ranks.now) out.old.items out.new.items) }
{
    for rank in ranks {
        put_rank(out, *rank)?;
    }
    Ok(())
}

/// The line of a key: its bytes in hexadecimal digits, or a hyphen where it has none, and the ranks of the entries that have it.
pub fn put_key(
    alloc: Global,
    out: &mut Vec<u8>,
    key: &[u8],
    ranks: &[u32],
) -> Result<(), AllocError>
    ensures put { OnOk result (out.new.items ≡ out.old.items ++ ended (key_line (key.now, ranks.now))) }
    ensures kept { OnErr result (HasBegun (ended (key_line (key.now, ranks.now))) out.old.items out.new.items) }
{
    put_key_text(alloc, out, key)?;
    put_ranks(out, ranks)?;
    out.push(b'\n')?;
    Ok(())
}

/// The last line. Where memory runs out, nothing is put.
pub fn put_end(out: &mut Vec<u8>) -> Result<(), AllocError>
    ensures put { OnOk result (out.new.items ≡ out.old.items ++ ended end_line) }
    ensures kept { OnErr result (out.new.items ≡ out.old.items) }
{
    out.extend_from_slice(b"end\n")
}
