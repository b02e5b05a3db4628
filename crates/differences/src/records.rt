//! Change records as text (RFC 2849, "ldif-change-record"), each with its comment.

ghost use Rattle.std.specs.Prelude.{◌≡◌, ◌<◌, ◌++◌, ◌∷◌, [], length, codes, IfOk, OnOk};
ghost use Rattle.entries.specs.StoredEntries.{attributes_of};
ghost use Rattle.ldif.specs.Forms.{op_word};
ghost use Rattle.schema.specs.GoodRdns.{IsRdn};
ghost use Rattle.values.specs.Types.{name_of};
ghost use Rattle.differences.specs.Comments.{mods_words};
ghost use Rattle.differences.specs.EntryChanges.{users, blocks_between, mods_between};
ghost use Rattle.differences.specs.inner.BlockTexts.{value_lines, mod_text, mods_text};
ghost use Rattle.differences.specs.inner.Cuts.{texts};
ghost use Rattle.differences.specs.inner.LentAttributes.{all_lent, AreLentKnown, AreStoredKnown};
ghost use Rattle.differences.specs.inner.LentBlocks.{AreBlocksKnown, lent_mod, lent_mods};
ghost use Rattle.differences.specs.inner.RecordTexts.{head_text, modify_text, delete_text, lines_text, add_text, respelling_text};

use crate::attributes::{UserAttribute, users_of};
use crate::blocks::Block;
use crate::comments::put_words;
use entries::Entry;
use ldif::{Op, put_line};
use schema::{Conf, TypeId, TypedRdn};
use std::alloc::{AllocError, Global};

/// Puts the lines that a change record begins with: the comment, which has these words, the entry's name, and the kind of change.
fn put_head(
    alloc: Global,
    out: &mut Vec<u8>,
    note: &[u8],
    words: &[u8],
    name: &[u8],
    kind: &[u8],
) -> Result<(), AllocError>
    ensures { OnOk result (out.new.items ≡ out.old.items ++ head_text note.now words.now name.now kind.now) }
{
    put_line(alloc, out, note, words)?;
    put_line(alloc, out, b"dn", name)?;
    put_line(alloc, out, b"changetype", kind)
}

/// Puts the record that deletes the entry with this name.
pub(crate) fn put_delete(alloc: Global, out: &mut Vec<u8>, name: &[u8]) -> Result<(), AllocError>
    ensures { OnOk result (out.new.items ≡ out.old.items ++ delete_text name.now) }
{
    put_head(
        alloc,
        out,
        b"# delete",
        b"an entry that is gone",
        name,
        b"delete",
    )?;
    out.push(b'\n')?;
    Ok(())
}

fn op_word(op: Op) -> &'static [u8]
    ensures { result.now ≡ op_word op }
{
    match op {
        Op::Add => b"add".as_slice(),
        Op::Delete => b"delete".as_slice(),
        Op::Replace => b"replace".as_slice(),
    }
}

/// Puts the lines of texts under one name.
fn put_texts(
    alloc: Global,
    out: &mut Vec<u8>,
    name: &[u8],
    values: &[&[u8]],
) -> Result<(), AllocError>
    ensures { OnOk result (out.new.items ≡ out.old.items ++ value_lines name.now (texts values.now)) }
{
    for value in values {
        put_line(alloc, out, name, *value)?;
    }
    Ok(())
}

/// Puts the lines of a block.
fn put_block(
    alloc: Global,
    out: &mut Vec<u8>,
    conf: &Conf,
    block: &Block<'_>,
) -> Result<(), AllocError>
    requires { block.now.t.now < length conf.now.types }
    ensures { OnOk result (out.new.items ≡ out.old.items ++ mod_text (lent_mod conf.now.types block.now)) }
{
    let name = conf.name(*block.t);
    put_line(alloc, out, op_word(block.op), name)?;
    put_texts(alloc, out, name, block.values.as_slice())?;
    out.push(b'-')?;
    out.push(b'\n')?;
    Ok(())
}

/// Puts the lines of blocks.
fn put_blocks(
    alloc: Global,
    out: &mut Vec<u8>,
    conf: &Conf,
    blocks: &[Block<'_>],
) -> Result<(), AllocError>
    requires { AreBlocksKnown conf.now.types blocks.now }
    ensures { OnOk result (out.new.items ≡ out.old.items ++ mods_text (lent_mods conf.now.types blocks.now)) }
{
    for i in 0..blocks.len() {
        put_block(alloc, out, conf, &blocks[i])?;
    }
    Ok(())
}

/// Puts the record that changes the entry with this name by these blocks, where there are some.
pub(crate) fn put_modify(
    alloc: Global,
    out: &mut Vec<u8>,
    conf: &Conf,
    name: &[u8],
    blocks: &[Block<'_>],
) -> Result<(), AllocError>
    requires { AreBlocksKnown conf.now.types blocks.now }
    ensures { OnOk result (out.new.items ≡ out.old.items ++ modify_text name.now (lent_mods conf.now.types blocks.now)) }
{
    if blocks.is_empty() {
        return Ok(());
    }
    let mut words = Vec::new(alloc);
    put_words(alloc, &mut words, conf, blocks)?;
    put_head(alloc, out, b"# modify", words.as_slice(), name, b"modify")?;
    put_blocks(alloc, out, conf, blocks)?;
    out.push(b'\n')?;
    Ok(())
}

/// Puts the lines of attributes.
fn put_lines(
    alloc: Global,
    out: &mut Vec<u8>,
    conf: &Conf,
    attrs: &[UserAttribute<'_>],
) -> Result<(), AllocError>
    requires { AreLentKnown conf.now.types attrs.now }
    ensures { OnOk result (out.new.items ≡ out.old.items ++ lines_text conf.now.types (all_lent attrs.now)) }
{
    for i in 0..attrs.len() {
        let attr = &attrs[i];
        put_texts(alloc, out, conf.name(*attr.t), attr.values.as_slice())?;
    }
    Ok(())
}

/// Puts the record that adds an entry, without what users can't change.
pub(crate) fn put_add(
    alloc: Global,
    out: &mut Vec<u8>,
    conf: &Conf,
    name: &[u8],
    entry: &Entry,
) -> Result<(), AllocError>
    requires { AreStoredKnown conf.now.types entry.now.attrs }
    ensures { OnOk result (out.new.items ≡ out.old.items ++ add_text conf.now.types name.now (users conf.now.types (attributes_of entry.now.attrs))) }
{
    let attrs = users_of(alloc, conf, entry)?;
    put_head(alloc, out, b"# add", b"a new entry", name, b"add")?;
    put_lines(alloc, out, conf, attrs.as_slice())?;
    out.push(b'\n')?;
    Ok(())
}

/// Puts the record that gives an entry another spelling of its RDN.
pub(crate) fn put_respelling(
    alloc: Global,
    out: &mut Vec<u8>,
    conf: &Conf,
    name: &[u8],
    new: &TypedRdn,
) -> Result<(), AllocError>
    requires { IsRdn conf.now.types new.now }
    ensures { OnOk result (out.new.items ≡ out.old.items ++ respelling_text conf.now.types name.now new.now) }
{
    let mut text = Vec::new(alloc);
    conf.put_rdn(&mut text, new)?;
    put_head(
        alloc,
        out,
        b"# modrdn",
        b"another spelling of the RDN",
        name,
        b"modrdn",
    )?;
    put_line(alloc, out, b"newrdn", text.as_slice())?;
    put_line(alloc, out, b"deleteoldrdn", b"0")?;
    out.push(b'\n')?;
    Ok(())
}
