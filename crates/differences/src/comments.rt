//! The comment before a modify: what its blocks do, in words.

ghost use Rattle.std.specs.Prelude.{◌≡◌, ◌<◌, ◌++◌, ◌∷◌, drop, length, codes, IfOk, OnOk};
ghost use Rattle.differences.specs.Comments.{count_words, further_words, mods_words};
ghost use Rattle.differences.specs.inner.LentBlocks.{AreBlocksKnown, lent_mod, lent_mods};

use crate::blocks::Block;
use ldif::Op;
use schema::Conf;
use std::alloc::{AllocError, Global};

/// Puts a number of values in words: `1 value`, `2 values`.
fn put_count(alloc: Global, out: &mut Vec<u8>, count: usize) -> Result<(), AllocError>
    ensures { OnOk result (out.new.items ≡ out.old.items ++ count_words count) }
{
    if count == 1 {
        return out.extend_from_slice(b"1 value");
    }
    let digits = format!(in alloc; "{count}")?;
    out.extend_from_slice(digits.as_bytes())?;
    out.extend_from_slice(b" values")
}

/// Puts how many values of a type are added or deleted: `2 values of mail added`.
fn put_some(
    alloc: Global,
    out: &mut Vec<u8>,
    name: &[u8],
    count: usize,
    done: &[u8],
) -> Result<(), AllocError>
    ensures { OnOk result (out.new.items ≡ out.old.items ++ count_words count ++ codes " of " ++ name.now ++ done.now) }
{
    put_count(alloc, out, count)?;
    out.extend_from_slice(b" of ")?;
    out.extend_from_slice(name)?;
    out.extend_from_slice(done)
}

/// Puts how many values are in place of those of a type: `cn replaced by 2 values`.
fn put_replaced(
    alloc: Global,
    out: &mut Vec<u8>,
    name: &[u8],
    count: usize,
) -> Result<(), AllocError>
    ensures { OnOk result (out.new.items ≡ out.old.items ++ name.now ++ codes " replaced by " ++ count_words count) }
{
    out.extend_from_slice(name)?;
    out.extend_from_slice(b" replaced by ")?;
    put_count(alloc, out, count)
}

/// Puts what a block does, behind a comma.
fn put_block(
    alloc: Global,
    out: &mut Vec<u8>,
    conf: &Conf,
    block: &Block<'_>,
) -> Result<(), AllocError>
    requires { block.now.t.now < length conf.now.types }
    ensures { OnOk result (out.new.items ≡ out.old.items ++ further_words (lent_mod conf.now.types block.now)) }
{
    let name = conf.name(*block.t);
    let count = block.values.len();
    out.extend_from_slice(b", ")?;
    match block.op {
        Op::Add => put_some(alloc, out, name, count, b" added"),
        Op::Delete if count == 0 => {
            out.extend_from_slice(name)?;
            out.extend_from_slice(b" deleted")
        }
        Op::Delete => put_some(alloc, out, name, count, b" deleted"),
        Op::Replace => put_replaced(alloc, out, name, count),
    }
}

/// All but the first two bytes.
fn behind_comma(words: &[u8]) -> &[u8]
    ensures { result.now ≡ drop 2 words.now }
{
    match words {
        [_, _, rest @ ..] => rest,
        _ => &[],
    }
}

/// Puts what the blocks of a modify do: `1 value of member added, cn replaced by 2 values`.
pub(crate) fn put_words(
    alloc: Global,
    out: &mut Vec<u8>,
    conf: &Conf,
    blocks: &[Block<'_>],
) -> Result<(), AllocError>
    requires { AreBlocksKnown conf.now.types blocks.now }
    ensures { OnOk result (out.new.items ≡ out.old.items ++ mods_words (lent_mods conf.now.types blocks.now)) }
{
    let mut words = Vec::new(alloc);
    for i in 0..blocks.len() {
        put_block(alloc, &mut words, conf, &blocks[i])?;
    }
    out.extend_from_slice(behind_comma(words.as_slice()))
}
