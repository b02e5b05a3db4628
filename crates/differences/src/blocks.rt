//! The blocks of a modify that turn the attributes of one entry into those of another (RFC 4511, 4.6).

ghost use Rattle.std.specs.Prelude.{◌≡◌, ◌<◌, ◌≤◌, ◌+◌, ◌∷◌, ◌++◌, [], ◌&&◌, nat_eq, nat_lt, drop, map, length, cond, IfOk, OnOk, IsTrue};
ghost use Rattle.std.specs.List.{list_any};
ghost use Rattle.ldif.specs.declared.record.Op.TheVariants as ops;
ghost use Rattle.values.specs.Types.{has_equality};
ghost use Rattle.differences.specs.EntryChanges.{block_of, with_some, are_none, blocks_for, blocks_at, deleting, adding, blocks_between};
ghost use Rattle.differences.specs.inner.Cuts.{texts};
ghost use Rattle.differences.specs.inner.LentAttributes.{lent, all_lent, goes_on, first_blocks, AreLentKnown};
ghost use Rattle.differences.specs.inner.LentBlocks.{all_seen};

use crate::attributes::UserAttribute;
use crate::value_changes::values_between;
use ldif::Op;
use schema::{Conf, TypeId};
use std::alloc::{AllocError, Global};

/// A block of a modify: what is done with which values of a type. A delete without values deletes the attribute whole.
#[derive(Drop)]
pub(crate) struct Block<'a> {
    pub t: &'a TypeId,
    pub op: Op,
    pub values: Vec<&'a [u8]>,
}

/// Puts a block of this type with these values.
fn push_block<'a>(
    alloc: Global,
    blocks: &mut Vec<Block<'a>>,
    op: Op,
    t: &'a TypeId,
    values: &[&'a [u8]],
) -> Result<(), AllocError>
    ensures { OnOk result (all_seen blocks.new.items ≡ all_seen blocks.old.items ++ block_of t.now op (texts values.now) ∷ []) }
{
    let mut own = Vec::new(alloc);
    own.extend_from_slice(values)?;
    blocks.push(Block { t, op, values: own })?;
    Ok(())
}

/// The same where there are values.
fn push_some<'a>(
    alloc: Global,
    blocks: &mut Vec<Block<'a>>,
    op: Op,
    t: &'a TypeId,
    values: &[&'a [u8]],
) -> Result<(), AllocError>
    ensures { OnOk result (all_seen blocks.new.items ≡ all_seen blocks.old.items ++ with_some t.now op (texts values.now)) }
{
    if values.is_empty() {
        return Ok(());
    }
    push_block(alloc, blocks, op, t, values)
}

fn are_none(gone: &[&[u8]], come: &[&[u8]]) -> bool
    ensures { result ≡ are_none (texts gone.now) (texts come.now) }
{
    gone.is_empty() && come.is_empty()
}

/// Whether the values that go and come are fewer than all that are to be there.
fn are_fewer(gone: &[&[u8]], come: &[&[u8]], after: &[&[u8]]) -> bool
    ensures { result ≡ nat_lt (length (texts gone.now) + length (texts come.now)) (length (texts after.now)) }
{
    gone.len() + come.len() < after.len()
}

/// Whether the values that go and come are named: they can be compared, and are fewer than all that are to be there.
fn are_named(conf: &Conf, t: TypeId, gone: &[&[u8]], come: &[&[u8]], after: &[&[u8]]) -> bool
    requires { t < length conf.now.types }
    ensures { result ≡ (has_equality conf.now.types t && nat_lt (length (texts gone.now) + length (texts come.now)) (length (texts after.now))) }
{
    conf.equality_rule(t).is_some() && are_fewer(gone, come, after)
}

/// Puts two blocks, of the values that go and of those that come.
fn push_both<'a>(
    alloc: Global,
    blocks: &mut Vec<Block<'a>>,
    t: &'a TypeId,
    gone: &[&'a [u8]],
    come: &[&'a [u8]],
) -> Result<(), AllocError>
    ensures { OnOk result (all_seen blocks.new.items ≡ all_seen blocks.old.items ++ (with_some t.now ops.Delete (texts gone.now) ++ with_some t.now ops.Add (texts come.now))) }
{
    push_some(alloc, blocks, Op::Delete, t, gone)?;
    push_some(alloc, blocks, Op::Add, t, come)
}

/// Puts the blocks for the values that go and come: one, two or none.
fn push_for<'a>(
    alloc: Global,
    blocks: &mut Vec<Block<'a>>,
    conf: &Conf,
    t: &'a TypeId,
    after: &[&'a [u8]],
    gone: &[&'a [u8]],
    come: &[&'a [u8]],
) -> Result<(), AllocError>
    requires { t.now < length conf.now.types }
    ensures { OnOk result (all_seen blocks.new.items ≡ all_seen blocks.old.items ++ blocks_for conf.now.types t.now (texts after.now) (texts gone.now) (texts come.now)) }
{
    if are_none(gone, come) {
        return Ok(());
    }
    if are_named(conf, *t, gone, come, after) {
        return push_both(alloc, blocks, t, gone, come);
    }
    push_block(alloc, blocks, Op::Replace, t, after)
}

/// Puts the blocks that turn some values of a type into others.
fn push_between<'a>(
    alloc: Global,
    blocks: &mut Vec<Block<'a>>,
    conf: &Conf,
    t: &'a TypeId,
    before: &[&'a [u8]],
    after: &[&'a [u8]],
) -> Result<(), AllocError>
    requires { t.now < length conf.now.types }
    ensures { OnOk result (all_seen blocks.new.items ≡ all_seen blocks.old.items ++ blocks_at conf.now.types t.now (texts before.now) (texts after.now)) }
{
    let (gone, kept) = values_between(alloc, before, after)?;
    let (_, come) = after.split_at(kept);
    push_for(alloc, blocks, conf, t, after, gone.as_slice(), come)
}

/// Puts the block that adds an attribute.
fn push_added<'a>(
    alloc: Global,
    blocks: &mut Vec<Block<'a>>,
    attribute: &UserAttribute<'a>,
) -> Result<(), AllocError>
    ensures { OnOk result (all_seen blocks.new.items ≡ all_seen blocks.old.items ++ adding (lent attribute.now) ∷ []) }
{
    push_block(
        alloc,
        blocks,
        Op::Add,
        attribute.t,
        attribute.values.as_slice(),
    )
}

/// Puts blocks that delete the attributes from a place on.
fn push_deletes<'a>(
    alloc: Global,
    blocks: &mut Vec<Block<'a>>,
    attrs: &[UserAttribute<'a>],
    from: usize,
) -> Result<(), AllocError>
    requires { from ≤ length attrs.now }
    ensures { OnOk result (all_seen blocks.new.items ≡ all_seen blocks.old.items ++ map deleting (drop from (all_lent attrs.now))) }
{
    for i in from..attrs.len() {
        let attr = &attrs[i];
        push_block(alloc, blocks, Op::Delete, attr.t, &[])?;
    }
    Ok(())
}

/// Puts blocks that add the attributes from a place on.
fn push_adds<'a>(
    alloc: Global,
    blocks: &mut Vec<Block<'a>>,
    attrs: &[UserAttribute<'a>],
    from: usize,
) -> Result<(), AllocError>
    requires { from ≤ length attrs.now }
    ensures { OnOk result (all_seen blocks.new.items ≡ all_seen blocks.old.items ++ map adding (drop from (all_lent attrs.now))) }
{
    for i in from..attrs.len() {
        let attr = &attrs[i];
        push_added(alloc, blocks, attr)?;
    }
    Ok(())
}

/// Whether a type stands among attributes from a place on.
fn stands_from(attrs: &[UserAttribute<'_>], from: usize, t: TypeId) -> bool
    requires { from ≤ length attrs.now }
    ensures { result ≡ list_any (λ x. nat_eq t x.0) (drop from (all_lent attrs.now)) }
{
    for i in from..attrs.len() {
        let attr = &attrs[i];
        if *attr.t == t {
            return true;
        }
    }
    false
}

/// Whether a type from a place on may still stay.
fn goes_on(before: &[UserAttribute<'_>], i: usize, after: &[UserAttribute<'_>], j: usize) -> bool
    requires first { i ≤ length before.now }
    requires second { j ≤ length after.now }
    ensures goes { result ≡ goes_on (drop i (all_lent before.now)) (drop j (all_lent after.now)) }
    ensures more { IsTrue result → j < length after.now }
{
    if j == after.len() {
        return false;
    }
    let next = &after[j];
    stands_from(before, i, *next.t)
}

/// Puts the blocks for one attribute of the first entry. Gives how many attributes of the second are done with it.
fn push_first<'a>(
    alloc: Global,
    blocks: &mut Vec<Block<'a>>,
    conf: &Conf,
    before: &UserAttribute<'a>,
    after: &UserAttribute<'a>,
) -> Result<usize, AllocError>
    requires { before.now.t.now < length conf.now.types }
    ensures count { IfOk result (λ n. n ≡ cond (nat_eq before.now.t.now after.now.t.now) 1 0) }
    ensures blocks { OnOk result (all_seen blocks.new.items ≡ all_seen blocks.old.items ++ first_blocks conf.now.types (lent before.now) (lent after.now)) }
{
    if *before.t == *after.t {
        push_between(
            alloc,
            blocks,
            conf,
            before.t,
            before.values.as_slice(),
            after.values.as_slice(),
        )?;
        return Ok(1);
    }
    push_block(alloc, blocks, Op::Delete, before.t, &[])?;
    Ok(0)
}

/// Puts the blocks that turn attributes into others.
fn push_all<'a>(
    alloc: Global,
    blocks: &mut Vec<Block<'a>>,
    conf: &Conf,
    before: &[UserAttribute<'a>],
    after: &[UserAttribute<'a>],
) -> Result<(), AllocError>
    requires { AreLentKnown conf.now.types before.now }
    ensures { OnOk result (all_seen blocks.new.items ≡ all_seen blocks.old.items ++ blocks_between conf.now.types (all_lent before.now) (all_lent after.now)) }
{
    let mut j = 0usize;
    for i in 0..before.len() {
        if !goes_on(before, i, after, j) {
            push_deletes(alloc, blocks, before, i)?;
            return push_adds(alloc, blocks, after, j);
        }
        j += push_first(alloc, blocks, conf, &before[i], &after[j])?;
    }
    push_adds(alloc, blocks, after, j)
}

/// The blocks that turn attributes into others.
pub(crate) fn blocks_between<'a>(
    alloc: Global,
    conf: &Conf,
    before: &[UserAttribute<'a>],
    after: &[UserAttribute<'a>],
) -> Result<Vec<Block<'a>>, AllocError>
    requires { AreLentKnown conf.now.types before.now }
    ensures { IfOk result (λ bs. all_seen bs.items ≡ blocks_between conf.now.types (all_lent before.now) (all_lent after.now)) }
{
    let mut blocks = Vec::new(alloc);
    push_all(alloc, &mut blocks, conf, before, after)?;
    Ok(blocks)
}
