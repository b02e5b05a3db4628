//! What a block of a modify makes of the values of its type.

ghost use Rattle.std.specs.Prelude.{◌≡◌, ◌<◌, OnOk, length};
ghost use Rattle.values.specs.Types.{has_equality};
ghost use Rattle.base.specs.Answers.{through};
ghost use Rattle.entries.specs.Modifies.{append_value, remove_value, has_values, add_fault, delete_fault, block_fault, block_values, changed_values};
ghost use Rattle.entries.specs.StoredEntries.{raws, AreNormal};
ghost use Rattle.entries.specs.Gives.{Gives};

use crate::refusal::Refusal;
use crate::values_draft::ValuesDraft;
use base::Bytes;
use ldif::Op;
use schema::{Code, Conf, TypeId};
use std::alloc::{AllocError, Global};
use values::Values;

// Puts a value last, unless an equal one is there.
fn append_value(
    alloc: Global,
    conf: &Conf,
    t: TypeId,
    values: &mut ValuesDraft,
    raw: &[u8],
) -> Result<(), Refusal>
    requires known { t < length conf.now.types }
    requires normal { AreNormal conf.now.types t values.old }
    ensures normal { OnOk result (AreNormal conf.now.types t values.new) }
    ensures gives { Gives (λ _. raws values.new) result (append_value conf.now.types t (raws values.old) raw.now) }
{
    let value = conf.make_value(alloc, t, raw)?;
    match values.push(alloc, value) {
        Ok(true) => Ok(()),
        Ok(false) => Err(Refusal::Code(Code::AttributeOrValueExists)),
        Err(AllocError) => Err(Refusal::OutOfMemory),
    }
}

// Each value behind those before it.
#[tactic(auto, unfolding(base::specs::Answers::through))]
fn append_values(
    alloc: Global,
    conf: &Conf,
    t: TypeId,
    values: &mut ValuesDraft,
    texts: &[Bytes],
) -> Result<(), Refusal>
    requires known { t < length conf.now.types }
    requires normal { AreNormal conf.now.types t values.old }
    ensures normal { OnOk result (AreNormal conf.now.types t values.new) }
    ensures gives { Gives (λ _. raws values.new) result (through (append_value conf.now.types t) (raws values.old) texts.now) }
{
    for raw in texts {
        append_value(alloc, conf, t, values, raw.as_slice())?;
    }
    Ok(())
}

// Takes away the value that equals this one.
fn remove_value(
    alloc: Global,
    conf: &Conf,
    t: TypeId,
    values: &mut ValuesDraft,
    raw: &[u8],
) -> Result<(), Refusal>
    requires known { t < length conf.now.types }
    requires normal { AreNormal conf.now.types t values.old }
    ensures normal { OnOk result (AreNormal conf.now.types t values.new) }
    ensures gives { Gives (λ _. raws values.new) result (remove_value conf.now.types t (raws values.old) raw.now) }
{
    let value = conf.make_value(alloc, t, raw)?;
    match values.remove(alloc, value.norm()) {
        Ok(true) => Ok(()),
        Ok(false) => Err(Refusal::Code(Code::NoSuchAttribute)),
        Err(AllocError) => Err(Refusal::OutOfMemory),
    }
}

#[tactic(auto, unfolding(base::specs::Answers::through))]
fn remove_values(
    alloc: Global,
    conf: &Conf,
    t: TypeId,
    values: &mut ValuesDraft,
    texts: &[Bytes],
) -> Result<(), Refusal>
    requires known { t < length conf.now.types }
    requires normal { AreNormal conf.now.types t values.old }
    ensures normal { OnOk result (AreNormal conf.now.types t values.new) }
    ensures gives { Gives (λ _. raws values.new) result (through (remove_value conf.now.types t) (raws values.old) texts.now) }
{
    for raw in texts {
        remove_value(alloc, conf, t, values, raw.as_slice())?;
    }
    Ok(())
}

// One value after the other. A delete without values takes all, and a replace begins with none.
fn block_values(
    alloc: Global,
    conf: &Conf,
    t: TypeId,
    op: Op,
    values: &mut ValuesDraft,
    texts: &[Bytes],
) -> Result<(), Refusal>
    requires known { t < length conf.now.types }
    requires normal { AreNormal conf.now.types t values.old }
    ensures normal { OnOk result (AreNormal conf.now.types t values.new) }
    ensures gives { Gives (λ _. raws values.new) result (block_values conf.now.types t op (raws values.old) texts.now) }
{
    match op {
        Op::Add => append_values(alloc, conf, t, values, texts),
        Op::Delete => match texts {
            [] => {
                *values = ValuesDraft::new(Values::new());
                Ok(())
            }
            [_, ..] => remove_values(alloc, conf, t, values, texts),
        },
        Op::Replace => {
            *values = ValuesDraft::new(Values::new());
            append_values(alloc, conf, t, values, texts)
        }
    }
}

fn has_equality(conf: &Conf, t: TypeId) -> bool
    requires { t < length conf.now.types }
    ensures { result ≡ has_equality conf.now.types t }
{
    conf.equality_rule(t).is_some()
}

fn add_fault(conf: &Conf, t: TypeId, there: bool, some: bool) -> Option<Code>
    requires { t < length conf.now.types }
    ensures { result ≡ add_fault conf.now.types t there some }
{
    if !some {
        return Some(Code::ProtocolError);
    }
    if there && !has_equality(conf, t) {
        return Some(Code::InappropriateMatching);
    }
    None
}

fn delete_fault(conf: &Conf, t: TypeId, there: bool, some: bool) -> Option<Code>
    requires { t < length conf.now.types }
    ensures { result ≡ delete_fault conf.now.types t there some }
{
    if some && !has_equality(conf, t) {
        return Some(Code::InappropriateMatching);
    }
    if !there {
        return Some(Code::NoSuchAttribute);
    }
    None
}

// the first that fails of what is looked at before a block's values
fn block_fault(conf: &Conf, t: TypeId, op: Op, there: bool, some: bool) -> Option<Code>
    requires { t < length conf.now.types }
    ensures { result ≡ block_fault conf.now.types t op there some }
{
    if conf.fixed(t) {
        return Some(Code::ConstraintViolation);
    }
    match op {
        Op::Add => add_fault(conf, t, there, some),
        Op::Delete => delete_fault(conf, t, there, some),
        Op::Replace => None,
    }
}

/// What a block makes of the values of its type.
pub(crate) fn change_values(
    alloc: Global,
    conf: &Conf,
    t: TypeId,
    op: Op,
    values: &mut ValuesDraft,
    texts: &[Bytes],
) -> Result<(), Refusal>
    requires known { t < length conf.now.types }
    requires normal { AreNormal conf.now.types t values.old }
    ensures normal { OnOk result (AreNormal conf.now.types t values.new) }
    ensures gives { Gives (λ _. raws values.new) result (changed_values conf.now.types t op (raws values.old) texts.now) }
{
    if let Some(code) = block_fault(conf, t, op, values.has_values(), texts.len() > 0) {
        return Err(Refusal::Code(code));
    }
    block_values(alloc, conf, t, op, values, texts)
}
