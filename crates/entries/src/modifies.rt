//! What a modify makes of an entry (RFC 4511, 4.6).

ghost use Rattle.std.specs.Prelude.{◌≡◌, IfOk, OnOk};
ghost use Rattle.base.specs.Answers.{through};
ghost use Rattle.schema.specs.GoodRdns.{IsRdn};
ghost use Rattle.entries.specs.Modifies.{modify_block, modified_fault, modify_entry};
ghost use Rattle.entries.specs.StoredEntries.{attributes_of, content_of, IsMade};
ghost use Rattle.entries.specs.Gives.{Gives};

use crate::attributes_draft::AttributesDraft;
use crate::entry::Entry;
use crate::entry_checks::entry_fault;
use crate::kept_attributes::Attributes;
use crate::rdn_values::has_rdn;
use crate::refusal::Refusal;
use ldif::Mod;
use schema::{Code, Conf, TypedRdn};
use std::alloc::{AllocError, Global};

fn modify_block(
    alloc: Global,
    conf: &Conf,
    attrs: &mut AttributesDraft,
    block: &Mod,
) -> Result<(), Refusal>
    requires made { IsMade conf.now.types attrs.old }
    ensures made { OnOk result (IsMade conf.now.types attrs.new) }
    ensures gives { Gives (λ _. attributes_of attrs.new) result (modify_block conf.now.types (attributes_of attrs.old) block.now) }
{
    let Some(t) = conf.type_of(block.attr.as_slice()) else {
        return Err(Refusal::Code(Code::UndefinedAttributeType));
    };
    attrs.modify_at(alloc, conf, t, block.op, block.values.as_slice())
}

// The blocks in order, up to the first that is refused.
#[tactic(auto, unfolding(base::specs::Answers::through))]
fn modify(
    alloc: Global,
    conf: &Conf,
    attrs: &mut AttributesDraft,
    mods: &[Mod],
) -> Result<(), Refusal>
    requires { IsMade conf.now.types attrs.old }
    ensures made { OnOk result (IsMade conf.now.types attrs.new) }
    ensures gives { Gives (λ _. attributes_of attrs.new) result (through (modify_block conf.now.types) (attributes_of attrs.old) mods.now) }
{
    for block in mods {
        modify_block(alloc, conf, attrs, block)?;
    }
    Ok(())
}

// the first that fails of what is looked at behind the blocks
fn modified_fault(
    alloc: Global,
    conf: &Conf,
    rdn: &TypedRdn,
    attrs: &Attributes,
) -> Result<Option<Code>, AllocError>
    requires made { IsMade conf.now.types attrs.now.entries }
    requires rdn { IsRdn conf.now.types rdn.now }
    ensures { IfOk result (λ fault. fault ≡ modified_fault conf.now rdn.now (attributes_of attrs.now.entries)) }
{
    if !has_rdn(alloc, conf, attrs, rdn)? {
        return Ok(Some(Code::NotAllowedOnRdn));
    }
    entry_fault(alloc, conf, attrs)
}

// The attributes that the blocks make of these ones.
fn modified_attributes(
    alloc: Global,
    conf: &Conf,
    attrs: Attributes,
    mods: &[Mod],
) -> Result<Attributes, Refusal>
    requires { IsMade conf.now.types attrs.entries }
    ensures made { IfOk result (λ attrs. IsMade conf.now.types attrs.entries) }
    ensures gives { Gives (λ attrs. attributes_of attrs.entries) result (through (modify_block conf.now.types) (attributes_of attrs.entries) mods.now) }
{
    let mut draft = AttributesDraft::new(attrs);
    modify(alloc, conf, &mut draft, mods)?;
    Ok(draft.into_attributes(alloc)?)
}

/// The entry that the blocks of a modify make of this one. The first check that fails answers, and then the entry is as it was.
#[tactic(auto, unfolding(crate::specs::Modifies::modify_entry))]
pub fn modified(alloc: Global, conf: &Conf, entry: &Entry, mods: &[Mod]) -> Result<Entry, Refusal>
    requires made { IsMade conf.now.types entry.now.attrs }
    requires rdn { IsRdn conf.now.types entry.now.rdn }
    ensures made { IfOk result (λ e. IsMade conf.now.types e.attrs) }
    ensures gives { Gives (λ e. content_of e) result (modify_entry conf.now (content_of entry.now) mods.now) }
{
    let attrs = modified_attributes(alloc, conf, entry.copy_attributes(alloc)?, mods)?;
    if let Some(code) = modified_fault(alloc, conf, entry.rdn(), &attrs)? {
        return Err(Refusal::Code(code));
    }
    let rdn = entry.rdn().copy(alloc)?;
    Ok(Entry::new(rdn, attrs))
}
