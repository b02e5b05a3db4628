//! Explains modifies that are refused (RFC 4511, 4.6).

ghost use Rattle.std.specs.Prelude.{◌≡◌, ◌+◌, ◌<◌, ◌++◌, ◌∷◌, IfOk, IfNone, Some, true, length, take, map};
ghost use Rattle.std.specs.Option.{option_map};
ghost use Rattle.values.specs.Types.{type_of};
ghost use Rattle.schema.specs.GoodRdns.{IsAva, IsRdn};
ghost use Rattle.schema.specs.Values.{is_valid_at, norm_at};
ghost use Rattle.entries.specs.Entries.{values_of, has_equal};
ghost use Rattle.entries.specs.Modifies.{has_values};
ghost use Rattle.entries.specs.StoredEntries.{attributes_of, content_of, IsMade};
ghost use Rattle.reasons.specs.Asked.{IsAt, IsAbout, blocks_of_record};
ghost use Rattle.reasons.specs.BlockFlaws.{HasValueFlaw, after_block, modified, block_order};
ghost use Rattle.reasons.specs.Flaws.{Block, IsBlock, NoRdnValue, block_checks, value_checks, entry_checks, modify_checks};
ghost use Rattle.reasons.specs.Reasons.{block_flaw_of, value_flaw_of};
ghost use Rattle.reasons.specs.inner.Found.{FindsFirst, Finds, Modifies, Becomes, IsMissingIn};
ghost use Rattle.reasons.specs.inner.Changes.{KeepsValues, LooksAt, value_order, operation_flaw};

use crate::changed_values::ChangedValues;
use crate::draft::{Attribute, attributes_of, copy_values, set_values, values_at};
use crate::explainer::Explainer;
use crate::reason::{BlockReason, Reason, ValueReason};
use base::Bytes;
use entries::Entry;
use ldif::{Mod, Op};
use schema::{Path, TypeId, TypedRdn, Value, ValueFault};
use std::alloc::AllocError;

// whether a type has values
fn has_values(attrs: &[Attribute], t: TypeId) -> bool
    ensures { result ≡ has_values (values_of attrs.now t) }
{
    match values_at(attrs, t) {
        Some(values) => !values.is_empty(),
        None => false,
    }
}

impl Explainer<'_> {
    // what an operation on a type is refused for, with values there or none, and with values or none
    fn operation_reason(&self, t: TypeId, op: Op, there: bool, some: bool) -> Option<BlockReason>
        requires { t < length self.now.conf.now.types }
        ensures { option_map block_flaw_of result ≡ operation_flaw self.now.conf.now.types t op there some }
    {
        let ruled = self.conf.equality_rule(t).is_some();
        match op {
            Op::Add => {
                if !some {
                    return Some(BlockReason::NoValues);
                }
                if there && !ruled {
                    return Some(BlockReason::NoEquality);
                }
            }
            Op::Delete => {
                if some && !ruled {
                    return Some(BlockReason::NoEquality);
                }
                if !there {
                    return Some(BlockReason::NoAttribute);
                }
            }
            Op::Replace => {}
        }
        None
    }

    // the type of a block, or what that is refused for before its values are looked at
    fn block_reason(&self, attrs: &[Attribute], block: &Mod) -> Result<TypeId, BlockReason>
        requires { IsMade self.now.conf.now.types attrs.now }
        ensures { LooksAt self.now.conf.now.types (attributes_of attrs.now) block.now result }
    {
        let Some(t) = self.conf.type_of(block.attr.as_slice()) else {
            return Err(BlockReason::UnknownType);
        };
        if self.conf.fixed(t) {
            return Err(BlockReason::UsersCantChange);
        }
        let there = has_values(attrs, t);
        match self.operation_reason(t, block.op, there, block.values.len() > 0) {
            Some(why) => Err(why),
            None => Ok(t),
        }
    }

    // what the value of a block with this index is refused for, where those before it are looked at
    fn value_reason(
        &self,
        attrs: &[Attribute],
        block: &Mod,
        t: TypeId,
        index: usize,
        changed: &mut ChangedValues,
    ) -> Result<Option<ValueReason>, AllocError>
        requires made { IsMade self.now.conf.now.types attrs.now }
        requires type_id { type_of self.now.conf.now.types block.now.attr ≡ Some t }
        requires known { t < length self.now.conf.now.types }
        requires within { index < length block.now.values }
        requires kept { KeepsValues self.now.conf.now.types t (values_of attrs.now t) (take index block.now.values) changed.old }
        ensures found { IfOk result (λ why. FindsFirst (HasValueFlaw self.now.conf.now.types (attributes_of attrs.now) block.now index) value_order (option_map value_flaw_of why)) }
        ensures kept { IfOk result (λ why. IfNone why (KeepsValues self.now.conf.now.types t (values_of attrs.now t) (take (index + 1) block.now.values) changed.new)) }
    {
        let _ = attrs;
        let raw = &block.values.as_slice()[index];
        let value = match self.conf.make_value(self.alloc, t, raw.as_slice()) {
            Ok(value) => value,
            Err(ValueFault::Invalid) => return Ok(Some(ValueReason::BadSyntax)),
            Err(ValueFault::OutOfMemory) => return Err(AllocError),
        };
        changed.look(self.alloc, block.op, value)
    }

    // The first flaw of a block's values; where they have none, the attributes are those behind the block.
    fn values_reason(
        &self,
        attrs: &mut Vec<Attribute>,
        index: usize,
        block: &Mod,
        t: TypeId,
    ) -> Result<Option<Reason>, AllocError>
        requires made { IsMade self.now.conf.now.types attrs.old.items }
        requires type_id { type_of self.now.conf.now.types block.now.attr ≡ Some t }
        requires known { t < length self.now.conf.now.types }
        requires block { IsBlock self.now.conf.now self.now.tree.now.entries self.now.asked.now index block.now (attributes_of attrs.old.items) }
        ensures found { IfOk result (Finds self.now.conf.now self.now.mode self.now.tree.now.entries self.now.asked.now (value_checks index 0 block.now.values)) }
        ensures made { IfOk result (λ found. IfNone found (IsMade self.now.conf.now.types attrs.new.items)) }
        ensures after { IfOk result (λ found. IfNone found (attributes_of attrs.new.items ≡ after_block self.now.conf.now.types (attributes_of attrs.old.items) block.now)) }
    {
        let old = copy_values(self.alloc, attrs, t)?;
        let mut changed = ChangedValues::new(self.alloc, &old)?;
        for value in 0..block.values.len() {
            let found = self.value_reason(attrs, block, t, value, &mut changed)?;
            if let Some(why) = found {
                return Ok(Some(Reason::Value {
                    block: index,
                    value,
                    why,
                }));
            }
        }
        let new = changed.left_of(self.alloc, block.op, old)?;
        set_values(attrs, t, new)?;
        Ok(None)
    }

    // The first flaw of a block; where it has none, the attributes are those behind it.
    fn whole_block_reason(
        &self,
        attrs: &mut Vec<Attribute>,
        index: usize,
        block: &Mod,
    ) -> Result<Option<Reason>, AllocError>
        requires made { IsMade self.now.conf.now.types attrs.old.items }
        requires block { IsBlock self.now.conf.now self.now.tree.now.entries self.now.asked.now index block.now (attributes_of attrs.old.items) }
        ensures found { IfOk result (Finds self.now.conf.now self.now.mode self.now.tree.now.entries self.now.asked.now (map (Block index) block_order ++ value_checks index 0 block.now.values)) }
        ensures made { IfOk result (λ found. IfNone found (IsMade self.now.conf.now.types attrs.new.items)) }
        ensures after { IfOk result (λ found. IfNone found (attributes_of attrs.new.items ≡ after_block self.now.conf.now.types (attributes_of attrs.old.items) block.now)) }
    {
        match self.block_reason(attrs, block) {
            Ok(t) => self.values_reason(attrs, index, block, t),
            Err(why) => Ok(Some(Reason::Block { block: index, why })),
        }
    }

    // The first flaw of blocks; where they have none, the attributes are those behind all.
    fn blocks_reason(
        &self,
        entry: &Entry,
        attrs: &mut Vec<Attribute>,
        blocks: &[Mod],
    ) -> Result<Option<Reason>, AllocError>
        requires made { IsMade self.now.conf.now.types attrs.old.items }
        requires about { IsAbout self.now.conf.now self.now.tree.now.entries self.now.asked.now (content_of entry.now) }
        requires same { attrs.old.items ≡ entry.now.attrs }
        requires blocks { blocks.now ≡ blocks_of_record self.now.asked.now }
        ensures found { IfOk result (Finds self.now.conf.now self.now.mode self.now.tree.now.entries self.now.asked.now (block_checks 0 blocks.now)) }
        ensures made { IfOk result (λ found. IfNone found (IsMade self.now.conf.now.types attrs.new.items)) }
        ensures after { IfOk result (λ found. IfNone found (attributes_of attrs.new.items ≡ modified self.now.conf.now.types (attributes_of entry.now.attrs) blocks.now)) }
    {
        let _ = entry;
        for index in 0..blocks.len() {
            let found = self.whole_block_reason(attrs, index, &blocks[index])?;
            if found.is_some() {
                return Ok(found);
            }
        }
        Ok(None)
    }

    /// A value that is valid.
    pub(crate) fn valid_value(&self, t: TypeId, raw: &[u8]) -> Result<Value, AllocError>
        requires known { t < length self.now.conf.now.types }
        requires valid { is_valid_at self.now.conf.now.types t raw.now ≡ true }
        ensures { IfOk result (λ v. v ≡ record { raw = raw.now; norm = norm_at self.now.conf.now.types t raw.now }) }
    {
        match self.conf.make_value(self.alloc, t, raw) {
            Ok(value) => Ok(value),
            Err(ValueFault::OutOfMemory) => Err(AllocError),
            Err(ValueFault::Invalid) => unreachable!(),
        }
    }

    // whether a value that equals an AVA's is there
    fn has_value(&self, attrs: &[Attribute], ava: &(TypeId, Bytes)) -> Result<bool, AllocError>
        requires made { IsMade self.now.conf.now.types attrs.now }
        requires ava { IsAva self.now.conf.now.types ava.now }
        ensures { IfOk result (λ there. there ≡ has_equal self.now.conf.now.types ava.now.0 ava.now.1 (values_of (attributes_of attrs.now) ava.now.0)) }
    {
        let (t, raw) = ava;
        let value = self.valid_value(*t, raw.as_slice())?;
        match values_at(attrs, *t) {
            Some(values) => Ok(values.has_norm(value.norm())),
            None => Ok(false),
        }
    }

    // the first AVA of an RDN that has no value
    fn missing_ava(&self, rdn: &TypedRdn, attrs: &[Attribute]) -> Result<Option<usize>, AllocError>
        requires made { IsMade self.now.conf.now.types attrs.now }
        requires good { IsRdn self.now.conf.now.types rdn.now }
        ensures { IfOk result (IsMissingIn self.now.conf.now (attributes_of attrs.now) rdn.now) }
    {
        let avas = rdn.avas();
        for index in 0..avas.len() {
            if !self.has_value(attrs, &avas[index])? {
                return Ok(Some(index));
            }
        }
        Ok(None)
    }

    // what the entry that blocks without a flaw make is refused for
    fn modified_reason(
        &self,
        entry: &Entry,
        attrs: &[Attribute],
    ) -> Result<Option<Reason>, AllocError>
        requires made { IsMade self.now.conf.now.types attrs.now }
        requires good { IsRdn self.now.conf.now.types entry.now.rdn }
        requires becomes { Becomes self.now.conf.now self.now.tree.now.entries self.now.asked.now (record { rdn = entry.now.rdn; attrs = attributes_of attrs.now }) }
        ensures { IfOk result (Finds self.now.conf.now self.now.mode self.now.tree.now.entries self.now.asked.now (NoRdnValue ∷ entry_checks)) }
    {
        if let Some(ava) = self.missing_ava(entry.rdn(), attrs)? {
            return Ok(Some(Reason::NoRdnValue { ava }));
        }
        match self.entry_reason(attrs)? {
            Some(why) => Ok(Some(Reason::Entry(why))),
            None => Ok(None),
        }
    }

    // what blocks are refused for, or the entry that they make of this one
    fn blocks_and_entry_reason(
        &self,
        entry: &Entry,
        blocks: &[Mod],
    ) -> Result<Option<Reason>, AllocError>
        requires made { IsMade self.now.conf.now.types entry.now.attrs }
        requires good { IsRdn self.now.conf.now.types entry.now.rdn }
        requires about { IsAbout self.now.conf.now self.now.tree.now.entries self.now.asked.now (content_of entry.now) }
        requires modifies { Modifies self.now.conf.now self.now.tree.now.entries self.now.asked.now }
        requires blocks { blocks.now ≡ blocks_of_record self.now.asked.now }
        ensures { IfOk result (Finds self.now.conf.now self.now.mode self.now.tree.now.entries self.now.asked.now (block_checks 0 blocks.now ++ NoRdnValue ∷ entry_checks)) }
    {
        let mut attrs = attributes_of(self.alloc, entry)?;
        let found = self.blocks_reason(entry, &mut attrs, blocks)?;
        if found.is_some() {
            return Ok(found);
        }
        self.modified_reason(entry, &attrs)
    }

    /// What a modify is refused for, of the entry at a path.
    pub(crate) fn modify_reason(
        &self,
        path: &Path,
        blocks: &[Mod],
    ) -> Result<Option<Reason>, AllocError>
        requires at { IsAt self.now.conf.now self.now.asked.now path.now }
        requires modifies { Modifies self.now.conf.now self.now.tree.now.entries self.now.asked.now }
        requires blocks { blocks.now ≡ blocks_of_record self.now.asked.now }
        ensures { IfOk result (Finds self.now.conf.now self.now.mode self.now.tree.now.entries self.now.asked.now (modify_checks blocks.now)) }
    {
        self.tree.entries_are_a_directory();
        match self.tree.get(path) {
            Some(entry) => self.blocks_and_entry_reason(entry, blocks),
            None => Ok(Some(Reason::NoEntry)),
        }
    }
}
