//! What another RDN makes of the attributes of an entry (RFC 4511, 4.9), whatever they are.

ghost use Rattle.std.specs.Prelude.{◌≡◌, ◌&&◌, nat_eq, IfOk, OnOk};
ghost use Rattle.std.specs.List.{AllByRecursion, list_any};
ghost use Rattle.std.specs.Str.{bytes_eq};
ghost use Rattle.schema.specs.GoodRdns.{IsAva, IsRdn};
ghost use Rattle.schema.specs.Values.{norm_at};
ghost use Rattle.entries.specs.Entries.{with_ava, with_rdn};
ghost use Rattle.entries.specs.Modifies.{without_old_ava, without_rdn, renamed_attrs};
ghost use Rattle.entries.specs.StoredEntries.{attributes_of, content_of, IsMade};

use crate::draft::{Attribute, attributes_of, copy_values, set_values};
use crate::explainer::Explainer;
use base::Bytes;
use entries::Entry;
use schema::{TypeId, TypedRdn};
use std::alloc::AllocError;

impl Explainer<'_> {
    // puts the value of an AVA last, where no equal one is there
    fn put_ava(&self, attrs: &mut Vec<Attribute>, ava: &(TypeId, Bytes)) -> Result<(), AllocError>
        requires made { IsMade self.now.conf.now.types attrs.old.items }
        requires ava { IsAva self.now.conf.now.types ava.now }
        ensures made { OnOk result (IsMade self.now.conf.now.types attrs.new.items) }
        ensures values { OnOk result (attributes_of attrs.new.items ≡ with_ava self.now.conf.now.types ava.now (attributes_of attrs.old.items)) }
    {
        let (t, raw) = ava;
        let value = self.valid_value(*t, raw.as_slice())?;
        let mut values = copy_values(self.alloc, attrs, *t)?;
        if values.has_norm(value.norm()) {
            return Ok(());
        }
        values.push(self.alloc, value)?;
        set_values(attrs, *t, values)
    }

    /// Puts each value of an RDN last, where no equal one is there.
    #[tactic(auto, unfolding(entries::specs::Entries::with_rdn))]
    pub(crate) fn put_rdn(
        &self,
        attrs: &mut Vec<Attribute>,
        rdn: &TypedRdn,
    ) -> Result<(), AllocError>
        requires made { IsMade self.now.conf.now.types attrs.old.items }
        requires avas { AllByRecursion (IsAva self.now.conf.now.types) rdn.now }
        ensures made { OnOk result (IsMade self.now.conf.now.types attrs.new.items) }
        ensures values { OnOk result (attributes_of attrs.new.items ≡ with_rdn self.now.conf.now.types rdn.now (attributes_of attrs.old.items)) }
    {
        for ava in rdn.avas() {
            self.put_ava(attrs, ava)?;
        }
        Ok(())
    }

    // whether an AVA has this type and a value with this normal form
    fn is_same_ava(&self, ava: &(TypeId, Bytes), t: TypeId, norm: &[u8]) -> Result<bool, AllocError>
        requires { IsAva self.now.conf.now.types ava.now }
        ensures { IfOk result (λ b. b ≡ (nat_eq t ava.now.0 && bytes_eq (norm_at self.now.conf.now.types t ava.now.1) norm.now)) }
    {
        let (u, raw) = ava;
        if t != *u {
            return Ok(false);
        }
        let value = self.valid_value(t, raw.as_slice())?;
        Ok(value.norm() == norm)
    }

    // whether the RDN has such an AVA
    fn has_ava(&self, rdn: &TypedRdn, t: TypeId, norm: &[u8]) -> Result<bool, AllocError>
        requires { AllByRecursion (IsAva self.now.conf.now.types) rdn.now }
        ensures { IfOk result (λ b. b ≡ list_any (λ q. nat_eq t q.0 && bytes_eq (norm_at self.now.conf.now.types t q.1) norm.now) rdn.now) }
    {
        for ava in rdn.avas() {
            if self.is_same_ava(ava, t, norm)? {
                return Ok(true);
            }
        }
        Ok(false)
    }

    // takes away the value of an AVA, unless the new RDN has an equal one
    fn take_ava(
        &self,
        attrs: &mut Vec<Attribute>,
        new: &TypedRdn,
        ava: &(TypeId, Bytes),
    ) -> Result<(), AllocError>
        requires made { IsMade self.now.conf.now.types attrs.old.items }
        requires new { AllByRecursion (IsAva self.now.conf.now.types) new.now }
        requires ava { IsAva self.now.conf.now.types ava.now }
        ensures made { OnOk result (IsMade self.now.conf.now.types attrs.new.items) }
        ensures values { OnOk result (attributes_of attrs.new.items ≡ without_old_ava self.now.conf.now.types new.now ava.now (attributes_of attrs.old.items)) }
    {
        let (t, raw) = ava;
        let value = self.valid_value(*t, raw.as_slice())?;
        if self.has_ava(new, *t, value.norm())? {
            return Ok(());
        }
        let mut values = copy_values(self.alloc, attrs, *t)?;
        values.remove_norm(self.alloc, value.norm())?;
        set_values(attrs, *t, values)
    }

    // takes away the values of the old RDN, but for those that the new one has
    #[tactic(auto, unfolding(entries::specs::Modifies::without_rdn))]
    fn take_rdn(
        &self,
        attrs: &mut Vec<Attribute>,
        new: &TypedRdn,
        old: &TypedRdn,
    ) -> Result<(), AllocError>
        requires made { IsMade self.now.conf.now.types attrs.old.items }
        requires new { AllByRecursion (IsAva self.now.conf.now.types) new.now }
        requires avas { AllByRecursion (IsAva self.now.conf.now.types) old.now }
        ensures made { OnOk result (IsMade self.now.conf.now.types attrs.new.items) }
        ensures values { OnOk result (attributes_of attrs.new.items ≡ without_rdn self.now.conf.now.types new.now old.now (attributes_of attrs.old.items)) }
    {
        for ava in old.avas() {
            self.take_ava(attrs, new, ava)?;
        }
        Ok(())
    }

    /// The attributes of an entry with another RDN: that one's values come, and the old one's go where that is asked for.
    pub(crate) fn renamed_attributes(
        &self,
        entry: &Entry,
        new: &TypedRdn,
        delete_old: bool,
    ) -> Result<Vec<Attribute>, AllocError>
        requires made { IsMade self.now.conf.now.types entry.now.attrs }
        requires old { IsRdn self.now.conf.now.types entry.now.rdn }
        requires new { IsRdn self.now.conf.now.types new.now }
        ensures made { IfOk result (λ attrs. IsMade self.now.conf.now.types attrs.items) }
        ensures values { IfOk result (λ attrs. attributes_of attrs.items ≡ renamed_attrs self.now.conf.now.types (content_of entry.now) new.now delete_old) }
    {
        let mut attrs = attributes_of(self.alloc, entry)?;
        self.put_rdn(&mut attrs, new)?;
        if delete_old {
            self.take_rdn(&mut attrs, new, entry.rdn())?;
        }
        Ok(attrs)
    }
}
