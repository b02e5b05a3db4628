//! Explains names that are refused.

ghost use Rattle.std.specs.Prelude.{◌≡◌, ◌<◌, IfOk, IfSome, IfNone, Some, None, Err, Ok, length};
ghost use Rattle.std.specs.Option.{option_map};
ghost use Rattle.std.specs.List.{list_any};
ghost use Rattle.dn.specs.Names as names;
ghost use Rattle.schema.specs.declared.code.Code as codes;
ghost use Rattle.schema.specs.Conf.{located};
ghost use Rattle.schema.specs.FaultyNames.{HasAvaFlaw, ava_order, is_of_type};
ghost use Rattle.schema.specs.Names.{name_in};
ghost use Rattle.schema.specs.TypeRules.{has_name_syntax};
ghost use Rattle.schema.specs.Values.{is_valid_at};
ghost use Rattle.tree.specs.Renames.{rdn_in};
ghost use Rattle.reasons.specs.NameFlaws.{HasNameFlaw, ava_checks, rdn_checks, place_checks, new_rdn_checks};
ghost use Rattle.reasons.specs.Reasons.{ava_flaw_of, name_flaw_of};
ghost use Rattle.reasons.specs.inner.Found.{FindsFirst, IsRdnOf};

use crate::reason::{AvaReason, NameReason};
use dn::{Ava, Name};
use schema::{Conf, PathFault, TypeId, TypeSyntax, ValueFault, read_dn};
use std::alloc::{AllocError, Global};

/// A text that is to spell a name, under a configuration.
#[derive(Drop)]
pub(crate) struct NameExplainer<'a> {
    pub(crate) alloc: Global,
    pub(crate) conf: &'a Conf,
    pub(crate) text: &'a [u8],
}

/// What a name is refused for, and the name as it was read, if it can be.
#[derive(Drop)]
pub(crate) struct FaultyName {
    pub(crate) why: NameReason,
    pub(crate) name: Option<Name>,
}

impl NameExplainer<'_> {
    // whether an AVA is of a type
    fn is_of_type(&self, ava: &Ava, t: TypeId) -> bool
        ensures { result ≡ is_of_type self.now.conf.now.types t ava.now }
    {
        match self.conf.type_of(ava.type_text()) {
            Some(found) => found == t,
            None => false,
        }
    }

    fn has_type(&self, avas: &[Ava], t: TypeId) -> bool
        ensures { result ≡ list_any (is_of_type self.now.conf.now.types t) avas.now }
    {
        avas.iter().any(|ava| self.is_of_type(ava, t))
    }

    fn has_name_syntax(&self, t: TypeId) -> bool
        requires { t < length self.now.conf.now.types }
        ensures { result ≡ has_name_syntax self.now.conf.now.types t }
    {
        match self.conf.types()[usize::from(t.number())].syntax {
            TypeSyntax::Name => true,
            TypeSyntax::Plain(_) => false,
        }
    }

    fn is_valid(&self, t: TypeId, raw: &[u8]) -> Result<bool, AllocError>
        requires { t < length self.now.conf.now.types }
        ensures { IfOk result (λ valid. valid ≡ is_valid_at self.now.conf.now.types t raw.now) }
    {
        match self.conf.make_value(self.alloc, t, raw) {
            Ok(_) => Ok(true),
            Err(ValueFault::Invalid) => Ok(false),
            Err(ValueFault::OutOfMemory) => Err(AllocError),
        }
    }

    // what is wrong with an AVA behind the earlier ones of its RDN
    fn ava_reason(&self, earlier: &[Ava], ava: &Ava) -> Result<Option<AvaReason>, AllocError>
        ensures { IfOk result (λ why. FindsFirst (HasAvaFlaw self.now.conf.now.types earlier.now ava.now) ava_order (option_map ava_flaw_of why)) }
    {
        let Some(t) = self.conf.type_of(ava.type_text()) else {
            return Ok(Some(AvaReason::UnknownType));
        };
        if self.has_name_syntax(t) {
            return Ok(Some(AvaReason::NameSyntax));
        }
        if self.conf.equality_rule(t).is_none() {
            return Ok(Some(AvaReason::NoEquality));
        }
        if !self.is_valid(t, ava.value())? {
            return Ok(Some(AvaReason::BadValue));
        }
        if self.has_type(earlier, t) {
            return Ok(Some(AvaReason::TypeTwice));
        }
        Ok(None)
    }

    // the first AVA of an RDN that has a flaw
    fn rdn_reason(&self, rdn: usize, avas: &[Ava]) -> Result<Option<NameReason>, AllocError>
        requires { IsRdnOf self.now.text.now rdn avas.now }
        ensures { IfOk result (λ why. FindsFirst (HasNameFlaw self.now.conf.now self.now.text.now) (ava_checks rdn 0 avas.now) (option_map name_flaw_of why)) }
    {
        for ava in 0..avas.len() {
            if let Some(why) = self.ava_reason(&avas[..ava], &avas[ava])? {
                return Ok(Some(NameReason::Ava { rdn, ava, why }));
            }
        }
        Ok(None)
    }

    // the first AVA of a name that has a flaw
    fn avas_reason(&self, name: &Name) -> Result<Option<NameReason>, AllocError>
        requires { name_in self.now.text.now ≡ Ok name.now }
        ensures { IfOk result (λ why. FindsFirst (HasNameFlaw self.now.conf.now self.now.text.now) (rdn_checks 0 name.now) (option_map name_flaw_of why)) }
    {
        let rdns = name.rdns();
        for index in 0..rdns.len() {
            let found = self.rdn_reason(index, rdns[index].avas())?;
            if found.is_some() {
                return Ok(found);
            }
        }
        Ok(None)
    }

    /// What an entry's name is refused for by itself, whatever it ends with.
    pub(crate) fn own_flaw(&self) -> Result<Option<FaultyName>, AllocError>
        ensures some { IfOk result (λ found. IfSome found (λ f. FindsFirst (HasNameFlaw self.now.conf.now self.now.text.now) (place_checks self.now.text.now) (Some (name_flaw_of f.why)))) }
        ensures none { IfOk result (λ found. IfNone found ((n : names.Name) × (name_in self.now.text.now ≡ Ok n) × FindsFirst (HasNameFlaw self.now.conf.now self.now.text.now) (rdn_checks 0 n) None)) }
        ensures name { IfOk result (λ found. IfSome found (λ f. IfSome f.name (λ n. name_in self.now.text.now ≡ Ok n))) }
    {
        let name = match read_dn(self.alloc, self.text) {
            Ok(name) => name,
            Err(PathFault::Code(_)) => {
                return Ok(Some(FaultyName {
                    why: NameReason::Unreadable,
                    name: None,
                }));
            }
            Err(PathFault::OutOfMemory) => return Err(AllocError),
        };
        match self.avas_reason(&name)? {
            Some(why) => Ok(Some(FaultyName {
                why,
                name: Some(name),
            })),
            None => Ok(None),
        }
    }

    /// What an entry's name is refused for.
    pub(crate) fn place_reason(&self) -> Result<NameReason, AllocError>
        requires { (code : codes.Code) × (located self.now.conf.now self.now.text.now ≡ Err code) }
        ensures { IfOk result (λ why. FindsFirst (HasNameFlaw self.now.conf.now self.now.text.now) (place_checks self.now.text.now) (Some (name_flaw_of why))) }
    {
        match self.own_flaw()? {
            Some(faulty) => Ok(faulty.why),
            None => Ok(NameReason::OutsideSuffix),
        }
    }

    /// What a new RDN is refused for.
    pub(crate) fn new_rdn_reason(&self) -> Result<NameReason, AllocError>
        requires { (code : codes.Code) × (rdn_in self.now.conf.now self.now.text.now ≡ Err code) }
        ensures { IfOk result (λ why. FindsFirst (HasNameFlaw self.now.conf.now self.now.text.now) (new_rdn_checks self.now.text.now) (Some (name_flaw_of why))) }
    {
        let name = match read_dn(self.alloc, self.text) {
            Ok(name) => name,
            Err(PathFault::Code(_)) => return Ok(NameReason::Unreadable),
            Err(PathFault::OutOfMemory) => return Err(AllocError),
        };
        if name.rdns().len() != 1 {
            return Ok(NameReason::NotOneRdn);
        }
        match self.avas_reason(&name)? {
            Some(why) => Ok(why),
            None => unreachable!(),
        }
    }
}
