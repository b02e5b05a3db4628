//! Where a name stands under a configuration.

ghost use Rattle.std.specs.Prelude.{◌≡◌, ◌++◌, ◌∷◌, [], IfOk, map, reverse};
ghost use Rattle.std.specs.List.{AllByRecursion};
ghost use Rattle.schema.specs.Rdns.{rdn_key_of, typed, typed_rdn};
ghost use Rattle.schema.specs.GoodRdns.{IsRdn};
ghost use Rattle.schema.specs.inner.Fronts.{front_located};
ghost use Rattle.schema.specs.inner.Keys.{AreKnown, KeysFit};
ghost use Rattle.schema.specs.Conf.{below, place_of, located, path_of_name, path_of_text, place_of_text, own_rdn};
ghost use Rattle.schema.specs.Gives.{Gives};

use crate::code::Code;
use crate::conf::Conf;
use crate::fault::PathFault;
use crate::laws::located_rdns_are_good;
use crate::names::read_dn;
use crate::rdns::{rdn_key_of, step_down, typed_rdn, typed_rdns};
use dn::{Name, split_end, written_names_are_read};
use matching::valid_values_are_bytes;
use paths::{Path, PathDraft, TypedRdn};
use std::alloc::{AllocError, Global};
use values::TypeTable;

/// Where a name stands: its path, and the RDN of the entry there.
#[derive(Drop)]
pub struct Located {
    pub path: Path,
    pub rdn: TypedRdn,
}

// RDNs, the entry's own first, and what they come to, from the last on
#[derive(Drop)]
struct TypedName {
    rdns: Vec<TypedRdn>,
    path: Path,
}

/// What RDNs come to, from the last on.
pub(crate) fn path_of(
    alloc: Global,
    types: &TypeTable,
    rdns: &[TypedRdn],
) -> Result<Path, AllocError>
    requires { AllByRecursion (AreKnown types.now) rdns.now }
    ensures { IfOk result (λ p. p ≡ map (rdn_key_of types.now) (reverse rdns.now)) }
{
    let mut path = PathDraft::new(alloc)?;
    for i in (0..rdns.len()).rev() {
        path = step_down(alloc, types, path, &rdns[i])?;
    }
    Ok(path.into_path())
}

// the RDNs of a name, its own first, and what they come to
fn typed(alloc: Global, types: &TypeTable, name: &Name) -> Result<TypedName, PathFault>
    ensures rdns { Gives (λ x. x.rdns.items) result (typed types.now name.now) }
    ensures keys { IfOk result (KeysFit types.now) }
{
    let rdns = typed_rdns(alloc, types, name)?;
    let path = path_of(alloc, types, &rdns)?;
    Ok(TypedName { rdns, path })
}

impl Conf {
    ghost use Rattle.schema.specs.inner.Keys.{KeysFit, rdns_down};

    // the RDNs below the suffix
    fn below_suffix(&self, alloc: Global, typed: TypedName) -> Result<TypedName, PathFault>
        requires { KeysFit self.now.types typed }
        ensures rdns { Gives rdns_down result (below self.now.types (reverse self.now.suffix) (reverse typed.rdns.items)) }
        ensures keys { IfOk result (KeysFit self.now.types) }
    {
        let TypedName { mut rdns, path } = typed;
        if !self.root().begins(&path) {
            return Err(PathFault::Code(Code::NoSuchObject));
        }
        rdns.truncate(rdns.len() - self.suffix().len());
        let path = path.behind(alloc, self.root())?;
        Ok(TypedName { rdns, path })
    }

    // the RDNs of a name below the suffix
    #[tactic(auto, unfolding(crate::specs::Conf::place_of))]
    fn place_of(&self, alloc: Global, name: &Name) -> Result<TypedName, PathFault>
        ensures rdns { Gives rdns_down result (place_of self.now name.now) }
        ensures keys { IfOk result (KeysFit self.now.types) }
    {
        let typed = typed(alloc, self.table(), name)?;
        self.below_suffix(alloc, typed)
    }

    // those of a name of which the RDNs of the suffix are left out
    #[tactic(auto, unfolding(crate::specs::inner::Fronts::front_located))]
    fn front_place(&self, alloc: Global, front: &[u8]) -> Result<TypedName, PathFault>
        ensures rdns { Gives rdns_down result (front_located self.now.types front.now) }
        ensures keys { IfOk result (KeysFit self.now.types) }
    {
        let name = read_dn(alloc, front)?;
        typed(alloc, self.table(), &name)
    }

    // those of a name as text
    #[tactic(auto, unfolding(crate::specs::Conf::located))]
    fn whole_place(&self, alloc: Global, text: &[u8]) -> Result<TypedName, PathFault>
        ensures rdns { Gives rdns_down result (located self.now text.now) }
        ensures keys { IfOk result (KeysFit self.now.types) }
    {
        let name = read_dn(alloc, text)?;
        self.place_of(alloc, &name)
    }

    // the same
    fn place_in(&self, alloc: Global, text: &[u8]) -> Result<TypedName, PathFault>
        ensures rdns { Gives rdns_down result (located self.now text.now) }
        ensures keys { IfOk result (KeysFit self.now.types) }
    {
        self.rules_are_kept();
        written_names_are_read();
        valid_values_are_bytes();
        // most names end as the suffix is written, which need not be read each time
        match split_end(text, self.suffix_text()) {
            Some(front) => self.front_place(alloc, front),
            None => self.whole_place(alloc, text),
        }
    }

    // the RDN of the entry that has these RDNs below the suffix, its own first
    fn own_rdn(&self, alloc: Global, mut rdns: Vec<TypedRdn>) -> Result<TypedRdn, AllocError>
        ensures { IfOk result (λ r. r ≡ own_rdn self.now (reverse rdns.items)) }
    {
        if rdns.is_empty() {
            return self.suffix_rdn().copy(alloc);
        }
        Ok(rdns.swap_remove(0))
    }

    /// Where the name that bytes spell stands below the suffix: `InvalidDnSyntax` where they spell none. Then each AVA is checked in turn, the
    /// entry's own RDN first: `InvalidDnSyntax` where its type isn't known or has DN syntax, `NamingViolation` where that has no equality rule,
    /// `InvalidDnSyntax` where the value isn't valid, `NamingViolation` where its RDN has an AVA of that type before it. Then `NoSuchObject`
    /// where the name doesn't end with the suffix.
    pub fn locate(&self, alloc: Global, text: &[u8]) -> Result<Located, PathFault>
        ensures place { Gives (λ l. (l.path, l.rdn)) result (place_of_text self.now text.now) }
        ensures good { IfOk result (λ l. IsRdn self.now.types l.rdn) }
    {
        self.rules_are_kept();
        located_rdns_are_good();
        let place = self.place_in(alloc, text)?;
        let TypedName { rdns, path } = place;
        let rdn = self.own_rdn(alloc, rdns)?;
        // a path that takes the room of its own bytes alone
        let path = path.copy(alloc)?;
        Ok(Located { path, rdn })
    }

    /// The path of the entry with the name that bytes spell, or the code that `locate` answers.
    pub fn path_of_text(&self, alloc: Global, text: &[u8]) -> Result<Path, PathFault>
        ensures { Gives (λ p. p) result (path_of_text self.now text.now) }
    {
        Ok(self.place_in(alloc, text)?.path)
    }

    /// The path of the entry with this name, or the code that `locate` answers.
    pub fn path_of(&self, alloc: Global, name: &Name) -> Result<Path, PathFault>
        ensures { Gives (λ p. p) result (path_of_name self.now name.now) }
    {
        Ok(self.place_of(alloc, name)?.path)
    }

    /// An RDN with its types, or the code of the first AVA that has a fault, as `locate` answers it.
    pub fn typed_rdn(&self, alloc: Global, rdn: &dn::Rdn) -> Result<TypedRdn, PathFault>
        ensures gives { Gives (λ r. r) result (typed_rdn self.now.types rdn.now) }
        ensures good { IfOk result (IsRdn self.now.types) }
    {
        typed_rdn(alloc, self.table(), rdn.avas())
    }

    /// The path of what stands below a path by an RDN.
    pub fn path_below(
        &self,
        alloc: Global,
        upper: &Path,
        rdn: &TypedRdn,
    ) -> Result<Path, AllocError>
        requires { IsRdn self.now.types rdn.now }
        ensures { IfOk result (λ p. p ≡ upper.now ++ rdn_key_of self.now.types rdn.now ∷ []) }
    {
        let mut path = upper.copy(alloc)?;
        path.push(rdn_key_of(alloc, self.table(), rdn)?)?;
        Ok(path)
    }
}
