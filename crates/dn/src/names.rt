//! RDNs and names.

ghost use Rattle.std.specs.Prelude.{◌≡◌, ◌∷◌, ◌++◌, [], true, Some, None, if◌then◌else◌, OnOk, OnErr};
ghost use Rattle.std.specs.List.{list_all};
ghost use Rattle.dn.specs.Names.{is_ava, is_rdn, is_name};

use crate::avas::Ava;
use smallvec::SmallVec;
use std::alloc::{AllocError, Global};
use std::default::MadeWith;
use std::marker::Model;

fn are_avas(avas: &[Ava]) -> bool
    ensures { result ≡ list_all is_ava avas.now }
{
    avas.iter().all(|ava| ava.is_ava())
}

/// The AVAs of an RDN, one or more. A contract sees the list of them.
pub struct Rdn {
    avas: SmallVec<Ava, 2>,
}

// A call of its own, so that a caller's proof need not tell the places apart.
impl Drop for Rdn {
    fn drop(self) {
        let Rdn { avas } = self;
        drop(avas);
    }
}

impl Model for Rdn {
    ghost use Rattle.std.specs.Prelude.{◌≡◌, true, List, ℕ};
    ghost use Rattle.dn.specs.Names.{is_rdn};

    ghost Value = { List (List ℕ × List ℕ) };

    ghost view = { λ r. r.avas.items };

    ghost invariant = { λ r. is_rdn r.avas.items ≡ true };
}

impl Rdn {
    /// The RDN of these AVAs; None where there are no AVAs, or one of them has no type.
    pub fn new(avas: Vec<Ava>) -> Option<Rdn>
        ensures { result ≡ (if is_rdn avas.items then Some avas.items else None) }
    {
        if avas.is_empty() || !are_avas(&avas) {
            return None;
        }
        Some(Rdn::many(avas))
    }

    #[inline(always)]
    pub(crate) fn one(alloc: Global, ava: Ava) -> Rdn
        requires { is_ava ava ≡ true }
        ensures { result ≡ ava ∷ [] }
    {
        Rdn {
            avas: SmallVec::from_buf_and_len(alloc, [ava, Ava::made_with(alloc)], 1),
        }
    }

    #[inline(always)]
    pub(crate) fn two(alloc: Global, first: Ava, second: Ava) -> Rdn
        requires first { is_ava first ≡ true }
        requires second { is_ava second ≡ true }
        ensures { result ≡ first ∷ second ∷ [] }
    {
        Rdn {
            avas: SmallVec::from_buf(alloc, [first, second]),
        }
    }

    pub(crate) fn many(avas: Vec<Ava>) -> Rdn
        requires { is_rdn avas.items ≡ true }
        ensures { result ≡ avas.items }
    {
        Rdn {
            avas: SmallVec::from_vec(avas),
        }
    }

    /// The AVAs in the order written.
    pub fn avas(&self) -> &[Ava]
        ensures avas { result.now ≡ self.now }
        ensures good { is_rdn self.now ≡ true }
    {
        self.avas.as_slice()
    }
}

/// A name: its RDNs, the entry's own first. A contract sees the list of them.
#[derive(Drop)]
pub struct Name {
    rdns: Vec<Rdn>,
}

impl Model for Name {
    ghost use Rattle.std.specs.Prelude.{◌≡◌, true, List, ℕ};
    ghost use Rattle.dn.specs.Names.{is_name};

    ghost Value = { List (List (List ℕ × List ℕ)) };

    ghost view = { λ n. n.rdns.items };

    ghost invariant = { λ n. is_name n.rdns.items ≡ true };
}

impl Name {
    /// The name without RDNs.
    pub fn new(alloc: Global) -> Name
        ensures { result ≡ [] }
    {
        Name {
            rdns: Vec::new(alloc),
        }
    }

    /// Puts an RDN at the end, which names the entry above the others, or changes nothing where memory runs out.
    #[inline]
    pub fn push(&mut self, rdn: Rdn) -> Result<(), AllocError>
        ensures ok { OnOk result (self.new ≡ self.old ++ rdn ∷ []) }
        ensures err { OnErr result (self.new ≡ self.old) }
    {
        let _ = &rdn.avas;
        self.rdns.push(rdn)?;
        Ok(())
    }

    /// The RDNs, the entry's own first.
    pub fn rdns(&self) -> &[Rdn]
        ensures rdns { result.now ≡ self.now }
        ensures good { is_name self.now ≡ true }
    {
        self.rdns.as_slice()
    }
}
