//! Explains modify DNs that are refused (RFC 4511, 4.9).

ghost use Rattle.std.specs.Prelude.{◌≡◌, ◌++◌, ◌∷◌, ℕ, List, Some, map, IfOk};
ghost use Rattle.std.specs.FinMap as finite;
ghost use Rattle.std.specs.Map.Iter.{deref};
ghost use Rattle.std.specs.Option.{option_map};
ghost use Rattle.schema.specs.Gives.{Gives};
ghost use Rattle.schema.specs.GoodRdns.{IsRdn};
ghost use Rattle.entries.specs.Modifies.{renamed_attrs};
ghost use Rattle.entries.specs.StoredEntries.{content_of, IsMade};
ghost use Rattle.tree.specs.Renames.{rdn_in, is_taken};
ghost use Rattle.reasons.specs.NameFlaws.{SpellsRdn, new_rdn_checks};
ghost use Rattle.reasons.specs.Asked.{IsAt};
ghost use Rattle.reasons.specs.Flaws.{NewRdn, BelowItself, NoSuperior, IsTaken, entry_checks, superior_checks, rename_checks};
ghost use Rattle.reasons.specs.inner.Found.{Finds, Becomes};
ghost use Rattle.reasons.specs.inner.Renames.{Renames, IsNewRdn, IsUpper, Moves};

use crate::explain_names::NameExplainer;
use crate::explainer::Explainer;
use crate::reason::{NameReason, Reason};
use base::Bytes;
use entries::Entry;
use schema::{Code, Path, PathFault, TypedRdn, read_dn};
use std::alloc::AllocError;

impl Explainer<'_> {
    // the one RDN that a text spells
    #[tactic(auto, unfolding(tree::specs::Renames::rdn_in))]
    fn typed_new_rdn(&self, text: &[u8]) -> Result<TypedRdn, PathFault>
        ensures gives { Gives (λ r. r) result (rdn_in self.now.conf.now text.now) }
        ensures good { IfOk result (IsRdn self.now.conf.now.types) }
    {
        let name = read_dn(self.alloc, text)?;
        match name.rdns() {
            [rdn] => self.conf.typed_rdn(self.alloc, rdn),
            _ => Err(PathFault::Code(Code::InvalidDnSyntax)),
        }
    }

    // the same, or what it is refused for
    fn new_rdn(&self, text: &[u8]) -> Result<Result<TypedRdn, NameReason>, AllocError>
        ensures { IfOk result (IsNewRdn self.now.conf.now text.now) }
    {
        match self.typed_new_rdn(text) {
            Ok(rdn) => Ok(Ok(rdn)),
            Err(PathFault::Code(_)) => {
                let names = NameExplainer {
                    alloc: self.alloc,
                    conf: self.conf,
                    text,
                };
                Ok(Err(names.new_rdn_reason()?))
            }
            Err(PathFault::OutOfMemory) => Err(AllocError),
        }
    }

    // the path that the entry at a path is to stand below, or what the name of its new superior is refused for
    fn upper_path(
        &self,
        path: &Path,
        superior: Option<&Bytes>,
    ) -> Result<Result<Path, NameReason>, AllocError>
        ensures { IfOk result (IsUpper self.now.conf.now path.now (option_map deref superior.entry)) }
    {
        match superior {
            None => Ok(Ok(path.parent(self.alloc)?)),
            Some(name) => match self.place(name.as_slice())? {
                Ok(place) => Ok(Ok(place.path)),
                Err(why) => Ok(Err(why)),
            },
        }
    }

    // what the entry with another RDN is refused for
    fn renamed_entry_reason(
        &self,
        entry: &Entry,
        rdn: &TypedRdn,
        delete_old: bool,
    ) -> Result<Option<Reason>, AllocError>
        requires made { IsMade self.now.conf.now.types entry.now.attrs }
        requires old { IsRdn self.now.conf.now.types entry.now.rdn }
        requires new { IsRdn self.now.conf.now.types rdn.now }
        requires becomes { Becomes self.now.conf.now self.now.tree.now.entries self.now.asked.now (record { rdn = rdn.now; attrs = renamed_attrs self.now.conf.now.types (content_of entry.now) rdn.now delete_old }) }
        ensures { IfOk result (Finds self.now.conf.now self.now.mode self.now.tree.now.entries self.now.asked.now entry_checks) }
    {
        let attrs = self.renamed_attributes(entry, rdn, delete_old)?;
        match self.entry_reason(&attrs)? {
            Some(why) => Ok(Some(Reason::Entry(why))),
            None => Ok(None),
        }
    }

    // whether another entry has the path that the one at a path would come to
    fn is_taken(&self, path: &Path, to: &Path) -> bool
        ensures { result ≡ is_taken self.now.tree.now.entries path.now to.now }
    {
        path != to && self.is_there(to)
    }

    // what a move below a path is refused for
    fn moved_reason(
        &self,
        path: &Path,
        entry: &Entry,
        rdn: &TypedRdn,
        delete_old: bool,
        upper: &Path,
    ) -> Result<Option<Reason>, AllocError>
        requires moves { Moves self.now.conf.now self.now.tree.now.entries self.now.asked.now path.now (content_of entry.now) rdn.now delete_old upper.now }
        requires made { IsMade self.now.conf.now.types entry.now.attrs }
        requires old { IsRdn self.now.conf.now.types entry.now.rdn }
        requires new { IsRdn self.now.conf.now.types rdn.now }
        ensures { IfOk result (Finds self.now.conf.now self.now.mode self.now.tree.now.entries self.now.asked.now (BelowItself ∷ NoSuperior ∷ IsTaken ∷ entry_checks)) }
    {
        if path.begins(upper) {
            return Ok(Some(Reason::BelowItself));
        }
        if !self.is_there(upper) {
            return Ok(Some(Reason::NoSuperior));
        }
        let to = self.conf.path_below(self.alloc, upper, rdn)?;
        if self.is_taken(path, &to) {
            return Ok(Some(Reason::IsTaken));
        }
        self.renamed_entry_reason(entry, rdn, delete_old)
    }

    // what the new superior of an entry is refused for, or its move there
    fn superior_reason(
        &self,
        path: &Path,
        entry: &Entry,
        rdn: &TypedRdn,
        delete_old: bool,
        superior: Option<&Bytes>,
    ) -> Result<Option<Reason>, AllocError>
        requires renames { (newrdn : List ℕ) × SpellsRdn self.now.conf.now newrdn rdn.now × Renames self.now.asked.now newrdn delete_old (option_map deref superior) }
        requires at { IsAt self.now.conf.now self.now.asked.now path.now }
        requires there { finite.get self.now.tree.now.entries path.now ≡ Some (content_of entry.now) }
        requires made { IsMade self.now.conf.now.types entry.now.attrs }
        requires old { IsRdn self.now.conf.now.types entry.now.rdn }
        requires new { IsRdn self.now.conf.now.types rdn.now }
        ensures { IfOk result (Finds self.now.conf.now self.now.mode self.now.tree.now.entries self.now.asked.now (superior_checks (option_map deref superior.entry) ++ BelowItself ∷ NoSuperior ∷ IsTaken ∷ entry_checks)) }
    {
        match self.upper_path(path, superior)? {
            Ok(upper) => self.moved_reason(path, entry, rdn, delete_old, &upper),
            Err(why) => Ok(Some(Reason::Superior(why))),
        }
    }

    // what the new RDN of an entry is refused for, or what comes behind that
    fn new_name_reason(
        &self,
        path: &Path,
        entry: &Entry,
        newrdn: &[u8],
        delete_old: bool,
        superior: Option<&Bytes>,
    ) -> Result<Option<Reason>, AllocError>
        requires renames { Renames self.now.asked.now newrdn.now delete_old (option_map deref superior) }
        requires at { IsAt self.now.conf.now self.now.asked.now path.now }
        requires there { finite.get self.now.tree.now.entries path.now ≡ Some (content_of entry.now) }
        requires made { IsMade self.now.conf.now.types entry.now.attrs }
        requires old { IsRdn self.now.conf.now.types entry.now.rdn }
        ensures { IfOk result (Finds self.now.conf.now self.now.mode self.now.tree.now.entries self.now.asked.now (map NewRdn (new_rdn_checks newrdn.now) ++ (superior_checks (option_map deref superior.entry) ++ BelowItself ∷ NoSuperior ∷ IsTaken ∷ entry_checks))) }
    {
        match self.new_rdn(newrdn)? {
            Ok(rdn) => self.superior_reason(path, entry, &rdn, delete_old, superior),
            Err(why) => Ok(Some(Reason::NewRdn(why))),
        }
    }

    /// What a modify DN is refused for, of the entry at a path.
    pub(crate) fn rename_reason(
        &self,
        path: &Path,
        newrdn: &[u8],
        delete_old: bool,
        superior: Option<&Bytes>,
    ) -> Result<Option<Reason>, AllocError>
        requires renames { Renames self.now.asked.now newrdn.now delete_old (option_map deref superior) }
        requires at { IsAt self.now.conf.now self.now.asked.now path.now }
        ensures { IfOk result (Finds self.now.conf.now self.now.mode self.now.tree.now.entries self.now.asked.now (rename_checks newrdn.now (option_map deref superior.entry))) }
    {
        self.tree.entries_are_a_directory();
        let Some(entry) = self.tree.get(path) else {
            return Ok(Some(Reason::NoEntry));
        };
        if path.is_root() {
            return Ok(Some(Reason::IsSuffix));
        }
        self.new_name_reason(path, entry, newrdn, delete_old, superior)
    }
}
