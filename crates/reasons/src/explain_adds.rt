//! Explains adds that are refused (RFC 4511, 4.7).

ghost use Rattle.std.specs.Prelude.{◌≡◌, ◌++◌, ◌∷◌, ◌&&◌, [], not, IfOk};
ghost use Rattle.std.specs.FinMap as finite;
ghost use Rattle.paths.specs.Paths.{is_root, parent_of};
ghost use Rattle.schema.specs.GoodRdns.{IsRdn};
ghost use Rattle.entries.specs.Entries.{with_rdn};
ghost use Rattle.entries.specs.StoredEntries.{attributes_of, IsMade};
ghost use Rattle.reasons.specs.LineFlaws.{gathered};
ghost use Rattle.reasons.specs.Asked.{name_of_record, lines_of_record};
ghost use Rattle.reasons.specs.Flaws.{Full, line_checks, entry_checks, add_checks};
ghost use Rattle.reasons.specs.inner.Found.{Finds, Stands, Adds};
ghost use Rattle.reasons.specs.inner.Lines.{AreSeen};

use crate::draft::Attribute;
use crate::explainer::Explainer;
use crate::reason::Reason;
use crate::seen_lines::SeenLines;
use ldif::Attr;
use schema::{Located, Path};
use std::alloc::AllocError;

/// The most entries that a directory can have.
const ENTRIES_LIMIT: usize = 4_294_967_295;

impl Explainer<'_> {
    // whether a path isn't the suffix's, and no entry is there above it
    fn lacks_parent(&self, path: &Path) -> Result<bool, AllocError>
        ensures { IfOk result (λ lacks. lacks ≡ (not (is_root path.now) && not (finite.contains_key self.now.tree.now.entries (parent_of path.now)))) }
    {
        if path.is_root() {
            return Ok(false);
        }
        let parent = path.parent(self.alloc)?;
        Ok(!self.is_there(&parent))
    }

    // the attributes that lines make, with the values of the entry's own RDN
    fn added_attributes(
        &self,
        place: &Located,
        lines: &[Attr<'_>],
        seen: SeenLines,
    ) -> Result<Vec<Attribute>, AllocError>
        requires seen { AreSeen self.now.conf.now.types lines.now seen }
        requires good { IsRdn self.now.conf.now.types place.now.rdn }
        ensures made { IfOk result (λ attrs. IsMade self.now.conf.now.types attrs.items) }
        ensures attrs { IfOk result (λ attrs. attributes_of attrs.items ≡ with_rdn self.now.conf.now.types place.now.rdn (gathered self.now.conf.now.types lines.now)) }
    {
        let _ = lines;
        let mut attrs = seen.into_attributes(self.alloc)?;
        self.put_rdn(&mut attrs, &place.rdn)?;
        Ok(attrs)
    }

    // what the entry that lines without a flaw make is refused for, where all are seen
    fn added_reason(
        &self,
        place: &Located,
        lines: &[Attr<'_>],
        seen: SeenLines,
    ) -> Result<Option<Reason>, AllocError>
        requires stands { Stands self.now.conf.now (name_of_record self.now.asked.now) place.now.path place.now.rdn }
        requires adds { Adds self.now.conf.now self.now.tree.now.entries self.now.asked.now }
        requires lines { lines.now ≡ lines_of_record self.now.asked.now }
        requires seen { AreSeen self.now.conf.now.types lines.now seen }
        requires good { IsRdn self.now.conf.now.types place.now.rdn }
        ensures { IfOk result (Finds self.now.conf.now self.now.mode self.now.tree.now.entries self.now.asked.now (entry_checks ++ Full ∷ [])) }
    {
        let attrs = self.added_attributes(place, lines, seen)?;
        if let Some(why) = self.entry_reason(&attrs)? {
            return Ok(Some(Reason::Entry(why)));
        }
        if self.tree.len() >= ENTRIES_LIMIT {
            return Ok(Some(Reason::Full));
        }
        Ok(None)
    }

    // what lines, or the entry that they make, are refused for
    fn lines_and_entry_reason(
        &self,
        place: &Located,
        lines: &[Attr<'_>],
    ) -> Result<Option<Reason>, AllocError>
        requires stands { Stands self.now.conf.now (name_of_record self.now.asked.now) place.now.path place.now.rdn }
        requires adds { Adds self.now.conf.now self.now.tree.now.entries self.now.asked.now }
        requires lines { lines.now ≡ lines_of_record self.now.asked.now }
        requires good { IsRdn self.now.conf.now.types place.now.rdn }
        ensures { IfOk result (Finds self.now.conf.now self.now.mode self.now.tree.now.entries self.now.asked.now (line_checks 0 lines.now ++ (entry_checks ++ Full ∷ []))) }
    {
        let mut seen = SeenLines::new(self.alloc, lines.len());
        let found = self.lines_reason(lines, &mut seen)?;
        if found.is_some() {
            return Ok(found);
        }
        self.added_reason(place, lines, seen)
    }

    /// What an add is refused for, of the entry that is to come to a place.
    pub(crate) fn add_reason(
        &self,
        place: &Located,
        lines: &[Attr<'_>],
    ) -> Result<Option<Reason>, AllocError>
        requires stands { Stands self.now.conf.now (name_of_record self.now.asked.now) place.now.path place.now.rdn }
        requires adds { Adds self.now.conf.now self.now.tree.now.entries self.now.asked.now }
        requires lines { lines.now ≡ lines_of_record self.now.asked.now }
        requires good { IsRdn self.now.conf.now.types place.now.rdn }
        ensures { IfOk result (Finds self.now.conf.now self.now.mode self.now.tree.now.entries self.now.asked.now (add_checks lines.now)) }
    {
        if self.is_there(&place.path) {
            return Ok(Some(Reason::IsThere));
        }
        if self.lacks_parent(&place.path)? {
            return Ok(Some(Reason::NoParent));
        }
        self.lines_and_entry_reason(place, lines)
    }
}
