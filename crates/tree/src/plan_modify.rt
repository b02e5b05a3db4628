//! Plans of a modify (RFC 4511, 4.6).

ghost use Rattle.std.specs.Prelude.{◌≡◌, IfOk, Some};
ghost use Rattle.std.specs.FinMap as finite;
ghost use Rattle.schema.specs.Conf.{located};
ghost use Rattle.tree.specs.Changes.{path_before};
ghost use Rattle.tree.specs.Modifies.{modify_there, modify};
ghost use Rattle.tree.specs.Operations.{path_in};
ghost use Rattle.tree.specs.inner.Plans.{seen_change, IsChange};
ghost use Rattle.entries.specs.Gives.{Gives};

use crate::planner::Planner;
use crate::plans::Change;
use entries::{Refusal, modified};
use ldif::Mod;
use schema::{Code, Path};

impl Planner<'_> {
    /// The blocks change the entry with this name.
    pub(crate) fn modify_of(&self, dn: &[u8], mods: &[Mod]) -> Result<Change, Refusal>
        ensures change { IfOk result (λ c. IsChange self.now.tree.now c) }
        ensures path { IfOk result (λ c. path_before (seen_change c) ≡ path_in self.now.conf.now (located self.now.conf.now dn.now)) }
        ensures gives { Gives seen_change result (modify self.now.conf.now self.now.tree.now.entries dn.now mods.now) }
    {
        let path = self.conf.path_of_text(self.alloc, dn)?;
        self.modify_at(path, mods)
    }

    // It is there.
    fn modify_at(&self, path: Path, mods: &[Mod]) -> Result<Change, Refusal>
        ensures change { IfOk result (λ c. IsChange self.now.tree.now c) }
        ensures path { IfOk result (λ c. path_before (seen_change c) ≡ Some path) }
        ensures gives { Gives seen_change result (modify_there self.now.conf.now path mods.now (finite.get self.now.tree.now.entries path)) }
    {
        self.tree.entries_are_a_directory();
        let Some((number, entry)) = self.tree.find(&path) else {
            return Err(Refusal::Code(Code::NoSuchObject));
        };
        let entry = modified(self.alloc, self.conf, entry, mods)?;
        Ok(Change::Replace {
            path,
            number,
            entry,
        })
    }
}
