//! Plans of a delete (RFC 4511, 4.8).

ghost use Rattle.std.specs.Prelude.{◌≡◌, IfOk, Some};
ghost use Rattle.schema.specs.Conf.{located};
ghost use Rattle.tree.specs.Changes.{path_before};
ghost use Rattle.tree.specs.Deletes.{delete_at, delete};
ghost use Rattle.tree.specs.Operations.{path_in};
ghost use Rattle.tree.specs.inner.Plans.{seen_change, IsChange};
ghost use Rattle.entries.specs.Gives.{Gives};

use crate::laws::removing_keeps_a_directory;
use crate::planner::Planner;
use crate::plans::Change;
use entries::Refusal;
use schema::{Code, Path};

impl Planner<'_> {
    /// The entry with this name is taken away.
    pub(crate) fn delete_of(&self, dn: &[u8]) -> Result<Change, Refusal>
        ensures change { IfOk result (λ c. IsChange self.now.tree.now c) }
        ensures path { IfOk result (λ c. path_before (seen_change c) ≡ path_in self.now.conf.now (located self.now.conf.now dn.now)) }
        ensures gives { Gives seen_change result (delete self.now.conf.now self.now.tree.now.entries dn.now) }
    {
        let path = self.conf.path_of_text(self.alloc, dn)?;
        self.delete_at(path)
    }

    // It is there, and nothing stands below it.
    fn delete_at(&self, path: Path) -> Result<Change, Refusal>
        ensures change { IfOk result (λ c. IsChange self.now.tree.now c) }
        ensures path { IfOk result (λ c. path_before (seen_change c) ≡ Some path) }
        ensures gives { Gives seen_change result (delete_at self.now.tree.now.entries path) }
    {
        self.tree.entries_are_a_directory();
        self.tree.entries_are_numbered();
        removing_keeps_a_directory();
        let Some(number) = self.tree.number(&path) else {
            return Err(Refusal::Code(Code::NoSuchObject));
        };
        if self.tree.has_child(&path) {
            return Err(Refusal::Code(Code::NotAllowedOnNonLeaf));
        }
        Ok(Change::Remove { path, number })
    }
}
