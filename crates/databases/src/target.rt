//! What the records of a run are carried out on.

ghost use Rattle.std.specs.Prelude.{◌≡◌, ℕ, OnErr};
ghost use Rattle.schema.specs.Conf as configurations;
ghost use Rattle.entries.specs.Gives.{Gives};
ghost use Rattle.tree.specs.Directories.{Entries};
ghost use Rattle.tree.specs.Operations.{apply};
ghost use Rattle.databases.specs.RunEdits.{CountEdits, RiseBy};

use entries::Refusal;
use ldif::{Mode, Record};
use std::alloc::Global;
use tree::LentTree;

/// What the records of a run are carried out on: a `Database`, or a directory, which keeps an index with its entries.
///
/// Contracts see of it its configuration, its entries, how many edits of its index were made, and how many of them a record makes.
pub trait Target {
    ghost conf: { Self → configurations.Conf };

    ghost entries: { Self → Entries };

    ghost edits: { Self → ℕ };

    ghost count_edits: { CountEdits };

    /// The entries, and their configuration.
    fn lent(&self) -> LentTree<'_>
        ensures { result.conf.now ≡ conf self.now };

    /// Carries out a record, or refuses it with the code of the first check that fails (RFC 4511, 4.6 to 4.9). A refusal, also for want of
    /// memory, changes no entry. Edits that came before memory ran out are taken back, an edit each again.
    fn carry_out(&mut self, alloc: Global, asked: &Record<'_>, mode: Mode) -> Result<(), Refusal>
        ensures same_conf { conf self.new ≡ conf self.old }
        ensures gives { Gives (λ _. entries self.new) result (apply (conf self.old) mode (entries self.old) asked.now) }
        ensures err { OnErr result (entries self.new ≡ entries self.old) }
        ensures edits { RiseBy result (count_edits (conf self.old) mode (entries self.old) asked.now) (edits self.old) (edits self.new) };
}
