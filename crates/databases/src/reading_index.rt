//! The index of a directory, read from its text.

ghost use Rattle.std.specs.Prelude.{◌≡◌, ◌<◌, ◌-◌, ◌^◌, Some, None, Ok, IfOk, IfErr, OnOk, MatchResult};
ghost use Rattle.std.specs.FinMap as finite;
ghost use Rattle.std.specs.Io.KnownBytes.{IsAtEnd};
ghost use Rattle.base.specs.Answers.{Fails};
ghost use Rattle.device.specs.Device.{GaveSome};
ghost use Rattle.stored_index.specs.Gives.{failures_by, fault_of};
ghost use Rattle.stored_index.specs.Stored.{index_in, shown_by, HasText};
ghost use Rattle.databases.specs.IndexTexts.{stamp as stamp_by, index_text};
ghost use Rattle.databases.specs.Searches.{ShowsIndexText};

use crate::database::Database;
use crate::laws::kept_index_texts_are_read;
use crate::stamps::Stamp;
use device::Source;
use std::alloc::Global;
use stored_index::{IndexFault, StoredIndex};

impl Database {
    /// The index that a text writes of these entries, whose dump has this stamp; or what is wrong with the text, as `StoredIndex::read` tells.
    /// The index text of these entries is read, unless memory runs out or the source fails, and what it is read as shows what that text says.
    pub fn read_index<S: Source>(
        &self,
        alloc: Global,
        source: &mut S,
        stamp: &Stamp,
    ) -> Result<StoredIndex, IndexFault>
        requires stamped { stamp.now ≡ stamp_by self.now.conf self.now.entries }
        requires can_fail { (S.seen source.old).failed < 2 ^ 64 - 1 }
        ensures ok { IfOk result (λ x. HasText (S.seen source.old).left
            (λ text. index_in self.now.conf (finite.len self.now.entries) stamp.now text ≡ Ok x)) }
        ensures err { IfErr result (λ e. HasText (S.seen source.old).left
            (λ text. Fails (fault_of e) (index_in self.now.conf (finite.len self.now.entries) stamp.now text))) }
        ensures index { (S.seen source.old).left ≡ Some (index_text self.now.conf self.now.entries)
            → MatchResult result (λ x. ShowsIndexText (shown_by x) self.now.conf self.now.entries) (λ e. fault_of e ≡ None) }
        ensures failures { (S.seen source.new).failed ≡ failures_by result (S.seen source.old).failed }
        ensures gave { GaveSome (S.seen source.old) (S.seen source.new) }
        ensures end { OnOk result (IsAtEnd (S.seen source.new).left) }
    {
        self.conf().rules_are_kept();
        self.tree().entries_are_a_directory();
        kept_index_texts_are_read();
        StoredIndex::read(alloc, source, self.conf(), stamp, self.tree().len())
    }
}
