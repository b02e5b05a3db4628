//! Laws of loading a text that was sorted.

ghost use Rattle.std.specs.Prelude.{◌≡◌, ℕ, Bool, true, false, List, ◌∷◌, ◌++◌};
ghost use Rattle.std.specs.FinMap as finite;
ghost use Rattle.paths.specs.Paths.{Path, parent_of};
ghost use Rattle.ldif_lines.specs.Records.{RawRecord, records};
ghost use Rattle.ldif.specs.declared.record.Mode.TheVariants.{Content};
ghost use Rattle.schema.specs.Conf.{Conf};
ghost use Rattle.tree.specs.Directories.{Entries};
ghost use Rattle.databases.specs.Runs.{state_after, loaded_after};
ghost use Rattle.sorting.specs.NormalNames.{name_read};
ghost use Rattle.sorting.specs.Orders.{is_above};
ghost use Rattle.sorting.specs.Sorted.{sorted_text};
ghost use Rattle.sorted_loads.specs.Orphans.{IsRecordAt, IsOrphan, WasRefused, outcome_in, refused_orphan};

/// A record whose entry has a parent that isn't there is refused for that: 32 (RFC 4511, 4.7). Where those of a text that was sorted are carried out
/// in turn, from any directory on, and it comes to such a record, each record of the parent in the text, if it is above this one by their names as
/// text, stands before it and was refused itself. Entries that are there stay.
pub fn parents_come_first()
    ensures refused { (conf : Conf) (d : Entries) (r : RawRecord) (p : Path)
        → IsOrphan conf d r p → outcome_in conf d r ≡ refused_orphan d }
    ensures kept { (conf : Conf) (go_on : Bool) (d : Entries) (given : List RawRecord) (p : Path)
        → finite.contains_key d p ≡ true → finite.contains_key (state_after conf Content go_on d given).entries p ≡ true }
    ensures parents { (conf : Conf) (go_on : Bool) (d : Entries) (text : List ℕ)
        (before behind front rest : List RawRecord) (r q : RawRecord) (p : Path)
        → records (sorted_text text) ≡ before ++ r ∷ behind → (state_after conf Content go_on d before).ended ≡ false
        → IsOrphan conf (state_after conf Content go_on d before).entries r p
        → records (sorted_text text) ≡ front ++ q ∷ rest → IsRecordAt conf q (parent_of p)
        → is_above (name_read q) (name_read r) ≡ true → WasRefused conf go_on d before front q }
{
    sorting::records_are_in_order();
    paths::order_of_paths();
}

/// A load without -c that comes to such a record comes to it since the text has no record of the parent that is above it, before it or behind it.
pub fn parents_are_there_first()
    ensures { (conf : Conf) (d : Entries) (text : List ℕ)
        (before behind front rest : List RawRecord) (r q : RawRecord) (p : Path)
        → records (sorted_text text) ≡ before ++ r ∷ behind → (loaded_after conf d before).ended ≡ false
        → IsOrphan conf (loaded_after conf d before).entries r p
        → records (sorted_text text) ≡ front ++ q ∷ rest → IsRecordAt conf q (parent_of p)
        → is_above (name_read q) (name_read r) ≡ false }
{
    parents_come_first();
}
