//! Laws of directories, for the crates above.

ghost use Rattle.std.specs.Prelude.{◌≡◌, true, false, Some, List, ℕ};
ghost use Rattle.std.specs.FinMap as finite;
ghost use Rattle.ldif.specs.Attrs.{Attr};
ghost use Rattle.ldif.specs.Contents.{IsWritableContent};
ghost use Rattle.ldif.specs.declared.record.Mode.{Mode};
ghost use Rattle.paths.specs.Paths.{Path};
ghost use Rattle.schema.specs.Conf.{Conf, IsConf};
ghost use Rattle.entries.specs.Entries.{EntryContent};
ghost use Rattle.tree.specs.Directories.{Entries, IsDirectory, record_at};
ghost use Rattle.tree.specs.Changes.{Change, Move, changed, allowed, MayStand, MayMove, IsMoved};
ghost use Rattle.tree.specs.Trees.{has_child};
ghost use Rattle.tree.specs.Adds.{add, MayCome, LoadsAs};

/// The empty map is a directory.
pub fn empty_is_a_directory()
    ensures { (conf : Conf) → IsDirectory conf finite.empty }
{}

/// A directory stays one when an entry is added.
pub fn adding_keeps_a_directory()
    ensures { (conf : Conf) (mode : Mode) (d : Entries) (dn : List ℕ) (lines : List Attr) (change : Change) → IsConf conf → IsDirectory conf d → add conf mode d dn lines ≡ allowed change → IsDirectory conf (changed d change) }
{
    schema::located_rdns_are_good();
}

/// A directory stays one when an entry that has no child is taken away.
pub fn removing_keeps_a_directory()
    ensures { (conf : Conf) (d : Entries) (p : Path) → IsDirectory conf d → has_child d p ≡ false → IsDirectory conf (finite.remove d p) }
{}

/// A directory stays one when an entry comes in place of another.
pub fn replacing_keeps_a_directory()
    ensures { (conf : Conf) (d : Entries) (p : Path) (e : EntryContent) → IsDirectory conf d → finite.contains_key d p ≡ true → MayStand conf p e → IsDirectory conf (finite.insert d p e) }
{}

/// A directory stays one when an entry moves to where it may, with all below it.
pub fn moving_keeps_a_directory()
    ensures { (conf : Conf) (d : Entries) (from to : Path) (e : EntryContent) → IsDirectory conf d → MayMove d from to → MayStand conf to e → IsDirectory conf (changed d (Move from to e)) }
{}

/// What a move leaves at each path: the entry at its new one, each other where its own leads, and nothing else.
pub fn moving_takes_all_along()
    ensures { (conf : Conf) (d : Entries) (from to : Path) (e : EntryContent) → IsDirectory conf d → finite.contains_key d to ≡ false → IsMoved d from to e (changed d (Move from to e)) }
{}

/// Loading what an entry is written as gives that entry again, wherever it may come.
pub fn an_entry_adds_itself()
    ensures { (conf : Conf) (d m : Entries) (p : Path) (e : EntryContent) → IsConf conf → IsDirectory conf d → finite.get d p ≡ Some e → MayCome m p → LoadsAs conf m (record_at conf d p e) p e }
{
    schema::printed_names_name_their_types();
    schema::written_names_are_located();
}

/// What an entry is written as can be written.
pub fn own_content_is_written()
    ensures { (conf : Conf) (d : Entries) (p : Path) (e : EntryContent) → IsConf conf → IsDirectory conf d → finite.get d p ≡ Some e → IsWritableContent (record_at conf d p e) }
{
    schema::printed_names_name_their_types();
    schema::written_names_are_located();
    schema::valid_values_are_bytes();
}
