//! Laws of directories under another suffix, for the crates above.

ghost use Rattle.std.specs.Prelude.{◌≡◌, ℕ, List, Ok, Err};
ghost use Rattle.schema.specs.declared.code.Code.{Code};
ghost use Rattle.schema.specs.Rdns.{TypedRdn};
ghost use Rattle.schema.specs.Conf.{Conf, IsConf, located, located_at};
ghost use Rattle.tree.specs.Directories.{Entries, IsDirectory};
ghost use Rattle.dir_conf.specs.Configurations.{conf_of};
ghost use Rattle.suffixes.specs.Configurations.{suffix_in, with_suffix, conf_under};
ghost use Rattle.suffixes.specs.SuffixLines.{ChangesSuffix, SaysOrIsRefused, BothSay, ReplacesSuffixLine};
ghost use Rattle.suffixes.specs.MovedDirectories.{move_by, moved_directory};
ghost use Rattle.suffixes.specs.MovedEntries.{AreMoved};
ghost use Rattle.suffixes.specs.MovedValues.{moved_value};

/// The name of something at the suffix or below it, in whatever spelling, becomes a name of what stands at the same RDNs below the new suffix. Any other
/// value stays.
pub fn moved_names_keep_their_places()
    ensures place { (conf : Conf) (name : List ℕ) (rdns : List TypedRdn) (value : List ℕ) (rs : List TypedRdn) → IsConf conf → suffix_in conf.types name ≡ Ok rdns
        → located conf value ≡ located_at rs → located (with_suffix conf rdns) (moved_value conf name value) ≡ located_at rs }
    ensures others { (conf : Conf) (name value : List ℕ) (code : Code) → located conf value ≡ Err code → moved_value conf name value ≡ value }
{
    dn::spelled_names_are_read();
}

/// Where a directory can be under another suffix, each entry is at its old place below that, with its values of DN syntax moved; the suffix's entry is
/// then renamed.
pub fn each_entry_is_moved()
    ensures { (conf : Conf) (rdns : List TypedRdn) (name : List ℕ) (d moved : Entries) → IsConf conf → IsConf (with_suffix conf rdns) → IsDirectory conf d
        → moved_directory (move_by conf (with_suffix conf rdns) name d) ≡ Ok moved → AreMoved (move_by conf (with_suffix conf rdns) name d) moved }
{
    schema::printed_names_name_their_types();
    schema::written_names_are_located();
}

/// The text of a `dir.conf` with another name in its suffix line says what `conf_under` makes of the configuration: the same with the suffix that the
/// name spells. Where the name spells none, the text is refused at that line.
pub fn suffix_lines_say_the_suffix()
    ensures { (old new name : List ℕ) (conf : Conf) → ChangesSuffix old new name → conf_of old ≡ Ok conf
        → SaysOrIsRefused new (conf_under conf name) }
{}

/// A text has another name in its suffix line where `suffix "NAME"` stands in place of that line, and the same bytes stand above and below; or
/// `suffix NAME`, where the name needs no quotes.
pub fn suffix_lines_are_replaced()
    ensures { (old new name : List ℕ) → ReplacesSuffixLine old new name → ChangesSuffix old new name }
{}

/// Where two texts differ in their suffix line alone, and both say configurations, a directory of the first one that can be under the second one has its
/// entries moved there, as `each_entry_is_moved` says.
pub fn entries_move_by_suffix_lines()
    ensures { (old new name : List ℕ) (conf under : Conf) (d moved : Entries) → BothSay old new name conf under → IsDirectory conf d
        → moved_directory (move_by conf under name d) ≡ Ok moved → AreMoved (move_by conf under name d) moved }
{
    definitions::defined_types_have_names();
    dn::spelled_names_are_read();
    each_entry_is_moved();
}
