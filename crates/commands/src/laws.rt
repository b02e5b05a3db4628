//! Laws of what check reports.

ghost use Rattle.std.specs.Prelude.{ℕ, List, Option};
ghost use Rattle.schema.specs.Conf.{Conf};
ghost use Rattle.tree.specs.Directories.{Entries};
ghost use Rattle.commands.specs.SoundFolders.{ConfAgrees, DataAgrees, IndexAgrees};

/// Check reports nothing of dir.conf, of data.ldif and of index.txt exactly where dir.conf says a configuration, other commands load data.ldif, and
/// index.txt is the one of slapindex or isn't there.
pub fn sound_folders_have_no_reports()
    ensures conf { (text : List ℕ) → ConfAgrees text }
    ensures data { (conf : Conf) (found : Option (Option (List ℕ))) (d : Entries) → DataAgrees conf found d }
    ensures index { (conf : Conf) (d : Entries) (index : Option (List ℕ)) → IndexAgrees conf d index }
{}
