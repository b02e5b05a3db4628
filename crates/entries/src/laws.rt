//! Laws of entries, for the crates above.

ghost use Rattle.std.specs.Prelude.{◌≡◌, ◌↔◌, Bool, true, List};
ghost use Rattle.ldif.specs.declared.record.Mod.{Mod};
ghost use Rattle.schema.specs.Conf.{Conf, IsConf};
ghost use Rattle.schema.specs.Rdns.{TypedRdn};
ghost use Rattle.schema.specs.GoodRdns.{IsRdn};
ghost use Rattle.entries.specs.Entries.{Attributes, EntryContent, IsGood, IsGoodWith};
ghost use Rattle.entries.specs.EntryClasses.{fits_classes, FitsClasses};
ghost use Rattle.entries.specs.Modifies.{modify_entry, rename_entry, changed_to};

/// What a configuration's object classes ask of an entry is what each class that it is of asks.
pub fn classes_are_kept()
    ensures { (conf : Conf) (attrs : Attributes) → IsConf conf → (fits_classes conf attrs ≡ true) ↔ FitsClasses conf attrs }
{
    schema::superclasses_are_listed();
}

/// A modify leaves an entry that a directory can have, with its RDN.
pub fn modifying_keeps_an_entry()
    ensures { (conf : Conf) (e out : EntryContent) (mods : List Mod) → IsGood conf e → modify_entry conf e mods ≡ changed_to out → IsGoodWith conf e.rdn out }
{}

/// Another RDN leaves an entry that a directory can have.
pub fn renaming_keeps_an_entry()
    ensures { (conf : Conf) (e out : EntryContent) (new : TypedRdn) (delete_old : Bool) → IsGood conf e → IsRdn conf.types new → rename_entry conf e new delete_old ≡ changed_to out → IsGoodWith conf new out }
{}
