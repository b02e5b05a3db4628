//! Laws of flaws and result codes.

ghost use Rattle.std.specs.Prelude.{◌≡◌, ◌↔◌, Err};
ghost use Rattle.ldif.specs.declared.record.Mode.{Mode};
ghost use Rattle.ldif.specs.declared.record.Record.{Record};
ghost use Rattle.schema.specs.declared.code.Code.{Code};
ghost use Rattle.schema.specs.Conf.{Conf};
ghost use Rattle.tree.specs.Directories.{Entries};
ghost use Rattle.tree.specs.Changes.{Change, allowed};
ghost use Rattle.tree.specs.Operations.{change_of};
ghost use Rattle.reasons.specs.Flaws.{Flaw, IsFirst, IsRefused, IsFlawless, IsAllowed, IsGranted};

/// A record is refused with a code exactly where that is the code of its first flaw, and allowed exactly where it has none
/// (RFC 4511, 4.6 to 4.9). One flaw is the first.
pub fn a_refusal_is_of_the_first_flaw()
    ensures refused { (conf : Conf) (mode : Mode) (d : Entries) (r : Record) (c : Code) → (change_of conf mode d r ≡ Err c) ↔ IsRefused conf mode d r c }
    ensures allowed { (conf : Conf) (mode : Mode) (d : Entries) (r : Record) → IsAllowed (change_of conf mode d r) ↔ IsFlawless conf mode d r }
    ensures one { (conf : Conf) (mode : Mode) (d : Entries) (r : Record) (f g : Flaw) → IsFirst conf mode d r f → IsFirst conf mode d r g → f ≡ g }
{}

/// A record comes to a change exactly where it has no flaw and asks for that change.
pub fn a_change_has_no_flaw()
    ensures { (conf : Conf) (mode : Mode) (d : Entries) (r : Record) (c : Change) → (change_of conf mode d r ≡ allowed c) ↔ IsGranted conf mode d r c }
{}
