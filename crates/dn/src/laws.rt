//! What holds of the definitions.

ghost use Rattle.std.specs.Prelude.{◌≡◌, ◌↔◌, ℕ, List, true, Ok, Err};
ghost use Rattle.std.specs.List.{list_all};
ghost use Rattle.dn.specs.declared.faults.NameFaultKind.{NameFaultKind};
ghost use Rattle.dn.specs.Names.{Name, is_byte, is_ascii, is_name};
ghost use Rattle.dn.specs.Spelling.{Spells};
ghost use Rattle.dn.specs.Reading.{name_of};
ghost use Rattle.dn.specs.NameFaults.{IsNameFault};
ghost use Rattle.dn.specs.Writing.{text_of};

/// No text spells two names.
pub fn texts_spell_one_name()
    ensures { (text : List ℕ) (n m : Name) → Spells text n → Spells text m → n ≡ m }
{}

/// A name is read exactly from the texts that spell it; it is one that can be written.
pub fn spelled_names_are_read()
    ensures read { (text : List ℕ) (n : Name) → (name_of text ≡ Ok n) ↔ Spells text n }
    ensures good { (text : List ℕ) (n : Name) → list_all is_byte text ≡ true → name_of text ≡ Ok n → is_name n ≡ true }
{}

/// A text has a fault exactly where its reading from the left stops, by what stands there; it has one such fault at most, and none
/// where it spells a name.
pub fn faults_stand_where_reading_stops()
    ensures fault { (text : List ℕ) (fault : NameFaultKind) → (name_of text ≡ Err fault) ↔ IsNameFault text fault }
    ensures one { (text : List ℕ) (f g : NameFaultKind) → IsNameFault text f → IsNameFault text g → f ≡ g }
    ensures apart { (text : List ℕ) (n : Name) (fault : NameFaultKind) → Spells text n → IsNameFault text fault → ⊥ }
{}

/// The text that is written for a name spells it and is read as it; it is ASCII.
pub fn written_names_are_read()
    ensures spelled { (n : Name) → is_name n ≡ true → Spells (text_of n) n }
    ensures read { (n : Name) → is_name n ≡ true → name_of (text_of n) ≡ Ok n }
    ensures ascii { (n : Name) → is_name n ≡ true → list_all is_ascii (text_of n) ≡ true }
{}
