//! Laws of values, for the crates above.

ghost use Rattle.std.specs.Prelude.{◌≡◌, ℕ, true, List, ℤ};
ghost use Rattle.std.specs.List.{list_all};
ghost use Rattle.matching.specs.declared.family.Family.{Family};
ghost use Rattle.matching.specs.declared.syntax.Syntax.{Syntax};
ghost use Rattle.matching.specs.Forms.{norm};
ghost use Rattle.matching.specs.Integers.{is_integer, value};
ghost use Rattle.matching.specs.IntegerTexts.{Spells, IsInRange};
ghost use Rattle.matching.specs.Syntaxes.{is_byte, is_valid};

/// Valid values are bytes.
pub fn valid_values_are_bytes()
    ensures { (syntax : Syntax) (value : List ℕ) → is_valid syntax value ≡ true → list_all is_byte value ≡ true }
{}

/// A normal form is its own normal form.
pub fn normal_forms_stay()
    ensures { (family : Family) (bytes : List ℕ) → norm family (norm family bytes) ≡ norm family bytes }
{}

/// A text is a value of INTEGER syntax exactly where it spells a number in range, and that number is its value.
pub fn integers_are_spelled()
    ensures only { (text : List ℕ) → is_integer text ≡ true → Spells text (value text) × IsInRange (value text) }
    ensures found { (text : List ℕ) (n : ℤ) → Spells text n → IsInRange n → is_integer text ≡ true }
    ensures number { (text : List ℕ) (n : ℤ) → Spells text n → value text ≡ n }
{}
