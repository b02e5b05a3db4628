//! Laws of configurations, for the crates above.

ghost use Rattle.std.specs.Prelude.{◌≡◌, ◌↔◌, ℕ, Err, Ok, List};
ghost use Rattle.dir_conf.specs.declared.conf_fault.ConfFaultKind.{ConfFaultKind};
ghost use Rattle.dir_conf.specs.Configurations.{conf_of};
ghost use Rattle.dir_conf.specs.FaultyLines.{IsConfFault};
ghost use Rattle.dir_conf.specs.Inherited.{defined_on_lines, AreInherited};
ghost use Rattle.definitions.specs.Lines.{lines_of};
ghost use Rattle.schema.specs.Conf.{Conf};

use definitions::{defined_types_have_names, spelled_classes_are_read, spelled_types_are_read};

/// Which fault a configuration has: that of the first line that is at fault beside what is defined above it; where none is, that of the
/// first suffix or index that is; and last, that no suffix stands. It has one such fault at most.
pub fn conf_faults_stand_at_lines()
    ensures fault { (text : List ℕ) (line : ℕ) (kind : ConfFaultKind) → (conf_of text ≡ Err (line, kind)) ↔ IsConfFault text line kind }
    ensures one { (text : List ℕ) (a b : ℕ) (j k : ConfFaultKind) → IsConfFault text a j → IsConfFault text b k → (a ≡ b) × (j ≡ k) }
{
    spelled_types_are_read();
    spelled_classes_are_read();
}

/// What a type takes from those above it (RFC 4512, 2.5.1): the equality rule and the syntax of the nearest type at or above it that
/// states one, and a rule of order or of substrings where the nearest type that states one states it beside such an equality rule.
pub fn types_inherit_from_the_nearest()
    ensures { (text : List ℕ) (conf : Conf) → conf_of text ≡ Ok conf → AreInherited conf.types (defined_on_lines (lines_of text)) }
{
    defined_types_have_names();
}
