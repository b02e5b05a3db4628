//! Laws of definitions, for the crates above.

ghost use Rattle.std.specs.Prelude.{◌≡◌, ℕ, true, Some, List};
ghost use Rattle.std.specs.List.{list_all};
ghost use Rattle.definitions.specs.declared.class_definition.ClassDefinition.{ClassDefinition};
ghost use Rattle.definitions.specs.declared.type_definition.TypeDefinition.{TypeDefinition};
ghost use Rattle.definitions.specs.declared.lines.Line.{Line};
ghost use Rattle.definitions.specs.Lines.{lines_of};
ghost use Rattle.definitions.specs.LineGrammar.{AreLines};
ghost use Rattle.base.specs.Naming.{is_oid, is_type_name};
ghost use Rattle.definitions.specs.TypeDefinitions.{type_definition_of};
ghost use Rattle.definitions.specs.TypeGrammar.{IsTypeField, SpellsType, AreTypeFieldsMoved};
ghost use Rattle.definitions.specs.ClassDefinitions.{class_definition_of};
ghost use Rattle.definitions.specs.ClassGrammar.{IsClassField, SpellsClass, AreClassFieldsMoved};
ghost use Rattle.definitions.specs.Grammar.{FieldsStandInAnyOrder};

/// A type that a text defines has a numeric OID, and names that types may have.
pub fn defined_types_have_names()
    ensures oid { (text : List ℕ) (d : TypeDefinition) → type_definition_of text ≡ Some d → is_oid d.element.oid ≡ true }
    ensures names { (text : List ℕ) (d : TypeDefinition) → type_definition_of text ≡ Some d → list_all is_type_name d.element.names ≡ true }
{}

/// An attribute type is read from the texts that spell it, as they spell it, and from no others.
pub fn spelled_types_are_read()
    ensures only { (text : List ℕ) (d : TypeDefinition) → type_definition_of text ≡ Some d → SpellsType text d }
    ensures found { (text : List ℕ) (d : TypeDefinition) → SpellsType text d → type_definition_of text ≡ Some d }
{}

/// An object class is read from the texts that spell it, as they spell it, and from no others.
pub fn spelled_classes_are_read()
    ensures only { (text : List ℕ) (d : ClassDefinition) → class_definition_of text ≡ Some d → SpellsClass text d }
    ensures found { (text : List ℕ) (d : ClassDefinition) → SpellsClass text d → class_definition_of text ≡ Some d }
{}

/// Fields may stand in any order: where two texts have the same OID and the same fields, they are read alike. Extensions are listed
/// in the order in which they stand, so among themselves they keep it.
pub fn fields_stand_in_any_order()
    ensures types { FieldsStandInAnyOrder IsTypeField AreTypeFieldsMoved type_definition_of }
    ensures classes { FieldsStandInAnyOrder IsClassField AreClassFieldsMoved class_definition_of }
{}

/// The lines of a text are those that stand there: each stands between ends of lines, with the lines that it goes on on.
pub fn lines_stand_in_texts()
    ensures only { (text : List ℕ) → AreLines text (lines_of text) }
    ensures found { (text : List ℕ) (lines : List Line) → AreLines text lines → lines_of text ≡ lines }
{}
