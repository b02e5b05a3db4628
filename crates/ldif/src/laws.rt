//! What holds of the definitions.

ghost use Rattle.std.specs.Prelude.{◌≡◌, ◌↔◌, ◌++◌, Bool, List, ℕ, true, Ok, Err, map};
ghost use Rattle.std.specs.List.{list_all, flat_map, AllByRecursion};
ghost use Rattle.base64.specs.GeneralPurpose.{IsBytes};
ghost use Rattle.std.specs.Str.Lines.{lines};
ghost use Rattle.ldif_lines.specs.Folding.{FitsIn, IsWidth, IsWritable};
ghost use Rattle.ldif.specs.declared.fault.LdifFaultKind.{LdifFaultKind};
ghost use Rattle.ldif.specs.Attrs.{Attr};
ghost use Rattle.ldif.specs.declared.record.Mode.{Mode};
ghost use Rattle.ldif.specs.declared.record.Mode.TheVariants.{Changes, Content};
ghost use Rattle.ldif.specs.declared.record.Record.{Record};
ghost use Rattle.ldif.specs.LineFaults.{IsLineFault};
ghost use Rattle.ldif.specs.Forms.{IsValueLine, IsRecord};
ghost use Rattle.ldif.specs.Places.{Place, start, IsStep, IsWay, LeadToAPlace, BeginARecord};
ghost use Rattle.ldif.specs.RecordFaults.{IsFaultHere, IsRecordFault};
ghost use Rattle.ldif.specs.Reading.{reading};
ghost use Rattle.ldif.specs.Line.{value_line};
ghost use Rattle.ldif.specs.Writing.{line_text};
ghost use Rattle.ldif.specs.Changes.{CommentedChange, IsWritableComment, write_change, change_of, read_as_itself};
ghost use Rattle.ldif.specs.Contents.{is_byte, IsName, ContentRecord, IsWritableContent, write_content, write_content_to, readings, reading_of, as_record};

/// The line of a name and a value can be written.
pub fn line_texts_are_writable()
    ensures { (name value : List ℕ) → IsName name → IsWritable (line_text name value) }
{}

/// The line of a name and a value says this name and this value.
pub fn written_lines_are_read()
    ensures { (name value : List ℕ) → IsName name → list_all is_byte value ≡ true → value_line (line_text name value) ≡ Ok (record { name = name; value = value }) }
{}

/// Content records that are written one after another are read back, one for each.
pub fn written_contents_are_read()
    ensures { (cs : List ContentRecord) → AllByRecursion IsWritableContent cs → map reading_of (readings Content (flat_map write_content cs)) ≡ map as_record cs }
{
    ldif_lines::written_blocks_are_read();
}

/// The same of content records whose lines are folded to any width.
pub fn folded_contents_are_read()
    ensures { (width : ℕ) (cs : List ContentRecord) → IsWidth width → AllByRecursion IsWritableContent cs
        → map reading_of (readings Content (flat_map (write_content_to width) cs)) ≡ map as_record cs }
{
    ldif_lines::folded_blocks_are_read();
}

/// No line of content records that are written is longer than its width.
pub fn folded_contents_fit()
    ensures { (width : ℕ) (cs : List ContentRecord) → IsWidth width → AllByRecursion IsWritableContent cs
        → AllByRecursion (FitsIn width) (lines (flat_map (write_content_to width) cs)) }
{
    ldif_lines::folded_lines_fit();
}

/// Change records without controls that are written one after another, a comment before each, are read back, one for each.
pub fn written_changes_are_read()
    ensures { (add : Bool) (cs : List CommentedChange) → AllByRecursion IsWritableComment cs
        → map reading_of (readings (Changes add) (flat_map write_change cs)) ≡ map read_as_itself (map change_of cs) }
{
    ldif_lines::commented_blocks_are_read();
}

/// A line is read exactly where it has the form of a value line, and as the name and the value of that form.
pub fn lines_have_forms()
    ensures { (line : List ℕ) (attr : Attr) → IsBytes line → (value_line line ≡ Ok attr) ↔ IsValueLine line attr }
{}

/// Lines are read exactly where they have the form of a record, and as the record of that form.
pub fn records_have_forms()
    ensures { (mode : Mode) (first : Bool) (lines : List (List ℕ)) (found : Record) → AllByRecursion IsBytes lines
        → (reading mode first lines ≡ Ok found) ↔ IsRecord mode first lines found }
{}

/// A line that has no such form has one of the four faults that a line has by itself: the first of them in their order.
pub fn line_faults_have_forms()
    ensures { (line : List ℕ) (fault : LdifFaultKind) → IsBytes line → (value_line line ≡ Err fault) ↔ IsLineFault line fault }
{}

/// Lines are no record exactly where they lead to a place of a record at which the next line, or the end, has a fault: the line by
/// itself, or else by its place. They have one such fault at most, and none where they are a record.
pub fn record_faults_have_places()
    ensures fault { (mode : Mode) (first : Bool) (lines : List (List ℕ)) (fault : LdifFaultKind) → AllByRecursion IsBytes lines
        → (reading mode first lines ≡ Err fault) ↔ IsRecordFault mode first lines fault }
    ensures one { (mode : Mode) (first : Bool) (lines : List (List ℕ)) (f g : LdifFaultKind) → AllByRecursion IsBytes lines
        → IsRecordFault mode first lines f → IsRecordFault mode first lines g → f ≡ g }
    ensures apart { (mode : Mode) (first : Bool) (lines : List (List ℕ)) (found : Record) (fault : LdifFaultKind) → AllByRecursion IsBytes lines
        → IsRecord mode first lines found → IsRecordFault mode first lines fault → ⊥ }
{}

/// The places are those of records: lines lead to one exactly where further lines can make them a record, and no line both leads on
/// from a place and has a fault there.
pub fn places_stand_in_records()
    ensures begin { (mode : Mode) (first : Bool) (lines : List (List ℕ)) (place : Place) → AllByRecursion IsBytes lines → IsWay mode (start first) lines place
        → BeginARecord mode first lines }
    ensures led { (mode : Mode) (first : Bool) (lines more : List (List ℕ)) (found : Record) → AllByRecursion IsBytes lines
        → IsRecord mode first (lines ++ more) found → LeadToAPlace mode first lines }
    ensures apart { (mode : Mode) (place next : Place) (line : List ℕ) (fault : LdifFaultKind) → IsBytes line → IsStep mode place line next → IsFaultHere place line fault → ⊥ }
{}
