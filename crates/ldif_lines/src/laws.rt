//! Laws of what is written and read, and of texts that go on.

ghost use Rattle.std.specs.Prelude.{◌≡◌, ℕ, List, [], ◌∷◌, ◌++◌, map, true};
ghost use Rattle.std.specs.List.{AllByRecursion, flat_map};
ghost use Rattle.std.specs.Str.Lines.{lines};
ghost use Rattle.base.specs.Ascii.{line_feed};
ghost use Rattle.ldif_lines.specs.Records.{RawRecord, IsNumbered, records, closed_records};
ghost use Rattle.ldif_lines.specs.Folding.{AreWritable, CommentedBlock, FitsIn, IsWidth, IsWritableComment, folded_line, written_blocks, written_blocks_to, written_commented, record_lines, raw_lines, raw_block, with_first_flag};

/// Records that are written are read back: as many as there were, with the same lines, the first of them marked as the first.
pub fn written_blocks_are_read()
    ensures lines { (blocks : List (List (List ℕ))) → AllByRecursion AreWritable blocks → map raw_lines (records (written_blocks blocks)) ≡ blocks }
    ensures first { (blocks : List (List (List ℕ))) → AllByRecursion AreWritable blocks → map raw_block (records (written_blocks blocks)) ≡ with_first_flag true blocks }
{}

/// The same of records whose lines are folded to any width.
pub fn folded_blocks_are_read()
    ensures lines { (width : ℕ) (blocks : List (List (List ℕ))) → IsWidth width → AllByRecursion AreWritable blocks
        → map raw_lines (records (written_blocks_to width blocks)) ≡ blocks }
    ensures first { (width : ℕ) (blocks : List (List (List ℕ))) → IsWidth width → AllByRecursion AreWritable blocks
        → map raw_block (records (written_blocks_to width blocks)) ≡ with_first_flag true blocks }
{}

/// No line that is written is longer than its width, and one that fits is not folded.
pub fn folded_lines_fit()
    ensures fit { (width : ℕ) (blocks : List (List (List ℕ))) → IsWidth width → AllByRecursion AreWritable blocks
        → AllByRecursion (FitsIn width) (lines (written_blocks_to width blocks)) }
    ensures whole { (width : ℕ) (line : List ℕ) → FitsIn width line → folded_line width line ≡ line ++ line_feed ∷ [] }
{}

/// Records that are written with a comment in front of each are read back without the comments.
pub fn commented_blocks_are_read()
    ensures { (blocks : List CommentedBlock) → AllByRecursion IsWritableComment blocks
        → map raw_block (records (flat_map written_commented blocks)) ≡ with_first_flag true (map record_lines blocks) }
{}

/// The records whose closing empty line stands in a text are the first records of each text that begins with it.
pub fn closed_records_come_first()
    ensures { (text more : List ℕ) → (rest : List RawRecord) × (records (text ++ more) ≡ closed_records text ++ rest) }
{}

/// Each line of a record that is read has the number of the text's line on which it begins.
pub fn lines_are_numbered()
    ensures { (text : List ℕ) → AllByRecursion IsNumbered (records text) }
{}
