//! What an index text is read as, and what it says.

ghost use Rattle.std.specs.Prelude.{◌≡◌, ◌<◌, ◌^◌, ℕ, List, length, Ok, Err};
ghost use Rattle.std.specs.List.{AllByRecursion};
ghost use Rattle.schema.specs.Conf.{Conf, IsConf};
ghost use Rattle.index_text.specs.IndexTexts.{Rows, index_text};
ghost use Rattle.stored_index.specs.Reading.{rows_in};
ghost use Rattle.stored_index.specs.FaultyLines.{IsHeader, IsIndexFault};
ghost use Rattle.stored_index.specs.FaultLines.{IsFaultLine};
ghost use Rattle.stored_index.specs.declared.fault_lines.FaultLine.{FaultLine};
ghost use Rattle.stored_index.specs.Rows.{IsByte, AreRows};
ghost use Rattle.stored_index.specs.declared.fault.IndexFaultKind.{IndexFaultKind};

/// A text that can be read is the text of the rows that it is read as, and these are rows of so many entries, in the slots of the
/// configuration.
pub fn read_texts_are_written()
    ensures text { (conf : Conf) (entries : ℕ) (stamp text : List ℕ) (rows : Rows) → rows_in conf entries stamp text ≡ Ok rows → text ≡ index_text conf.types entries stamp rows }
    ensures rows { (conf : Conf) (entries : ℕ) (stamp text : List ℕ) (rows : Rows) → rows_in conf entries stamp text ≡ Ok rows → AreRows conf.slots entries rows }
{}

/// The text of the rows of an index is read as these rows, where a number of ten digits can say how many entries there are.
pub fn written_texts_are_read()
    ensures { (conf : Conf) (entries : ℕ) (stamp : List ℕ) (rows : Rows) → IsConf conf → entries < 10 ^ 10 → length stamp ≡ 32 → AllByRecursion IsByte stamp
        → AreRows conf.slots entries rows → rows_in conf entries stamp (index_text conf.types entries stamp rows) ≡ Ok rows }
{
    schema::printed_names_name_their_types();
}

/// What the fault of a text means: which line is at fault, behind lines that aren't, and what is wrong with it.
pub fn faults_stand_at_lines()
    ensures { (conf : Conf) (entries : ℕ) (stamp text : List ℕ) (kind : IndexFaultKind) → IsConf conf → rows_in conf entries stamp text ≡ Err kind → IsIndexFault conf entries stamp text kind }
{
    schema::printed_names_name_their_types();
}

/// A text that has such a fault is refused with it, where a header can say how many entries there are and which stamp. So it has one such
/// fault at most.
pub fn texts_at_fault_are_refused()
    ensures { (conf : Conf) (entries : ℕ) (stamp text : List ℕ) (kind : IndexFaultKind) → IsConf conf → IsHeader entries stamp → IsIndexFault conf entries stamp text kind
        → rows_in conf entries stamp text ≡ Err kind }
{
    schema::printed_names_name_their_types();
}

/// A text has one line at most that `fault_line` may tell, where a header can say how many entries there are and which stamp.
pub fn one_line_is_at_fault()
    ensures { (conf : Conf) (entries : ℕ) (stamp text : List ℕ) (f g : FaultLine) → IsHeader entries stamp → IsFaultLine conf entries stamp text f → IsFaultLine conf entries stamp text g → f ≡ g }
{}
