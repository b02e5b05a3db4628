//! What holds of dumps, of index texts, and of searches among candidates.

ghost use Rattle.std.specs.Prelude.{◌≡◌, length, Ok, ℕ, Bool, List, Option, Some};
ghost use Rattle.std.specs.Str.Lines.{lines};
ghost use Rattle.std.specs.List.{AllByRecursion, slice_get};
ghost use Rattle.std.specs.FinMap as finite;
ghost use Rattle.paths.specs.Paths.{Path};
ghost use Rattle.paths.specs.declared.scope.Scope.{Scope};
ghost use Rattle.schema.specs.Conf.{Conf, IsConf};
ghost use Rattle.filter_text.specs.Spells.{FilterContent};
ghost use Rattle.entries.specs.Entries.{EntryContent};
ghost use Rattle.tree.specs.Directories.{Entries, IsDirectory};
ghost use Rattle.index_text.specs.Postings.{Shown};
ghost use Rattle.stored_index.specs.Rows.{IsByte};
ghost use Rattle.stored_index.specs.Stored.{index_in, stored, shown_by};
ghost use Rattle.databases.specs.IndexTexts.{index_rows, index_text, stamp};
ghost use Rattle.ldif_lines.specs.Folding.{FitsIn, IsWidth, standard_width};
ghost use Rattle.databases.specs.Selections.{Selection};
ghost use Rattle.databases.specs.Found.{AreThere, limited_text};
ghost use Rattle.databases.specs.Runs.{dump, dump_to, LoadsBack, LoadsBackAt, ReadAlike};
ghost use Rattle.databases.specs.Searches.{ReflectsDump, ShowsIndexText};
ghost use Rattle.databases.specs.Ranks.{rank_in};
ghost use Rattle.databases.specs.Scanned.{scan, Suffices, scan_among};

/// Loading the dump of a directory gives the same directory, and refuses none of its records.
#[tactic(auto, using(crate::proofs::LoadLaw::loads_back))]
pub fn loading_a_dump()
    ensures { (conf : Conf) (d : Entries) → IsConf conf → IsDirectory conf d → LoadsBack conf d }
{
    ldif::written_contents_are_read();
    tree::own_content_is_written();
    tree::an_entry_adds_itself();
    schema::order_of_paths();
}

/// The same of a dump whose lines are folded to any width.
#[tactic(auto, using(crate::proofs::LoadLaw::loads_back))]
pub fn loading_a_folded_dump()
    ensures { (width : ℕ) (conf : Conf) (d : Entries) → IsWidth width → IsConf conf → IsDirectory conf d → LoadsBackAt width conf d }
{
    ldif::folded_contents_are_read();
    tree::own_content_is_written();
    tree::an_entry_adds_itself();
    schema::order_of_paths();
}

/// What is printed of entries reads as the same records, to whatever width its lines are folded.
pub fn folded_texts_read_alike()
    ensures found { (width : ℕ) (conf : Conf) (d : Entries) (s : Selection) (limit : Option ℕ) (es : List (Path × EntryContent)) → IsWidth width → IsConf conf → IsDirectory conf d
        → AreThere d es → ReadAlike (limited_text width conf d s limit es) (limited_text standard_width conf d s limit es) }
    ensures dump { (width : ℕ) (conf : Conf) (d : Entries) → IsWidth width → IsConf conf → IsDirectory conf d → ReadAlike (dump_to width conf d) (dump conf d) }
{
    ldif::folded_contents_are_read();
    ldif::written_contents_are_read();
    tree::own_content_is_written();
    schema::order_of_paths();
}

/// No line that is printed of entries is longer than its width.
pub fn folded_texts_fit()
    ensures found { (width : ℕ) (conf : Conf) (d : Entries) (s : Selection) (limit : Option ℕ) (es : List (Path × EntryContent)) → IsWidth width → IsConf conf → IsDirectory conf d
        → AreThere d es → AllByRecursion (FitsIn width) (lines (limited_text width conf d s limit es)) }
    ensures dump { (width : ℕ) (conf : Conf) (d : Entries) → IsWidth width → IsConf conf → IsDirectory conf d → AllByRecursion (FitsIn width) (lines (dump_to width conf d)) }
{
    ldif::folded_contents_fit();
    tree::own_content_is_written();
    schema::order_of_paths();
}

/// Postings that show what the index text of a dump says have the rank of each entry under exactly its keys.
pub fn index_texts_reflect_dumps()
    ensures { (conf : Conf) (d : Entries) (shown : Shown) → ShowsIndexText shown conf d → ReflectsDump shown conf.types d }
{}

/// The text of a directory's index is read as its rows, and postings that show these show what the text says.
pub fn kept_index_texts_are_read()
    ensures read { (conf : Conf) (d : Entries) → IsConf conf → IsDirectory conf d → length (stamp conf d) ≡ 32 → AllByRecursion IsByte (stamp conf d)
        → index_in conf (finite.len d) (stamp conf d) (index_text conf d) ≡ Ok (stored conf (index_rows conf d)) }
    ensures shows { (conf : Conf) (d : Entries) → ShowsIndexText (shown_by (stored conf (index_rows conf d))) conf d }
{
    stored_index::written_texts_are_read();
}

/// Where each entry of which the filter is True is a candidate, a scan among the candidates finds what a scan of all entries finds.
pub fn candidates_suffice()
    ensures { (conf : Conf) (d : Entries) (is_candidate : Path → Bool) (base : Path) (scope : Scope) (f : FilterContent)
        → Suffices conf d is_candidate f → scan_among conf d is_candidate base scope f ≡ scan conf d base scope f }
{}

/// The rank of an entry is its place in the dump, from 0 on.
pub fn ranks_are_places()
    ensures { (d : Entries) (n : ℕ) (p : Path) (e : EntryContent) → slice_get (finite.entries d) n ≡ Some (p, e) → rank_in d p ≡ n }
{}
