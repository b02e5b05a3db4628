//! What holds of the order in which stanzas are printed.

ghost use Rattle.std.specs.Prelude.{◌≡◌, ◌≤◌, ◌∷◌, ℕ, true, List, length, map};
ghost use Rattle.std.specs.List.{AllByRecursion, flat_map};
ghost use Rattle.std.specs.List.Sorted.{IsPermutation};
ghost use Rattle.dn.specs.Names.{Rdn, Name};
ghost use Rattle.ldif_lines.specs.Records.{records};
ghost use Rattle.sorting.specs.NormalNames.{name_read, normal_name, normal_rdn};
ghost use Rattle.sorting.specs.Heads.{head};
ghost use Rattle.sorting.specs.Reads.{record_lines, StandBehind};
ghost use Rattle.sorting.specs.Orders.{is_above, AreInOrder};
ghost use Rattle.sorting.specs.Stanzas.{stanzas};
ghost use Rattle.sorting.specs.Sorted.{body, names_of, sorted_stanzas, sorted_text};

/// All stanzas are printed, each as often as it stands in the text, and none behind one that it is above.
pub fn those_above_come_first()
    ensures all { (ps : List (List ℕ)) → IsPermutation ps (sorted_stanzas ps) }
    ensures order { (ps : List (List ℕ)) → AreInOrder (names_of (sorted_stanzas ps)) }
{}

/// Stanzas none of which stands behind one that it is above stay as they are; so what was sorted once is sorted. A text of such stanzas is printed as
/// it is, byte for byte.
pub fn stanzas_in_order_stay()
    ensures stay { (ps : List (List ℕ)) → AreInOrder (names_of ps) → sorted_stanzas ps ≡ ps }
    ensures text { (text : List ℕ) → AreInOrder (names_of (stanzas (body text))) → sorted_text text ≡ text }
    ensures once { (ps : List (List ℕ)) → sorted_stanzas (sorted_stanzas ps) ≡ sorted_stanzas ps }
{}

/// A reader finds the record of each stanza, one behind the other, with the lines that it has by itself, in a text that was sorted as in the text
/// before; a version at the head stands before them. So each record is there as often as before, and none is cut or changed where it is put.
pub fn stanzas_are_read_by_themselves()
    ensures sorted { (text : List ℕ)
        → StandBehind (head text) (record_lines (sorted_text text)) (flat_map record_lines (sorted_stanzas (stanzas (body text)))) }
    ensures unsorted { (text : List ℕ) → StandBehind (head text) (record_lines text) (flat_map record_lines (stanzas (body text))) }
    ensures all { (text : List ℕ)
        → IsPermutation (flat_map record_lines (stanzas (body text))) (flat_map record_lines (sorted_stanzas (stanzas (body text)))) }
    ensures one { (text : List ℕ) → AllByRecursion (λ stanza. length (record_lines stanza) ≤ 1) (stanzas text) }
{}

/// A name is above one that has these RDNs behind another one, each with the same normal form.
pub fn names_are_above_what_ends_in_them()
    ensures { (first r : Rdn) (n m : Name) → map normal_rdn m ≡ map normal_rdn (r ∷ n) → is_above (normal_name m) (normal_name (first ∷ r ∷ n)) ≡ true }
{}

/// Of the records that a reader finds in a text that was sorted, none stands behind one that it is above.
pub fn records_are_in_order()
    ensures { (text : List ℕ) → AreInOrder (map name_read (records (sorted_text text))) }
{}
