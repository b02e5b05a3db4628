//! Laws of what filters ask, for the crates above.

ghost use Rattle.std.specs.Prelude.{◌≡◌, ◌↔◌, true, Bool, ℕ, List};
ghost use Rattle.matching.specs.Orders.{Before};
ghost use Rattle.matching.specs.Substrings.{Fits};
ghost use Rattle.matching.specs.declared.family.Family.{Family};
ghost use Rattle.values.specs.declared.types.AttributeType.{AttributeType};
ghost use Rattle.schema.specs.Conf.{Conf, IsConf};
ghost use Rattle.entries.specs.Entries.{Attributes};
ghost use Rattle.entries.specs.StoredEntries.{EntryAttribute, attributes_of, IsMade};
ghost use Rattle.filter_text.specs.Spells.{FilterContent, Not_of};
ghost use Rattle.filter.specs.Filters.{truth};
ghost use Rattle.filter.specs.Orders.{comes_before};
ghost use Rattle.filter.specs.Pieces.{fits};
ghost use Rattle.filter.specs.Prepared.{filter_test, prepared_filter};

/// The test for pieces tells where they fit.
pub fn pieces_are_told()
    ensures { (front back : Bool) (pieces : List (List ℕ)) (text : List ℕ) → (fits front back pieces text ≡ true) ↔ Fits front back pieces text }
{}

/// The test of an order tells which of two normal forms comes first.
pub fn orders_are_told()
    ensures { (family : Family) (a b : List ℕ) → (comes_before family a b ≡ true) ↔ Before family a b }
{}

/// A filter says what the negation of its negation says.
pub fn negating_twice_changes_nothing()
    ensures { (types : List AttributeType) (attrs : Attributes) (f : FilterContent) → truth types attrs (Not_of (Not_of f)) ≡ truth types attrs f }
{}

/// A filter of prepared items says of an entry as it is stored what the filter says of the entry.
pub fn prepared_filters_say_the_same()
    ensures { (conf : Conf) (attrs : List EntryAttribute) (f : FilterContent) → IsConf conf → IsMade conf.types attrs → filter_test attrs (prepared_filter conf.types f) ≡ truth conf.types (attributes_of attrs) f }
{}
