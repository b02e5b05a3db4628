//! What candidates say of a filter's truth.

ghost use Rattle.std.specs.Prelude.{◌≡◌, ℕ};
ghost use Rattle.std.specs.List.{AllByRecursion};
ghost use Rattle.schema.specs.Conf.{Conf, IsConf};
ghost use Rattle.entries.specs.Entries.{Attributes, IsAttribute};
ghost use Rattle.filter_text.specs.Spells.{FilterContent};
ghost use Rattle.filter.specs.Filters.{truth};
ghost use Rattle.filter.specs.Prepared.{PreparedContent, prepared_filter};
ghost use Rattle.index_text.specs.Indexes.{Index};
ghost use Rattle.index_text.specs.Postings.{Shown, shown_by};
ghost use Rattle.candidates.specs.Asked.{asked_keys, HaveSameSlots, ShowAlike};
ghost use Rattle.candidates.specs.Brackets.{Allows, HasKeysOf, Reflects};
ghost use Rattle.candidates.specs.Sides.{sides};

/// Where postings show a number under exactly the keys of an entry, a filter that is True of the entry may be True by what they show, and
/// one that is False of it may be False.
pub fn brackets_hold()
    ensures { (conf : Conf) (shown : Shown) (n : ℕ) (attrs : Attributes) (f : FilterContent) → IsConf conf → AllByRecursion (IsAttribute conf.types) attrs
        → Reflects shown conf.types n attrs → Allows (truth conf.types attrs f) (sides shown n (prepared_filter conf.types f)) }
{
    filter::pieces_are_told();
    filter::prepared_filters_say_the_same();
}

/// An index that has a number under exactly the keys of an entry shows it so.
pub fn indexes_reflect_entries()
    ensures { (x : Index) (n : ℕ) (attrs : Attributes) → HasKeysOf x n attrs → Reflects (shown_by x) x.conf.types n attrs }
{
    index_keys::keys_are_told();
}

/// What postings show of other keys than those that a filter asks for doesn't matter to it.
pub fn asked_keys_suffice()
    ensures { (a b : Shown) (f : PreparedContent) (n : ℕ) → HaveSameSlots a b → ShowAlike a b (asked_keys b.slot_of f) → sides a n f ≡ sides b n f }
{}
