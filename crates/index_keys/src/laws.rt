//! Laws of keys.

ghost use Rattle.std.specs.Prelude.{◌≡◌, ℕ, List, Some, true};
ghost use Rattle.std.specs.FinSet as set;
ghost use Rattle.schema.specs.declared.slots.IndexKind.{IndexKind};
ghost use Rattle.schema.specs.Conf.{Conf};
ghost use Rattle.entries.specs.Entries.{Attributes};
ghost use Rattle.index_keys.specs.EntryKeys.{has_key, slot_keys, is_window, IsCutOut};
ghost use Rattle.index_text.specs.Postings.{slot_in};
ghost use Rattle.index_text.specs.SlotKeys.{slot_key};

/// The set of an entry's keys has a key under the slot for a type and a kind of index exactly where the test for these two tells.
pub fn keys_are_told()
    ensures { (conf : Conf) (attrs : Attributes) (t : ℕ) (kind : IndexKind) (slot : ℕ) (key : List ℕ) → slot_in conf.slots t kind ≡ Some slot → set.contains (slot_keys conf attrs) (slot_key slot key) ≡ has_key conf.types attrs t kind key }
{}

/// A key is a window of a text exactly where the text is some bytes, the key and some bytes, and the key has three bytes.
pub fn windows_stand_in_texts()
    ensures stand { (text key : List ℕ) → is_window text key ≡ true → IsCutOut text key }
    ensures all { (text key : List ℕ) → IsCutOut text key → is_window text key ≡ true }
{}
