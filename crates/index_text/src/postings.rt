//! What an index shows.

ghost use Rattle.std.specs.Prelude.{◌≡◌, ◌≢◌, IfSome, MatchOption};
ghost use Rattle.std.specs.Option.{option_map};
ghost use Rattle.std.specs.FinSet as set;
ghost use Rattle.index_text.specs.Postings.{Shown, slot_in};

use crate::slot_key::SlotNumber;
use id_sets::IdSet;
use schema::{IndexKind, Slot, TypeId};

/// The number of the slot for a kind of index over the values of a type, where it is one of these.
pub fn slot_number(slots: &[Slot], type_id: TypeId, kind: IndexKind) -> Option<SlotNumber>
    ensures { option_map (λ s. s.0) result ≡ slot_in slots.now type_id kind }
{
    let wanted = Slot { type_id, kind };
    slots
        .iter()
        .position(|slot| wanted.cmp(slot).is_eq())
        .map(SlotNumber)
}

/// Numbers of entries under the keys of slots, as an index shows them.
pub trait Postings {
    type Set: IdSet;

    /// What it shows.
    ghost shown: { Self → Shown };

    /// The slot for a kind of index over the values of a type, where there is one.
    fn slot(&self, type_id: TypeId, kind: IndexKind) -> Option<SlotNumber>
        ensures { option_map (λ s. s.0) result ≡ (shown self.now).slot_of type_id kind };

    /// The numbers under a key of a slot, or none where there is no number.
    fn lookup(&self, slot: SlotNumber, key: &[u8]) -> Option<&Self::Set>
        ensures members { MatchOption result ((shown self.now).members slot.0 key.now ≡ set.empty) (λ s. Self.Set.members s.now ≡ (shown self.now).members slot.0 key.now) }
        ensures some { IfSome result (λ s. (shown self.now).members slot.0 key.now ≢ set.empty) };
}
