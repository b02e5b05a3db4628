//! Numbers of entries, as those of a set or as all others.

ghost use Rattle.std.specs.Prelude.{◌≡◌};
ghost use Rattle.candidates.specs.Numbers.{numbers_contain};

use id_sets::IdSet;

/// Numbers of entries: the members of a set, or all other numbers. Those others are never written out.
#[derive(Drop)]
pub enum Numbers<S> {
    Only(S),
    AllBut(S),
}

impl<S: IdSet> Numbers<S> {
    /// Whether a number is one of them.
    pub fn contains(&self, number: u32) -> bool
        ensures { result ≡ numbers_contain S.members self.now number }
    {
        match self {
            Numbers::Only(set) => set.contains(number),
            Numbers::AllBut(set) => !set.contains(number),
        }
    }
}
