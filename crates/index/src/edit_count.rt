//! A count that takes no bytes.

ghost use Rattle.std.specs.Prelude.{◌≡◌, ◌+◌, ℕ};

use std::marker::Model;
use std::mem;
use std::snapshot::Snapshot;

/// A number as so many steps from zero, made for a moment to be remembered.
#[derive(Drop)]
pub(crate) struct Step {
    before: Option<Snapshot<Step>>,
}

/// How many edits were made. It takes no bytes, has no last value, and only `count_one` changes it.
#[derive(Drop)]
pub(crate) struct EditCount {
    steps: Snapshot<Step>,
}

impl Model for EditCount {
    ghost use Rattle.std.specs.Prelude.{ℕ};
    ghost use Rattle.index.specs.inner.EditCounts.{steps_of};

    ghost Value = { ℕ };

    ghost view = { λ c. steps_of c.steps.value };
}

impl EditCount {
    pub(crate) fn new() -> EditCount
        ensures { result ≡ 0 }
    {
        let zero = Step { before: None };
        EditCount {
            steps: Snapshot::of(&zero),
        }
    }

    pub(crate) fn count_one(&mut self)
        ensures { self.new ≡ self.old + 1 }
    {
        let zero = Step { before: None };
        let before = mem::replace(&mut self.steps, Snapshot::of(&zero));
        let next = Step {
            before: Some(before),
        };
        self.steps = Snapshot::of(&next);
    }
}
