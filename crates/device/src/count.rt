//! Numbers that take no room.

ghost use Rattle.std.specs.Prelude.{◌≡◌, ◌+◌};

use std::marker::Model;
use std::mem;
use std::snapshot::Snapshot;

/// One rise of a count, made for a moment to be remembered.
#[derive(Drop)]
struct Step {
    before: Option<Snapshot<Step>>,
    by: usize,
}

/// A number that contracts see. It takes no bytes, so it has no last value, and no code can read it.
pub struct Count {
    last: Snapshot<Step>,
}

// A call of its own, so that no other crate proves it anew.
impl Drop for Count {
    fn drop(self) {
        let Count { last: _ } = self;
    }
}

impl Model for Count {
    ghost use Rattle.std.specs.Prelude.{ℕ};
    ghost use Rattle.device.specs.inner.Count.{number_of};

    ghost Value = { ℕ };

    ghost view = { λ c. number_of c.last.value };
}

impl Count {
    pub fn new() -> Count
        ensures { result ≡ 0 }
    {
        let first = Step {
            before: None,
            by: 0,
        };
        Count {
            last: Snapshot::of(&first),
        }
    }

    pub fn add(&mut self, by: usize)
        ensures { self.new ≡ self.old + by }
    {
        let first = Step {
            before: None,
            by: 0,
        };
        let before = mem::replace(&mut self.last, Snapshot::of(&first));
        let step = Step {
            before: Some(before),
            by,
        };
        self.last = Snapshot::of(&step);
    }
}
