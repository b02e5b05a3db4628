//! How many entries were tested.

ghost use Rattle.std.specs.Prelude.{◌≡◌, ◌+◌, ◌<◌, ◌^◌};

use std::marker::Model;

/// A count of the tests that were made. A contract sees it as that number.
#[derive(Drop)]
pub struct Meter {
    count: u64,
}

impl Model for Meter {
    ghost use Rattle.std.specs.Prelude.{ℕ};

    ghost Value = { ℕ };

    ghost view = { λ m. m.count };
}

impl Meter {
    /// No test.
    pub fn new() -> Meter
        ensures { result ≡ 0 }
    {
        Meter { count: 0 }
    }

    /// How many tests there were.
    pub fn count(&self) -> u64
        ensures { result ≡ self.now }
    {
        self.count
    }

    /// One test more.
    pub(crate) fn raise(&mut self)
        requires { self.old + 1 < 2 ^ 64 }
        ensures { self.new ≡ self.old + 1 }
    {
        self.count += 1;
    }
}
