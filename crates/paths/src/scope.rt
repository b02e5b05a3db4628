//! Scopes.

ghost use Rattle.std.specs.Prelude.{◌≡◌, ◌+◌, ◌<◌, ◌^◌};
ghost use Rattle.paths.specs.Scopes.{depth_fits};

/// Which entries a search looks at, from its base on (RFC 4511, 4.5.1.2).
#[derive(Clone, Copy, PartialEq, Eq)]
pub enum Scope {
    /// The base.
    Base,
    /// The entries right below the base.
    One,
    /// The base and all entries below it.
    Sub,
    /// All entries below the base.
    Children,
}

impl Scope {
    /// Whether it has an entry of this depth that is the base or stands below it. The base has the depth `base`.
    pub fn fits(self, base: usize, depth: usize) -> bool
        ensures { result ≡ depth_fits self base depth }
    {
        match self {
            Scope::Base => depth == base,
            Scope::One => depth > base && depth - base == 1,
            Scope::Sub => true,
            Scope::Children => depth != base,
        }
    }
}
