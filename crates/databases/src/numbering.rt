//! Which numbers candidates have.

ghost use Rattle.std.specs.Prelude.{◌≡◌};
ghost use Rattle.databases.specs.inner.Marks.{number_by};

/// Which numbers of entries candidates have.
#[derive(Clone, Copy)]
pub(crate) enum Numbering {
    /// Those in the tree.
    InTree,
    /// Their ranks, which are their places in the dump.
    InDump,
}

impl Numbering {
    /// The number of an entry that counts, of the one in the tree and the rank.
    pub(crate) fn pick(self, number: u32, rank: u32) -> u32
        ensures { result ≡ number_by self number rank }
    {
        match self {
            Numbering::InTree => number,
            Numbering::InDump => rank,
        }
    }
}
