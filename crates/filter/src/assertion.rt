//! What is asked of values.

ghost use Rattle.std.specs.Prelude.{◌≡◌};
ghost use Rattle.filter.specs.Orders.{comes_before};
ghost use Rattle.filter.specs.Pieces.{fits};
ghost use Rattle.filter.specs.Prepared.{matches};

use base::Bytes;
use schema::{Family, Pieces, contains_pieces, is_less};

/// What a prepared item asks of a value, by normal forms.
#[derive(Drop)]
pub enum Assertion {
    Equality(Bytes),
    GreaterOrEqual { family: Family, value: Bytes },
    LessOrEqual { family: Family, value: Bytes },
    Present,
    Substrings(Pieces),
}

fn comes_before(family: Family, a: &[u8], b: &[u8]) -> bool
    ensures { result ≡ comes_before family a.now b.now }
{
    is_less(family, a, b)
}

fn fits(pieces: &Pieces, norm: &[u8]) -> bool
    ensures { result ≡ fits pieces.now.front pieces.now.back pieces.now.pieces norm.now }
{
    contains_pieces(pieces, norm)
}

impl Assertion {
    /// Whether the value with this normal form is one that is asked for.
    pub fn matches(&self, norm: &[u8]) -> bool
        ensures { result ≡ matches self.now norm.now }
    {
        match self {
            Assertion::Equality(value) => norm == value.as_slice(),
            Assertion::GreaterOrEqual { family, value } => {
                !comes_before(*family, norm, value.as_slice())
            }
            Assertion::LessOrEqual { family, value } => {
                comes_before(*family, norm, value.as_slice()) || norm == value.as_slice()
            }
            Assertion::Present => true,
            Assertion::Substrings(pieces) => fits(pieces, norm),
        }
    }
}
