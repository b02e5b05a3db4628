//! The order of values under an ordering rule.

ghost use Rattle.std.specs.Prelude.{◌≡◌, ◌↔◌, IsTrue};
ghost use Rattle.matching.specs.Orders.{are_bytes_before, NumberBefore, Before};

use crate::family::Family;
use crate::integer::Integer;

fn are_bytes_before(a: &[u8], b: &[u8]) -> bool
    ensures { result ≡ are_bytes_before a.now b.now }
{
    a.cmp(b).is_lt()
}

fn is_number_before(a: &[u8], b: &[u8]) -> bool
    ensures { IsTrue result ↔ NumberBefore a.now b.now }
{
    match (Integer::read(a), Integer::read(b)) {
        (Some(a), Some(b)) => a.is_less(b),
        _ => false,
    }
}

/// Whether the first of two normal forms comes before the second: whole numbers as numbers, which no other bytes come before or
/// after, and all else byte by byte, a beginning first.
#[tactic(auto, unfolding(crate::specs::Orders::Before))]
pub fn is_less(family: Family, a: &[u8], b: &[u8]) -> bool
    ensures { IsTrue result ↔ Before family a.now b.now }
{
    match family {
        Family::Integer => is_number_before(a, b),
        _ => are_bytes_before(a, b),
    }
}
