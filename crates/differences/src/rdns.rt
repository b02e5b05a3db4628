//! RDNs by their spelling.

ghost use Rattle.std.specs.Prelude.{◌≡◌};
ghost use Rattle.differences.specs.Differences.{same_spelling};

use schema::TypedRdn;

/// Whether two RDNs have the same types in the same order, and values of the same bytes.
pub(crate) fn is_spelled_alike(left: &TypedRdn, right: &TypedRdn) -> bool
    ensures { result ≡ same_spelling left.now right.now }
{
    let left = left.avas();
    let right = right.avas();
    if left.len() != right.len() {
        return false;
    }
    for i in 0..left.len() {
        let (left_type, left_value) = &left[i];
        let (right_type, right_value) = &right[i];
        if *left_type != *right_type || left_value.as_slice() != right_value.as_slice() {
            return false;
        }
    }
    true
}
