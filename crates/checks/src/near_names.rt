//! Names that are meant where another one stands.

ghost use Rattle.std.specs.Prelude.{◌≡◌, map, drop};
ghost use Rattle.std.specs.Option.{option_map};
ghost use Rattle.std.specs.Str.{bytes_eq, str_eq_ignore_ascii_case};
ghost use Rattle.checks.specs.NearNames.{is_among, is_one_of, is_same_letter, differ_in_first, are_near, nearest};

/// Whether two names are the same without ASCII case.
fn are_alike(one: &[u8], other: &[u8]) -> bool
    ensures { result ≡ str_eq_ignore_ascii_case one.now other.now }
{
    one.eq_ignore_ascii_case(other)
}

/// Whether two texts are the same.
pub(crate) fn is_same(one: &[u8], other: &[u8]) -> bool
    ensures { result ≡ bytes_eq one.now other.now }
{
    one == other
}

/// Whether an OID is one of these.
pub(crate) fn is_among(known: &[&[u8]], oid: &[u8]) -> bool
    ensures { result ≡ is_among (map (λ k. k.now) known.now) oid.now }
{
    for k in known {
        if is_same(oid, k) {
            return true;
        }
    }
    false
}

/// Whether a name is one of these, without ASCII case.
pub(crate) fn is_one_of(known: &[&[u8]], name: &[u8]) -> bool
    ensures { result ≡ is_one_of (map (λ k. k.now) known.now) name.now }
{
    for k in known {
        if are_alike(name, k) {
            return true;
        }
    }
    false
}

fn is_same_letter(one: u8, other: u8) -> bool
    ensures { result ≡ is_same_letter one other }
{
    are_alike(&[one], &[other])
}

/// What stands behind the first byte.
fn behind_first(text: &[u8]) -> &[u8]
    ensures { result.now ≡ drop 1 text.now }
{
    match text {
        [_, rest @ ..] => rest,
        [] => text,
    }
}

fn differ_in_first(one: &[u8], other: &[u8]) -> bool
    ensures { result ≡ differ_in_first one.now other.now }
{
    let (less, other_less) = (behind_first(one), behind_first(other));
    are_alike(less, other_less) || (are_alike(less, other) || are_alike(one, other_less))
}

/// Whether two names differ by one letter.
#[tactic(auto, unfolding(crate::specs::NearNames::are_near))]
fn are_near(one: &[u8], other: &[u8]) -> bool
    ensures { result ≡ are_near one.now other.now }
{
    let mut ours = one;
    let mut theirs = other;
    'letters: while !ours.is_empty() && !theirs.is_empty() && is_same_letter(ours[0], theirs[0]) {
        ours = &ours[1..];
        theirs = &theirs[1..];
    }
    differ_in_first(ours, theirs)
}

/// The first of these names that differs from another one by one letter.
#[tactic(auto, unfolding(crate::specs::NearNames::nearest))]
pub(crate) fn nearest<'a>(known: &[&'a [u8]], name: &[u8]) -> Option<&'a [u8]>
    ensures { option_map (λ k. k.now) result ≡ nearest (map (λ k. k.now) known.now) name.now }
{
    for k in known {
        if are_near(k, name) {
            return Some(k);
        }
    }
    None
}
