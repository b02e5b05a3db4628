//! Which values of a type go and which come.

ghost use Rattle.std.specs.Prelude.{◌≡◌, ◌++◌, ◌≤◌, ◌<◌, drop, length, IfOk, OnOk, IfSome};
ghost use Rattle.differences.specs.EntryChanges.{values_between};
ghost use Rattle.differences.specs.inner.Cuts.{place_in, moved_by, stretch, texts, pair_of};

use std::alloc::{AllocError, Global};

/// The place of the first value with these bytes, from a place on
fn place_from(values: &[&[u8]], from: usize, value: &[u8]) -> Option<usize>
    requires { from ≤ length values.now }
    ensures place { result ≡ moved_by from (place_in value.now (drop from (texts values.now))) }
    ensures within { IfSome result (λ i. i < length values.now) }
{
    for i in from..values.len() {
        if values[i] == value {
            return Some(i);
        }
    }
    None
}

/// Puts the values from one place up to another behind others
fn push_stretch<'v>(
    found: &mut Vec<&'v [u8]>,
    values: &[&'v [u8]],
    from: usize,
    to: usize,
) -> Result<(), AllocError>
    requires order { from ≤ to }
    requires within { to ≤ length values.now }
    ensures { OnOk result (texts found.new.items ≡ texts found.old.items ++ stretch from to (texts values.now)) }
{
    for i in from..to {
        found.push(values[i])?;
    }
    Ok(())
}

/// Which of the values before go, and from which place on those after come behind the ones that stay.
pub(crate) fn values_between<'v>(
    alloc: Global,
    before: &[&'v [u8]],
    after: &[&[u8]],
) -> Result<(Vec<&'v [u8]>, usize), AllocError>
    ensures within { IfOk result (λ r. r.1 ≤ length after.now) }
    ensures parts { IfOk result (λ r. pair_of (texts r.0.items) (drop r.1 (texts after.now)) ≡ values_between (texts before.now) (texts after.now)) }
{
    let mut gone = Vec::new(alloc);
    let mut at = 0usize;
    for k in 0..after.len() {
        match place_from(before, at, after[k]) {
            None => {
                push_stretch(&mut gone, before, at, before.len())?;
                return Ok((gone, k));
            }
            Some(place) => {
                push_stretch(&mut gone, before, at, place)?;
                at = place + 1;
            }
        }
    }
    push_stretch(&mut gone, before, at, before.len())?;
    Ok((gone, after.len()))
}
