//! Normal forms from the first on that two entries share, and those behind them.

ghost use Rattle.std.specs.Prelude.{◌≡◌, take, drop};
ghost use Rattle.entries.specs.StoredEntries.{IsMade};
ghost use Rattle.index_keys.specs.StoredNorms.{stored_norms};

use entries::Entry;
use index_keys::Norms;
use schema::{Conf, TypeId};

/// The normal forms of the values of a type and of its subtypes in an entry, behind so many.
pub(crate) fn norms_behind<'a>(
    conf: &'a Conf,
    entry: &'a Entry,
    above: TypeId,
    front: usize,
) -> Norms<'a>
    requires { IsMade conf.now.types entry.now.attrs }
    ensures { result ≡ drop front (stored_norms conf.now.types entry.now.attrs above) }
{
    let mut norms = Norms::of(conf, entry, above);
    for _ in 0..front {
        let _ = norms.next();
    }
    norms
}

// how many normal forms are the same in both, from the first on, as far as they can be counted
fn common_front<'a>(left: Norms<'a>, right: Norms<'a>) -> usize
    ensures { take result left.entry ≡ take result right.entry }
{
    left.zip(right)
        .take(usize::MAX)
        .take_while(|(norm, other)| norm == other)
        .count()
}

/// How many normal forms of the values of a type and of its subtypes are the same in two entries, from the first on.
pub(crate) fn same_norms(conf: &Conf, one: &Entry, other: &Entry, above: TypeId) -> usize
    requires one { IsMade conf.now.types one.now.attrs }
    requires other { IsMade conf.now.types other.now.attrs }
    ensures { take result (stored_norms conf.now.types one.now.attrs above) ≡ take result (stored_norms conf.now.types other.now.attrs above) }
{
    common_front(Norms::of(conf, one, above), Norms::of(conf, other, above))
}
