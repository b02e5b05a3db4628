//! The changes between two directories, written.

ghost use Rattle.std.specs.Prelude.{◌≡◌, ◌<◌, ◌-◌, ◌^◌, [], IfOk};
ghost use Rattle.std.specs.Option.{ForSome};
ghost use Rattle.ldif.specs.Written.{Writes, end_of};
ghost use Rattle.differences.specs.Differences.{Extent};
ghost use Rattle.differences.specs.Comparisons.{extent_of};
ghost use Rattle.differences.specs.Texts.{difference, differs, MayLeadByText};
ghost use Rattle.differences.specs.Obstacles.{HasNoObstacle, LeadsWhereClear};

use crate::comparison::Comparison;
use crate::counts::Difference;
use crate::differ::Differ;
use crate::laws::{changes_lead_by_text, clear_changes_lead_by_text};
use crate::obstacles::HinderedEntry;
use databases::Database;
use device::Sink;
use ldif::WriteFault;
use std::alloc::{AllocError, Global};
use tree::Tree;

/// Writes the change records (RFC 2849) that make the second directory of the first, which have the same configuration, as far as they are compared,
/// each with a comment before it that says what it is: deletes, children before their parents, and then what is added and changed, parents first.
/// They are written in pieces of some 64 KiB; on a fault a beginning was written. Nothing is written where there is nothing to change.
///
/// `ldapmodify` with the text refuses none of them and leaves what is to be there: what the second directory has at each path that is compared, and
/// what the first has at all others. Attributes that users can't change (NO-USER-MODIFICATION) stay as they are. Where an entry's classes ask for
/// such an attribute that isn't there, or don't allow one that is, or where the parent of an entry isn't to be there, this isn't promised.
pub fn write_difference<W: Sink>(
    alloc: Global,
    before: &Database,
    after: &Tree,
    comparison: &Comparison<'_>,
    sink: &mut W,
) -> Result<Difference, WriteFault>
    requires conf { after.now.conf ≡ before.now.conf }
    requires filter { ForSome comparison.now.filter (λ f. f.now.conf ≡ before.now.conf) }
    requires can_fail { (W.written sink.old).failed < 2 ^ 64 - 1 }
    ensures differs { IfOk result (λ d. d.differs
        ≡ differs before.now.conf (extent_of comparison.now before.now.conf before.now.entries after.now.entries) before.now.entries after.now.entries) }
    ensures writes { Writes (end_of result) (W.written sink.old) (W.written sink.new)
        (difference before.now.conf (extent_of comparison.now before.now.conf before.now.entries after.now.entries) before.now.entries after.now.entries) }
    ensures leads { (extent : Extent) → MayLeadByText before.now.conf extent before.now.entries after.now.entries }
{
    changes_lead_by_text();
    before.conf().rules_are_kept();
    before.tree().entries_are_a_directory();
    after.entries_are_a_directory();
    Differ::new(alloc, before, after, comparison).write(sink)
}

/// The entries of which the changes between two directories, as far as they are compared, can't be carried out: first those that go, and then the
/// others, each in the order of paths. Where there is none, `ldapmodify` with the text of the changes leads to what is to be there. The fault is
/// want of memory.
pub fn find_obstacles(
    alloc: Global,
    before: &Database,
    after: &Tree,
    comparison: &Comparison<'_>,
) -> Result<Vec<HinderedEntry>, AllocError>
    requires conf { after.now.conf ≡ before.now.conf }
    requires filter { ForSome comparison.now.filter (λ f. f.now.conf ≡ before.now.conf) }
    ensures none { IfOk result (λ found. found.items ≡ []
        → HasNoObstacle before.now.conf (extent_of comparison.now before.now.conf before.now.entries after.now.entries) before.now.entries after.now.entries) }
    ensures leads { (extent : Extent) → LeadsWhereClear before.now.conf extent before.now.entries after.now.entries }
{
    clear_changes_lead_by_text();
    before.conf().rules_are_kept();
    before.tree().entries_are_a_directory();
    after.entries_are_a_directory();
    Differ::new(alloc, before, after, comparison).obstacles()
}
