//! Searches of a tree with the index that is kept with it.

ghost use Rattle.std.specs.Prelude.{◌≡◌, true, false, Err, IfOk, IfErr};
ghost use Rattle.std.specs.FinMap as finite;
ghost use Rattle.schema.specs.declared.code.Code.TheVariants.{NoSuchObject};
ghost use Rattle.directory.specs.Indexes.{IsIndexOf};
ghost use Rattle.databases.specs.Searches.{IsRefused};
ghost use Rattle.directory.specs.Searches.{FindsByIndex};

use candidates::{brackets_hold, indexes_reflect_entries, may_match};
use databases::{Database, Hits, Scope, candidates_suffice, search};
use dense_sets::KeySet;
use entries::Refusal;
use filter::Prepared;
use index::Index;
use schema::{Code, Path};
use std::alloc::Global;

/// The entries in scope of which the filter is True, in dump order, with the index that is kept with them, which has their numbers in the
/// tree. `NoSuchObject` where the base isn't there, and else `OutOfMemory`.
pub(crate) fn search_with_index<'a>(
    alloc: Global,
    database: &'a Database,
    index: &Index,
    base: &'a Path,
    scope: Scope,
    filter: &'a Prepared,
) -> Result<Hits<'a, KeySet>, Refusal>
    requires filter { filter.now.conf ≡ database.now.conf }
    requires indexed { IsIndexOf database.now.conf database.now.entries database.now.numbers index.now }
    ensures there { IfOk result (λ h. finite.contains_key database.now.entries base.now ≡ true) }
    ensures refused { IfErr result (IsRefused database.now.entries base.now) }
    ensures missing { finite.contains_key database.now.entries base.now ≡ false → result ≡ Err (Refusal.Code NoSuchObject) }
    ensures finds { IfOk result (FindsByIndex database.now.conf database.now filter.now base.now scope) }
{
    brackets_hold();
    indexes_reflect_entries();
    candidates_suffice();
    schema::order_of_paths();
    database.conf().rules_are_kept();
    let tree = database.tree();
    tree.entries_are_a_directory();
    tree.entries_are_numbered();
    if tree.get(base).is_none() {
        return Err(Refusal::Code(Code::NoSuchObject));
    }
    let may = may_match(alloc, filter, index)?;
    match search(tree, base, scope, filter, may) {
        Some(hits) => Ok(hits),
        None => Err(Refusal::Code(Code::NoSuchObject)),
    }
}
