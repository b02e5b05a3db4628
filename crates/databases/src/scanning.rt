//! Searches.

ghost use Rattle.std.specs.Prelude.{◌≡◌, map, true, is_some, IfSome};
ghost use Rattle.std.specs.FinMap as finite;
ghost use Rattle.filter_text.specs.Spells.{view};
ghost use Rattle.databases.specs.Found.{AreThere};
ghost use Rattle.databases.specs.Ranks.{rank_in};
ghost use Rattle.databases.specs.Scanned.{scan, count_in_scope, count_among};
ghost use Rattle.databases.specs.TreeSearches.{by_number, by_rank, found, counted_found};
ghost use Rattle.databases.specs.Walks.{seen, counted, AreMade};
ghost use Rattle.databases.specs.inner.Marks.{first_rank};
ghost use Rattle.databases.specs.inner.Numberings.{by_numbering};

use crate::hits::Hits;
use crate::marked::MarkedEntries;
use crate::numbering::Numbering;
use crate::ranks::rank_of;
use crate::untested::UntestedEntries;
use candidates::Numbers;
use filter::Prepared;
use id_sets::{IdSet, ListSet};
use paths::Scope;
use schema::Path;
use std::alloc::Global;
use tree::Tree;

// The search among candidates by their numbers or by their ranks. Where ranks count, this one is the base's.
fn search_from<'a, S: IdSet>(
    tree: &'a Tree,
    base: &'a Path,
    rank: u32,
    scope: Scope,
    filter: &'a Prepared,
    numbering: Numbering,
    candidates: Numbers<S>,
) -> Option<Hits<'a, S>>
    requires conf { filter.now.conf ≡ tree.now.conf }
    requires rank { rank ≡ first_rank numbering (rank_in tree.now.entries base.now) }
    ensures there { is_some result ≡ finite.contains_key tree.now.entries base.now }
    ensures start { IfSome result (λ h. h.tested ≡ 0) }
    ensures steps { IfSome result (λ h. map counted h.to_come ≡ counted_found tree.now (by_numbering S.members numbering candidates tree.now) base.now scope filter.now) }
    ensures found { IfSome result (λ h. map seen h.to_come ≡ found tree.now (by_numbering S.members numbering candidates tree.now) base.now scope filter.now) }
    ensures tested { IfSome result (λ h. h.in_the_end ≡ count_among tree.now.entries (by_numbering S.members numbering candidates tree.now) base.now scope) }
    ensures made { IfSome result (λ h. AreMade tree.now.conf.types h.to_come) }
{
    tree.entries_are_a_directory();
    tree.get(base)?;
    let rest = MarkedEntries::new(tree.numbered(base), rank, numbering, candidates);
    let untested = UntestedEntries::of_marked(rest);
    Some(Hits::new(untested, scope, base.len(), filter))
}

/// The entries in scope of which the filter is True, as far as their numbers are among the candidates, in dump order (RFC 4511, 4.5.1).
/// None where the base isn't there. Each candidate in scope is tested once, and no other entry is; those below the base are passed by.
pub fn search<'a, S: IdSet>(
    tree: &'a Tree,
    base: &'a Path,
    scope: Scope,
    filter: &'a Prepared,
    candidates: Numbers<S>,
) -> Option<Hits<'a, S>>
    requires { filter.now.conf ≡ tree.now.conf }
    ensures there { is_some result ≡ finite.contains_key tree.now.entries base.now }
    ensures start { IfSome result (λ h. h.tested ≡ 0) }
    ensures steps { IfSome result (λ h. map counted h.to_come ≡ counted_found tree.now (by_number S.members candidates tree.now) base.now scope filter.now) }
    ensures found { IfSome result (λ h. map seen h.to_come ≡ found tree.now (by_number S.members candidates tree.now) base.now scope filter.now) }
    ensures tested { IfSome result (λ h. h.in_the_end ≡ count_among tree.now.entries (by_number S.members candidates tree.now) base.now scope) }
    ensures made { IfSome result (λ h. AreMade tree.now.conf.types h.to_come) }
{
    search_from(tree, base, 0, scope, filter, Numbering::InTree, candidates)
}

/// The same, where candidates are ranks of entries instead of their numbers. It goes through the entries before the base to count them.
pub fn search_by_ranks<'a, S: IdSet>(
    alloc: Global,
    tree: &'a Tree,
    base: &'a Path,
    scope: Scope,
    filter: &'a Prepared,
    candidates: Numbers<S>,
) -> Option<Hits<'a, S>>
    requires { filter.now.conf ≡ tree.now.conf }
    ensures there { is_some result ≡ finite.contains_key tree.now.entries base.now }
    ensures start { IfSome result (λ h. h.tested ≡ 0) }
    ensures steps { IfSome result (λ h. map counted h.to_come ≡ counted_found tree.now (by_rank S.members candidates tree.now) base.now scope filter.now) }
    ensures found { IfSome result (λ h. map seen h.to_come ≡ found tree.now (by_rank S.members candidates tree.now) base.now scope filter.now) }
    ensures tested { IfSome result (λ h. h.in_the_end ≡ count_among tree.now.entries (by_rank S.members candidates tree.now) base.now scope) }
    ensures made { IfSome result (λ h. AreMade tree.now.conf.types h.to_come) }
{
    let rank = rank_of(alloc, tree, base);
    search_from(
        tree,
        base,
        rank,
        scope,
        filter,
        Numbering::InDump,
        candidates,
    )
}

/// The entries in scope of which the filter is True, in dump order (RFC 4511, 4.5.1), with no index. `None` where the base isn't there. Each
/// entry in scope is tested once; those at other depths below the base are passed by. The filter was prepared under the configuration that
/// the tree was made with.
pub fn scan<'a>(
    alloc: Global,
    tree: &'a Tree,
    base: &'a Path,
    scope: Scope,
    filter: &'a Prepared,
) -> Option<Hits<'a, ListSet>>
    requires { filter.now.conf ≡ tree.now.conf }
    ensures there { is_some result ≡ finite.contains_key tree.now.entries base.now }
    ensures start { IfSome result (λ h. h.tested ≡ 0) }
    ensures found { IfSome result (λ h. map seen h.to_come ≡ scan tree.now.conf tree.now.entries base.now scope (view filter.now.filter)) }
    ensures tested { IfSome result (λ h. h.in_the_end ≡ count_in_scope tree.now.entries base.now scope) }
    ensures made { IfSome result (λ h. AreMade tree.now.conf.types h.to_come) }
    ensures entries { IfSome result (λ h. AreThere tree.now.entries (map seen h.to_come)) }
{
    tree.entries_are_a_directory();
    schema::order_of_paths();
    let none: ListSet = ListSet::new(alloc);
    search(tree, base, scope, filter, Numbers::AllBut(none))
}
