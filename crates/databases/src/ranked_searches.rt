//! Searches of entries by their ranks.

ghost use Rattle.std.specs.Prelude.{◌≡◌, map, true, false, is_some, Err, IfSome, IfOk, IfErr};
ghost use Rattle.std.specs.FinMap as finite;
ghost use Rattle.schema.specs.declared.code.Code.TheVariants.{NoSuchObject};
ghost use Rattle.filter_text.specs.Spells.{view};
ghost use Rattle.index_text.specs.Postings.{Shown};
ghost use Rattle.databases.specs.Scanned.{scan, count_among};
ghost use Rattle.databases.specs.TreeSearches.{FindsAmong, by_rank, found, counted_found};
ghost use Rattle.databases.specs.Walks.{seen, counted, AreMade};
ghost use Rattle.databases.specs.Searches.{IsRefused, may_by_rank, ShowsTo, ReflectsDump, ShowsIndexText};

use crate::entries_by_rank::EntriesByRank;
use crate::hits::Hits;
use crate::laws::{candidates_suffice, index_texts_reflect_dumps};
use crate::picked::PickedEntries;
use crate::untested::UntestedEntries;
use candidates::{Numbers, asked_keys_suffice, brackets_hold, may_match};
use entries::Refusal;
use filter::Prepared;
use id_sets::IdSet;
use index_text::Postings;
use paths::Scope;
use schema::{Code, Conf, Path};
use std::alloc::Global;

/// What `search_by_ranks` finds in the tree of these entries. It goes through candidates at the base and below it alone: where they are all but
/// some, it passes these by.
pub fn search_ranked<'a, S: IdSet>(
    entries: &'a EntriesByRank<'a>,
    base: &'a Path,
    scope: Scope,
    filter: &'a Prepared,
    candidates: Numbers<S>,
) -> Option<Hits<'a, S>>
    requires { filter.now.conf ≡ entries.now.conf }
    ensures there { is_some result ≡ finite.contains_key entries.now.entries base.now }
    ensures start { IfSome result (λ h. h.tested ≡ 0) }
    ensures steps { IfSome result (λ h. map counted h.to_come ≡ counted_found entries.now (by_rank S.members candidates entries.now) base.now scope filter.now) }
    ensures found { IfSome result (λ h. map seen h.to_come ≡ found entries.now (by_rank S.members candidates entries.now) base.now scope filter.now) }
    ensures tested { IfSome result (λ h. h.in_the_end ≡ count_among entries.now.entries (by_rank S.members candidates entries.now) base.now scope) }
    ensures made { IfSome result (λ h. AreMade entries.now.conf.types h.to_come) }
{
    entries.tree().get(base)?;
    let (rank, rest) = entries.from_base(base);
    let picked = PickedEntries::new(rest, rank, candidates);
    let untested = UntestedEntries::of_picked(picked);
    Some(Hits::new(untested, scope, base.len(), filter))
}

/// What `search_with` finds in the tree of these entries, with the same answers. It goes through the entries at the base and below it of which the
/// filter may be True alone, and not through the others.
pub fn search_ranked_with<'a, P: Postings>(
    alloc: Global,
    entries: &'a EntriesByRank<'a>,
    conf: &Conf,
    postings: &P,
    base: &'a Path,
    scope: Scope,
    filter: &'a Prepared,
) -> Result<Hits<'a, P::Set>, Refusal>
    requires made { entries.now.conf ≡ conf.now }
    requires prepared { filter.now.conf ≡ conf.now }
    ensures there { IfOk result (λ h. finite.contains_key entries.now.entries base.now ≡ true) }
    ensures refused { IfErr result (IsRefused entries.now.entries base.now) }
    ensures missing { finite.contains_key entries.now.entries base.now ≡ false → result ≡ Err (Refusal.Code NoSuchObject) }
    ensures finds { IfOk result (FindsAmong conf.now entries.now (may_by_rank (P.shown postings.now) filter.now entries.now) base.now scope filter.now) }
    ensures part { (whole : Shown) → ShowsTo filter.now (P.shown postings.now) whole
        → may_by_rank (P.shown postings.now) filter.now entries.now ≡ may_by_rank whole filter.now entries.now }
    ensures whole { (whole : Shown) → ShowsTo filter.now (P.shown postings.now) whole → ReflectsDump whole conf.now.types entries.now.entries
        → IfOk result (λ h. map seen h.to_come ≡ scan conf.now entries.now.entries base.now scope (view filter.now.filter)) }
    ensures index { ShowsIndexText (P.shown postings.now) conf.now entries.now.entries
        → IfOk result (λ h. map seen h.to_come ≡ scan conf.now entries.now.entries base.now scope (view filter.now.filter)) }
{
    asked_keys_suffice();
    brackets_hold();
    candidates_suffice();
    index_texts_reflect_dumps();
    schema::order_of_paths();
    conf.rules_are_kept();
    let tree = entries.tree();
    tree.entries_are_a_directory();
    if tree.get(base).is_none() {
        return Err(Refusal::Code(Code::NoSuchObject));
    }
    let may = may_match(alloc, filter, postings)?;
    match search_ranked(entries, base, scope, filter, may) {
        Some(hits) => Ok(hits),
        None => Err(Refusal::Code(Code::NoSuchObject)),
    }
}
