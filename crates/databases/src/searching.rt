//! Searches of a tree with postings of ranks.

ghost use Rattle.std.specs.Prelude.{◌≡◌, true, false, map, Err, IfOk, IfErr};
ghost use Rattle.std.specs.FinMap as finite;
ghost use Rattle.schema.specs.declared.code.Code.TheVariants.{NoSuchObject};
ghost use Rattle.filter_text.specs.Spells.{view};
ghost use Rattle.index_text.specs.Postings.{Shown};
ghost use Rattle.databases.specs.Scanned.{scan};
ghost use Rattle.databases.specs.TreeSearches.{FindsAmong};
ghost use Rattle.databases.specs.Walks.{seen};
ghost use Rattle.databases.specs.Searches.{IsRefused, may_by_rank, ShowsTo, ReflectsDump, ShowsIndexText};

use crate::hits::Hits;
use crate::laws::{candidates_suffice, index_texts_reflect_dumps};
use crate::scanning::search_by_ranks;
use candidates::{asked_keys_suffice, brackets_hold, may_match};
use entries::Refusal;
use filter::Prepared;
use index_text::Postings;
use paths::Scope;
use schema::{Code, Conf, Path};
use std::alloc::Global;
use tree::Tree;

/// The entries of a tree in scope of which the filter is True, as far as it may be True by what postings show of their ranks, in dump order
/// (RFC 4511, 4.5.1). A rank is an entry's place in the dump. Where the postings show what the directory's index text says, as those do that
/// `StoredIndex::read` reads of it, these are all entries in scope of which the filter is True; so it is wherever each rank stands under exactly
/// the keys of its entry. The postings may be a part of a whole, as long as they show the keys that the filter asks for as the whole does: by
/// the whole the same is found. No entry is tested but those of which the filter may be True. Tree and filter were made under this
/// configuration. `NoSuchObject` where the base isn't there, and else `OutOfMemory`.
#[tactic(auto, using(crate::proofs::ByPostings::by_whole))]
pub fn search_with<'a, P: Postings>(
    alloc: Global,
    tree: &'a Tree,
    conf: &Conf,
    postings: &P,
    base: &'a Path,
    scope: Scope,
    filter: &'a Prepared,
) -> Result<Hits<'a, P::Set>, Refusal>
    requires made { tree.now.conf ≡ conf.now }
    requires prepared { filter.now.conf ≡ conf.now }
    ensures there { IfOk result (λ h. finite.contains_key tree.now.entries base.now ≡ true) }
    ensures refused { IfErr result (IsRefused tree.now.entries base.now) }
    ensures missing { finite.contains_key tree.now.entries base.now ≡ false → result ≡ Err (Refusal.Code NoSuchObject) }
    ensures finds { IfOk result (FindsAmong conf.now tree.now (may_by_rank (P.shown postings.now) filter.now tree.now) base.now scope filter.now) }
    ensures part { (whole : Shown) → ShowsTo filter.now (P.shown postings.now) whole
        → may_by_rank (P.shown postings.now) filter.now tree.now ≡ may_by_rank whole filter.now tree.now }
    ensures whole { (whole : Shown) → ShowsTo filter.now (P.shown postings.now) whole → ReflectsDump whole conf.now.types tree.now.entries
        → IfOk result (λ h. map seen h.to_come ≡ scan conf.now tree.now.entries base.now scope (view filter.now.filter)) }
    ensures index { ShowsIndexText (P.shown postings.now) conf.now tree.now.entries
        → IfOk result (λ h. map seen h.to_come ≡ scan conf.now tree.now.entries base.now scope (view filter.now.filter)) }
{
    asked_keys_suffice();
    brackets_hold();
    candidates_suffice();
    index_texts_reflect_dumps();
    schema::order_of_paths();
    conf.rules_are_kept();
    tree.entries_are_a_directory();
    if tree.get(base).is_none() {
        return Err(Refusal::Code(Code::NoSuchObject));
    }
    let may = may_match(alloc, filter, postings)?;
    match search_by_ranks(alloc, tree, base, scope, filter, may) {
        Some(hits) => Ok(hits),
        None => Err(Refusal::Code(Code::NoSuchObject)),
    }
}
