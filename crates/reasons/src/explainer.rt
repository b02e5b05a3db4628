//! Explains refusals.

ghost use Rattle.std.specs.Prelude.{◌≡◌, ◌++◌, ◌&&◌, ◌∷◌, not, IfOk, IfSome, IfNone, Err, None, Ok, Some, true, false, map, length};
ghost use Rattle.std.specs.FinMap as finite;
ghost use Rattle.std.specs.List.{slice_get};
ghost use Rattle.std.specs.Option.{option_map};
ghost use Rattle.ldif.specs.declared.record.Control as controls;
ghost use Rattle.paths.specs.Paths.{is_root, parent_of};
ghost use Rattle.schema.specs.GoodRdns.{IsRdn};
ghost use Rattle.schema.specs.Names.{name_in};
ghost use Rattle.tree.specs.Operations.{has_critical, controls_of};
ghost use Rattle.reasons.specs.NameFlaws.{place_checks};
ghost use Rattle.reasons.specs.Asked.{name_of_record, lines_of_record, IsAt};
ghost use Rattle.reasons.specs.Flaws as flaws;
ghost use Rattle.reasons.specs.Flaws.{delete_checks, add_checks, checks_of};
ghost use Rattle.reasons.specs.Reasons.{Explains};
ghost use Rattle.reasons.specs.inner.Found.{Finds, IsPlace, Stands, later_checks};

use crate::explain_names::{FaultyName, NameExplainer};
use crate::laws::a_refusal_is_of_the_first_flaw;
use crate::reason::{NameReason, Reason};
use ldif::{Control, Mode, Record};
use schema::{Code, Conf, Located, Name, Path, PathFault};
use std::alloc::{AllocError, Global};
use tree::{LentTree, Tree};

/// A record, what its records are, the tree that it is asked of, and the configuration of that.
#[derive(Drop)]
pub(crate) struct Explainer<'a> {
    pub(crate) alloc: Global,
    pub(crate) tree: &'a Tree,
    pub(crate) conf: &'a Conf,
    pub(crate) mode: Mode,
    pub(crate) asked: &'a Record<'a>,
    /// The code that it is refused with, where that is known. It only tells where to look first.
    pub(crate) code: Option<Code>,
    ghost same_conf: { tree.now.conf ≡ conf.now },
}

/// Why a record is refused, and what was found of its name on the way.
#[derive(Drop)]
pub struct Explanation {
    pub reason: Option<Reason>,
    /// Where it stands, if that was looked up and is well.
    pub place: Option<Located>,
    /// The name as it was read, where that was done to find what is wrong with it.
    pub name: Option<Name>,
}

// the index of the first control that is critical
fn critical(asked: &[Control]) -> Option<usize>
    ensures some { IfSome result (λ index. (c : controls.Control) × (slice_get asked.now index ≡ Some c) × (c.critical ≡ true)) }
    ensures none { IfNone result (has_critical asked.now ≡ false) }
{
    for index in 0..asked.len() {
        if asked[index].critical {
            return Some(index);
        }
    }
    None
}

fn controls_of<'a>(asked: &'a Record<'_>) -> &'a [Control]
    ensures { result.now ≡ controls_of asked.now }
{
    match asked {
        Record::Empty | Record::Content { .. } => &[],
        Record::Add { controls, .. } => controls.as_slice(),
        Record::Delete { controls, .. } => controls.as_slice(),
        Record::Modify { controls, .. } => controls.as_slice(),
        Record::ModRdn { controls, .. } => controls.as_slice(),
    }
}

impl Explainer<'_> {
    /// Where a name stands, or what it is refused for.
    pub(crate) fn place(&self, text: &[u8]) -> Result<Result<Located, NameReason>, AllocError>
        ensures { IfOk result (IsPlace self.now.conf.now text.now) }
    {
        match self.conf.locate(self.alloc, text) {
            Ok(place) => Ok(Ok(place)),
            Err(PathFault::Code(_)) => {
                let names = NameExplainer {
                    alloc: self.alloc,
                    conf: self.conf,
                    text,
                };
                Ok(Err(names.place_reason()?))
            }
            Err(PathFault::OutOfMemory) => Err(AllocError),
        }
    }

    /// Whether an entry is there.
    pub(crate) fn is_there(&self, path: &Path) -> bool
        ensures { result ≡ finite.contains_key self.now.tree.now.entries path.now }
    {
        self.tree.get(path).is_some()
    }

    // what a delete is refused for, of the entry at a path
    fn delete_reason(&self, path: &Path) -> Option<Reason>
        requires { IsAt self.now.conf.now self.now.asked.now path.now }
        ensures { Finds self.now.conf.now self.now.mode self.now.tree.now.entries self.now.asked.now delete_checks result }
    {
        if !self.is_there(path) {
            return Some(Reason::NoEntry);
        }
        if self.tree.has_child(path) {
            return Some(Reason::HasChildren);
        }
        None
    }

    // what a record is refused for, where its name stands at this place
    fn placed_reason(&self, place: &Located) -> Result<Option<Reason>, AllocError>
        requires stands { Stands self.now.conf.now (name_of_record self.now.asked.now) place.now.path place.now.rdn }
        requires good { IsRdn self.now.conf.now.types place.now.rdn }
        ensures { IfOk result (Finds self.now.conf.now self.now.mode self.now.tree.now.entries self.now.asked.now (later_checks self.now.asked.now)) }
    {
        match self.asked {
            Record::Empty => Ok(None),
            Record::Content { attrs, .. } => self.add_reason(place, attrs.as_slice()),
            Record::Add { attrs, .. } => self.add_reason(place, attrs.as_slice()),
            Record::Delete { .. } => Ok(self.delete_reason(&place.path)),
            Record::Modify { mods, .. } => self.modify_reason(&place.path, mods.as_slice()),
            Record::ModRdn {
                newrdn,
                delete_old,
                new_superior,
                ..
            } => self.rename_reason(
                &place.path,
                newrdn.as_slice(),
                *delete_old,
                new_superior.as_ref(),
            ),
        }
    }

    // what the record's name is refused for by itself, where the code tells that a name is
    fn faulty_name(&self, dn: &[u8]) -> Result<Option<FaultyName>, AllocError>
        ensures why { IfOk result (λ found. IfSome found (λ f. IsPlace self.now.conf.now dn.now (Err f.why))) }
        ensures name { IfOk result (λ found. IfSome found (λ f. IfSome f.name (λ n. name_in dn.now ≡ Ok n))) }
    {
        match self.code {
            Some(Code::InvalidDnSyntax | Code::NamingViolation) => {
                let names = NameExplainer {
                    alloc: self.alloc,
                    conf: self.conf,
                    text: dn,
                };
                names.own_flaw()
            }
            _ => Ok(None),
        }
    }

    // what a record is refused for, by this name and what stands there
    fn named(&self, dn: &[u8]) -> Result<Explanation, AllocError>
        requires { dn.now ≡ name_of_record self.now.asked.now }
        ensures finds { IfOk result (λ e. Finds self.now.conf.now self.now.mode self.now.tree.now.entries self.now.asked.now (map flaws.Name (place_checks (name_of_record self.now.asked.now)) ++ later_checks self.now.asked.now) e.reason) }
        ensures place { IfOk result (λ e. IfSome e.place (λ place. IsAt self.now.conf.now self.now.asked.now place.path)) }
        ensures name { IfOk result (λ e. IfSome e.name (λ n. name_in (name_of_record self.now.asked.now) ≡ Ok n)) }
    {
        if let Some(faulty) = self.faulty_name(dn)? {
            let FaultyName { why, name } = faulty;
            return Ok(Explanation {
                reason: Some(Reason::Name(why)),
                place: None,
                name,
            });
        }
        match self.place(dn)? {
            Ok(place) => {
                let reason = self.placed_reason(&place)?;
                Ok(Explanation {
                    reason,
                    place: Some(place),
                    name: None,
                })
            }
            Err(why) => Ok(Explanation {
                reason: Some(Reason::Name(why)),
                place: None,
                name: None,
            }),
        }
    }

    // what a record without a critical control is refused for
    fn explanation(&self) -> Result<Explanation, AllocError>
        requires { has_critical (controls_of self.now.asked.now) ≡ false }
        ensures finds { IfOk result (λ e. Finds self.now.conf.now self.now.mode self.now.tree.now.entries self.now.asked.now (checks_of self.now.asked.now) e.reason) }
        ensures place { IfOk result (λ e. IfSome e.place (λ place. IsAt self.now.conf.now self.now.asked.now place.path)) }
        ensures name { IfOk result (λ e. IfSome e.name (λ n. name_in (name_of_record self.now.asked.now) ≡ Ok n)) }
    {
        match self.asked {
            Record::Empty => Ok(Explanation {
                reason: None,
                place: None,
                name: None,
            }),
            Record::Content { dn, .. } => self.named(dn.as_slice()),
            Record::Add { dn, .. } => self.named(dn.as_slice()),
            Record::Delete { dn, .. } => self.named(dn.as_slice()),
            Record::Modify { dn, .. } => self.named(dn.as_slice()),
            Record::ModRdn { dn, .. } => self.named(dn.as_slice()),
        }
    }
}

/// Why a record is refused: its first flaw (RFC 4511, 4.6 to 4.9), and what that is of; None where it isn't refused. With it comes what was found of
/// the record's name. The code that the record is refused with may be left out: no answer depends on it, but with it names at fault are read once.
pub fn explain_in_place(
    alloc: Global,
    lent: LentTree<'_>,
    asked: &Record<'_>,
    mode: Mode,
    code: Option<Code>,
) -> Result<Explanation, AllocError>
    ensures explains { IfOk result (λ e. Explains lent.entry.conf.now mode lent.entry.tree.now.entries asked.now e.reason) }
    ensures place { IfOk result (λ e. IfSome e.place (λ place. IsAt lent.entry.conf.now asked.now place.path)) }
    ensures name { IfOk result (λ e. IfSome e.name (λ n. name_in (name_of_record asked.now) ≡ Ok n)) }
{
    a_refusal_is_of_the_first_flaw();
    if let Some(control) = critical(controls_of(asked)) {
        return Ok(Explanation {
            reason: Some(Reason::CriticalControl { control }),
            place: None,
            name: None,
        });
    }
    let LentTree { tree, conf } = lent;
    let explainer = Explainer {
        alloc,
        tree,
        conf,
        mode,
        asked,
        code,
    };
    explainer.explanation()
}

/// The reason alone.
pub fn explain(
    alloc: Global,
    lent: LentTree<'_>,
    asked: &Record<'_>,
    mode: Mode,
) -> Result<Option<Reason>, AllocError>
    ensures { IfOk result (Explains lent.entry.conf.now mode lent.entry.tree.now.entries asked.now) }
{
    let explanation = explain_in_place(alloc, lent, asked, mode, None)?;
    Ok(explanation.reason)
}
