//! Makes plans: what a record does to a tree, or the code that it is refused with.

ghost use Rattle.std.specs.Prelude.{◌≡◌, IfOk};
ghost use Rattle.tree.specs.Changes.{path_before};
ghost use Rattle.tree.specs.Operations.{has_critical, controls_of, change_asked, change_of, record_path};
ghost use Rattle.tree.specs.inner.Plans.{seen_change, IsChange};
ghost use Rattle.entries.specs.Gives.{Gives};

use crate::plans::{Change, Plan};
use crate::tree::Tree;
use entries::Refusal;
use ldif::{Control, Mode, Record};
use schema::{Code, Conf};
use std::alloc::Global;

/// Works out what a record does to a tree, and changes nothing. `conf` is the configuration that the tree was made with. A
/// refusal has the code of the first check that fails (RFC 4511, 4.6 to 4.9 and 4.1.9).
pub fn plan(
    alloc: Global,
    tree: &Tree,
    conf: &Conf,
    asked: &Record<'_>,
    mode: Mode,
) -> Result<Plan, Refusal>
    requires { tree.now.conf ≡ conf.now }
    ensures of { IfOk result (λ p. p.tree ≡ tree.now) }
    ensures path { IfOk result (λ p. path_before p.change ≡ record_path conf.now asked.now) }
    ensures gives { Gives (λ p. p.change) result (change_of conf.now mode tree.now.entries asked.now) }
{
    let planner = Planner {
        alloc,
        tree,
        conf,
        mode,
    };
    let change = planner.change_of(asked)?;
    Ok(Plan::of(tree, change))
}

/// A tree, the configuration that it was made with, and what the records are: what a plan is worked out from.
#[derive(Drop)]
pub(crate) struct Planner<'a> {
    pub(crate) alloc: Global,
    pub(crate) tree: &'a Tree,
    pub(crate) conf: &'a Conf,
    pub(crate) mode: Mode,
    ghost same_conf: { tree.now.conf ≡ conf.now },
}

impl Planner<'_> {
    fn change_of(&self, asked: &Record<'_>) -> Result<Change, Refusal>
        ensures change { IfOk result (λ c. IsChange self.now.tree.now c) }
        ensures path { IfOk result (λ c. path_before (seen_change c) ≡ record_path self.now.conf.now asked.now) }
        ensures gives { Gives seen_change result (change_of self.now.conf.now self.now.mode self.now.tree.now.entries asked.now) }
    {
        if has_critical(controls_of(asked)) {
            return Err(Refusal::Code(Code::UnavailableCriticalExtension));
        }
        self.change_asked(asked)
    }

    fn change_asked(&self, asked: &Record<'_>) -> Result<Change, Refusal>
        ensures change { IfOk result (λ c. IsChange self.now.tree.now c) }
        ensures path { IfOk result (λ c. path_before (seen_change c) ≡ record_path self.now.conf.now asked.now) }
        ensures gives { Gives seen_change result (change_asked self.now.conf.now self.now.mode self.now.tree.now.entries asked.now) }
    {
        match asked {
            Record::Empty => self.nothing(),
            Record::Content { dn, attrs } => self.add_of(dn.as_slice(), attrs.as_slice()),
            Record::Add { dn, attrs, .. } => self.add_of(dn.as_slice(), attrs.as_slice()),
            Record::Delete { dn, .. } => self.delete_of(dn.as_slice()),
            Record::Modify { dn, mods, .. } => self.modify_of(dn.as_slice(), mods.as_slice()),
            Record::ModRdn {
                dn,
                newrdn,
                delete_old,
                new_superior,
                ..
            } => self.rename_of(
                dn.as_slice(),
                newrdn.as_slice(),
                *delete_old,
                new_superior.as_ref(),
            ),
        }
    }

    // no change
    fn nothing(&self) -> Result<Change, Refusal>
        ensures nothing { result ≡ Ok Change.Nothing }
        ensures change { IsChange self.now.tree.now Change.Nothing }
    {
        self.tree.entries_are_a_directory();
        Ok(Change::Nothing)
    }
}

fn controls_of<'a>(asked: &'a Record<'_>) -> &'a [Control]
    ensures { result.now ≡ controls_of asked.now }
{
    match asked {
        Record::Empty | Record::Content { .. } => &[],
        Record::Add { controls, .. } => controls.as_slice(),
        Record::Delete { controls, .. } => controls.as_slice(),
        Record::Modify { controls, .. } => controls.as_slice(),
        Record::ModRdn { controls, .. } => controls.as_slice(),
    }
}

// whether one of the controls can't be ignored
fn has_critical(controls: &[Control]) -> bool
    ensures { result ≡ has_critical controls.now }
{
    for control in controls {
        if control.critical {
            return true;
        }
    }
    false
}
