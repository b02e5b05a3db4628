//! One record, carried out.

ghost use Rattle.std.specs.Prelude.{◌≡◌, ◌+◌, ◌*◌, Ok, IfOk, OnOk, OnErr};
ghost use Rattle.ldif.specs.Reading.{reading};
ghost use Rattle.tree.specs.Operations.{apply};
ghost use Rattle.entries.specs.Gives.{Gives};
ghost use Rattle.databases.specs.RunEdits.{edits_read, RisesUpTo};
ghost use Rattle.databases.specs.Runs.{outcome, outcome_of};

use crate::refusal::{Outcome, RecordRefusal};
use crate::target::Target;
use crate::teller::{NotedRecord, Teller};
use entries::Refusal;
use ldif::{LdifFault, Mode, RawRecord, Record, read_record};
use schema::Conf;
use std::alloc::{AllocError, Global};
use tree::{Tree, plan};

/// Carries out a record on a tree, or refuses it and changes nothing.
pub(crate) fn apply(
    alloc: Global,
    tree: &mut Tree,
    conf: &Conf,
    asked: &Record<'_>,
    mode: Mode,
) -> Result<(), Refusal>
    requires { tree.old.conf ≡ conf.now }
    ensures same_conf { tree.new.conf ≡ tree.old.conf }
    ensures gives { Gives (λ _. tree.new.entries) result (apply conf.now mode tree.old.entries asked.now) }
    ensures err { OnErr result (tree.new ≡ tree.old) }
{
    let plan = plan(alloc, tree, conf, asked, mode)?;
    tree.commit(plan)?;
    Ok(())
}

// What becomes of a record that is carried out; a teller takes note of one that is refused.
#[tactic(auto, unfolding(crate::specs::Runs::outcome))]
fn outcome_of<T: Target, L: Teller>(
    alloc: Global,
    target: &mut T,
    teller: &mut L,
    raw: &RawRecord,
    asked: &Record<'_>,
    mode: Mode,
) -> Result<Outcome, AllocError>
    ensures same_conf { T.conf target.new ≡ T.conf target.old }
    ensures outcome { IfOk result (λ o. outcome (T.conf target.old) mode (T.entries target.old) (Ok asked.now) ≡ (T.entries target.new, o)) }
    ensures err { OnErr result (T.entries target.new ≡ T.entries target.old) }
    ensures edits { OnOk result (T.edits target.new ≡ T.edits target.old + T.count_edits (T.conf target.old) mode (T.entries target.old) asked.now) }
    ensures wanting { OnErr result (RisesUpTo (2 * T.count_edits (T.conf target.old) mode (T.entries target.old) asked.now)
        (T.edits target.old) (T.edits target.new)) }
{
    match target.carry_out(alloc, asked, mode) {
        Ok(()) => Ok(Outcome::of_accepted(asked)),
        Err(Refusal::Code(code)) => {
            let refusal = RecordRefusal::Code(code);
            let refused = NotedRecord {
                raw,
                asked: Some(asked),
                mode,
                refusal,
            };
            teller.note(alloc, target.lent(), &refused);
            Ok(Outcome::Refused(refusal))
        }
        Err(Refusal::OutOfMemory) => Err(AllocError),
    }
}

/// Reads a record from its lines and carries it out, or refuses it, and has a teller take note of that. A refusal changes no entry, nor does want of
/// memory, which is the only error.
#[tactic(auto, unfolding(crate::specs::Runs::outcome))]
pub(crate) fn carry_out<T: Target, L: Teller>(
    alloc: Global,
    target: &mut T,
    teller: &mut L,
    raw: &RawRecord,
    mode: Mode,
) -> Result<Outcome, AllocError>
    ensures same_conf { T.conf target.new ≡ T.conf target.old }
    ensures outcome { IfOk result (λ o. outcome_of (T.conf target.old) mode (T.entries target.old) raw.now ≡ (T.entries target.new, o)) }
    ensures err { OnErr result (T.entries target.new ≡ T.entries target.old) }
    ensures edits { OnOk result (T.edits target.new ≡ T.edits target.old
        + edits_read T.count_edits (T.conf target.old) mode (T.entries target.old) (reading mode raw.now.first raw.now.lines)) }
    ensures wanting { OnErr result (RisesUpTo (2 * edits_read T.count_edits (T.conf target.old) mode (T.entries target.old)
        (reading mode raw.now.first raw.now.lines)) (T.edits target.old) (T.edits target.new)) }
{
    match read_record(alloc, raw, mode) {
        Ok(asked) => outcome_of(alloc, target, teller, raw, &asked, mode),
        Err(LdifFault::Fault(fault)) => {
            let refusal = RecordRefusal::Fault(fault);
            let refused = NotedRecord {
                raw,
                asked: None,
                mode,
                refusal,
            };
            teller.note(alloc, target.lent(), &refused);
            Ok(Outcome::Refused(refusal))
        }
        Err(LdifFault::OutOfMemory) => Err(AllocError),
    }
}
