//! One record, carried out on a database and its index.

ghost use Rattle.std.specs.Prelude.{◌≡◌, ◌+◌, ◌*◌, Some, None, Err, IfOk, OnOk, OnErr};
ghost use Rattle.std.specs.FinSet as set;
ghost use Rattle.tree.specs.Changes.{changed};
ghost use Rattle.tree.specs.Operations.{apply};
ghost use Rattle.entries.specs.Gives.{Gives};
ghost use Rattle.tree.specs.Plans.{before, number_of};
ghost use Rattle.index_keys.specs.EntryKeys.{slot_keys_in, edits};
ghost use Rattle.index.specs.Edits.{CountsEdits, RisesUpTo};
ghost use Rattle.index.specs.Indexes.{Inserts, Forgets, IsNowhere};
ghost use Rattle.index.specs.KeyChanges.{IsMadeIn, content_in};
ghost use Rattle.directory.specs.Indexes.{IsIndexOf, edits_of, record_edits};
ghost use Rattle.schema.specs.declared.code.Code.{Code};

use databases::Database;
use entries::{Entry, Refusal};
use index::{Index, KeyChanges, key_changes};
use ldif::{Mode, Record};
use schema::Conf;
use std::alloc::{AllocError, Global};
use tree::Plan;

/// What a record changed in the index.
#[derive(Clone, Copy, Debug, PartialEq, Eq)]
pub struct Edits {
    /// How many keys under slots the entry that changed has either before or after, and not both.
    pub count: u128,
}

// Puts a number under the keys of an entry, where there is one, and answers how many keys these are.
fn insert_stored(
    index: &mut Index,
    conf: &Conf,
    stored: Option<&Entry>,
    number: u32,
) -> Result<usize, AllocError>
    requires same_conf { index.old.conf ≡ conf.now }
    requires made { IsMadeIn conf.now.types stored }
    requires nowhere { IsNowhere number index.old }
    ensures same_conf { index.new.conf ≡ index.old.conf }
    ensures ok { OnOk result (Inserts (set.contains (slot_keys_in conf.now (content_in stored.entry))) number index.old index.new) }
    ensures count { IfOk result (λ count. count ≡ edits conf.now None (content_in stored.entry)) }
    ensures edits { IfOk result (λ count. index.new.edits ≡ index.old.edits + count) }
    ensures counted { OnOk result (CountsEdits index.old index.new) }
    ensures err { OnErr result (Forgets number index.old index.new) }
    ensures wanting { OnErr result (RisesUpTo (2 * edits conf.now None (content_in stored.entry)) index.old index.new) }
{
    match stored {
        Some(entry) => index.insert_entry(conf, entry, number),
        None => Ok(0),
    }
}

// Carries out a plan for an entry that is new, or changes neither an entry nor a member of the index.
fn carry_out_add(
    database: &mut Database,
    index: &mut Index,
    plan: Plan,
    number: u32,
) -> Result<Edits, AllocError>
    requires of { plan.tree ≡ database.old }
    requires indexed { IsIndexOf database.old.conf database.old.entries database.old.numbers index.old }
    requires number { number_of plan ≡ Some number }
    requires new { before plan ≡ None }
    ensures same_conf { database.new.conf ≡ database.old.conf }
    ensures indexed { IsIndexOf database.old.conf database.new.entries database.new.numbers index.new }
    ensures entries { OnOk result (database.new.entries ≡ changed database.old.entries plan.change) }
    ensures count { IfOk result (λ e. e.count ≡ edits_of database.old.conf database.old.entries plan.change) }
    ensures edits { IfOk result (λ e. index.new.edits ≡ index.old.edits + e.count) }
    ensures err { OnErr result (database.new ≡ database.old) }
    ensures wanting { OnErr result (RisesUpTo (2 * edits_of database.old.conf database.old.entries plan.change) index.old index.new) }
{
    plan.keeps_entries();
    let count = insert_stored(index, database.conf(), plan.after(), number)?;
    match database.commit(plan) {
        Ok(()) => Ok(Edits {
            count: count as u128,
        }),
        Err(error) => {
            index.forget(number);
            Err(error)
        }
    }
}

// Carries out a plan, or changes neither an entry nor a member of the index.
fn carry_out_plan(
    alloc: Global,
    database: &mut Database,
    index: &mut Index,
    plan: Plan,
) -> Result<Edits, AllocError>
    requires of { plan.tree ≡ database.old }
    requires indexed { IsIndexOf database.old.conf database.old.entries database.old.numbers index.old }
    ensures same_conf { database.new.conf ≡ database.old.conf }
    ensures indexed { IsIndexOf database.old.conf database.new.entries database.new.numbers index.new }
    ensures entries { OnOk result (database.new.entries ≡ changed database.old.entries plan.change) }
    ensures count { IfOk result (λ e. e.count ≡ edits_of database.old.conf database.old.entries plan.change) }
    ensures edits { IfOk result (λ e. index.new.edits ≡ index.old.edits + e.count) }
    ensures err { OnErr result (database.new ≡ database.old) }
    ensures wanting { OnErr result (RisesUpTo (2 * edits_of database.old.conf database.old.entries plan.change) index.old index.new) }
{
    plan.keeps_entries();
    let Some(number) = plan.number() else {
        return Ok(Edits { count: 0 });
    };
    if plan.before(database.tree()).is_none() {
        return carry_out_add(database, index, plan, number);
    }
    let KeyChanges { came, gone } = key_changes(
        alloc,
        database.conf(),
        plan.before(database.tree()),
        plan.after(),
    )?;
    index.insert_all(&came, number)?;
    match database.commit(plan) {
        Ok(()) => {}
        Err(error) => {
            index.remove_all(&came, number);
            return Err(error);
        }
    }
    index.remove_all(&gone, number);
    Ok(Edits {
        count: came.len() as u128 + gone.len() as u128,
    })
}

// Carries out a record on a database and its index, or refuses it and changes neither an entry nor a member of the index.
pub(crate) fn apply_record(
    alloc: Global,
    database: &mut Database,
    index: &mut Index,
    asked: &Record<'_>,
    mode: Mode,
) -> Result<Edits, Refusal>
    requires { IsIndexOf database.old.conf database.old.entries database.old.numbers index.old }
    ensures same_conf { database.new.conf ≡ database.old.conf }
    ensures indexed { IsIndexOf database.old.conf database.new.entries database.new.numbers index.new }
    ensures gives { Gives (λ _. database.new.entries) result (apply database.old.conf mode database.old.entries asked.now) }
    ensures count { IfOk result (λ e. e.count ≡ record_edits database.old.conf mode database.old.entries asked.now) }
    ensures edits { IfOk result (λ e. index.new.edits ≡ index.old.edits + e.count) }
    ensures refused { (code : Code) → result ≡ Err (Refusal.Code code) → index.new.edits ≡ index.old.edits }
    ensures wanting { OnErr result (RisesUpTo (2 * record_edits database.old.conf mode database.old.entries asked.now) index.old index.new) }
    ensures err { OnErr result (database.new ≡ database.old) }
{
    let plan = database.plan(alloc, asked, mode)?;
    let edits = carry_out_plan(alloc, database, index, plan)?;
    Ok(edits)
}
