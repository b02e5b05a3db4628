//! Loading: the tree of the content records of a source.

ghost use Rattle.std.specs.Prelude.{◌≡◌, ◌<◌, ◌-◌, ◌^◌, Err, IfOk, IfErr, option_map};
ghost use Rattle.std.specs.FinMap as finite;
ghost use Rattle.device.specs.Device.{GaveSome};
ghost use Rattle.ldif_lines.specs.Records.{records, closed_records};
ghost use Rattle.databases.specs.Runs.{LoadsRecords};
ghost use Rattle.databases.specs.Folds.{Over};
ghost use Rattle.databases.specs.Loading.{StopsAt, PullFailures};
ghost use Rattle.databases.specs.FailedReads.{LoadedUpTo};
ghost use Rattle.databases.specs.declared.runs.Tally.{Tally};
ghost use Rattle.databases.specs.inner.Endings.{load_fault_of};

use crate::applying::apply;
use crate::refusal::{RecordRefusal, RefusedRecord};
use crate::runs::{RunFault, Tally, run_to_ending};
use crate::target::Target;
use crate::teller::{NotedRecord, Silent, Teller};
use device::{Nowhere, Source};
use entries::Refusal;
use ldif::{Mode, Record};
use schema::Conf;
use std::alloc::{AllocError, Global};
use thiserror::Error;
use tree::{LentTree, Tree};

/// Why nothing was loaded.
#[derive(Clone, Copy, Debug, Error)]
pub enum LoadFault {
    /// The source failed.
    #[error("cannot read")]
    Read,
    #[error("out of memory")]
    OutOfMemory,
    /// The record that begins on this line is refused.
    #[error("line {line}: {refusal}")]
    Refused { line: u64, refusal: RecordRefusal },
}

impl From<AllocError> for LoadFault {
    ghost use Rattle.databases.specs.declared.loading.LoadFault.TheVariants.{OutOfMemory};

    ghost from_gives = { λ _ e. e ≡ OutOfMemory };

    fn from(_: AllocError) -> LoadFault {
        LoadFault::OutOfMemory
    }
}

/// The entries that were loaded so far, under a configuration that is lent.
#[derive(Drop)]
struct LoadedTree<'a> {
    conf: &'a Conf,
    tree: Tree,
    ghost same_conf: { tree.conf ≡ conf.now },
}

impl Target for LoadedTree<'_> {
    ghost conf = { λ l. l.tree.conf };

    ghost entries = { λ l. l.tree.entries };

    ghost edits = { λ _. 0 };

    ghost count_edits = { λ _ _ _ _. 0 };

    fn lent(&self) -> LentTree<'_> {
        LentTree::new(&self.tree, self.conf)
    }

    fn carry_out(&mut self, alloc: Global, asked: &Record<'_>, mode: Mode) -> Result<(), Refusal> {
        apply(alloc, &mut self.tree, self.conf, asked, mode)
    }
}

/// Has a teller take note of a refusal, and tell nothing: the line that reports it is still to come.
#[derive(Drop)]
struct NotesAlone<'a, T> {
    teller: &'a mut T,
}

impl<T: Teller> Teller for NotesAlone<'_, T> {
    fn note(&mut self, alloc: Global, lent: LentTree<'_>, refused: &NotedRecord<'_>) {
        self.teller.note(alloc, lent, refused);
    }

    fn tell(&mut self) {}

    fn pass(&mut self, tally: Tally) {
        self.teller.pass(tally);
    }
}

// that a record is refused
fn fault_of(refused: RefusedRecord) -> LoadFault
    ensures { result ≡ LoadFault.Refused refused.line refused.refusal }
{
    let RefusedRecord { line, refusal } = refused;
    LoadFault::Refused { line, refusal }
}

// why nothing is loaded where the run was broken off; it reports to nowhere, so no sink fails
fn load_fault_of(fault: RunFault) -> LoadFault
    requires { (t : Tally) → fault ≡ RunFault.Write t → ⊥ }
    ensures { result ≡ load_fault_of fault }
{
    match fault {
        RunFault::Read(_) => LoadFault::Read,
        RunFault::OutOfMemory(_) => LoadFault::OutOfMemory,
        RunFault::Write(_) => unreachable!(),
    }
}

/// The tree of the content records of a source, under a configuration. The first record that is refused is answered with
/// the number of its line and the refusal.
pub fn load_tree<S: Source>(alloc: Global, conf: &Conf, source: &mut S) -> Result<Tree, LoadFault>
    requires { (S.seen source.old).failed < 2 ^ 64 - 1 }
    ensures same_conf { IfOk result (λ t. t.conf ≡ conf.now) }
    ensures loads { IfOk result (λ t. Over (option_map records (S.seen source.old).left) (λ given. LoadsRecords conf.now finite.empty given t.entries)) }
    ensures stops { IfErr result (λ f. StopsAt f conf.now finite.empty (option_map records (S.seen source.old).left)) }
    ensures read { result ≡ Err LoadFault.Read → LoadedUpTo closed_records conf.now finite.empty (S.seen source.old) (S.seen source.new) }
    ensures failures { PullFailures result (S.seen source.old).failed (S.seen source.new).failed }
    ensures gave { GaveSome (S.seen source.old) (S.seen source.new) }
{
    load_tree_telling(alloc, conf, source, &mut Silent)
}

/// The same as `load_tree`. The teller takes note of the record that is refused, and tells nothing as yet.
pub fn load_tree_telling<S: Source, T: Teller>(
    alloc: Global,
    conf: &Conf,
    source: &mut S,
    teller: &mut T,
) -> Result<Tree, LoadFault>
    requires { (S.seen source.old).failed < 2 ^ 64 - 1 }
    ensures same_conf { IfOk result (λ t. t.conf ≡ conf.now) }
    ensures loads { IfOk result (λ t. Over (option_map records (S.seen source.old).left) (λ given. LoadsRecords conf.now finite.empty given t.entries)) }
    ensures stops { IfErr result (λ f. StopsAt f conf.now finite.empty (option_map records (S.seen source.old).left)) }
    ensures read { result ≡ Err LoadFault.Read → LoadedUpTo closed_records conf.now finite.empty (S.seen source.old) (S.seen source.new) }
    ensures failures { PullFailures result (S.seen source.old).failed (S.seen source.new).failed }
    ensures gave { GaveSome (S.seen source.old) (S.seen source.new) }
{
    let tree = Tree::new(alloc, conf);
    let mut loaded = LoadedTree { conf, tree };
    let mut unread = Nowhere::new();
    let mut notes = NotesAlone { teller };
    let ran = run_to_ending(
        alloc,
        &mut loaded,
        source,
        &mut unread,
        &mut notes,
        Mode::Content,
        false,
    );
    match ran {
        Ok(ending) => match ending.stopped_by {
            None => Ok(loaded.tree),
            Some(refused) => Err(fault_of(refused)),
        },
        Err(fault) => Err(load_fault_of(fault)),
    }
}
