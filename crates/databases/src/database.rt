//! Entries under a configuration, without an index.

ghost use Rattle.std.specs.Prelude.{◌≡◌, ◌<◌, ◌-◌, ◌^◌, IfOk, IfErr, OnOk, OnErr, Err, option_map};
ghost use Rattle.std.specs.FinMap as finite;
ghost use Rattle.device.specs.Device.{GaveSome};
ghost use Rattle.ldif_lines.specs.Records.{records, closed_records};
ghost use Rattle.entries.specs.Gives.{Gives};
ghost use Rattle.tree.specs.Changes.{changed, path_before};
ghost use Rattle.tree.specs.Operations.{change_of, record_path};
ghost use Rattle.tree.specs.Plans.{numbers_after};
ghost use Rattle.databases.specs.FailedReads.{LoadedUpTo};
ghost use Rattle.databases.specs.Folds.{Over};
ghost use Rattle.databases.specs.Loading.{StopsAt, PullFailures};
ghost use Rattle.databases.specs.Runs.{LoadsRecords};

use crate::applying::apply;
use crate::loading::{LoadFault, load_tree_telling};
use crate::target::Target;
use crate::teller::{Silent, Teller};
use device::Source;
use entries::Refusal;
use ldif::{Mode, Record};
use schema::Conf;
use std::alloc::{AllocError, Global};
use std::marker::Model;
use tree::{LentTree, Plan, Tree, plan};

/// The entries of a directory, and the configuration that they were made with. It keeps no index. A contract sees it as its tree.
#[derive(Drop)]
pub struct Database {
    conf: Conf,
    tree: Tree,
}

impl Model for Database {
    ghost use Rattle.std.specs.Prelude.{◌≡◌};
    ghost use Rattle.tree.specs.Trees as trees;

    ghost Value = { trees.Tree };

    ghost coded = { trees.tree_code };

    ghost view = { λ d. d.tree };

    ghost invariant = { λ d. d.tree.conf ≡ d.conf };
}

impl Database {
    /// No entry, under a configuration.
    pub fn new(alloc: Global, conf: Conf) -> Database
        ensures same_conf { result.conf ≡ conf }
        ensures empty { result.entries ≡ finite.empty }
    {
        let tree = Tree::new(alloc, &conf);
        Database { conf, tree }
    }

    /// The entries of a tree that was made with this configuration.
    pub fn from_tree(conf: Conf, tree: Tree) -> Database
        requires { tree.conf ≡ conf }
        ensures { result ≡ tree }
    {
        Database { conf, tree }
    }

    /// The content records of a source, under a configuration. The first record that is refused is answered with the number of its line and
    /// the refusal.
    pub fn load<S: Source>(alloc: Global, conf: Conf, source: &mut S) -> Result<Database, LoadFault>
        requires { (S.seen source.old).failed < 2 ^ 64 - 1 }
        ensures same_conf { IfOk result (λ d. d.conf ≡ conf) }
        ensures loads { IfOk result (λ d. Over (option_map records (S.seen source.old).left) (λ given. LoadsRecords conf finite.empty given d.entries)) }
        ensures stops { IfErr result (λ f. StopsAt f conf finite.empty (option_map records (S.seen source.old).left)) }
        ensures read { result ≡ Err LoadFault.Read → LoadedUpTo closed_records conf finite.empty (S.seen source.old) (S.seen source.new) }
        ensures failures { PullFailures result (S.seen source.old).failed (S.seen source.new).failed }
        ensures gave { GaveSome (S.seen source.old) (S.seen source.new) }
    {
        Database::load_telling(alloc, conf, source, &mut Silent)
    }

    /// The same as `load`. The teller takes note of the record that is refused, and tells nothing as yet.
    pub fn load_telling<S: Source, T: Teller>(
        alloc: Global,
        conf: Conf,
        source: &mut S,
        teller: &mut T,
    ) -> Result<Database, LoadFault>
        requires { (S.seen source.old).failed < 2 ^ 64 - 1 }
        ensures same_conf { IfOk result (λ d. d.conf ≡ conf) }
        ensures loads { IfOk result (λ d. Over (option_map records (S.seen source.old).left) (λ given. LoadsRecords conf finite.empty given d.entries)) }
        ensures stops { IfErr result (λ f. StopsAt f conf finite.empty (option_map records (S.seen source.old).left)) }
        ensures read { result ≡ Err LoadFault.Read → LoadedUpTo closed_records conf finite.empty (S.seen source.old) (S.seen source.new) }
        ensures failures { PullFailures result (S.seen source.old).failed (S.seen source.new).failed }
        ensures gave { GaveSome (S.seen source.old) (S.seen source.new) }
    {
        match load_tree_telling(alloc, &conf, source, teller) {
            Ok(tree) => Ok(Database { conf, tree }),
            Err(fault) => Err(fault),
        }
    }

    /// The configuration.
    pub fn conf(&self) -> &Conf
        ensures { result.now ≡ self.now.conf }
    {
        &self.conf
    }

    /// The entries.
    pub fn tree(&self) -> &Tree
        ensures { result.now ≡ self.now }
    {
        &self.tree
    }

    /// The entries, with the configuration.
    pub fn lent(&self) -> LentTree<'_>
        ensures conf { result.conf.now ≡ self.now.conf }
        ensures tree { result.tree.now ≡ self.now }
    {
        LentTree::new(&self.tree, &self.conf)
    }

    /// Works out what a record does, and changes nothing. A refusal has the code of the first check that fails (RFC 4511, 4.6 to 4.9).
    pub fn plan(&self, alloc: Global, asked: &Record<'_>, mode: Mode) -> Result<Plan, Refusal>
        ensures of { IfOk result (λ p. p.tree ≡ self.now) }
        ensures path { IfOk result (λ p. path_before p.change ≡ record_path self.now.conf asked.now) }
        ensures gives { Gives (λ p. p.change) result (change_of self.now.conf mode self.now.entries asked.now) }
    {
        plan(alloc, &self.tree, &self.conf, asked, mode)
    }

    /// Carries out a plan that was made of these very entries, or changes nothing where memory runs out.
    pub fn commit(&mut self, plan: Plan) -> Result<(), AllocError>
        requires { plan.tree ≡ self.old }
        ensures same_conf { self.new.conf ≡ self.old.conf }
        ensures entries { OnOk result (self.new.entries ≡ changed self.old.entries plan.change) }
        ensures numbers { OnOk result (self.new.numbers ≡ numbers_after self.old plan.change) }
        ensures err { OnErr result (self.new ≡ self.old) }
    {
        self.tree.commit(plan)
    }
}

impl Target for Database {
    ghost conf = { λ d. d.conf };

    ghost entries = { λ d. d.entries };

    ghost edits = { λ _. 0 };

    ghost count_edits = { λ _ _ _ _. 0 };

    fn lent(&self) -> LentTree<'_> {
        Database::lent(self)
    }

    fn carry_out(&mut self, alloc: Global, asked: &Record<'_>, mode: Mode) -> Result<(), Refusal> {
        apply(alloc, &mut self.tree, &self.conf, asked, mode)
    }
}
