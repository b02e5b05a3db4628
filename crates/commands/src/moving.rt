//! A directory under another suffix.
ghost use Rattle.std.specs.Prelude.{◌≡◌, Ok, Err, Some, IfOk, IfErr, codes};
ghost use Rattle.suffixes.specs.Configurations.{conf_under};
ghost use Rattle.suffixes.specs.MovedDirectories.{move_by, moved_directory};
ghost use Rattle.commands.specs.Failures.{Refuses};
ghost use Rattle.commands.specs.Queries.{CannotMove};
ghost use Rattle.commands.specs.inner.Moving.{IsMoved};

use crate::finding::refused;
use crate::messages::CommandFault;
use crate::telling::CommandTeller;
use databases::{Database, NotedRecord, RecordRefusal};
use ldif::{Mode, RawRecord, Record};
use schema::{Code, Conf, PathFault};
use std::alloc::Global;
use suffixes::{Watcher, conf_under, directory_under};
use tree::{LentTree, Tree};

/// The name that its result codes are printed with.
const NAME: &str = "slapcat";

/// Has a teller take note of an entry that can't be added under another suffix.
#[derive(Drop)]
struct Noting<'a, T> {
    teller: &'a mut T,
}

impl<T: CommandTeller> Watcher for Noting<'_, T> {
    fn note(&mut self, alloc: Global, lent: LentTree<'_>, asked: &Record<'_>, code: Code) {
        let raw = RawRecord::new(alloc, false);
        let refused = NotedRecord {
            raw: &raw,
            asked: Some(asked),
            mode: Mode::Content,
            refusal: RecordRefusal::Code(code),
        };
        self.teller.note(alloc, lent, &refused);
    }
}

/// The configuration of a directory with the suffix that a name spells. The fault is the code of a name that spells none, of which a teller
/// takes note, or `OutOfMemory`.
fn conf_of<T: CommandTeller>(
    alloc: Global,
    name: &str,
    database: &Database,
    teller: &mut T,
) -> Result<Conf, CommandFault>
    ensures conf { IfOk result (λ new. conf_under database.now.conf name.now ≡ Ok new) }
    ensures fault { IfErr result (Refuses (codes "slapcat") (λ code. conf_under database.now.conf name.now ≡ Err code)) }
{
    match conf_under(alloc, database.conf(), name.as_bytes()) {
        Ok(conf) => Ok(conf),
        Err(PathFault::Code(code)) => {
            teller.note_base(alloc, database.lent(), Some(name));
            Err(CommandFault::Code {
                command: NAME,
                code,
            })
        }
        Err(PathFault::OutOfMemory) => Err(CommandFault::OutOfMemory),
    }
}

/// The entries of a directory under a configuration with the suffix that a name spells. The fault is the code of the first that can't be added,
/// of which a teller takes note, or `OutOfMemory`.
fn entries_under<T: CommandTeller>(
    alloc: Global,
    new: &Conf,
    name: &str,
    database: &Database,
    teller: &mut T,
) -> Result<Tree, CommandFault>
    requires { conf_under database.now.conf name.now ≡ Ok new.now }
    ensures conf { IfOk result (λ t. t.conf ≡ new.now) }
    ensures moved { IfOk result (λ t. moved_directory (move_by database.now.conf new.now name.now database.now.entries) ≡ Ok t.entries) }
    ensures fault { IfErr result (Refuses (codes "slapcat")
        (λ code. moved_directory (move_by database.now.conf new.now name.now database.now.entries) ≡ Err code)) }
{
    let mut watcher = Noting { teller };
    let moved = directory_under(alloc, database.lent(), new, name.as_bytes(), &mut watcher);
    match moved {
        Ok(tree) => Ok(tree),
        Err(refusal) => Err(refused(refusal, NAME)),
    }
}

/// A directory under the suffix that a name spells. A teller takes note of why there is none.
pub fn moved<T: CommandTeller>(
    alloc: Global,
    name: &str,
    database: &Database,
    teller: &mut T,
) -> Result<Database, CommandFault>
    ensures moved { IfOk result (λ d. IsMoved name.now database.now.conf database.now.entries d.conf d.entries) }
    ensures fault { IfErr result (Refuses (codes "slapcat") (CannotMove (Some name.now) database.now.conf database.now.entries)) }
{
    match conf_of(alloc, name, database, teller) {
        Ok(new) => match entries_under(alloc, &new, name, database, teller) {
            Ok(tree) => Ok(Database::from_tree(new, tree)),
            Err(fault) => Err(fault),
        },
        Err(fault) => Err(fault),
    }
}
