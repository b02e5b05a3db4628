//! slapindex: the index of a directory is written anew.
ghost use Rattle.std.specs.Prelude.{◌≡◌, Some};
ghost use Rattle.commands.specs.Worlds.{World, locked_world, stored_world};
ghost use Rattle.commands.specs.Indexing.{IndexGoesThrough, IndexStops};
ghost use Rattle.commands.specs.inner.Stopped.{HasEnded, HasEndedUnder};

use crate::database::{load_database, lock};
use crate::messages::{Status, Stop};
use crate::storing::store_index;
use crate::telling::CommandTeller;
use command_line::IndexOptions;
use folders::Folder;
use std::alloc::Global;
use std::mem;

fn make_index<F: Folder, T: CommandTeller>(
    alloc: Global,
    asked: &IndexOptions<'_>,
    folder: &mut F,
    teller: &mut T,
) -> Result<Status, Stop>
    ensures ends { (w : World) → HasEnded (IndexGoesThrough asked.now) (IndexStops asked.now)
        (stored_world w F.files folder.old)
        (stored_world w F.files folder.new) result }
    ensures locking { F.locking folder.new ≡ F.locking folder.old }
{
    match load_database(alloc, folder, asked.db, teller) {
        Ok(database) => {
            let stored = store_index(alloc, folder, asked.db, &database);
            // The program ends with its command, and that frees the entries at once.
            mem::forget(database);
            match stored {
                Ok(()) => Ok(Status::Done),
                Err(fault) => Err(Stop::Fault(fault)),
            }
        }
        Err(fault) => Err(Stop::Fault(fault)),
    }
}

/// Makes the index of the directory in a folder from its entries alone, and puts its text in place of index.txt, under the directory's lock.
/// It stops where the lock can't be taken, the directory can't be loaded, memory runs out, or index.txt can't be written.
pub fn slapindex<F: Folder, T: CommandTeller>(
    alloc: Global,
    asked: &IndexOptions<'_>,
    folder: &mut F,
    teller: &mut T,
) -> Result<Status, Stop>
    ensures { (w : World) → HasEndedUnder (Some asked.now.db.now) (IndexGoesThrough asked.now) (IndexStops asked.now)
        (locked_world w F.files F.locking folder.old)
        (locked_world w F.files F.locking folder.new) result }
{
    match lock(alloc, folder, asked.db, asked.wait) {
        Ok(()) => make_index(alloc, asked, folder, teller),
        Err(fault) => Err(Stop::Fault(fault)),
    }
}
