//! Loading: the directory of the content records of a source.

ghost use Rattle.std.specs.Prelude.{◌≡◌, ◌<◌, ◌-◌, ◌^◌, Err, IfOk, IfErr, option_map};
ghost use Rattle.std.specs.FinMap as finite;
ghost use Rattle.device.specs.Device.{GaveSome};
ghost use Rattle.ldif_lines.specs.Records.{records, closed_records};
ghost use Rattle.databases.specs.Runs.{LoadsRecords};
ghost use Rattle.databases.specs.Folds.{Over};
ghost use Rattle.databases.specs.Loading.{StopsAt, PullFailures};
ghost use Rattle.databases.specs.FailedReads.{LoadedUpTo};

use crate::directory::Directory;
use databases::{Database, LoadFault};
use device::Source;
use schema::Conf;
use std::alloc::Global;

/// The directory of the content records of a source, under a configuration. The first record that is refused is answered
/// with the number of its line and the refusal.
pub fn load<S: Source>(alloc: Global, conf: Conf, source: &mut S) -> Result<Directory, LoadFault>
    requires { (S.seen source.old).failed < 2 ^ 64 - 1 }
    ensures same_conf { IfOk result (λ d. d.conf ≡ conf) }
    ensures loads { IfOk result (λ d. Over (option_map records (S.seen source.old).left) (λ given. LoadsRecords conf finite.empty given d.entries)) }
    ensures stops { IfErr result (λ f. StopsAt f conf finite.empty (option_map records (S.seen source.old).left)) }
    ensures read { result ≡ Err LoadFault.Read → LoadedUpTo closed_records conf finite.empty (S.seen source.old) (S.seen source.new) }
    ensures failures { PullFailures result (S.seen source.old).failed (S.seen source.new).failed }
    ensures gave { GaveSome (S.seen source.old) (S.seen source.new) }
{
    let database = Database::load(alloc, conf, source)?;
    Ok(Directory::from_database(alloc, database)?)
}
