//! The stamp of a directory: the SHA-256 of its dump.

ghost use Rattle.std.specs.Prelude.{◌≡◌, ◌<◌, ◌-◌, ◌^◌, IfOk};
ghost use Rattle.sha2.specs.Sha256.{sha256};
ghost use Rattle.ldif.specs.Written.{Writes, end_of};
ghost use Rattle.databases.specs.IndexTexts.{stamp};
ghost use Rattle.databases.specs.Runs.{dump, dump_to};

use crate::database::Database;
use crate::dump::Printer;
use device::{Nowhere, Sink};
use ldif::{LineWidth, WriteFault};
use schema::Conf;
use sha2::{Digest, Sha256};
use std::alloc::{AllocError, Global};
use tree::{LentTree, Tree};

/// The stamp of a directory: the SHA-256 (FIPS 180-4) of its dump.
pub type Stamp = [u8; 32];

// writes the dump, and answers its SHA-256; each is made in the same pass
fn write_stamped<W: Sink>(printer: &Printer<'_>, sink: &mut W) -> Result<Stamp, WriteFault>
    requires { (W.written sink.old).failed < 2 ^ 64 - 1 }
    ensures writes { Writes (end_of result) (W.written sink.old) (W.written sink.new) (dump_to printer.now.width printer.now.tree.now.conf printer.now.tree.now.entries) }
    ensures stamp { IfOk result (λ s. s ≡ sha256 (dump_to printer.now.width printer.now.tree.now.conf printer.now.tree.now.entries)) }
{
    let mut hasher = Sha256::new();
    printer.write_dump(sink, &mut hasher)?;
    Ok(hasher.finalize())
}

/// The stamp of a tree, which was made with this configuration: the SHA-256 (FIPS 180-4) of its dump. The dump is made in pieces of some
/// 64 KiB.
pub fn stamp_of(alloc: Global, tree: &Tree, conf: &Conf) -> Result<Stamp, AllocError>
    requires { tree.now.conf ≡ conf.now }
    ensures { IfOk result (λ s. s ≡ stamp tree.now.conf tree.now.entries) }
{
    let printer = Printer::new(alloc, LentTree::new(tree, conf), LineWidth::STANDARD);
    match write_stamped(&printer, &mut Nowhere::new()) {
        Ok(stamp) => Ok(stamp),
        Err(WriteFault::OutOfMemory) => Err(AllocError),
        Err(WriteFault::Device) => unreachable!(),
    }
}

impl Database {
    /// Writes the dump as `dump` does, and answers its stamp; each is made in the same pass.
    pub fn stamped_dump<W: Sink>(&self, alloc: Global, sink: &mut W) -> Result<Stamp, WriteFault>
        requires { (W.written sink.old).failed < 2 ^ 64 - 1 }
        ensures writes { Writes (end_of result) (W.written sink.old) (W.written sink.new) (dump self.now.conf self.now.entries) }
        ensures stamp { IfOk result (λ s. s ≡ stamp self.now.conf self.now.entries) }
    {
        let printer = Printer::new(alloc, self.lent(), LineWidth::STANDARD);
        write_stamped(&printer, sink)
    }

    /// The stamp of the entries. Their dump is made in pieces of some 64 KiB.
    pub fn stamp(&self, alloc: Global) -> Result<Stamp, AllocError>
        ensures { IfOk result (λ s. s ≡ stamp self.now.conf self.now.entries) }
    {
        stamp_of(alloc, self.tree(), self.conf())
    }
}
