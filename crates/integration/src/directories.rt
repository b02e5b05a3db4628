//! Directories, and runs over a source and a sink in memory.

ghost use Rattle.std.specs.Prelude.{◌<◌};

use dir_conf::{ConfFault, read_conf};
use directory::{Directory, RunFault, Tally, load, run};
use ldif::Mode;
use schema::Conf;
use std::alloc::{AllocError, Global};
use std::test::Fail;
use try_device::{TrySink, TrySource};

const CONF: &str = "suffix \"dc=ex\"
attributetype ( 0.9.2342.19200300.100.1.25 NAME 'dc' EQUALITY caseIgnoreMatch SYNTAX 1.3.6.1.4.1.1466.115.121.1.15 )
attributetype ( 2.5.4.3 NAME 'cn' EQUALITY caseIgnoreMatch SUBSTR caseIgnoreSubstringsMatch SYNTAX 1.3.6.1.4.1.1466.115.121.1.15 )
attributetype ( 2.5.4.13 NAME 'description' EQUALITY caseIgnoreMatch SYNTAX 1.3.6.1.4.1.1466.115.121.1.15 )
objectclass ( 0.9.2342.19200300.100.4.13 NAME 'domain' SUP top STRUCTURAL MUST dc )
objectclass ( 2.5.6.6 NAME 'person' SUP top STRUCTURAL MUST cn MAY description )
index cn eq,pres,sub
index description eq
";

/// The suffix's entry, as it is dumped.
pub const ROOT: &str = "dn: dc=ex\nobjectClass: domain\ndc: ex\n\n";

pub fn conf(alloc: Global) -> Result<Conf, ConfFault> {
    read_conf(alloc, CONF.as_bytes())
}

/// The directory that a text loads to.
pub fn loaded(alloc: Global, text: &str) -> Result<Directory, Fail> {
    loaded_under(alloc, conf(alloc)?, text.as_bytes())
}

/// The directory that a text loads to under a configuration.
pub fn loaded_under(alloc: Global, conf: Conf, text: &[u8]) -> Result<Directory, Fail> {
    let mut source = TrySource::new(text, 8192, None);
    let Ok(dir) = load(alloc, conf, &mut source) else {
        return Err(Fail::from("the text loads"));
    };
    Ok(dir)
}

pub fn dump_of(alloc: Global, dir: &Directory) -> Result<Vec<u8>, Fail> {
    let mut sink = TrySink::new(alloc, 8192, None);
    dir.dump(alloc, &mut sink)?;
    Ok(Vec::from_slice(alloc, sink.bytes())?)
}

/// The text of the index that is kept with it.
pub fn index_of(alloc: Global, dir: &Directory) -> Result<Vec<u8>, Fail> {
    let mut sink = TrySink::new(alloc, 8192, None);
    dir.index_text(alloc, &mut sink)?;
    Ok(Vec::from_slice(alloc, sink.bytes())?)
}

/// Whether the dump of a directory is this text.
pub fn has_dump(alloc: Global, dir: &Directory, text: &[u8]) -> Result<bool, Fail> {
    Ok(dump_of(alloc, dir)?.as_slice() == text)
}

/// Whether the index that is kept with it has this text.
pub fn has_index(alloc: Global, dir: &Directory, text: &[u8]) -> Result<bool, Fail> {
    Ok(index_of(alloc, dir)?.as_slice() == text)
}

/// How many bytes at most a source gives and a sink takes a call, and behind how many a call fails.
#[derive(Drop)]
pub struct Devices {
    pub pull: usize,
    pub source_limit: Option<usize>,
    pub push: usize,
    pub sink_limit: Option<usize>,
    ghost pulls: { 0 < pull },
    ghost pushes: { 0 < push },
}

/// A run that goes on after a refusal: what it answers, and its report.
pub fn run_over(
    alloc: Global,
    dir: &mut Directory,
    text: &[u8],
    mode: Mode,
    devices: Devices,
) -> Result<(Result<Tally, RunFault>, Vec<u8>), AllocError> {
    let mut source = TrySource::new(text, devices.pull, devices.source_limit);
    let mut sink = TrySink::new(alloc, devices.push, devices.sink_limit);
    let outcome = run(alloc, dir, &mut source, &mut sink, mode, true);
    let report = Vec::from_slice(alloc, sink.bytes())?;
    Ok((outcome, report))
}
