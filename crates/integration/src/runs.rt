//! Runs, loads and dumps over sources and sinks that fail, and calls of a directory that no command makes.

ghost use Rattle.std.specs.Prelude.{◌≡◌, IfOk};

use crate::directories::{Devices, ROOT, conf, has_dump, loaded, run_over};
use base::{Bytes, Sequence};
use directory::{Directory, Edits, LoadFault, RunFault, Tally, load, load_tree};
use entries::Refusal;
use ldif::{Mode, Record};
use schema::{Conf, Path};
use std::alloc::Global;
use std::test::Fail;
use tree::{LentTree, Tree};
use try_device::TrySource;

// the records on lines 1, 4 and 9 are refused
const THREE: &str =
    "dn: dc=ex\nobjectClass: domain\n\ndn: cn=a,dc=no\n\ndn: cn=b,dc=ex\nobjectClass: person\n\ndn: cn=a,dc=ex\nobjectClass: person\ncn:: YSA";

const REPORT: &str = "line 1: 68 entryAlreadyExists\nline 4: 32 noSuchObject\nline 9: L4 base64\n";

// what is accepted and refused when the report breaks off in its first, second or third line
fn broken_in(limit: usize) -> Tally {
    let (accepted, refused) = match limit {
        0..30 => (0, 1),
        30..54 => (0, 2),
        _ => (1, 3),
    };
    Tally { accepted, refused }
}

// whether a run breaks off where the sink fails behind so many bytes, which are the first of the report
fn breaks_off(alloc: Global, dir: &mut Directory, limit: usize) -> Result<bool, Fail> {
    let devices = Devices {
        pull: 7,
        source_limit: None,
        push: 5,
        sink_limit: Some(limit),
    };
    let (outcome, report) = run_over(alloc, dir, THREE.as_bytes(), Mode::Content, devices)?;
    Ok(
        outcome == Err(RunFault::Write(broken_in(limit)))
            && Some(report.as_slice()) == REPORT.as_bytes().get(..limit),
    )
}

// the same of a run on the suffix's entry
fn breaks_off_on_the_root(alloc: Global, limit: usize) -> Result<bool, Fail> {
    let mut dir = loaded(alloc, ROOT)?;
    breaks_off(alloc, &mut dir, limit)
}

#[test]
fn a_report_breaks_off_where_its_sink_fails(rt: HostRuntime) -> Result<(), Fail> {
    for limit in 0..REPORT.len() {
        assert!(rt; breaks_off_on_the_root(rt.alloc(), limit)?, "{limit}");
    }
    Ok(())
}

#[test]
fn a_load_ends_where_the_source_fails(rt: HostRuntime) -> Result<(), Fail> {
    for limit in 0..ROOT.len() {
        let mut source = TrySource::new(ROOT.as_bytes(), 11, Some(limit));
        let found = load(rt.alloc(), conf(rt.alloc())?, &mut source).err();
        assert!(rt; matches!(found, Some(LoadFault::Read)), "{limit}");
    }
    Ok(())
}

fn loaded_tree(alloc: Global, conf: &Conf) -> Result<Tree, Fail>
    ensures { IfOk result (λ t. t.conf ≡ conf.now) }
{
    let mut source = TrySource::new(ROOT.as_bytes(), 11, None);
    match load_tree(alloc, conf, &mut source) {
        Ok(tree) => Ok(tree),
        Err(_) => Err(Fail::from("the text loads")),
    }
}

// whether the suffix's entry stands in a tree, with the suffix as its name
fn has_suffix(alloc: Global, lent: LentTree<'_>) -> Result<bool, Fail> {
    let LentTree { tree, conf } = lent;
    let root = Path::root(alloc);
    if tree.get(&root).is_none() {
        return Ok(false);
    }
    Ok(tree.name_of(alloc, conf, &root)?.as_slice() == b"dc=ex".as_slice())
}

fn tree_has_suffix(alloc: Global, conf: &Conf) -> Result<bool, Fail> {
    let tree = loaded_tree(alloc, conf)?;
    has_suffix(alloc, LentTree::new(&tree, conf))
}

fn loaded_tree_has_suffix(alloc: Global) -> Result<bool, Fail> {
    let conf = conf(alloc)?;
    tree_has_suffix(alloc, &conf)
}

fn from_loaded_tree(alloc: Global, conf: Conf) -> Result<Directory, Fail> {
    let tree = loaded_tree(alloc, &conf)?;
    Ok(Directory::from_tree(alloc, conf, tree)?)
}

fn is_dumped_from_tree(alloc: Global) -> Result<bool, Fail> {
    let dir = from_loaded_tree(alloc, conf(alloc)?)?;
    has_dump(alloc, &dir, ROOT.as_bytes())
}

#[test]
fn a_tree_makes_a_directory(rt: HostRuntime) -> Result<(), Fail> {
    assert!(rt; loaded_tree_has_suffix(rt.alloc())?);
    assert!(rt; is_dumped_from_tree(rt.alloc())?);
    Ok(())
}

fn deletion(alloc: Global) -> Result<Record<'static>, Fail> {
    Ok(Record::Delete {
        dn: Bytes::from_slice(alloc, b"dc=ex")?,
        controls: Sequence::new(alloc),
    })
}

fn has_code(outcome: Result<Edits, Refusal>) -> bool {
    matches!(outcome, Err(Refusal::Code(_)))
}

// whether a record of a delete empties a directory, and is refused then
fn is_emptied_once(dir: &mut Directory, delete: &Record<'_>) -> bool {
    let mode = Mode::Changes { add: false };
    dir.apply(delete, mode).is_ok() && dir.tree().is_empty() && has_code(dir.apply(delete, mode))
}

fn is_emptied(alloc: Global, dir: &mut Directory) -> Result<bool, Fail> {
    let delete = deletion(alloc)?;
    Ok(is_emptied_once(dir, &delete))
}

// and whether an empty record is carried out behind that
fn is_carried_out(alloc: Global, dir: &mut Directory) -> Result<bool, Fail> {
    Ok(is_emptied(alloc, dir)? && dir.apply(&Record::Empty, Mode::Content).is_ok())
}

fn is_carried_out_on_the_root(alloc: Global) -> Result<bool, Fail> {
    let mut dir = loaded(alloc, ROOT)?;
    is_carried_out(alloc, &mut dir)
}

#[test]
fn one_record_is_carried_out(rt: HostRuntime) -> Result<(), Fail> {
    assert!(rt; is_carried_out_on_the_root(rt.alloc())?);
    Ok(())
}
