//! The index that is kept with a directory: its text, and how many keys each record edits.

ghost use Rattle.std.specs.Prelude.{◌<◌, ◌-◌, ◌^◌};

use crate::directories::{has_index, loaded_under};
use device::Source;
use dir_conf::read_conf;
use directory::Directory;
use ldif::{Mode, Reader, read_record};
use schema::Conf;
use std::alloc::Global;
use std::test::Fail;
use try_device::TrySource;

const CONF: &str = "suffix \"dc=ex\"
attributetype ( 2.5.4.41 NAME 'name' EQUALITY caseIgnoreMatch SUBSTR caseIgnoreSubstringsMatch SYNTAX 1.3.6.1.4.1.1466.115.121.1.15{32768} )
attributetype ( 2.5.4.3 NAME ( 'cn' 'commonName' ) SUP name )
attributetype ( 2.5.4.4 NAME ( 'sn' 'surname' ) SUP name )
attributetype ( 0.9.2342.19200300.100.1.25 NAME ( 'dc' 'domainComponent' ) EQUALITY caseIgnoreIA5Match SUBSTR caseIgnoreIA5SubstringsMatch SYNTAX 1.3.6.1.4.1.1466.115.121.1.26 SINGLE-VALUE )
attributetype ( 1.3.6.1.1.1.1.0 NAME 'uidNumber' EQUALITY integerMatch ORDERING integerOrderingMatch SYNTAX 1.3.6.1.4.1.1466.115.121.1.27 SINGLE-VALUE )
attributetype ( 2.5.4.13 NAME 'description' EQUALITY caseIgnoreMatch SUBSTR caseIgnoreSubstringsMatch SYNTAX 1.3.6.1.4.1.1466.115.121.1.15 )
index cn eq,pres,sub
index sn,uidNumber eq
index description eq,sub
";

// the suffix's entry and four people, as they are dumped
const PEOPLE: &str =
    "dn: dc=ex\nobjectClass: domain\ndc: ex\n\ndn: cn=aba,dc=ex\nobjectClass: person\ncn: aba\n\ndn: cn=abba,dc=ex\nobjectClass: person\ncn: abba\n\ndn: cn=abc bcd,dc=ex\nobjectClass: person\ncn: abc bcd\n\ndn: cn=Bob,dc=ex\nobjectClass: person\nuidNumber: 7\ncn: Bob\n\n";

/// The same entries, those below the suffix the other way round.
pub const TURNED: &str =
    "dn: dc=ex\nobjectClass: domain\n\ndn: cn=Bob,dc=ex\nobjectClass: person\nuidNumber: 7\n\ndn: cn=abc bcd,dc=ex\nobjectClass: person\n\ndn: cn=abba,dc=ex\nobjectClass: person\n\ndn: cn=aba,dc=ex\nobjectClass: person\n\n";

/// The text of their index.
pub const INDEX: &str =
    "slapindex 1 5 8693d50c14ee25d36384190df2bf9729b1b64588da8486e24a3292b94e5bbb2b
slot cn eq
616261 1
61626261 2
61626320626364 3
626f62 4
slot cn pres
- 1 2 3 4
slot cn sub
206263 3
616261 1
616262 2
616263 3
626261 2
626320 3
626364 3
626f62 4
632062 3
slot sn eq
slot uidNumber eq
37 4
slot description eq
slot description sub
end
";

const EMPTY: &str = "slapindex 1 0 e3b0c44298fc1c149afbf4c8996fb92427ae41e4649b934ca495991b7852b855
slot cn eq
slot cn pres
slot cn sub
slot sn eq
slot uidNumber eq
slot description eq
slot description sub
end
";

pub fn conf(alloc: Global) -> Result<Conf, Fail> {
    Ok(read_conf(alloc, CONF.as_bytes())?)
}

// how many keys the first record of a source edits
fn edits_of<S: Source>(
    alloc: Global,
    dir: &mut Directory,
    source: &mut S,
    mode: Mode,
) -> Result<u128, Fail>
    requires { (S.seen source.old).failed < 2 ^ 64 - 1 }
{
    let mut reader = Reader::new(alloc, source);
    let Ok(Some(raw)) = reader.next() else {
        return Err(Fail::from("a record is there"));
    };
    let Ok(record) = read_record(alloc, &raw, mode) else {
        return Err(Fail::from("the record can be read"));
    };
    match dir.apply(&record, mode) {
        Ok(edits) => Ok(edits.count),
        Err(_) => Err(Fail::from("the record is accepted")),
    }
}

// each record edits so many keys
fn edit(
    alloc: Global,
    dir: &mut Directory,
    rows: &[(&str, u128)],
    mode: Mode,
) -> Result<bool, Fail> {
    for (text, count) in rows {
        let mut source = TrySource::new(text.as_bytes(), 100, None);
        if edits_of(alloc, dir, &mut source, mode)? != *count {
            return Ok(false);
        }
    }
    Ok(true)
}

/// The directory with no entry.
pub fn empty(alloc: Global) -> Result<Directory, Fail> {
    Ok(Directory::new(alloc, conf(alloc)?)?)
}

fn empty_has_index(alloc: Global) -> Result<bool, Fail> {
    let dir = empty(alloc)?;
    has_index(alloc, &dir, EMPTY.as_bytes())
}

#[test]
fn the_index_of_no_entry_is_written(rt: HostRuntime) -> Result<(), Fail> {
    assert!(rt; empty_has_index(rt.alloc())?);
    Ok(())
}

/// The directory that a text loads to.
pub fn indexed(alloc: Global, text: &str) -> Result<Directory, Fail> {
    loaded_under(alloc, conf(alloc)?, text.as_bytes())
}

fn loaded_has_index(alloc: Global, text: &str) -> Result<bool, Fail> {
    let dir = indexed(alloc, text)?;
    has_index(alloc, &dir, INDEX.as_bytes())
}

#[test]
fn the_index_of_loaded_entries_is_written(rt: HostRuntime) -> Result<(), Fail> {
    assert!(rt; loaded_has_index(rt.alloc(), PEOPLE)?);
    assert!(rt; loaded_has_index(rt.alloc(), TURNED)?);
    Ok(())
}

// entries are added, and changed then
fn edit_all(alloc: Global, dir: &mut Directory) -> Result<bool, Fail> {
    Ok(
        edit(alloc, dir, &ADDED, Mode::Content)?
            && edit(alloc, dir, &CHANGED, Mode::Changes { add: false })?,
    )
}

fn edit_empty(alloc: Global) -> Result<bool, Fail> {
    let mut dir = empty(alloc)?;
    edit_all(alloc, &mut dir)
}

#[test]
fn records_edit_the_index(rt: HostRuntime) -> Result<(), Fail> {
    assert!(rt; edit_empty(rt.alloc())?);
    Ok(())
}

// a change edits so many keys of what stands
fn edit_loaded(alloc: Global, start: &str, text: &str, count: u128) -> Result<bool, Fail> {
    let mut dir = indexed(alloc, start)?;
    edit(
        alloc,
        &mut dir,
        &[(text, count)],
        Mode::Changes { add: false },
    )
}

#[test]
fn each_change_edits_what_differs(rt: HostRuntime) -> Result<(), Fail> {
    for (start, text, count) in CHANGES {
        assert!(rt; edit_loaded(rt.alloc(), start, text, count)?, "{text}");
    }
    Ok(())
}

const ADDED: [(&str, u128); 5] = [
    ("dn: dc=ex\nobjectClass: domain\n", 0),
    ("dn: cn=aba,dc=ex\nobjectClass: person\n", 3),
    ("dn: cn=abba,dc=ex\nobjectClass: person\n", 4),
    ("dn: cn=abc bcd,dc=ex\nobjectClass: person\n", 7),
    ("dn: cn=Bob,dc=ex\nobjectClass: person\nuidNumber: 7\n", 4),
];

const TWO_PARTS: &str =
    "dn: dc=ex\nobjectClass: domain\n\ndn: cn=a+sn=b,dc=ex\nobjectClass: person\n\n";

const TWO_VALUES: &str =
    "dn: dc=ex\nobjectClass: domain\n\ndn: cn=a,dc=ex\nobjectClass: person\ndescription: abcd\ndescription: bcde\n\n";

const ONE_BELOW: &str =
    "dn: dc=ex\nobjectClass: domain\n\ndn: cn=aba,dc=ex\nobjectClass: person\n\ndn: cn=Bob,dc=ex\nobjectClass: person\nuidNumber: 7\n\ndn: cn=k,cn=Bob,dc=ex\nobjectClass: person\n\n";

// what stands, a change of it, and how many keys that edits: an old value of the RDN goes, or stays; a value goes that shares a window with
// another; an entry with one below it gets a name, and moves
const CHANGES: [(&str, &str, u128); 5] = [
    (
        TWO_PARTS,
        "dn: cn=a+sn=b,dc=ex\nchangetype: modrdn\nnewrdn: cn=a\ndeleteoldrdn: 1\n",
        1,
    ),
    (
        TWO_PARTS,
        "dn: cn=a+sn=b,dc=ex\nchangetype: modrdn\nnewrdn: cn=a\ndeleteoldrdn: 0\n",
        0,
    ),
    (
        TWO_VALUES,
        "dn: cn=a,dc=ex\nchangetype: modify\ndelete: description\ndescription: abcd\n",
        2,
    ),
    (
        ONE_BELOW,
        "dn: cn=Bob,dc=ex\nchangetype: modrdn\nnewrdn: cn=Al\ndeleteoldrdn: 1\n",
        3,
    ),
    (
        ONE_BELOW,
        "dn: cn=Bob,dc=ex\nchangetype: modrdn\nnewrdn: cn=Bob\ndeleteoldrdn: 0\nnewsuperior: cn=aba,dc=ex\n",
        0,
    ),
];

// the same value in another case; two values, one of which is too short for a window; nothing in place of what isn't there; an entry goes
const CHANGED: [(&str, u128); 4] = [
    (
        "dn: cn=aba,dc=ex\nchangetype: modify\ndelete: cn\ncn: aba\n-\nadd: cn\ncn: ABA\n",
        0,
    ),
    (
        "dn: cn=aba,dc=ex\nchangetype: modify\nadd: sn\nsn: xy\n-\nadd: description\ndescription: ab\n",
        2,
    ),
    (
        "dn: cn=aba,dc=ex\nchangetype: modify\nreplace: uidNumber\n",
        0,
    ),
    ("dn: cn=Bob,dc=ex\nchangetype: delete\n", 4),
];
