//! What may be wrong with a directory that no record is refused for.

use crate::directories::loaded_under;
use checks::{EntryValue, SharedValue, TypesFault, find_dangling, find_shared, types_named};
use dir_conf::read_conf;
use directory::Directory;
use schema::TypeId;
use std::alloc::Global;
use std::test::Fail;

const CONF: &str = "suffix \"dc=ex\"
attributetype ( 0.9.2342.19200300.100.1.25 NAME 'dc' EQUALITY caseIgnoreMatch SYNTAX 1.3.6.1.4.1.1466.115.121.1.15 )
attributetype ( 2.5.4.3 NAME 'cn' EQUALITY caseIgnoreMatch SYNTAX 1.3.6.1.4.1.1466.115.121.1.15 )
attributetype ( 2.5.4.13 NAME 'description' EQUALITY caseIgnoreMatch SYNTAX 1.3.6.1.4.1.1466.115.121.1.15 )
attributetype ( 2.5.4.31 NAME 'member' EQUALITY distinguishedNameMatch SYNTAX 1.3.6.1.4.1.1466.115.121.1.12 )
attributetype ( 1.1.1 NAME 'note' SYNTAX 1.3.6.1.4.1.1466.115.121.1.15 )
attributetype ( 2.5.4.34 NAME 'seeAlso' EQUALITY distinguishedNameMatch SYNTAX 1.3.6.1.4.1.1466.115.121.1.12 )
objectclass ( 0.9.2342.19200300.100.4.13 NAME 'domain' SUP top STRUCTURAL MUST dc MAY ( description $ seeAlso ) )
objectclass ( 2.5.6.9 NAME 'groupOfNames' SUP top STRUCTURAL MUST cn MAY ( member $ description $ seeAlso $ note ) )
";

// members that are there, however they are spelled, that are nowhere, and that are another directory's
const TEXT: &str =
    "dn: dc=ex\nobjectClass: domain\nseeAlso: cn=gone,dc=ex\n\ndn: cn=a,dc=ex\nobjectClass: groupOfNames\nmember: CN = B , dc=ex\nmember: cn=c,dc=ex\nmember: cn=c,dc=other\nmember: \nmember: dc=ex\ndescription: cn=none,dc=ex\n\ndn: cn=b,dc=ex\nobjectClass: groupOfNames\nseeAlso: cn=below,cn=b,dc=ex\nseeAlso: dc=com\nmember: cn=last,dc=ex\n\n";

// types, and the values of them that dangle
const ROWS: [(&[&str], &[&str]); 4] = [
    (
        &[],
        &[
            "cn=gone,dc=ex",
            "cn=c,dc=ex",
            "cn=below,cn=b,dc=ex",
            "cn=last,dc=ex",
        ],
    ),
    (&["member"], &["cn=c,dc=ex", "cn=last,dc=ex"]),
    (
        &["description", "seealso"],
        &["cn=gone,dc=ex", "cn=below,cn=b,dc=ex"],
    ),
    (&["cn"], &[]),
];

fn directory(alloc: Global, text: &str) -> Result<Directory, Fail> {
    let conf = read_conf(alloc, CONF.as_bytes())?;
    loaded_under(alloc, conf, text.as_bytes())
}

fn types_of(alloc: Global, dir: &Directory, names: &[&str]) -> Result<Vec<TypeId>, Fail> {
    let mut types = Vec::new(alloc);
    for name in names {
        match dir.conf().type_of(name.as_bytes()) {
            Some(t) => types.push(t)?,
            None => return Err(Fail::from("the type is known")),
        }
    }
    Ok(types)
}

fn are_values(found: &[EntryValue], wanted: &[&str]) -> bool {
    if found.len() != wanted.len() {
        return false;
    }
    for (value, text) in found.iter().zip(wanted) {
        if value.value.as_slice() != text.as_bytes() {
            return false;
        }
    }
    true
}

fn are_dangling(
    alloc: Global,
    dir: &Directory,
    names: &[&str],
    wanted: &[&str],
) -> Result<bool, Fail> {
    let types = types_of(alloc, dir, names)?;
    let found = find_dangling(alloc, dir.database().lent(), types.as_slice())?;
    Ok(are_values(found.as_slice(), wanted))
}

fn each_dangles(alloc: Global) -> Result<bool, Fail> {
    let dir = directory(alloc, TEXT)?;
    for (names, wanted) in ROWS {
        if !are_dangling(alloc, &dir, names, wanted)? {
            return Ok(false);
        }
    }
    Ok(true)
}

#[test]
fn references_that_name_no_entry_dangle(rt: HostRuntime) -> Result<(), Fail> {
    assert!(rt; each_dangles(rt.alloc())?);
    Ok(())
}

// values that several entries have, however they are spelled, with and without a rule
const EQUAL: &str =
    "dn: dc=ex\nobjectClass: domain\ndescription: One\n\ndn: cn=a,dc=ex\nobjectClass: groupOfNames\ndescription: two\ndescription:  ONE\ndescription: Three\nnote: x\nmember: cn=A, dc=ex\n\ndn: cn=b,dc=ex\nobjectClass: groupOfNames\ndescription: three\ndescription: one\nnote: X\nmember: cn=a,dc=ex\nmember: cn=b,dc=ex\n\ndn: cn=c,dc=ex\nobjectClass: groupOfNames\ndescription: four\nnote: x\nnote: y\n\n";

// a type, and the values of it that several entries have, each with their number
const EQUAL_ROWS: [(&str, &[(&str, usize)]); 4] = [
    ("description", &[("One", 3), ("Three", 2)]),
    ("note", &[("x", 2)]),
    ("member", &[("cn=A, dc=ex", 2)]),
    ("cn", &[]),
];

fn are_shared(found: &[SharedValue], wanted: &[(&str, usize)]) -> bool {
    if found.len() != wanted.len() {
        return false;
    }
    for (shared, row) in found.iter().zip(wanted) {
        let (text, count) = row;
        if shared.value.as_slice() != text.as_bytes() || shared.paths.len() != *count {
            return false;
        }
    }
    true
}

fn shares(
    alloc: Global,
    dir: &Directory,
    name: &str,
    wanted: &[(&str, usize)],
) -> Result<bool, Fail> {
    match dir.conf().type_of(name.as_bytes()) {
        Some(t) => Ok(are_shared(find_shared(alloc, dir.tree(), t)?.as_slice(), wanted)),
        None => Err(Fail::from("the type is known")),
    }
}

fn each_is_shared(alloc: Global) -> Result<bool, Fail> {
    let dir = directory(alloc, EQUAL)?;
    for (name, wanted) in EQUAL_ROWS {
        if !shares(alloc, &dir, name, wanted)? {
            return Ok(false);
        }
    }
    Ok(true)
}

#[test]
fn values_of_several_entries_are_shared(rt: HostRuntime) -> Result<(), Fail> {
    assert!(rt; each_is_shared(rt.alloc())?);
    Ok(())
}

// what names types, by their numbers, or the name that is none's
const NAMED: [(&str, Result<&[u16], &str>); 5] = [
    ("cn", Ok(&[2])),
    ("2.5.4.31,CN,dc", Ok(&[4, 2, 1])),
    ("cn,uid,other", Err("uid")),
    ("cn,", Err("")),
    ("", Err("")),
];

fn are_numbers(types: &[TypeId], wanted: &[u16]) -> bool {
    if types.len() != wanted.len() {
        return false;
    }
    for (t, number) in types.iter().zip(wanted) {
        if t.number() != *number {
            return false;
        }
    }
    true
}

fn is_named(found: &Result<Vec<TypeId>, TypesFault>, wanted: &Result<&[u16], &str>) -> bool {
    match (found, wanted) {
        (Ok(types), Ok(numbers)) => are_numbers(types.as_slice(), numbers),
        (Err(TypesFault::Unknown(name)), Err(text)) => name.as_slice() == text.as_bytes(),
        _ => false,
    }
}

fn each_is_named(alloc: Global) -> Result<bool, Fail> {
    let conf = read_conf(alloc, CONF.as_bytes())?;
    for (text, wanted) in &NAMED {
        if !is_named(&types_named(alloc, &conf, text.as_bytes()), wanted) {
            return Ok(false);
        }
    }
    Ok(true)
}

#[test]
fn a_text_names_types(rt: HostRuntime) -> Result<(), Fail> {
    assert!(rt; each_is_named(rt.alloc())?);
    Ok(())
}
