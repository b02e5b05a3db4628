//! The schema of another server, as lines of a `dir.conf`.

use dir_conf::read_definitions;
use server_schema::{Transfer, transfer_schema};
use std::alloc::Global;
use std::test::Fail;

const CONF: &str = "suffix \"dc=ex\"
attributetype ( 0.9.2342.19200300.100.1.25 NAME 'dc' EQUALITY caseIgnoreMatch SYNTAX 1.3.6.1.4.1.1466.115.121.1.15 )
";

// slapd.conf(5): a macro, a class before the type that it asks for, a type on two lines, one that the dir.conf has, and what is no definition
const SLAPD_CONF: &str = "include /etc/ldap/schema/core.schema
objectidentifier my 1.1.2
objectclass ( my:5 NAME 'boat' SUP top STRUCTURAL MUST sail )
attributetype ( my:1 NAME 'sail' EQUALITY caseIgnoreMatch
  SYNTAX 1.3.6.1.4.1.1466.115.121.1.15 )
attributetype ( 0.9.2342.19200300.100.1.25 NAME 'dc' EQUALITY caseIgnoreMatch SYNTAX 1.3.6.1.4.1.1466.115.121.1.15 )
";

// the same definitions as cn=config has them in LDIF, folded and in base64 (RFC 2849)
const LDIF: &str = "dn: cn=boats,cn=schema,cn=config
olcObjectClasses: {0}( 1.1.2.5 NAME 'boat' SUP top STRUCTURAL MUST sa
 il )
olcAttributeTypes:: ezB9KCAxLjEuMi4xIE5BTUUgJ3NhaWwnIEVRVUFMSVRZIGNhc2VJZ25vcmVNYXRjaCBTWU5UQVggMS4zLjYuMS40LjEuMTQ2Ni4xMTUuMTIxLjEuMTUgKQ==
";

const TYPE: &str =
    "attributetype ( 1.1.2.1 NAME 'sail' EQUALITY caseIgnoreMatch SYNTAX 1.3.6.1.4.1.1466.115.121.1.15 )";

const CLASS: &str = "objectclass ( 1.1.2.5 NAME 'boat' SUP top STRUCTURAL MUST sail )";

// whether these are the lines of a text, each with its words one space apart
fn has_lines(alloc: Global, text: &[u8], wanted: &[&str]) -> Result<bool, Fail> {
    let mut rest = Vec::new(alloc);
    for line in wanted {
        rest.extend_from_slice(line.as_bytes())?;
        rest.push(b'\n')?;
    }
    let mut words = Vec::new(alloc);
    for byte in text {
        if *byte != b' ' || words.last() != Some(&b' ') {
            words.push(*byte)?;
        }
    }
    Ok(words.as_slice() == rest.as_slice())
}

#[test]
fn definitions_come_over_from_slapd_conf(rt: HostRuntime) -> Result<(), Fail> {
    let alloc = rt.alloc();
    let Transfer { lines, is_whole } = transfer_schema(
        alloc,
        SLAPD_CONF.as_bytes(),
        CONF.as_bytes(),
    )?;
    assert!(rt; is_whole);
    assert!(rt; has_lines(alloc, lines.as_slice(), &[TYPE, CLASS])?);
    Ok(())
}

#[test]
fn definitions_come_over_from_ldif(rt: HostRuntime) -> Result<(), Fail> {
    let alloc = rt.alloc();
    let Transfer { lines, is_whole } = transfer_schema(alloc, LDIF.as_bytes(), CONF.as_bytes())?;
    assert!(rt; is_whole);
    assert!(rt; has_lines(alloc, lines.as_slice(), &[TYPE, CLASS])?);
    Ok(())
}

#[test]
fn what_cannot_be_taken_is_a_comment(rt: HostRuntime) -> Result<(), Fail> {
    let alloc = rt.alloc();
    let source = b"objectclass ( 1.1.3 NAME 'lost' SUP nowhere )\n";
    let Transfer { lines, is_whole } = transfer_schema(alloc, source, CONF.as_bytes())?;
    assert!(rt; !is_whole);
    assert!(rt; lines.first() == Some(&b'#'));
    Ok(())
}

#[test]
fn definitions_are_read_without_a_suffix(rt: HostRuntime) -> Result<(), Fail> {
    let alloc = rt.alloc();
    let defined = read_definitions(alloc, TYPE.as_bytes())?;
    assert!(rt; defined.types.type_of(b"sail").is_some());
    Ok(())
}
