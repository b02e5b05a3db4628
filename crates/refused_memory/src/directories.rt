//! Directories that are loaded from texts.

ghost use Rattle.std.specs.Prelude.{◌≡◌, IfOk};

use anyhow::{Error, Result};
use dir_conf::{ConfFault, read_conf};
use directory::{Directory, LoadFault, load};
use schema::Conf;
use std::alloc::{AllocError, Global};
use try_device::TrySource;

const CONF: &str = "suffix \"dc=ex\"
attributetype ( 2.5.4.41 NAME 'name' EQUALITY caseIgnoreMatch SUBSTR caseIgnoreSubstringsMatch SYNTAX 1.3.6.1.4.1.1466.115.121.1.15{32768} )
attributetype ( 2.5.4.3 NAME ( 'cn' 'commonName' ) SUP name )
attributetype ( 2.5.4.4 NAME ( 'sn' 'surname' ) SUP name )
attributetype ( 0.9.2342.19200300.100.1.25 NAME ( 'dc' 'domainComponent' ) EQUALITY caseIgnoreIA5Match SUBSTR caseIgnoreIA5SubstringsMatch SYNTAX 1.3.6.1.4.1.1466.115.121.1.26 SINGLE-VALUE )
attributetype ( 1.3.6.1.1.1.1.0 NAME 'uidNumber' EQUALITY integerMatch ORDERING integerOrderingMatch SYNTAX 1.3.6.1.4.1.1466.115.121.1.27 SINGLE-VALUE )
attributetype ( 2.5.4.13 NAME 'description' EQUALITY caseIgnoreMatch SUBSTR caseIgnoreSubstringsMatch SYNTAX 1.3.6.1.4.1.1466.115.121.1.15 )
attributetype ( 2.5.4.49 NAME 'distinguishedName' EQUALITY distinguishedNameMatch SYNTAX 1.3.6.1.4.1.1466.115.121.1.12 )
attributetype ( 2.5.4.31 NAME 'member' SUP distinguishedName )
objectclass ( 0.9.2342.19200300.100.4.13 NAME 'domain' SUP top STRUCTURAL MUST dc )
objectclass ( 2.5.6.6 NAME 'person' SUP top STRUCTURAL MUST cn MAY ( sn $ description $ uidNumber $ member ) )
index cn eq,pres,sub
index sn,uidNumber eq
index description eq,sub
";

/// The suffix's entry and four people, as they are dumped.
pub(crate) const PEOPLE: &str =
    "dn: dc=ex\nobjectClass: domain\ndc: ex\n\ndn: cn=aba,dc=ex\nobjectClass: person\ncn: aba\n\ndn: cn=abba,dc=ex\nobjectClass: person\ncn: abba\n\ndn: cn=abc bcd,dc=ex\nobjectClass: person\ncn: abc bcd\n\ndn: cn=Bob,dc=ex\nobjectClass: person\nuidNumber: 7\ncn: Bob\n\n";

fn conf_once(alloc: Global) -> Result<Option<Conf>> {
    match read_conf(alloc, CONF.as_bytes()) {
        Ok(conf) => Ok(Some(conf)),
        Err(ConfFault::OutOfMemory) => Ok(None),
        Err(ConfFault::Line { .. }) => Err(Error::msg("the text is no dir.conf")),
    }
}

/// The configuration of all that is printed.
pub(crate) fn conf(alloc: Global) -> Result<Conf> {
    match conf_once(alloc)? {
        Some(conf) => Ok(conf),
        None => conf_once(alloc)?.ok_or(Error::msg("dir.conf is refused memory twice")),
    }
}

fn directory_once(alloc: Global, text: &str) -> Result<Option<Directory>> {
    let conf = conf(alloc)?;
    let mut source = TrySource::new(text.as_bytes(), 8192, None);
    match load(alloc, conf, &mut source) {
        Ok(dir) => Ok(Some(dir)),
        Err(LoadFault::OutOfMemory) => Ok(None),
        Err(_) => Err(Error::msg("the text doesn't load")),
    }
}

/// The directory that a text loads to.
pub(crate) fn directory(alloc: Global, text: &str) -> Result<Directory> {
    match directory_once(alloc, text)? {
        Some(dir) => Ok(dir),
        None => match directory_once(alloc, text)? {
            Some(dir) => Ok(dir),
            None => Err(Error::msg("a load is refused memory twice")),
        },
    }
}
