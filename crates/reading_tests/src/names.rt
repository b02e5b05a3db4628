//! Names as they are read and written by RFC 4514, and the texts of their faults.

use dn::{NameFault, read_name, write_name};
use std::alloc::{AllocError, Global};
use std::test::Fail;

const ROWS: [(&str, &str); 10] = [
    // the examples of RFC 4514, section 4, each as it is written
    (
        "UID=jsmith,DC=example,DC=net",
        "UID=jsmith,DC=example,DC=net",
    ),
    (
        "OU=Sales+CN=J.  Smith,DC=example,DC=net",
        "OU=Sales+CN=J.  Smith,DC=example,DC=net",
    ),
    (
        "CN=James \\\"Jim\\\" Smith\\, III,DC=example,DC=net",
        "CN=James \\\"Jim\\\" Smith\\, III,DC=example,DC=net",
    ),
    (
        "CN=Before\\0dAfter,DC=example,DC=net",
        "CN=Before\\0DAfter,DC=example,DC=net",
    ),
    ("CN=Lu\\C4\\8Di\\C4\\87", "CN=Lu\\C4\\8Di\\C4\\87"),
    // each fault
    ("cn", "N1 equals sign missing"),
    ("cn=\\", "N2 escape"),
    ("cn=<", "N3 character not escaped"),
    ("=", "N4 type missing"),
    ("cn=#", "N5 form not supported"),
];

fn rows() -> &'static [(&'static str, &'static str)] {
    &ROWS
}

/// The name that a text spells, as it is written, or its fault.
fn written(alloc: Global, text: &str) -> Result<String, AllocError> {
    match read_name(alloc, text) {
        Ok(name) => write_name(alloc, &name),
        Err(NameFault::OutOfMemory) => Err(AllocError),
        Err(fault) => format!(in alloc; "{fault}"),
    }
}

#[test]
fn names_are_written_and_faults_are_told(rt: HostRuntime) -> Result<(), Fail> {
    for (text, want) in rows() {
        assert_eq!(rt; written(rt.alloc(), text)?.as_str(), *want);
    }
    Ok(())
}
