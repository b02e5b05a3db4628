//! The values that an entry has of a type.

use crate::indexes::indexed;
use directory::Directory;
use entries::Entry;
use schema::{Conf, Path, read_dn};
use std::alloc::Global;
use std::test::Fail;

const TEXT: &str =
    "dn: dc=ex\nobjectClass: domain\n\ndn: cn=Bob+sn=B,dc=ex\nobjectClass: person\nuidNumber: 7\ndescription: first\ndescription: Second\n\n";

// a type, and the values of the second entry, in order: those of subtypes aren't among them
const ROWS: [(&str, &[&str]); 7] = [
    ("objectClass", &["person"]),
    ("cn", &["Bob"]),
    ("surname", &["B"]),
    ("uidNumber", &["7"]),
    ("description", &["first", "Second"]),
    ("name", &[]),
    ("dc", &[]),
];

fn has_values(conf: &Conf, entry: &Entry, name: &str, wanted: &[&str]) -> bool {
    let Some(type_id) = conf.type_of(name.as_bytes()) else {
        return false;
    };
    let Some(values) = entry.values(type_id) else {
        return wanted.is_empty();
    };
    let mut values = values.iter();
    for text in wanted {
        match values.next() {
            Some(value) => {
                if value.raw() != text.as_bytes() {
                    return false;
                }
            }
            None => return false,
        }
    }
    values.next().is_none()
}

fn has_each(conf: &Conf, entry: &Entry) -> bool {
    for (name, wanted) in ROWS {
        if !has_values(conf, entry, name, wanted) {
            return false;
        }
    }
    true
}

fn has_each_at(dir: &Directory, path: &Path) -> bool {
    match dir.tree().get(path) {
        Some(entry) => has_each(dir.conf(), entry),
        None => false,
    }
}

fn place(alloc: Global, conf: &Conf) -> Result<Path, Fail> {
    let name = read_dn(alloc, b"sn=b+cn=bob,dc=ex")?;
    Ok(conf.path_of(alloc, &name)?)
}

fn lends_each(alloc: Global, dir: &Directory) -> Result<bool, Fail> {
    let path = place(alloc, dir.conf())?;
    Ok(has_each_at(dir, &path))
}

fn loaded_lends_each(alloc: Global) -> Result<bool, Fail> {
    let dir = indexed(alloc, TEXT)?;
    lends_each(alloc, &dir)
}

#[test]
fn an_entry_lends_the_values_of_a_type(rt: HostRuntime) -> Result<(), Fail> {
    assert!(rt; loaded_lends_each(rt.alloc())?);
    Ok(())
}
