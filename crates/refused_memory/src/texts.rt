//! Texts that are read, and written again: records, filters, names and values.

ghost use Rattle.std.specs.Prelude.{◌<◌, length};

use crate::directories::conf;
use crate::record_text::record_text;
use crate::shown::print_text;
use crate::written_filter::written_filter;
use anyhow::{Error, Result};
use dn::{NameFault, read_name, write_name};
use filter_text::{FilterFault, read_filter};
use ldif::{LdifFault, Mode, RawRecord, put_line, read_record};
use schema::{Conf, PathFault, TypeId, ValueFault};
use std::alloc::{AllocError, Global};
use std::io::Print;

const CHANGES: Mode = Mode::Changes { add: false };

/// A record of each form.
const RECORDS: [(Mode, &str); 3] = [
    (
        CHANGES,
        "dn: cn=somebody,dc=ex\ncontrol: 1.2.840.113556.1.4.805 true: a value of many bytes\ncontrol: 1.2.3:: YQ==\nchangetype: modify\nadd: tel\ntel: +1 206 555 0575 1\ntel:: KzEgMjA2IDU1NSAwNTc1IDI=\n-\nreplace: info\n-",
    ),
    (
        Mode::Content,
        "dn: cn=somebody,dc=ex\no: p\ninfo:: Wm/DqyBhbmQgbW9yZSB0aGFuIGEgZmV3IGJ5dGVz",
    ),
    (
        CHANGES,
        "dn: cn=somebody,dc=ex\nchangetype: modrdn\nnewrdn: cn=somebody by another name\ndeleteoldrdn: 1\nnewsuperior: ou=people,dc=example",
    ),
];

/// A filter of every form, one whose last parenthesis is one too many, and one with a byte that no command's word has.
const FILTERS: [&str; 3] = [
    " (& (|(cn=\\42ob)(sn~=a name of more than a few bytes)) (!(uidNumber>=7))(uidNumber<=70)(telephoneNumber;lang-en=*)(cn=an initial piece*of*many bytes*and a last piece)(cn=*piece*)(organizationalUnitName:dn:2.5.13.2:=Bob)(:caseExactMatch:=Bob)) ",
    "(|(cn=a name of more than a few bytes)(!(a=*b*)))) ",
    "(a=\0)",
];

/// RDNs of one AVA, two and three; values with and without escapes, some of more bytes than lie in place.
const NAME: &str =
    "cn=a\\2C b+sn=a value of more than a few bytes+ou = c,o=an escaped \\2C value of more than a few bytes,c=e+st=f,dc=ex";

/// Values of lines: one that is folded, and one that is written in base64.
const VALUES: [&str; 2] = [
    "a value of more than seventy-six bytes, which is folded behind its seventy-sixth, as a line of an LDIF text is",
    " Zoë",
];

/// A name below the suffix.
const PLACE: &str = "CN = A value of More than a few bytes, sn=b+cn=c,dc=ex";

fn raw_of(alloc: Global, text: &str) -> Result<RawRecord, AllocError> {
    let mut raw = RawRecord::new(alloc, false);
    let mut number = 0u64;
    for line in text.as_bytes().split(|b| *b == b'\n') {
        number = number.saturating_add(1);
        raw.push(number, line)?;
    }
    Ok(raw)
}

fn read_and_told(alloc: Global, raw: &RawRecord, mode: Mode) -> Result<Vec<u8>, AllocError> {
    let read = read_record(alloc, raw, mode);
    record_text(alloc, &read)
}

/// A record that is read, as a short text.
fn record_once(alloc: Global, mode: Mode, text: &str) -> Result<Vec<u8>, AllocError> {
    let raw = raw_of(alloc, text)?;
    read_and_told(alloc, &raw, mode)
}

fn filter_once(alloc: Global, text: &str) -> Result<Vec<u8>, AllocError> {
    match read_filter(alloc, text.as_bytes()) {
        Ok(filter) => written_filter(alloc, &filter),
        Err(FilterFault::OutOfMemory) => Err(AllocError),
        Err(fault) => Vec::from_slice(alloc, format!(in alloc; "{fault}")?.as_bytes()),
    }
}

fn name_once(alloc: Global, text: &str) -> Result<Vec<u8>, AllocError> {
    match read_name(alloc, text) {
        Ok(name) => Vec::from_slice(alloc, write_name(alloc, &name)?.as_bytes()),
        Err(NameFault::OutOfMemory) => Err(AllocError),
        Err(NameFault::Fault(_)) => Vec::from_slice(alloc, b"no name"),
    }
}

/// How many RDNs a name has below the suffix.
fn place_once(alloc: Global, conf: &Conf) -> Result<Vec<u8>, AllocError> {
    match conf.locate(alloc, PLACE.as_bytes()) {
        Ok(located) => {
            let count = located.path.len();
            Vec::from_slice(alloc, format!(in alloc; "{count} RDNs")?.as_bytes())
        }
        Err(PathFault::OutOfMemory) => Err(AllocError),
        Err(PathFault::Code(_)) => Vec::from_slice(alloc, b"no place"),
    }
}

/// The normal form of a value that is a name.
fn value_once(alloc: Global, conf: &Conf, t: TypeId) -> Result<Vec<u8>, AllocError>
    requires { t < length conf.now.types }
{
    match conf.make_value(alloc, t, PLACE.as_bytes()) {
        Ok(value) => Vec::from_slice(alloc, value.norm()),
        Err(ValueFault::OutOfMemory) => Err(AllocError),
        Err(ValueFault::Invalid) => Vec::from_slice(alloc, b"no value"),
    }
}

fn print_line(rt: &impl Print, text: &[u8]) -> Result<()> {
    print_text(rt, text)?;
    println!(rt; "")?;
    Ok(())
}

fn print_record(rt: &impl Print, alloc: Global, mode: Mode, text: &str) -> Result<()> {
    match record_once(alloc, mode, text) {
        Ok(told) => print_line(rt, &told),
        Err(AllocError) => print_line(rt, &record_once(alloc, mode, text)?),
    }
}

fn print_filter(rt: &impl Print, alloc: Global, text: &str) -> Result<()> {
    match filter_once(alloc, text) {
        Ok(told) => print_line(rt, &told),
        Err(AllocError) => print_line(rt, &filter_once(alloc, text)?),
    }
}

fn print_name(rt: &impl Print, alloc: Global) -> Result<()> {
    match name_once(alloc, NAME) {
        Ok(told) => print_line(rt, &told),
        Err(AllocError) => print_line(rt, &name_once(alloc, NAME)?),
    }
}

fn print_place(rt: &impl Print, alloc: Global, conf: &Conf) -> Result<()> {
    match place_once(alloc, conf) {
        Ok(told) => print_line(rt, &told),
        Err(AllocError) => print_line(rt, &place_once(alloc, conf)?),
    }
}

fn print_value(rt: &impl Print, alloc: Global, conf: &Conf) -> Result<()> {
    let Some(t) = conf.type_of(b"member") else {
        return Err(Error::msg("no such type"));
    };
    match value_once(alloc, conf, t) {
        Ok(told) => print_line(rt, &told),
        Err(AllocError) => print_line(rt, &value_once(alloc, conf, t)?),
    }
}

/// A line that is put behind another; nothing is put where memory is refused.
fn print_put_line(rt: &impl Print, alloc: Global) -> Result<()> {
    let mut out = Vec::new(alloc);
    for value in VALUES {
        let len = out.len();
        if put_line(alloc, &mut out, b"cn", value.as_bytes()).is_err() {
            if out.len() != len {
                return Err(Error::msg("a line that is refused memory is put"));
            }
            put_line(alloc, &mut out, b"cn", value.as_bytes())?;
        }
    }
    print_text(rt, &out)
}

fn print_under(rt: &impl Print, alloc: Global) -> Result<()> {
    let conf = conf(alloc)?;
    print_place(rt, alloc, &conf)?;
    print_value(rt, alloc, &conf)
}

/// Prints what each text is read as.
pub(crate) fn print(rt: &impl Print, alloc: Global) -> Result<()> {
    for (mode, text) in RECORDS {
        print_record(rt, alloc, mode, text)?;
    }
    for text in FILTERS {
        print_filter(rt, alloc, text)?;
    }
    print_name(rt, alloc)?;
    print_put_line(rt, alloc)?;
    print_under(rt, alloc)
}
