//! Says what is otherwise than a case wants, as a case spells it.

use crate::case::Wanted;
use crate::indexes::NamedIndexes;
use memory_folder::MemoryFiles;
use std::alloc::{AllocError, Global};

fn put_byte(alloc: Global, byte: u8, into: &mut String) -> Result<(), AllocError> {
    if byte >= 32 && byte < 127 {
        into.push(char::from(byte))
    } else {
        into.push_str(format!(in alloc; "%{{{byte:02x}}}")?.as_str())
    }
}

/// Puts down a line of which the LF was cut off.
fn put_line(alloc: Global, line: &[u8], into: &mut String) -> Result<(), AllocError> {
    if !line.is_empty() {
        into.push(' ')?;
    }
    let (plain, end) = match line.strip_suffix(b" ") {
        Some(plain) => (plain, "%{20}"),
        None => (line, ""),
    };
    for byte in plain {
        put_byte(alloc, *byte, into)?;
    }
    into.push_str(end)
}

/// Puts down bytes, each line behind a mark.
fn put_lines(alloc: Global, mark: char, bytes: &[u8], into: &mut String) -> Result<(), AllocError> {
    for line in bytes.split_inclusive(|b| *b == b'\n') {
        into.push_str("    ")?;
        into.push(mark)?;
        let (plain, end) = match line.strip_suffix(b"\n") {
            Some(plain) => (plain, "\n"),
            None => (line, "%{}\n"),
        };
        put_line(alloc, plain, into)?;
        into.push_str(end)?;
    }
    Ok(())
}

fn put_found(
    alloc: Global,
    what: &str,
    mark: char,
    found: &[u8],
    into: &mut String,
) -> Result<(), AllocError> {
    into.push_str(format!(in alloc; "  {what} is\n")?.as_str())?;
    put_lines(alloc, mark, found, into)?;
    into.push_str("  and not\n")
}

/// Says what a stream holds, where it isn't what is wanted.
pub fn put_stream(
    alloc: Global,
    what: &str,
    mark: char,
    found: &[u8],
    wanted: &Wanted,
    into: &mut String,
) -> Result<(), AllocError> {
    if wanted.is_met_by(found) {
        return Ok(());
    }
    put_found(alloc, what, mark, found, into)?;
    match wanted {
        Wanted::Bytes(bytes) => put_lines(alloc, mark, bytes.as_slice(), into),
        Wanted::Any => into.push_str(format!(in alloc; "    {mark} %{{*}}\n")?.as_str()),
    }
}

fn put_file(
    alloc: Global,
    name: &str,
    found: Option<&[u8]>,
    wanted: &[u8],
    into: &mut String,
) -> Result<(), AllocError> {
    match found {
        Some(found) if found == wanted => Ok(()),
        Some(found) => {
            put_found(alloc, name, '|', found, into)?;
            put_lines(alloc, '|', wanted, into)
        }
        None => into.push_str(format!(in alloc; "  {name} isn't there\n")?.as_str()),
    }
}

/// Says which files aren't as they are wanted, of those that are looked at.
pub fn put_files(
    alloc: Global,
    found: &MemoryFiles,
    wanted: &MemoryFiles,
    indexes: &NamedIndexes,
    into: &mut String,
) -> Result<(), AllocError> {
    for (name, bytes) in wanted.all() {
        put_file(
            alloc,
            name.as_str(),
            found.get(name.as_str()),
            bytes.as_slice(),
            into,
        )?;
    }
    for (name, _) in found.all() {
        if indexes.looks_at(name.as_str()) && wanted.get(name.as_str()).is_none() {
            into.push_str(format!(in alloc; "  {name} is there\n")?.as_str())?;
        }
    }
    Ok(())
}
