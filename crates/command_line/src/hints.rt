//! What a fault of words says where OpenLDAP's tools have the option that isn't known here.

use std::alloc::{AllocError, Global};

/// How a list calls a word that belongs to no option.
const TYPES: &str = "types";

/// What a list has in place of an option.
fn in_place_of<'a>(list: &'a str, option: &str) -> Option<&'a str> {
    for row in list.lines() {
        if let Some((theirs, here)) = row.trim_start().split_once("  ") {
            if theirs.split(", ").any(|name| name == option) {
                return Some(here.trim_start());
            }
        }
    }
    None
}

/// A line that says what the list has in place of an option, which was written so; nothing where the list doesn't have it.
pub(crate) fn hint(
    alloc: Global,
    list: &str,
    option: &str,
    written: &str,
) -> Result<String, AllocError> {
    let Some(here) = in_place_of(list, option) else {
        return Ok(String::new(alloc));
    };
    match here.strip_prefix("nothing") {
        Some(reason) => format!(in alloc; "  leave {written} out{reason}\n"),
        None => format!(in alloc; "  here {written} is {here}\n"),
    }
}

/// The argument that isn't known, where this is the first line of clap's text on that.
fn unknown_argument(line: &str) -> Option<&str> {
    let rest = line.strip_prefix("error: unexpected argument '")?;
    rest.strip_suffix("' found")
}

/// The text of a fault, and behind its first line what the list has in place of the argument that isn't known.
pub(crate) fn with_hint(alloc: Global, list: &str, text: String) -> Result<String, AllocError> {
    let Some((line, rest)) = text.as_str().split_once('\n') else {
        return Ok(text);
    };
    let Some(argument) = unknown_argument(line) else {
        return Ok(text);
    };
    let option = if argument.starts_with('-') {
        argument
    } else {
        TYPES
    };
    let meant = hint(alloc, list, option, argument)?;
    format!(in alloc; "{line}\n{meant}{rest}")
}
