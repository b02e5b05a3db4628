//! Records and faults as short texts.

use crate::words::push_words;
use base::Bytes;
use ldif::{Attr, Control, LdifFault, Mod, Op, Record};
use std::alloc::{AllocError, Global};

/// `{oid}`, where `!` says that it is critical, and `=` stands before its value.
fn push_controls(out: &mut Vec<u8>, controls: &[Control]) -> Result<(), AllocError> {
    for control in controls {
        push_words(out, &[b" {", control.oid.as_slice()])?;
        if control.critical {
            out.extend_from_slice(b"!")?;
        }
        if let Some(value) = &control.value {
            push_words(out, &[b"=", value.as_slice()])?;
        }
        out.extend_from_slice(b"}")?;
    }
    Ok(())
}

fn push_attrs(out: &mut Vec<u8>, attrs: &[Attr<'_>]) -> Result<(), AllocError> {
    for attr in attrs {
        push_words(out, &[b" [", attr.name(), b"=", attr.value(), b"]"])?;
    }
    Ok(())
}

fn push_values(out: &mut Vec<u8>, values: &[Bytes]) -> Result<(), AllocError> {
    for value in values {
        push_words(out, &[b" <", value.as_slice(), b">"])?;
    }
    Ok(())
}

/// `(add cn <a> <b>)`
fn push_mods(out: &mut Vec<u8>, mods: &[Mod]) -> Result<(), AllocError> {
    for change in mods {
        let op: &[u8] = match change.op {
            Op::Add => b"add",
            Op::Delete => b"delete",
            Op::Replace => b"replace",
        };
        push_words(out, &[b" (", op, b" ", change.attr.as_slice()])?;
        push_values(out, change.values.as_slice())?;
        out.extend_from_slice(b")")?;
    }
    Ok(())
}

fn push_record(out: &mut Vec<u8>, record: &Record) -> Result<(), AllocError> {
    match record {
        Record::Content { dn, attrs } => {
            push_words(out, &[b"content ", dn.as_slice()])?;
            push_attrs(out, attrs.as_slice())
        }
        Record::Delete { dn, controls } => {
            push_words(out, &[b"delete ", dn.as_slice()])?;
            push_controls(out, controls.as_slice())
        }
        Record::Modify { dn, controls, mods } => {
            push_words(out, &[b"modify ", dn.as_slice()])?;
            push_controls(out, controls.as_slice())?;
            push_mods(out, mods.as_slice())
        }
        Record::ModRdn {
            dn,
            controls,
            newrdn,
            delete_old,
            new_superior,
        } => {
            push_words(out, &[b"modrdn ", dn.as_slice()])?;
            push_controls(out, controls.as_slice())?;
            push_words(
                out,
                &[
                    b" to ",
                    newrdn.as_slice(),
                    if *delete_old { b" 1" } else { b" 0" },
                ],
            )?;
            match new_superior {
                Some(name) => push_words(out, &[b" under ", name.as_slice()]),
                None => Ok(()),
            }
        }
        Record::Add { .. } | Record::Empty => out.extend_from_slice(b"another record"),
    }
}

/// A record, or the number of its fault.
pub(crate) fn record_text(
    alloc: Global,
    read: &Result<Record, LdifFault>,
) -> Result<Vec<u8>, AllocError> {
    let mut out = Vec::new(alloc);
    match read {
        Ok(record) => push_record(&mut out, record)?,
        Err(LdifFault::Fault(fault)) => {
            let number = format!(in alloc; "L{}", fault.number())?;
            out.extend_from_slice(number.as_bytes())?;
        }
        Err(LdifFault::OutOfMemory) => return Err(AllocError),
    }
    Ok(out)
}
