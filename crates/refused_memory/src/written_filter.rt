//! Filters as texts again.

use crate::words::push_words;
use base::Bytes;
use filter_text::{Filter, Item};
use std::alloc::{AllocError, Global};

/// The stars, and what stands between them.
fn push_pieces(
    out: &mut Vec<u8>,
    initial: &Option<Bytes>,
    any: &[Bytes],
    last: &Option<Bytes>,
) -> Result<(), AllocError> {
    if let Some(piece) = initial {
        out.extend_from_slice(piece.as_slice())?;
    }
    for piece in any {
        push_words(out, &[b"*", piece.as_slice()])?;
    }
    out.extend_from_slice(b"*")?;
    match last {
        Some(piece) => out.extend_from_slice(piece.as_slice()),
        None => Ok(()),
    }
}

/// What stands before the value: `cn:dn:2.5.13.2`
fn push_rule(
    out: &mut Vec<u8>,
    attribute: &Option<Bytes>,
    words: &[Bytes],
) -> Result<(), AllocError> {
    if let Some(attribute) = attribute {
        out.extend_from_slice(attribute.as_slice())?;
    }
    for word in words {
        push_words(out, &[b":", word.as_slice()])?;
    }
    Ok(())
}

fn push_item(out: &mut Vec<u8>, item: &Item) -> Result<(), AllocError> {
    match item {
        Item::Equality { attribute, value } => {
            push_words(out, &[attribute.as_slice(), b"=", value.as_slice()])
        }
        Item::Approx { attribute, value } => {
            push_words(out, &[attribute.as_slice(), b"~=", value.as_slice()])
        }
        Item::GreaterOrEqual { attribute, value } => {
            push_words(out, &[attribute.as_slice(), b">=", value.as_slice()])
        }
        Item::LessOrEqual { attribute, value } => {
            push_words(out, &[attribute.as_slice(), b"<=", value.as_slice()])
        }
        Item::Present { attribute } => push_words(out, &[attribute.as_slice(), b"=*"]),
        Item::Substrings {
            attribute,
            initial,
            any,
            last,
        } => {
            push_words(out, &[attribute.as_slice(), b"="])?;
            push_pieces(out, initial, any.as_slice(), last)
        }
        Item::Extensible {
            attribute,
            words,
            value,
        } => {
            push_rule(out, attribute, words.as_slice())?;
            push_words(out, &[b":=", value.as_slice()])
        }
    }
}

/// Puts a filter behind, with no escapes and no spaces.
pub(crate) fn push_filter(out: &mut Vec<u8>, filter: &Filter) -> Result<(), AllocError> {
    out.extend_from_slice(b"(")?;
    match filter {
        Filter::And(operands) => {
            out.extend_from_slice(b"&")?;
            for operand in operands {
                push_filter(out, operand)?;
            }
        }
        Filter::Or(operands) => {
            out.extend_from_slice(b"|")?;
            for operand in operands {
                push_filter(out, operand)?;
            }
        }
        Filter::Not(operand) => {
            out.extend_from_slice(b"!")?;
            push_filter(out, operand)?;
        }
        Filter::Item(item) => push_item(out, item)?,
    }
    out.extend_from_slice(b")")
}

/// A filter as its text.
pub(crate) fn written_filter(alloc: Global, filter: &Filter) -> Result<Vec<u8>, AllocError> {
    let mut out = Vec::new(alloc);
    push_filter(&mut out, filter)?;
    Ok(out)
}
