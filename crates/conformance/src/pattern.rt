//! The texts of a case file, in which codes stand for bytes.
ghost use Rattle.std.specs.Prelude.{◌<◌};

use crate::fault::CaseFault;
use hex::FromHexError;
use memory_folder::MemoryFiles;
use sha2::{Digest, Sha256};
use std::alloc::Global;

/// Numbers from the first to the last, each so much more than the one before.
#[derive(Clone, Copy)]
struct Numbers {
    first: u32,
    last: u32,
    step: usize,
    ghost moves: { 0 < step },
}

/// A piece of a text.
#[derive(Clone, Copy)]
enum Piece<'t> {
    /// It stands for itself.
    Plain(&'t str),
    /// `%{c3a9}`: bytes, as pairs of hexadecimal digits.
    Bytes(&'t str),
    /// `%{x*1000}`: a text so many times.
    Many(&'t str, u32),
    /// `%{#1..9}` or `%{#1..9/2}`: the line stands once for each of these numbers, which stands here.
    Numbers(Numbers),
    /// `%{#}`: that number once more.
    Number,
    /// `%{stamp d/data.ldif}`: the SHA-256 (FIPS 180-4) of that file, in hexadecimal digits.
    Stamp(&'t str),
}

/// What a code can name.
#[derive(Clone, Copy)]
struct Known<'f> {
    /// The number for which the line stands, where it stands for some.
    number: Option<u32>,
    /// The files, in a line of a file.
    files: Option<&'f MemoryFiles>,
}

impl<'f> Known<'f> {
    fn nothing() -> Known<'f> {
        Known {
            number: None,
            files: None,
        }
    }
}

fn many_of<'t>(text: &'t str, count: &str) -> Option<Piece<'t>> {
    Some(Piece::Many(text, count.parse::<u32>().ok()?))
}

fn numbers_of<'t>(code: &str) -> Option<Piece<'t>> {
    let (first, rest) = code.split_once("..")?;
    let (last, step) = rest.split_once('/').unwrap_or((rest, "1"));
    let first = first.parse::<u32>().ok()?;
    let last = last.parse::<u32>().ok()?;
    let step = step.parse::<usize>().ok()?;
    if last < first || step == 0 {
        return None;
    }
    Some(Piece::Numbers(Numbers { first, last, step }))
}

/// What stands between `%{` and `}`.
fn code_of(code: &str) -> Option<Piece<'_>> {
    if let Some(name) = code.strip_prefix("stamp ") {
        return Some(Piece::Stamp(name));
    }
    if let Some((text, count)) = code.rsplit_once('*') {
        return many_of(text, count);
    }
    match code.strip_prefix('#') {
        Some("") => Some(Piece::Number),
        Some(range) => numbers_of(range),
        None => Some(Piece::Bytes(code)),
    }
}

fn put_bytes(alloc: Global, digits: &str, into: &mut Vec<u8>) -> Result<(), CaseFault> {
    match hex::decode(alloc, digits) {
        Ok(bytes) => Ok(into.extend_from_slice(&bytes)?),
        Err(FromHexError::OutOfMemory) => Err(CaseFault::OutOfMemory),
        Err(_) => Err(CaseFault::Code),
    }
}

fn put_many(text: &str, count: u32, into: &mut Vec<u8>) -> Result<(), CaseFault> {
    for _ in 0..count {
        into.extend_from_slice(text.as_bytes())?;
    }
    Ok(())
}

fn put_number(alloc: Global, number: Option<u32>, into: &mut Vec<u8>) -> Result<(), CaseFault> {
    let Some(number) = number else {
        return Err(CaseFault::Code);
    };
    into.extend_from_slice(format!(in alloc; "{number}")?.as_bytes())?;
    Ok(())
}

fn put_stamp(
    alloc: Global,
    name: &str,
    files: Option<&MemoryFiles>,
    into: &mut Vec<u8>,
) -> Result<(), CaseFault> {
    let Some(files) = files else {
        return Err(CaseFault::Code);
    };
    let Some(bytes) = files.get(name) else {
        return Err(CaseFault::Stamp);
    };
    let digits = hex::encode(alloc, Sha256::digest(bytes))?;
    into.extend_from_slice(digits.as_bytes())?;
    Ok(())
}

fn pieces_of<'t>(alloc: Global, text: &'t str) -> Result<Vec<Piece<'t>>, CaseFault> {
    let mut pieces = Vec::new(alloc);
    let mut is_first = true;
    for part in text.split("%{") {
        if is_first {
            is_first = false;
            pieces.push(Piece::Plain(part))?;
            continue;
        }
        let Some((code, plain)) = part.split_once('}') else {
            return Err(CaseFault::Code);
        };
        let Some(piece) = code_of(code) else {
            return Err(CaseFault::Code);
        };
        pieces.push(piece)?;
        pieces.push(Piece::Plain(plain))?;
    }
    Ok(pieces)
}

fn put_pieces(
    alloc: Global,
    pieces: &[Piece<'_>],
    known: Known<'_>,
    into: &mut Vec<u8>,
) -> Result<(), CaseFault> {
    for piece in pieces {
        match piece {
            Piece::Plain(text) => into.extend_from_slice(text.as_bytes())?,
            Piece::Bytes(digits) => put_bytes(alloc, digits, into)?,
            Piece::Many(text, count) => put_many(text, *count, into)?,
            Piece::Numbers(_) | Piece::Number => put_number(alloc, known.number, into)?,
            Piece::Stamp(name) => put_stamp(alloc, name, known.files, into)?,
        }
    }
    Ok(())
}

/// The numbers for each of which a line stands once, if it has any.
fn numbers_in(pieces: &[Piece<'_>]) -> Result<Option<Numbers>, CaseFault> {
    let mut found = None;
    for piece in pieces {
        if let Piece::Numbers(numbers) = piece {
            if found.is_some() {
                return Err(CaseFault::Code);
            }
            found = Some(*numbers);
        }
    }
    Ok(found)
}

/// The bytes that a word stands for.
pub fn bytes_of(alloc: Global, text: &str) -> Result<Vec<u8>, CaseFault> {
    let pieces = pieces_of(alloc, text)?;
    let mut bytes = Vec::new(alloc);
    put_pieces(alloc, pieces.as_slice(), Known::nothing(), &mut bytes)?;
    Ok(bytes)
}

/// The text that a name stands for.
pub fn text_of(alloc: Global, text: &str) -> Result<String, CaseFault> {
    match String::from_utf8(bytes_of(alloc, text)?) {
        Ok(text) => Ok(text),
        Err(_) => Err(CaseFault::Code),
    }
}

/// Puts down the line that a text stands for, or the lines. `%{}` at its end leaves out the LF.
fn put_known_lines(
    alloc: Global,
    text: &str,
    known: Known<'_>,
    into: &mut Vec<u8>,
) -> Result<(), CaseFault> {
    let mut pieces = pieces_of(alloc, text)?;
    if !text.ends_with("%{}") {
        pieces.push(Piece::Plain("\n"))?;
    }
    let Some(numbers) = numbers_in(pieces.as_slice())? else {
        return put_pieces(alloc, pieces.as_slice(), known, into);
    };
    for number in (numbers.first..=numbers.last).step_by(numbers.step) {
        let known = Known {
            number: Some(number),
            files: known.files,
        };
        put_pieces(alloc, pieces.as_slice(), known, into)?;
    }
    Ok(())
}

/// Puts down the line of a stream that a text stands for, or the lines.
pub fn put_lines(alloc: Global, text: &str, into: &mut Vec<u8>) -> Result<(), CaseFault> {
    put_known_lines(alloc, text, Known::nothing(), into)
}

/// Puts down the line of a file that a text stands for, or the lines. It may name the stamps of these files.
pub fn put_file_lines(
    alloc: Global,
    text: &str,
    files: &MemoryFiles,
    into: &mut Vec<u8>,
) -> Result<(), CaseFault> {
    let known = Known {
        number: None,
        files: Some(files),
    };
    put_known_lines(alloc, text, known, into)
}
