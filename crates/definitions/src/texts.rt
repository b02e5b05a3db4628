//! Lists of names in a definition.

ghost use Rattle.std.specs.Prelude.{◌≡◌, ◌∷◌, [], IfOk};
ghost use Rattle.std.specs.Option.{option_map};
ghost use Rattle.definitions.specs.Words.{quoted_at};
ghost use Rattle.definitions.specs.Texts.{to_close, quoted_texts_at, name_at, next_name_at, names_to_close, names_at};
ghost use Rattle.definitions.specs.Gives.{Gives};

use crate::fault::DefinitionFault;
use crate::words::{plain_or_named_at, quoted_at, sign_at, word_at};
use base::{Bytes, Sequence};
use std::alloc::{AllocError, Global};

// texts in quotes up to `)`, and what follows it
fn quoted_to_close(alloc: Global, text: &[u8]) -> Result<(Vec<Bytes>, &[u8]), DefinitionFault>
    ensures { Gives (λ x. (x.0.items, x.1.now)) result (to_close quoted_at text.now text.now) }
{
    let mut texts = Vec::new(alloc);
    let mut rest = text;
    for _ in text {
        if let Some(behind) = sign_at(b')', rest) {
            return Ok((texts, behind));
        }
        let Some((found, behind)) = quoted_at(rest) else {
            return Err(DefinitionFault::Form);
        };
        texts.push(Bytes::from_slice(alloc, found)?)?;
        rest = behind;
    }
    Err(DefinitionFault::Form)
}

fn alone(alloc: Global, text: &[u8]) -> Result<Vec<Bytes>, AllocError>
    ensures { IfOk result (λ v. v.items ≡ text.now ∷ []) }
{
    let mut texts = Vec::with_capacity(alloc, 1)?;
    texts.push(Bytes::from_slice(alloc, text)?)?;
    Ok(texts)
}

/// A text in quotes or several in parentheses, and what follows them.
#[tactic(auto, unfolding(crate::specs::Texts::quoted_texts_at))]
pub(crate) fn quoted_texts_at(
    alloc: Global,
    text: &[u8],
) -> Result<(Vec<Bytes>, &[u8]), DefinitionFault>
    ensures { Gives (λ x. (x.0.items, x.1.now)) result (quoted_texts_at text.now) }
{
    if let Some(inside) = sign_at(b'(', text) {
        let (texts, rest) = quoted_to_close(alloc, inside)?;
        return if texts.is_empty() {
            Err(DefinitionFault::Form)
        } else {
            Ok((texts, rest))
        };
    }
    match quoted_at(text) {
        Some((found, rest)) => Ok((alone(alloc, found)?, rest)),
        None => Err(DefinitionFault::Form),
    }
}

fn name_at(quotes: bool, text: &[u8]) -> Option<(&[u8], &[u8])>
    ensures { option_map (λ w. (w.0.now, w.1.now)) result ≡ name_at quotes text.now }
{
    if quotes {
        plain_or_named_at(text)
    } else {
        word_at(text)
    }
}

fn next_name_at(quotes: bool, text: &[u8]) -> Option<(&[u8], &[u8])>
    ensures { option_map (λ w. (w.0.now, w.1.now)) result ≡ next_name_at quotes text.now }
{
    match sign_at(b'$', text) {
        Some(behind) => name_at(quotes, behind),
        None => None,
    }
}

// names with `$` between up to `)`, and what follows it
fn names_to_close(
    alloc: Global,
    quotes: bool,
    text: &[u8],
) -> Result<(Vec<Bytes>, &[u8]), DefinitionFault>
    ensures { Gives (λ x. (x.0.items, x.1.now)) result (names_to_close quotes text.now) }
{
    let Some((first, others)) = name_at(quotes, text) else {
        return Err(DefinitionFault::Form);
    };
    let mut names = alone(alloc, first)?;
    let mut rest = others;
    for _ in others {
        if let Some(behind) = sign_at(b')', rest) {
            return Ok((names, behind));
        }
        let Some((found, behind)) = next_name_at(quotes, rest) else {
            return Err(DefinitionFault::Form);
        };
        names.push(Bytes::from_slice(alloc, found)?)?;
        rest = behind;
    }
    Err(DefinitionFault::Form)
}

/// A name, or several in parentheses with `$` between, and what follows them; in quotes perhaps, where they may be.
#[tactic(auto, unfolding(crate::specs::Texts::names_at))]
pub(crate) fn names_at(
    alloc: Global,
    quotes: bool,
    text: &[u8],
) -> Result<(Vec<Bytes>, &[u8]), DefinitionFault>
    ensures { Gives (λ x. (x.0.items, x.1.now)) result (names_at quotes text.now) }
{
    if let Some(inside) = sign_at(b'(', text) {
        return names_to_close(alloc, quotes, inside);
    }
    match name_at(quotes, text) {
        Some((found, rest)) => Ok((alone(alloc, found)?, rest)),
        None => Err(DefinitionFault::Form),
    }
}
