//! Filters within a text, read by descent.
ghost use Rattle.std.specs.Prelude.{◌≡◌, ℕ, ◌<◌, ◌≤◌, ◌==◌, List, length, ◌++◌, ◌∷◌, IfOk, IfErr};
ghost use Rattle.filter_text.specs.declared.fault.Fault.TheVariants.{Syntax};
ghost use Rattle.filter_text.specs.inner.Begins.{IsRead, Faulty};
ghost use Rattle.filter_text.specs.inner.Joins.{joined};
ghost use Rattle.filter_text.specs.Runs.{Closed, Stops};
ghost use Rattle.filter_text.specs.Spells.{FilterContent, FilterContents, view, views, IsFilter, IsFilterComp, IsSpacedList, SomeFilter, SomeFilterComp, SomeSpacedList};

use crate::cursor::{after, after_spaces, opens, to_parenthesis};
use crate::fault::Fault;
use crate::filters::Filter;
use crate::item_text::item_of;
use crate::joining::Joining;
use std::alloc::Global;

/// The filter that joins these.
fn joined(joining: Joining, operands: Vec<Filter>) -> Filter
    ensures { view result ≡ joined joining (views operands.items) }
{
    match joining {
        Joining::All => Filter::And(operands),
        Joining::Any => Filter::Or(operands),
    }
}

/// What was read, and what stands behind the parenthesis that closes it.
fn closed<T: Drop>(read: T, end: &[u8]) -> Result<(T, &[u8]), Fault>
    ensures done { IfOk result (λ x. (x.0 ≡ read) × (end.now ≡ 41 ∷ x.1.now)) }
    ensures left { IfErr result (λ f. (f ≡ Syntax (length end.now)) × Stops (λ b. b == 41) end.now) }
{
    match after(end, b')') {
        Some(rest) => Ok((read, rest)),
        None => Err(Fault::Syntax(end.len())),
    }
}

/// The filter at the front, and what follows it.
#[cycle(reader)]
pub fn filter_at(alloc: Global, bytes: &[u8]) -> Result<(Filter, &[u8]), Fault>
    ensures shorter { IfOk result (λ x. length x.1.now < length bytes.now) }
    ensures found { IfOk result (λ x. (text : List ℕ) × IsFilter (view x.0) text × (bytes.now ≡ text ++ x.1.now)) }
    ensures only { (f : FilterContent) (text more : List ℕ) → IsFilter f text → IsRead view f bytes.now text more result }
    ensures front { IfErr result (Faulty SomeFilter bytes.now) }
{
    let Some(inside) = after(bytes, b'(') else {
        return Err(Fault::Syntax(bytes.len()));
    };
    let (filter, end) = comp_at(alloc, inside)?;
    closed(filter, end)
}

/// What stands between parentheses.
#[cycle(reader)]
pub fn comp_at(alloc: Global, bytes: &[u8]) -> Result<(Filter, &[u8]), Fault>
    ensures no_longer { IfOk result (λ x. length x.1.now ≤ length bytes.now) }
    ensures found { IfOk result (λ x. (text : List ℕ) × IsFilterComp (view x.0) text × (bytes.now ≡ text ++ x.1.now)) }
    ensures only { (f : FilterContent) (text more : List ℕ) → IsFilterComp f text → Closed more → IsRead view f bytes.now text more result }
    ensures front { IfErr result (Faulty SomeFilterComp bytes.now) }
{
    if let Some(list) = after(bytes, b'&') {
        return list_at(alloc, Joining::All, list);
    }
    if let Some(list) = after(bytes, b'|') {
        return list_at(alloc, Joining::Any, list);
    }
    if let Some(one) = after(bytes, b'!') {
        let (operand, end) = filter_at(alloc, after_spaces(one))?;
        let operand = Box::new(alloc, operand)?;
        return Ok((Filter::Not(operand), after_spaces(end)));
    }
    let (text, end) = to_parenthesis(bytes);
    match item_of(alloc, text) {
        Ok(item) => Ok((Filter::Item(item), end)),
        Err(Fault::OutOfMemory) => Err(Fault::OutOfMemory),
        Err(Fault::Syntax(left)) => Err(Fault::Syntax(left + end.len())),
    }
}

/// The filter that joins those of a list, with the spaces before and after each.
#[cycle(reader)]
fn list_at(alloc: Global, joining: Joining, bytes: &[u8]) -> Result<(Filter, &[u8]), Fault>
    ensures no_longer { IfOk result (λ x. length x.1.now ≤ length bytes.now) }
    ensures found { IfOk result (λ x. (fs : FilterContents) × (text : List ℕ) × (view x.0 ≡ joined joining fs) × IsSpacedList fs text × (bytes.now ≡ text ++ x.1.now)) }
    ensures only { (fs : FilterContents) (text more : List ℕ) → IsSpacedList fs text → Closed more → IsRead view (joined joining fs) bytes.now text more result }
    ensures front { IfErr result (Faulty SomeSpacedList bytes.now) }
{
    let mut operands = Vec::new(alloc);
    let mut rest = after_spaces(bytes);
    'operands: while opens(rest) {
        let (operand, more) = filter_at(alloc, rest)?;
        operands.push(operand)?;
        rest = after_spaces(more);
    }
    Ok((joined(joining, operands), rest))
}
