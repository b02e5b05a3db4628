//! Names are read.

ghost use Rattle.std.specs.Prelude.{◌≡◌, ◌==◌, ◌++◌, not, true, false, length, Ok, IfOk, IfErr, IfSome, OnOk};
ghost use Rattle.std.specs.List.{list_all, prefix_len};
ghost use Rattle.dn.specs.Names.{Name, is_type, is_ava, is_rdn};
ghost use Rattle.dn.specs.Spelling.{Spells};
ghost use Rattle.dn.specs.NameFaults.{IsWhy};
ghost use Rattle.base.specs.Answers.{each, Fails};
ghost use Rattle.base.specs.Ends.{is_space, without_front};
ghost use Rattle.dn.specs.Reading.{after_equals, cut_raw, rdn_of, name_of};
ghost use Rattle.dn.specs.inner.Cuts.{first_value, first_ava, first_rdn, ava_from, avas_on, avas_from, rdn_at, Pushes};
ghost use Rattle.dn.specs.inner.Texts.{Starts};
ghost use Rattle.dn.specs.Gives.{Gives, fault_of};

use crate::avas::{Ava, split_type};
use crate::faults::{NameFault, NameFaultKind};
use crate::names::{Name, Rdn};
use crate::split::{after_first, after_plus, begins_with_plus, split_piece};
use crate::value::{Plain, split_plain, value_of};
use std::alloc::Global;

fn spaces_in(text: &[u8]) -> usize
    ensures { result ≡ prefix_len is_space text.now }
{
    text.iter().take_while(|b| **b == b' ').count()
}

/// The text without the spaces at its front. This and `begins_with_plus` stand beside the functions of `base`, since they are faster on
/// plain values.
fn skip(text: &[u8]) -> &[u8]
    ensures { result.now ≡ without_front text.now }
{
    text.split_at(spaces_in(text)).1
}

/// What follows the equals sign that is due behind a type.
fn after_equals<'a>(type_text: &[u8], rest: &'a [u8]) -> Result<&'a [u8], NameFault>
    ensures rest { Gives (λ r. r.now) result (after_equals type_text.now rest.now) }
    ensures some { OnOk result (not (length type_text.now == 0) ≡ true) }
{
    match rest {
        [first, value @ ..] if *first == b'=' => {
            if type_text.is_empty() {
                Err(NameFault::Fault(NameFaultKind::TypeMissing))
            } else {
                Ok(value)
            }
        }
        _ => Err(NameFault::Fault(NameFaultKind::EqualsMissing)),
    }
}

/// An AVA from its type on, and of that the type and what follows the equals sign and spaces.
#[derive(Clone, Copy)]
struct Start<'a> {
    text: &'a [u8],
    type_text: &'a [u8],
    rest: &'a [u8],
}

/// The AVA at the front of a text as far as its value.
#[inline(always)]
fn start_in(text: &[u8]) -> Result<Start<'_>, NameFault>
    ensures exact { IfOk result (λ s. first_ava text.now ≡ ava_from s.type_text.now s.rest.now) }
    ensures err { IfErr result (λ e. Fails (fault_of e) (first_ava text.now)) }
    ensures type_text { IfOk result (λ s. is_type s.type_text.now ≡ true) }
    ensures text { IfOk result (λ s. Starts s.text.now s.type_text.now s.rest.now) }
{
    let text = skip(text);
    let (type_text, rest) = split_type(text);
    let rest = skip(after_equals(type_text, skip(rest))?);
    Ok(Start {
        text,
        type_text,
        rest,
    })
}

/// The AVA with this value, where it is short.
#[inline(always)]
fn short_ava(start: Start<'_>, plain: Plain<'_>) -> Option<Ava>
    requires type_text { is_type start.type_text.now ≡ true }
    requires text { Starts start.text.now start.type_text.now start.rest.now }
    requires value { start.rest.now ≡ plain.value.now ++ plain.after.now }
    ensures same { IfSome result (λ ava. ava ≡ (start.entry.type_text.now, plain.entry.value.now)) }
    ensures good { IfSome result (λ ava. is_ava ava ≡ true) }
{
    let end = start.text.len() - plain.after.len();
    Ava::short(start.text, end, start.type_text, plain.value)
}

/// The AVA at the front of a text, where it is short and spelled without an escape, and what stands behind it.
#[inline(always)]
fn short_in(text: &[u8]) -> Option<(Ava, &[u8])>
    ensures exact { IfSome result (λ r. first_ava text.now ≡ Ok (r.0, r.1.now)) }
    ensures good { IfSome result (λ r. is_ava r.0 ≡ true) }
{
    let Ok(start) = start_in(text) else {
        return None;
    };
    let plain = split_plain(start.rest)?;
    let ava = short_ava(start, plain)?;
    Some((ava, plain.behind))
}

/// An AVA with a value up to the first separator that is not escaped, and what stands from there on.
#[inline(always)]
fn escaped_ava<'a>(alloc: Global, start: Start<'a>) -> Result<(Ava, &'a [u8]), NameFault>
    requires { is_type start.type_text.now ≡ true }
    ensures exact { Gives (λ r. (r.0, r.1.now)) result (ava_from start.entry.type_text.now start.entry.rest.now) }
    ensures good { IfOk result (λ r. is_ava r.0 ≡ true) }
{
    let (piece, behind) = split_piece(start.rest);
    let value = value_of(alloc, piece)?;
    Ok((
        Ava::of_type(alloc, start.type_text, value.as_slice())?,
        behind,
    ))
}

/// The same, where it is known whether the value is spelled without an escape.
#[inline(always)]
fn ava_of<'a>(
    alloc: Global,
    start: Start<'a>,
    plain: Option<Plain<'a>>,
) -> Result<(Ava, &'a [u8]), NameFault>
    requires type_text { is_type start.type_text.now ≡ true }
    requires plain { IfSome plain (λ p. first_value start.rest.now ≡ Ok (p.value.now, p.behind.now)) }
    ensures exact { Gives (λ r. (r.0, r.1.now)) result (ava_from start.entry.type_text.now start.entry.rest.now) }
    ensures good { IfOk result (λ r. is_ava r.0 ≡ true) }
{
    match plain {
        Some(plain) => Ok((
            Ava::of_type(alloc, start.type_text, plain.value)?,
            plain.behind,
        )),
        None => escaped_ava(alloc, start),
    }
}

/// The AVA at the front of a text, up to the first separator that is not escaped, and what stands from there on.
fn ava_in(alloc: Global, text: &[u8]) -> Result<(Ava, &[u8]), NameFault>
    ensures exact { Gives (λ r. (r.0, r.1.now)) result (first_ava text.now) }
    ensures good { IfOk result (λ r. is_ava r.0 ≡ true) }
{
    let start = start_in(text)?;
    ava_of(alloc, start, split_plain(start.rest))
}

/// Puts the AVAs behind the plus signs at the front of a text at the end of others, and answers what stands behind them.
fn push_avas<'a>(alloc: Global, avas: &mut Vec<Ava>, text: &'a [u8]) -> Result<&'a [u8], NameFault>
    requires good { is_rdn avas.old.items ≡ true }
    ensures ok { IfOk result (λ rest. avas_on avas.old.items text.now ≡ Ok (avas.new.items, rest.now)) }
    ensures err { IfErr result (λ e. Fails (fault_of e) (avas_on avas.old.items text.now)) }
    ensures good { OnOk result (is_rdn avas.new.items ≡ true) }
{
    let mut rest = text;
    while let Some(more) = after_plus(rest) {
        let (ava, behind) = ava_in(alloc, more)?;
        avas.push(ava)?;
        rest = behind;
    }
    Ok(rest)
}

/// The RDN with this first AVA, up to the first comma that is not escaped, and what stands from there on.
#[inline(always)]
fn rdn_from<'a>(alloc: Global, ava: Ava, behind: &'a [u8]) -> Result<(Rdn, &'a [u8]), NameFault>
    requires { is_ava ava ≡ true }
    ensures { Gives (λ r. (r.0, r.1.now)) result (avas_from (ava, behind.now)) }
{
    if !begins_with_plus(behind) {
        return Ok((Rdn::one(alloc, ava), behind));
    }
    let mut avas = vec![in alloc; ava]?;
    let rest = push_avas(alloc, &mut avas, behind)?;
    Ok((Rdn::many(avas), rest))
}

/// The RDN whose first AVA starts so, where it has one short AVA or two, which are made in place, and what stands behind it.
#[inline(always)]
fn short_rdn<'a>(
    alloc: Global,
    start: Start<'a>,
    plain: Option<Plain<'a>>,
) -> Option<(Rdn, &'a [u8])>
    requires type_text { is_type start.type_text.now ≡ true }
    requires text { Starts start.text.now start.type_text.now start.rest.now }
    requires plain { IfSome plain (λ p. first_value start.rest.now ≡ Ok (p.value.now, p.behind.now)) }
    requires split { IfSome plain (λ p. start.rest.now ≡ p.value.now ++ p.after.now) }
    ensures { IfSome result (λ r. rdn_at start.entry.type_text.now start.entry.rest.now ≡ Ok (r.0, r.1.now)) }
{
    let Some(plain) = plain else {
        return None;
    };
    let ava = short_ava(start, plain)?;
    let Some(more) = after_plus(plain.behind) else {
        return Some((Rdn::one(alloc, ava), plain.behind));
    };
    let (second, end) = short_in(more)?;
    if begins_with_plus(end) {
        return None;
    }
    Some((Rdn::two(alloc, ava, second), end))
}

/// The RDN at the front of a text, and what stands behind it.
#[inline(always)]
fn rdn_in(alloc: Global, text: &[u8]) -> Result<(Rdn, &[u8]), NameFault>
    ensures { Gives (λ r. (r.0, r.1.now)) result (first_rdn text.now) }
{
    let start = start_in(text)?;
    let plain = split_plain(start.rest);
    if let Some(found) = short_rdn(alloc, start, plain) {
        return Ok(found);
    }
    let (ava, behind) = ava_of(alloc, start, plain)?;
    rdn_from(alloc, ava, behind)
}

/// Puts the RDN at the front of a text at the end of a name, and answers what stands behind it.
#[inline(always)]
fn push_rdn<'a>(alloc: Global, name: &mut Name, text: &'a [u8]) -> Result<&'a [u8], NameFault>
    ensures ok { IfOk result (λ rest. Pushes name.old name.new rest.now (first_rdn text.now)) }
    ensures err { IfErr result (λ e. Fails (fault_of e) (first_rdn text.now)) }
{
    let (rdn, behind) = rdn_in(alloc, text)?;
    name.push(rdn)?;
    Ok(behind)
}

/// The RDNs between commas.
fn rdns_of(alloc: Global, text: &[u8]) -> Result<Name, NameFault>
    ensures { Gives (λ n. n) result (each rdn_of (cut_raw 44 false text.now)) }
{
    let mut name = Name::new(alloc);
    let mut rest = Some(text);
    while let Some(text) = rest {
        rest = after_first(push_rdn(alloc, &mut name, text)?);
    }
    Ok(name)
}

fn are_spaces(text: &[u8]) -> bool
    ensures { result ≡ list_all is_space text.now }
{
    text.iter().all(|b| *b == b' ')
}

#[tactic(auto, unfolding(crate::specs::Reading::name_of))]
fn name_of(alloc: Global, text: &[u8]) -> Result<Name, NameFault>
    ensures { Gives (λ n. n) result (name_of text.now) }
{
    if are_spaces(text) {
        return Ok(Name::new(alloc));
    }
    rdns_of(alloc, text)
}

/// The name that a text spells (RFC 4514, section 3); spaces may stand round types, values and the whole. A fault is the
/// first one from the left. Not read are values in quotation marks, values in the form `#` and `;` between RDNs.
pub fn read_name(alloc: Global, text: &str) -> Result<Name, NameFault>
    // What is read is spelled so.
    ensures found { IfOk result (λ n. Spells text.now n) }
    // What is spelled so is read, unless memory runs out.
    ensures only { (n : Name) → Spells text.now n → Gives (λ m. m) result (Ok n) }
    // A fault stands where reading from the left stops.
    ensures fault { IfErr result (IsWhy text.now) }
    // Which fault it is.
    ensures exact { Gives (λ n. n) result (name_of text.now) }
{
    name_of(alloc, text.as_bytes())
}
