//! Which attributes of found entries are printed.

ghost use Rattle.std.specs.Prelude.{◌≡◌, ◌<◌, ℕ, None, IfOk, length, map};
ghost use Rattle.std.specs.List.{list_any};
ghost use Rattle.databases.specs.Selections.{asks_for, is_none, is_selected, selects};

use base::Sequence;
use schema::{Conf, TypeId};
use std::alloc::{AllocError, Global};
use std::marker::Model;

/// The attribute types whose values are printed.
#[derive(Drop)]
pub struct Selection {
    // of each type by its number, whether it is selected; none where all are
    flags: Option<Sequence<bool>>,
}

impl Model for Selection {
    ghost use Rattle.databases.specs.Selections as selections;

    ghost Value = { selections.Selection };

    ghost view = { λ s. s.flags };
}

// whether a word of an attribute list asks for a type
fn asks_for(conf: &Conf, t: TypeId, word: &str) -> bool
    requires { t < length conf.now.types }
    ensures { result ≡ asks_for conf.now.types t word.now }
{
    schema::subtypes_are_told();
    conf.rules_are_kept();
    if word == "*" {
        return !conf.operational(t);
    }
    if word == "+" {
        return conf.operational(t);
    }
    match conf.type_of(word.as_bytes()) {
        Some(above) => conf.is_subtype(t, above),
        None => false,
    }
}

// whether the list asks for no attribute at all
fn is_none(words: &[&str]) -> bool
    ensures { result ≡ is_none (map (λ w. w.now) words.now) }
{
    match words {
        [word] => *word == "1.1",
        _ => false,
    }
}

fn is_any_asking(conf: &Conf, t: TypeId, words: &[&str]) -> bool
    requires { t < length conf.now.types }
    ensures { result ≡ list_any (asks_for conf.now.types t) (map (λ w. w.now) words.now) }
{
    for word in words {
        if asks_for(conf, t, word) {
            return true;
        }
    }
    false
}

fn is_selected(conf: &Conf, t: TypeId, words: &[&str]) -> bool
    requires { t < length conf.now.types }
    ensures { result ≡ is_selected conf.now.types (map (λ w. w.now) words.now) t }
{
    if words.is_empty() {
        return !conf.operational(t);
    }
    !is_none(words) && is_any_asking(conf, t, words)
}

impl Selection {
    /// All types.
    pub fn all() -> Selection
        ensures { result ≡ None }
    {
        Selection { flags: None }
    }

    /// The types that an attribute list asks for (RFC 4511, 4.5.1.8): `*` all user types, `+` all operational ones, a name or an OID that
    /// type and its subtypes. Words that name no type ask for none. The empty list is as `*`, and `1.1` alone asks for none.
    /// It can run out of memory.
    pub fn of(alloc: Global, conf: &Conf, words: &[&str]) -> Result<Selection, AllocError>
        ensures { IfOk result (λ s. (t : ℕ) → t < length conf.now.types → selects s t ≡ is_selected conf.now.types (map (λ w. w.now) words.now) t) }
    {
        let mut flags = Sequence::new(alloc);
        for number in 0..conf.types().len() {
            let t = TypeId::from_number(number as u16);
            flags.push(is_selected(conf, t, words))?;
        }
        Ok(Selection { flags: Some(flags) })
    }

    /// Whether attributes of a type are printed.
    pub fn has(&self, t: TypeId) -> bool
        ensures { result ≡ selects self.now t }
    {
        match &self.flags {
            Some(flags) => flags
                .as_slice()
                .get(t.number() as usize)
                .copied()
                .unwrap_or(false),
            None => true,
        }
    }
}
