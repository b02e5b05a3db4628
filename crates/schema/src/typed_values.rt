//! Values of attribute types under a configuration.

ghost use Rattle.std.specs.Prelude.{◌≡◌, ◌<◌, IfOk, is_some, length, map, true};
ghost use Rattle.std.specs.List.{list_all};
ghost use Rattle.std.specs.Map.Iter.{deref};
ghost use Rattle.values.specs.Types.{type_at};
ghost use Rattle.schema.specs.Gives.{Makes};
ghost use Rattle.schema.specs.Values.{normal_name, name_value, norm_with, is_valid_by, is_valid_at, norm_at, pieces_of};

use crate::conf::Conf;
use crate::dn_values::normal_name;
use matching::{Pieces, is_valid};
use std::alloc::{AllocError, Global};
use values::{EqualityRule, TypeId, TypeSyntax, TypeTable, Value, ValueFault};

fn is_valid_by(
    alloc: Global,
    types: &TypeTable,
    syntax: TypeSyntax,
    raw: &[u8],
) -> Result<bool, AllocError>
    ensures { IfOk result (λ b. b ≡ is_valid_by types.now syntax raw.now) }
{
    match syntax {
        TypeSyntax::Plain(syntax) => Ok(is_valid(syntax, raw)),
        TypeSyntax::Name => Ok(normal_name(alloc, types, raw)?.is_some()),
    }
}

// the value under an equality rule
fn value_with(
    alloc: Global,
    types: &TypeTable,
    equality: Option<EqualityRule>,
    raw: &[u8],
) -> Result<Value, AllocError>
    ensures { IfOk result (λ v. v ≡ record { raw = raw.now; norm = norm_with types.now equality raw.now }) }
{
    match equality {
        Some(EqualityRule::Plain(family)) => Value::new(alloc, Some(family), raw),
        Some(EqualityRule::Name) => match normal_name(alloc, types, raw)? {
            Some(norm) => Value::joined(norm, raw),
            None => Value::new(alloc, None, raw),
        },
        None => Value::new(alloc, None, raw),
    }
}

fn are_valid_by(
    alloc: Global,
    types: &TypeTable,
    syntax: TypeSyntax,
    texts: &[&[u8]],
) -> Result<bool, AllocError>
    ensures { IfOk result (λ b. b ≡ list_all (is_valid_by types.now syntax) (map deref texts.now)) }
{
    for text in texts {
        if !is_valid_by(alloc, types, syntax, text)? {
            return Ok(false);
        }
    }
    Ok(true)
}

impl Conf {
    // the value of a type that compares names, which takes names alone
    fn name_value(&self, alloc: Global, raw: &[u8]) -> Result<Value, ValueFault>
        ensures { Makes result (is_some (normal_name self.now.types raw.now)) (λ v. v ≡ name_value self.now.types raw.now) }
    {
        match self.normal_name(alloc, raw)? {
            Some(norm) => Ok(Value::joined(norm, raw)?),
            None => Err(ValueFault::Invalid),
        }
    }

    /// The pieces of a substring assertion (RFC 4511, 4.5.1.7.2) for values of a type that has a substrings rule; `front` and `back` say
    /// whether a star stands there. `Invalid` where a piece by itself is no value of the type's syntax.
    #[tactic(auto, unfolding(crate::specs::Values::is_valid_at))]
    pub fn pieces(
        &self,
        alloc: Global,
        t: TypeId,
        texts: &[&[u8]],
        front: bool,
        back: bool,
    ) -> Result<Pieces, ValueFault>
        requires known { t < length self.now.types }
        requires rule { (type_at self.now.types t).has_substrings ≡ true }
        ensures { Makes result (list_all (is_valid_at self.now.types t) (map deref texts.now)) (λ p. p ≡ pieces_of self.now.types t front back (map deref texts.now)) }
    {
        self.rules_are_kept();
        let kind = self.at(t);
        if !are_valid_by(alloc, self.table(), kind.syntax, texts)? {
            return Err(ValueFault::Invalid);
        }
        match kind.plain_family() {
            Some(family) => Ok(Pieces::new(alloc, family, texts, front, back)?),
            None => unreachable!(),
        }
    }

    /// The value of these bytes under a type; `Invalid` where the type's syntax has no such value.
    #[tactic(auto, unfolding(crate::specs::Values::is_valid_at, crate::specs::Values::norm_at))]
    pub fn make_value(&self, alloc: Global, t: TypeId, raw: &[u8]) -> Result<Value, ValueFault>
        requires { t < length self.now.types }
        ensures { Makes result (is_valid_at self.now.types t raw.now) (λ v. v ≡ record { raw = raw.now; norm = norm_at self.now.types t raw.now }) }
    {
        let kind = self.at(t);
        match (kind.syntax, kind.equality) {
            // read once for both
            (TypeSyntax::Name, Some(EqualityRule::Name)) => self.name_value(alloc, raw),
            (syntax, equality) => {
                if !is_valid_by(alloc, self.table(), syntax, raw)? {
                    return Err(ValueFault::Invalid);
                }
                Ok(value_with(alloc, self.table(), equality, raw)?)
            }
        }
    }
}
