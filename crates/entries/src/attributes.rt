//! The attributes of an entry that is added.

ghost use Rattle.std.specs.Prelude.{◌≡◌, ◌<◌, not, [], if◌then◌else◌, IfOk, IfSome, OnOk, length};
ghost use Rattle.values.specs.Types.{type_of};
ghost use Rattle.schema.specs.Values.{norm_at};
ghost use Rattle.entries.specs.Entries.{values_of, push_value, is_barred, line_value, add_line, add_lines};
ghost use Rattle.entries.specs.StoredEntries.{attributes_of, IsMade};
ghost use Rattle.values.specs.Norms.{has_norm};
ghost use Rattle.entries.specs.inner.StoredEntries.{AreNormsOf, HasNorms};
ghost use Rattle.entries.specs.Gives.{Gives};

use crate::kept_attributes::Attributes;
use crate::refusal::Refusal;
use base::Bytes;
use ldif::{Attr, Mode};
use schema::{Code, Conf, TypeId, Value};
use std::alloc::{AllocError, Global};
use std::collections::BTreeSet;

/// As many lines as each is compared with all that came before it; in more, values are looked up in a set.
const FEW_LINES: usize = 64;

/// As many attributes as room is made for ahead, at most.
const FEW_ATTRIBUTES: usize = 18;

// how many runs of lines with one name there are, which is how many attributes where each stands together
fn runs_in(lines: &[Attr<'_>]) -> usize {
    let mut count = 0usize;
    let mut last: &[u8] = b"";
    for line in lines {
        if line.name() != last {
            count = count.saturating_add(1);
        }
        last = line.name();
    }
    count
}

/// The normal forms of values, each with its type.
type Norms = BTreeSet<(TypeId, Bytes)>;

// those of no value yet, for lines of which there are many
fn norms_for(alloc: Global, count: usize) -> Option<Norms>
    ensures { HasNorms result [] }
{
    if count <= FEW_LINES {
        None
    } else {
        Some(BTreeSet::new(alloc))
    }
}

// Puts a value last among those of its type, unless an equal one is there, and tells whether it did. The normal forms are those of the
// attributes.
fn put_by_norm(
    alloc: Global,
    attrs: &mut Attributes,
    norms: &mut Norms,
    t: TypeId,
    value: Value,
) -> Result<bool, AllocError>
    requires { AreNormsOf norms.old attrs.old.entries }
    ensures norms { OnOk result (AreNormsOf norms.new attrs.new.entries) }
    ensures is_new { IfOk result (λ put. put ≡ not (has_norm value.norm (values_of attrs.old.entries t))) }
    ensures entries { IfOk result (λ put. attrs.new.entries ≡ (if put then push_value attrs.old.entries t value else attrs.old.entries)) }
{
    if !norms.insert((t, Bytes::from_slice(alloc, value.norm())?))? {
        return Ok(false);
    }
    attrs.push(alloc, t, value)?;
    Ok(true)
}

// the same, where normal forms may be kept
fn put_new(
    alloc: Global,
    attrs: &mut Attributes,
    norms: &mut Option<Norms>,
    t: TypeId,
    value: Value,
) -> Result<bool, AllocError>
    requires { HasNorms norms.old attrs.old.entries }
    ensures norms { OnOk result (HasNorms norms.new attrs.new.entries) }
    ensures is_new { IfOk result (λ put. put ≡ not (has_norm value.norm (values_of attrs.old.entries t))) }
    ensures entries { IfOk result (λ put. attrs.new.entries ≡ (if put then push_value attrs.old.entries t value else attrs.old.entries)) }
{
    match norms {
        None => attrs.put(alloc, t, value),
        Some(norms) => put_by_norm(alloc, attrs, norms, t, value),
    }
}

/// Adds lines to attributes under a configuration; `mode` says what kind of records they stand in.
#[derive(Clone, Copy)]
struct LineAdder<'a> {
    alloc: Global,
    conf: &'a Conf,
    mode: Mode,
    // types that the lines may have, in this order
    likely: &'a [TypeId],
}

impl LineAdder<'_> {
    // whether a change can't set values of a type
    fn is_barred(&self, t: TypeId) -> bool
        requires { t < length self.now.conf.now.types }
        ensures { result ≡ is_barred self.now.mode self.now.conf.now.types t }
    {
        match self.mode {
            Mode::Content => false,
            Mode::Changes { .. } => self.conf.fixed(t),
        }
    }

    // The type of the line that comes next, by its name. Mostly it is that of the line before, or the next one of those that are likely.
    fn type_of(&self, attrs: &Attributes, name: &[u8]) -> Option<TypeId>
        ensures place { result ≡ type_of self.now.conf.now.types name.now }
        ensures known { IfSome result (λ t. t < length self.now.conf.now.types) }
    {
        let types = attrs.types();
        if let Some(next) = self.likely.get(types.len()) {
            if self.conf.is_printed_as(*next, name) {
                return Some(*next);
            }
        }
        if let [.., last] = types {
            if self.conf.is_printed_as(*last, name) {
                return Some(*last);
            }
        }
        self.conf.type_of(name)
    }

    // a line's type and value, behind attributes of the lines before
    #[inline(always)]
    fn line_value(&self, attrs: &Attributes, line: &Attr<'_>) -> Result<(TypeId, Value), Refusal>
        ensures gives { Gives (λ x. (x.0, x.1.raw)) result (line_value self.now.mode self.now.conf.now.types line.now) }
        ensures known { IfOk result (λ x. x.0 < length self.now.conf.now.types) }
        ensures normal { IfOk result (λ x. x.1.norm ≡ norm_at self.now.conf.now.types x.0 x.1.raw) }
    {
        let Some(t) = self.type_of(attrs, line.name()) else {
            return Err(Refusal::Code(Code::UndefinedAttributeType));
        };
        if self.is_barred(t) {
            return Err(Refusal::Code(Code::ConstraintViolation));
        }
        let value = self.conf.make_value(self.alloc, t, line.value())?;
        Ok((t, value))
    }

    // Adds what a line gives. The normal forms are those of the values that came before, where they are kept.
    fn add_line(
        &self,
        attrs: &mut Attributes,
        norms: &mut Option<Norms>,
        line: &Attr<'_>,
    ) -> Result<(), Refusal>
        requires made { IsMade self.now.conf.now.types attrs.old.entries }
        requires norms { HasNorms norms.old attrs.old.entries }
        ensures made { OnOk result (IsMade self.now.conf.now.types attrs.new.entries) }
        ensures norms { OnOk result (HasNorms norms.new attrs.new.entries) }
        ensures gives { Gives (λ _. attributes_of attrs.new.entries) result (add_line self.now.mode self.now.conf.now.types (attributes_of attrs.old.entries) line.now) }
    {
        let (t, value) = self.line_value(attrs, line)?;
        match put_new(self.alloc, attrs, norms, t, value) {
            Ok(true) => Ok(()),
            Ok(false) => Err(Refusal::Code(Code::AttributeOrValueExists)),
            Err(AllocError) => Err(Refusal::OutOfMemory),
        }
    }
}

/// The attributes that lines give, in order. The first line that is refused answers. Where the types of the lines are the `likely` ones, in
/// this order, they are found sooner.
#[tactic(auto, unfolding(crate::specs::Entries::add_lines))]
pub fn attributes_of_lines(
    alloc: Global,
    conf: &Conf,
    mode: Mode,
    lines: &[Attr<'_>],
    likely: &[TypeId],
) -> Result<Attributes, Refusal>
    ensures made { IfOk result (λ attrs. IsMade conf.now.types attrs.entries) }
    ensures gives { Gives (λ attrs. attributes_of attrs.entries) result (add_lines mode conf.now.types [] lines.now) }
{
    let adder = LineAdder {
        alloc,
        conf,
        mode,
        likely,
    };
    let mut attrs = Attributes::with_capacity(alloc, runs_in(lines).min(FEW_ATTRIBUTES))?;
    let mut norms = norms_for(alloc, lines.len());
    for line in lines {
        adder.add_line(&mut attrs, &mut norms, line)?;
    }
    Ok(attrs)
}
