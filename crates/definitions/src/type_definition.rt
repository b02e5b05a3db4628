//! The definition of an attribute type (RFC 4512, 4.1.2).

ghost use Rattle.std.specs.Prelude.{◌≡◌, Some, IfOk, is_some, true};
ghost use Rattle.definitions.specs.declared.type_field.TypeField.TheVariants as fields;
ghost use Rattle.definitions.specs.Gives.{Gives};
ghost use Rattle.definitions.specs.Elements.{unless, fields_to_end};
ghost use Rattle.definitions.specs.TypeFields.{field_at};
ghost use Rattle.definitions.specs.TypeDefinitions.{with_flag, with_reference, with_field, empty_definition, type_with, type_definition_of};

use crate::element::{Element, ends_there, head_at, raise};
use crate::fault::DefinitionFault;
use crate::type_field::{Flag, Reference, TypeField, Usage, field_at};
use base::Bytes;
use std::alloc::{AllocError, Global};

/// What a definition says of an attribute type. Names of types, rules and syntaxes are as written.
#[derive(Drop)]
pub struct TypeDefinition {
    pub element: Element,
    /// The type that it is derived from (SUP).
    pub superior: Option<Bytes>,
    /// The rule by which values are equal.
    pub equality: Option<Bytes>,
    /// The rule by which values are in order.
    pub ordering: Option<Bytes>,
    /// The rule by which values contain others (SUBSTR).
    pub substrings: Option<Bytes>,
    /// The OID of its syntax, without a length.
    pub syntax: Option<Bytes>,
    pub is_single_value: bool,
    pub is_collective: bool,
    /// NO-USER-MODIFICATION
    pub is_fixed: bool,
    pub usage: Option<Usage>,
}

fn put(field: &mut Option<Bytes>, name: Bytes) -> Result<(), DefinitionFault>
    ensures { Gives (λ _. field.new) result (unless (is_some field.old) (Some name)) }
{
    if field.is_some() {
        return Err(DefinitionFault::Form);
    }
    *field = Some(name);
    Ok(())
}

impl TypeDefinition {
    fn empty(alloc: Global, oid: &[u8]) -> Result<TypeDefinition, AllocError>
        ensures { IfOk result (λ d. d ≡ empty_definition oid.now) }
    {
        Ok(TypeDefinition {
            element: Element::empty(alloc, oid)?,
            superior: None,
            equality: None,
            ordering: None,
            substrings: None,
            syntax: None,
            is_single_value: false,
            is_collective: false,
            is_fixed: false,
            usage: None,
        })
    }

    #[tactic(auto, unfolding(crate::specs::TypeDefinitions::with_flag))]
    fn put_flag(&mut self, flag: Flag) -> Result<(), DefinitionFault>
        ensures { Gives (λ _. self.new) result (with_flag self.old flag) }
    {
        match flag {
            Flag::SingleValue => raise(&mut self.is_single_value),
            Flag::Collective => raise(&mut self.is_collective),
            Flag::NoUserModification => raise(&mut self.is_fixed),
        }
    }

    #[tactic(auto, unfolding(crate::specs::TypeDefinitions::with_reference))]
    fn put_reference(&mut self, reference: Reference, name: Bytes) -> Result<(), DefinitionFault>
        ensures { Gives (λ _. self.new) result (with_reference self.old reference name) }
    {
        match reference {
            Reference::Superior => put(&mut self.superior, name),
            Reference::Equality => put(&mut self.equality, name),
            Reference::Ordering => put(&mut self.ordering, name),
            Reference::Substrings => put(&mut self.substrings, name),
            Reference::Syntax => put(&mut self.syntax, name),
        }
    }

    #[tactic(auto, unfolding(crate::specs::TypeDefinitions::with_field))]
    fn put_usage(&mut self, usage: Usage) -> Result<(), DefinitionFault>
        ensures { Gives (λ _. self.new) result (with_field self.old (fields.Usage usage)) }
    {
        if self.usage.is_some() {
            return Err(DefinitionFault::Form);
        }
        self.usage = Some(usage);
        Ok(())
    }

    // one more field, which isn't there yet
    #[tactic(auto, unfolding(crate::specs::TypeDefinitions::with_field))]
    fn put_field(&mut self, field: TypeField) -> Result<(), DefinitionFault>
        ensures { Gives (λ _. self.new) result (with_field self.old field) }
    {
        match field {
            TypeField::Element(field) => self.element.put(field),
            TypeField::Flag(flag) => self.put_flag(flag),
            TypeField::Reference(reference, name) => self.put_reference(reference, name),
            TypeField::Usage(usage) => self.put_usage(usage),
        }
    }

    // the fields up to the end
    fn put_fields(&mut self, alloc: Global, text: &[u8]) -> Result<(), DefinitionFault>
        ensures { Gives (λ _. self.new) result (fields_to_end field_at with_field self.old text.now text.now) }
    {
        let mut rest = text;
        for _ in text {
            if ends_there(rest) {
                return Ok(());
            }
            let (field, behind) = field_at(alloc, rest)?;
            self.put_field(field)?;
            rest = behind;
        }
        Err(DefinitionFault::Form)
    }
}

fn type_with(alloc: Global, oid: &[u8], fields: &[u8]) -> Result<TypeDefinition, DefinitionFault>
    ensures { Gives (λ d. d) result (type_with (oid.now, fields.now)) }
{
    let mut definition = TypeDefinition::empty(alloc, oid)?;
    definition.put_fields(alloc, fields)?;
    if definition.syntax.is_none() && definition.superior.is_none() {
        return Err(DefinitionFault::Form);
    }
    Ok(definition)
}

/// The attribute type that a definition defines: `( OID`, the fields in any order, each at most once, and `)`. `Form` where it
/// can't be read, a name isn't allowed, or it states neither a syntax nor a type that it is derived from.
#[tactic(auto, unfolding(crate::specs::TypeDefinitions::type_definition_of))]
pub fn read_type_definition(alloc: Global, text: &[u8]) -> Result<TypeDefinition, DefinitionFault>
    ensures { Gives (λ d. d) result (type_definition_of text.now) }
{
    match head_at(text) {
        Some((oid, fields)) => type_with(alloc, oid, fields),
        None => Err(DefinitionFault::Form),
    }
}
