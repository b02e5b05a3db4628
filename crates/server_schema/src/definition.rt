//! The definitions in a schema's text.

ghost use Rattle.std.specs.Prelude.{◌≡◌, IfOk, OnOk, ◌++◌};
ghost use Rattle.server_schema.specs.Definitions.{of_statement, of_statements, definitions_in};

use crate::expanding::expanded;
use crate::macros::{Macro, macros_in};
use crate::statements::{Statement, Word, statements_in};
use base::Bytes;
use std::alloc::{AllocError, Global};

/// What a definition defines.
#[derive(Clone, Copy)]
pub enum Sort {
    AttributeType,
    ObjectClass,
}

/// A definition of a type or a class.
pub struct Definition {
    pub sort: Sort,
    /// From its parenthesis on, in one line.
    pub text: Bytes,
}

// A call of its own, so that no other crate proves it anew.
impl Drop for Definition {
    fn drop(self) {
        let Definition { sort: _, text } = self;
        drop(text);
    }
}

// puts the definition that a statement is behind these
fn add_definition(
    alloc: Global,
    macros: &[Macro],
    statement: &Statement,
    found: &mut Vec<Definition>,
) -> Result<(), AllocError>
    ensures { OnOk result (found.new.items ≡ found.old.items ++ of_statement macros.now statement.now) }
{
    match statement.word {
        Word::Macro => Ok(()),
        Word::Definition(sort) => {
            let text = expanded(alloc, macros, statement.text.as_slice())?;
            found.push(Definition { sort, text })?;
            Ok(())
        }
    }
}

fn of_statements(
    alloc: Global,
    macros: &[Macro],
    statements: &[Statement],
) -> Result<Vec<Definition>, AllocError>
    ensures { IfOk result (λ v. v.items ≡ of_statements macros.now statements.now) }
{
    let mut found = Vec::new(alloc);
    for statement in statements {
        add_definition(alloc, macros, statement, &mut found)?;
    }
    Ok(found)
}

/// The definitions in a schema's text, with OIDs in place of the macros that stand for them.
pub fn definitions_in(alloc: Global, text: &[u8]) -> Result<Vec<Definition>, AllocError>
    ensures { IfOk result (λ v. v.items ≡ definitions_in text.now) }
{
    let statements = statements_in(alloc, text)?;
    let macros = macros_in(alloc, &statements)?;
    of_statements(alloc, &macros, &statements)
}
