//! Syntaxes of attribute types, told apart.

ghost use Rattle.std.specs.Prelude.{◌≡◌};
ghost use Rattle.schema.specs.TypeRules.{syntax_number, is_syntax};

use matching::Syntax;
use values::TypeSyntax;

fn syntax_number(syntax: TypeSyntax) -> u8
    ensures { result ≡ syntax_number syntax }
{
    match syntax {
        TypeSyntax::Plain(Syntax::Text) => 0,
        TypeSyntax::Plain(Syntax::Ascii) => 1,
        TypeSyntax::Plain(Syntax::Numeric) => 2,
        TypeSyntax::Plain(Syntax::Boolean) => 3,
        TypeSyntax::Plain(Syntax::Integer) => 4,
        TypeSyntax::Plain(Syntax::Oid) => 5,
        TypeSyntax::Plain(Syntax::Octet) => 6,
        TypeSyntax::Name => 7,
    }
}

/// Whether two syntaxes are the same.
pub fn is_syntax(a: TypeSyntax, b: TypeSyntax) -> bool
    ensures { result ≡ is_syntax a b }
{
    syntax_number(a) == syntax_number(b)
}
