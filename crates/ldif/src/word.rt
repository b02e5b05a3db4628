//! Names and words without ASCII case.

ghost use Rattle.std.specs.Prelude.{◌≡◌};
ghost use Rattle.ldif.specs.Line.{same_name, is_word};

use base::without_end;

pub fn same_name(a: &[u8], b: &[u8]) -> bool
    ensures { result ≡ same_name a.now b.now }
{
    a.eq_ignore_ascii_case(b)
}

/// Whether a text is this word, where spaces at its end are dropped.
pub fn is_word(text: &[u8], word: &[u8]) -> bool
    ensures { result ≡ is_word text.now word.now }
{
    same_name(without_end(text), word)
}
