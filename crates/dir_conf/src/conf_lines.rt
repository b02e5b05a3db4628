//! Lines of a configuration, by their first words.

ghost use Rattle.std.specs.Prelude.{◌≡◌};
ghost use Rattle.dir_conf.specs.Configurations.{says_nothing, is_first};

use crate::conf_fault::{ConfFault, ConfFaultKind};
use base::begins_with;
use definitions::split_first_word;

pub(crate) fn says_nothing(line: &[u8]) -> bool
    ensures { result ≡ says_nothing line.now }
{
    line.is_empty() || begins_with(line, b'#')
}

pub(crate) fn is_first(word: &[u8], line: &[u8]) -> bool
    ensures { result ≡ is_first word.now line.now }
{
    split_first_word(line).0.eq_ignore_ascii_case(word)
}

pub(crate) fn fault(line: u64, kind: ConfFaultKind) -> ConfFault
    ensures { result ≡ ConfFault.Line line kind }
{
    ConfFault::Line { line, kind }
}
