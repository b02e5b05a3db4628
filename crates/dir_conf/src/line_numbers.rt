//! Lines of a text by their numbers.

ghost use Rattle.std.specs.Prelude.{◌≡◌, ◌+◌, take, count_by};
ghost use Rattle.definitions.specs.Lines.{is_line_feed};

/// How many line feeds a text has.
pub(crate) fn line_feeds_in(text: &[u8]) -> u64
    ensures { result ≡ count_by is_line_feed text.now }
{
    text.iter().filter(|b| **b == b'\n').count() as u64
}

/// The number of the line on which a byte of a text stands, from 1: one more than there are line feeds before it.
pub fn line_at(text: &[u8], at: usize) -> u64
    ensures { result ≡ 1 + count_by is_line_feed (take at text.now) }
{
    let before = text.split_at(at.min(text.len())).0;
    line_feeds_in(before) + 1
}
