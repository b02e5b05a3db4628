//! The line of a key.

ghost use Rattle.std.specs.Prelude.{◌≡◌, ℕ, List, Ok, IfOk, IfErr};
ghost use Rattle.base.specs.Answers.{Fails};
ghost use Rattle.stored_index.specs.KeyLines.{row_in};
ghost use Rattle.stored_index.specs.Gives.{kind_of};
ghost use Rattle.stored_index.specs.Words.{key_in};
ghost use Rattle.stored_index.specs.inner.Kept.{ReadsBehind, IsLineOf, listed, kept_if, row_of_words};

use crate::cuts::cut;
use crate::fault::{LineFault, form};
use crate::given::Given;
use crate::keys::{is_key, read_key};
use crate::ranks::read_ranks;
use crate::row::Row;
use base::Bytes;
use id_sets::ListSet;

/// A key as its line writes it, and its row, where the key is asked for.
#[derive(Drop)]
pub(crate) struct KeyLine<'l> {
    pub(crate) word: &'l [u8],
    pub(crate) row: Option<Row>,
}

// the row of the key that a word writes, where it is asked for
fn row_if_asked(
    given: Given<'_>,
    word: &[u8],
    is_asked: bool,
    ranks: ListSet,
) -> Result<Option<Row>, LineFault>
    ensures ok { IfOk result (λ row. (key : List ℕ) → key_in word.now ≡ Ok key → listed row ≡ kept_if is_asked (key, ranks)) }
    ensures err { IfErr result (λ e. Fails (kind_of e) (key_in word.now)) }
{
    if !is_asked {
        return Ok(None);
    }
    let key = read_key(given.alloc, word)?;
    Ok(Some(Row::new(Bytes::from_vec(key), ranks)))
}

// the line of this word, with the ranks of the words behind it
fn read_words<'l>(
    given: Given<'_>,
    word: &'l [u8],
    words: &[u8],
    last_word: &[u8],
) -> Result<KeyLine<'l>, LineFault>
    ensures { ReadsBehind (IsLineOf given.entry.asked.now) last_word.now result (row_of_words given.entry.entries word.now words.now) }
{
    if !is_key(word) {
        return Err(form());
    }
    let is_in_order = last_word.cmp(word).is_lt();
    let is_asked = given.asked.has(word);
    let ranks = read_ranks(given.alloc, words, is_in_order, given.entries, is_asked)?;
    let row = row_if_asked(given, word, is_asked, ranks)?;
    Ok(KeyLine { word, row })
}

/// The key and the ranks of a line, behind the line of another key, if there is one.
pub(crate) fn read_key_line<'l>(
    given: Given<'_>,
    line: &'l [u8],
    last_word: &[u8],
) -> Result<KeyLine<'l>, LineFault>
    ensures { ReadsBehind (IsLineOf given.entry.asked.now) last_word.now result (λ before. row_in before given.entry.entries line.now) }
{
    let (word, words) = cut(b' ', line);
    match words {
        Some(words) => read_words(given, word, words, last_word),
        None => Err(form()),
    }
}
