//! Texts of one line that any terminal can show.

ghost use Rattle.std.specs.Prelude.{◌≡◌, ◌++◌, ◌∷◌, [], ◌<◌, ◌≤◌, ◌≢◌, Some, length, OnOk, IfOk, ◌==◌, slice_index};
ghost use Rattle.std.specs.Char.{encode_utf8};
ghost use Rattle.std.specs.Str.{IsCharBoundary};
ghost use Rattle.std.specs.String.{string_bytes};
ghost use Rattle.sentences.specs.Cuts.{goes_on, is_inside, whole_len, cut_words, sentence_of};
ghost use Rattle.sentences.specs.Sentence.{IsShown, IsLine, IsSentence};

use std::alloc::{AllocError, Global};
use std::fmt;

/// The most bytes that the words of a sentence take: with its frame they are 400.
const MOST_WORDS: usize = 397;

/// The bytes of two spaces before the words of a sentence, and of the line feed behind them.
const FRAME_LEN: usize = 3;

/// What stands for the rest of a text that is cut.
pub(crate) const REST: &str = "..";

/// Whether a backslash is at a place.
fn is_backslash(bytes: &[u8], place: usize) -> bool
    ensures { result ≡ (slice_index bytes.now place == 92) }
{
    match bytes.get(place) {
        Some(byte) => *byte == b'\\',
        None => false,
    }
}

/// Whether a place is in the middle of a character.
fn is_in_char(bytes: &[u8], place: usize) -> bool
    ensures { result ≡ goes_on (slice_index bytes.now place) }
{
    match bytes.get(place) {
        Some(byte) => *byte >= 0x80 && *byte < 0xC0,
        None => false,
    }
}

/// Whether a place is in the middle of a character or of an escape, as `\0A`.
fn is_inside(bytes: &[u8], place: usize) -> bool
    ensures { result ≡ is_inside bytes.now place }
{
    place > 0
        && (is_in_char(bytes, place)
            || is_backslash(bytes, place.saturating_sub(1))
            || is_backslash(bytes, place.saturating_sub(2)))
}

/// How many bytes the first whole characters and escapes of a text take, of at most so many bytes.
#[tactic(auto, using(crate::proofs::Cut::whole_len_step, crate::proofs::Cut::whole_len_end, crate::proofs::Cut::whole_len_boundary))]
fn whole_len(text: &str, most: usize) -> usize
    ensures bound { result ≤ most }
    ensures whole { result ≡ whole_len text.now most }
    ensures boundary { most ≤ length text.now → IsCharBoundary text.now result }
{
    let mut len = most;
    while is_inside(text.as_bytes(), len) {
        len -= 1;
    }
    len
}

/// Words in which no byte is a control character.
#[derive(Drop)]
pub(crate) struct ShownText {
    text: String,
    ghost shown: { IsShown (string_bytes text) },
}

impl ShownText {
    pub(crate) fn new(alloc: Global) -> ShownText
        ensures { string_bytes result.text ≡ [] }
    {
        ShownText {
            text: String::new(alloc),
        }
    }

    /// No words yet, and room for a sentence.
    pub(crate) fn roomy(alloc: Global) -> Result<ShownText, AllocError>
        ensures { IfOk result (λ words. string_bytes words.text ≡ []) }
    {
        ShownText::with_capacity(alloc, MOST_WORDS + FRAME_LEN)
    }

    /// No words yet, and room for so many bytes.
    pub(crate) fn with_capacity(alloc: Global, bytes: usize) -> Result<ShownText, AllocError>
        ensures { IfOk result (λ words. string_bytes words.text ≡ []) }
    {
        Ok(ShownText {
            text: String::with_capacity(alloc, bytes)?,
        })
    }

    /// Words that were put together of shown ones.
    pub(crate) fn of(text: Result<String, AllocError>) -> Result<ShownText, AllocError>
        requires { IfOk text (λ made. IsShown (string_bytes made)) }
        ensures { IfOk result (λ words. IfOk text (λ made. string_bytes words.text ≡ string_bytes made)) }
    {
        Ok(ShownText { text: text? })
    }

    /// Words that are written in the program.
    pub(crate) fn fixed(alloc: Global, words: &str) -> Result<ShownText, AllocError>
        requires { IsShown words.now }
        ensures { IfOk result (λ made. string_bytes made.text ≡ words.now) }
    {
        Ok(ShownText {
            text: String::from_str(alloc, words)?,
        })
    }

    /// Puts a character behind them that is no control character.
    #[tactic(auto, using(crate::proofs::Pieces::shown_both, crate::proofs::Pieces::shown_char))]
    pub(crate) fn push(&mut self, c: char) -> Result<(), AllocError>
        requires printed { 32 ≤ c }
        requires no_delete { c ≢ 127 }
        ensures put { OnOk result (string_bytes self.new.text ≡ string_bytes self.old.text ++ encode_utf8 c) }
        ensures ascii { c < 128 → encode_utf8 c ≡ c ∷ [] }
    {
        self.text.push(c)
    }

    pub(crate) fn push_str(&mut self, words: &str) -> Result<(), AllocError>
        requires { IsShown words.now }
        ensures { OnOk result (string_bytes self.new.text ≡ string_bytes self.old.text ++ words.now) }
    {
        self.text.push_str(words)
    }

    pub(crate) fn is_empty(&self) -> bool
        ensures { result ≡ (length (string_bytes self.now.text) == 0) }
    {
        self.text.is_empty()
    }

    pub(crate) fn as_str(&self) -> &str
        ensures value { result.now ≡ string_bytes self.now.text }
        ensures shown { IsShown result.now }
    {
        self.text.as_str()
    }

    /// The words themselves where a sentence has room for them; else the first of them, and two dots.
    #[tactic(auto, using(crate::proofs::Pieces::shown_both, crate::proofs::Pieces::shown_front), unfolding(crate::specs::Cuts::cut_words))]
    fn fitted(self) -> Result<ShownText, AllocError>
        ensures short { IfOk result (λ words. length (string_bytes words.text) ≤ 397) }
        ensures cut { IfOk result (λ words. string_bytes words.text ≡ cut_words (string_bytes self.text)) }
    {
        if self.text.len() <= MOST_WORDS {
            return Ok(self);
        }
        let ShownText { mut text } = self;
        let len = whole_len(text.as_str(), MOST_WORDS - REST.len());
        text.truncate(len);
        text.push_str(REST)?;
        Ok(ShownText { text })
    }
}

impl fmt::Display for ShownText {
    ghost output = { λ words. Some (string_bytes words.text) };

    fn fmt<W: fmt::Write>(&self, f: &mut fmt::Formatter<W>) -> fmt::Result {
        f.write_str(self.text.as_str())
    }
}

/// One line of shown words, with its line feed.
#[derive(Drop)]
pub struct Line {
    text: String,
    ghost line: { IsLine (string_bytes text) },
}

/// A line that tells why something is refused or fails: two spaces, words and a line feed, at most 400 bytes.
#[derive(Drop)]
pub(crate) struct Sentence {
    text: String,
    ghost sentence: { IsSentence (string_bytes text) },
}

impl Line {
    #[tactic(auto, using(crate::proofs::Pieces::line_is))]
    pub(crate) fn of(alloc: Global, words: &ShownText) -> Result<Line, AllocError> {
        let text = format!(in alloc; "{words}\n")?;
        Ok(Line { text })
    }

    /// Its bytes, the line feed among them.
    pub fn as_bytes(&self) -> &[u8]
        ensures { IsLine result.now }
    {
        self.text.as_bytes()
    }
}

impl Sentence {
    /// The sentence of these words, which are cut where they are too long for one.
    #[tactic(auto, using(crate::proofs::Pieces::sentence_is), unfolding(crate::specs::Cuts::sentence_of))]
    pub(crate) fn of(words: ShownText) -> Result<Sentence, AllocError>
        ensures { IfOk result (λ made. string_bytes made.text ≡ sentence_of (string_bytes words.text)) }
    {
        let ShownText { mut text } = words.fitted()?;
        text.insert_str(0, "  ")?;
        text.push('\n')?;
        Ok(Sentence { text })
    }

    /// A sentence of words that are written in the program.
    pub(crate) fn fixed(alloc: Global, words: &str) -> Result<Sentence, AllocError>
        requires { IsShown words.now }
        ensures { IfOk result (λ made. string_bytes made.text ≡ sentence_of words.now) }
    {
        let words = ShownText::fixed(alloc, words)?;
        Sentence::of(words)
    }

    pub(crate) fn as_bytes(&self) -> &[u8]
        ensures value { result.now ≡ string_bytes self.now.text }
        ensures sentence { IsSentence result.now }
    {
        self.text.as_bytes()
    }
}
