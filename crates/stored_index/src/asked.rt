//! Which keys are kept.

ghost use Rattle.std.specs.Prelude.{◌≡◌, ◌||◌, ℕ, List, IfOk, OnOk};
ghost use Rattle.std.specs.Str.{bytes_eq};
ghost use Rattle.index_text.specs.IndexTexts.{key_text};
ghost use Rattle.stored_index.specs.inner.Asked.{are_written, has_text, HasExactly};

use index_text::SlotKey;
use std::alloc::{AllocError, Global};
use std::collections::BTreeSet;

/// The keys that are kept, as an index text writes them. The slots that they are asked for under don't matter.
#[derive(Drop)]
pub(crate) enum AskedTexts {
    /// Every key.
    Every,
    /// The keys with these texts.
    These(BTreeSet<Vec<u8>>),
}

// the text of a key
fn text_of(alloc: Global, key: &[u8]) -> Result<Vec<u8>, AllocError>
    ensures { IfOk result (λ text. text.items ≡ key_text key.now) }
{
    if key.is_empty() {
        return Vec::from_slice(alloc, b"-");
    }
    Ok(hex::encode(alloc, key)?.into_bytes())
}

// puts the text of a key to the others
fn add(alloc: Global, texts: &mut BTreeSet<Vec<u8>>, key: &[u8]) -> Result<(), AllocError>
    ensures { OnOk result ((word : List ℕ) → are_written texts.new word ≡ (bytes_eq word (key_text key.now) || are_written texts.old word)) }
{
    texts.insert(text_of(alloc, key)?)?;
    Ok(())
}

impl AskedTexts {
    /// The texts of these keys, and no other.
    pub(crate) fn of(alloc: Global, keys: &[SlotKey]) -> Result<AskedTexts, AllocError>
        ensures { IfOk result (λ asked. HasExactly asked keys.now) }
    {
        let mut texts = BTreeSet::new(alloc);
        for key in keys {
            add(alloc, &mut texts, key.key.as_slice())?;
        }
        Ok(AskedTexts::These(texts))
    }

    /// Whether a word is the text of a key that is kept.
    pub(crate) fn has(&self, word: &[u8]) -> bool
        ensures { result ≡ has_text self.now word.now }
    {
        match self {
            AskedTexts::Every => true,
            AskedTexts::These(texts) => texts.contains(word),
        }
    }
}
