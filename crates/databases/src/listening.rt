//! Who hears a text that is written in pieces.

ghost use Rattle.std.specs.Prelude.{◌++◌, ℕ, List, ⊤};
ghost use Rattle.sha2.specs.Hashers.{Holds256};

use sha2::{Digest, Sha256};

/// Hears each piece of a text that is handed on.
///
/// Contracts see of it whether a text is all that it heard.
pub(crate) trait Listener {
    ghost heard: { Self → List ℕ → Type 0 };

    /// Hears a piece more.
    fn hear(&mut self, piece: &[u8])
        ensures { (text : List ℕ) → heard self.old text → heard self.new (text ++ piece.now) };
}

/// A hasher has the text as its message.
impl Listener for Sha256 {
    ghost heard = { Holds256 };

    fn hear(&mut self, piece: &[u8]) {
        self.update(piece);
    }
}

/// Takes no heed of what it hears.
#[derive(Drop)]
pub(crate) struct Nobody;

impl Listener for Nobody {
    ghost heard = { λ _ _. ⊤ };

    fn hear(&mut self, _piece: &[u8]) {}
}
