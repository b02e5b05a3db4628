//! Windows: three bytes of a text that follow each other.

ghost use Rattle.std.specs.Prelude.{◌≡◌, ◌<◌, ◌∷◌, [], IfSome, MatchOption, length};
ghost use Rattle.index_keys.specs.EntryKeys.{windows};

/// How many bytes a window has.
const WINDOW: usize = 3;

/// The first window of a text, and what has the others. None where the text has no window.
pub fn first_window(text: &[u8]) -> Option<(&[u8; WINDOW], &[u8])>
    ensures windows { MatchOption result (windows text.now ≡ []) (λ r. windows text.now ≡ r.0.now ∷ windows r.1.now) }
    ensures shorter { IfSome result (λ r. length r.1.now < length text.now) }
{
    match text.first_chunk() {
        Some(window) => Some((window, &text[1..])),
        None => None,
    }
}
