//! How long a written line may be.

ghost use Rattle.std.specs.Prelude.{ℕ, List, [], ◌∷◌, ◌++◌, ◌≡◌, ◌<◌, ◌^◌, length, Some, None};
ghost use Rattle.base.specs.Ascii.{line_feed};
ghost use Rattle.ldif_lines.specs.Folding.{IsWidth, folded_line};

use std::marker::Model;

/// How many bytes a written line may have: two at least, without its end. A longer one is folded (RFC 2849, note 2). A contract sees it as
/// that number.
#[derive(Clone, Copy, Debug, PartialEq, Eq)]
pub struct LineWidth {
    bytes: usize,
}

impl Model for LineWidth {
    ghost use Rattle.std.specs.Prelude.{ℕ, ◌<◌, ◌^◌};
    ghost use Rattle.ldif_lines.specs.Folding.{IsWidth};

    ghost Value = { ℕ };

    ghost view = { λ w. w.bytes };

    ghost invariant = { λ w. IsWidth w.bytes × (w.bytes < 2 ^ 63) };

    ghost inverse = { λ n. record { bytes = n } };
}

impl LineWidth {
    /// The width that is taken where none is asked for.
    pub const STANDARD: LineWidth = LineWidth { bytes: 76 };

    /// The width of so many bytes; `None` where a space and a byte don't fit into it.
    pub fn of(bytes: u32) -> Option<LineWidth>
        ensures wide { IsWidth bytes → result ≡ Some bytes }
        ensures narrow { bytes < 2 → result ≡ None }
    {
        if bytes < 2 {
            return None;
        }
        Some(LineWidth {
            bytes: bytes as usize,
        })
    }

    /// A width to which no line is folded: each that fits into memory is one piece.
    pub fn unfolded() -> LineWidth
        ensures { (line : List ℕ) → length line < 2 ^ 63 → folded_line result line ≡ line ++ line_feed ∷ [] }
    {
        ldif_lines::folded_lines_fit();
        LineWidth {
            bytes: isize::MAX as usize,
        }
    }

    /// Each further piece of a line has a byte behind its space.
    pub fn holds_a_byte(self)
        ensures { IsWidth self }
    {
        let _ = &self.bytes;
    }

    /// How many bytes these are.
    pub fn bytes(self) -> usize
        ensures same { result ≡ self }
        ensures wide { IsWidth self }
        ensures room { result < 2 ^ 63 }
    {
        self.bytes
    }
}
