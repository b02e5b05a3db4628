//! How many parentheses are open at once.
ghost use Rattle.std.specs.Prelude.{◌≡◌, ◌≤◌, ◌^◌, length, MatchOption};
ghost use Rattle.filter_text.specs.Depth.{added, IsShallow, IsDeepAt};
ghost use Rattle.filter_text.specs.inner.Depth.{deep_from};

use base::without_front;

/// As many parentheses may be open.
const MOST: usize = 512;

/// The parentheses that are added: one where the first byte that is no space is none that opens.
fn added(text: &[u8]) -> usize
    ensures same { result ≡ added text.now }
    ensures small { result ≤ 1 }
{
    match without_front(text) {
        [] => 0,
        [first, ..] => { if *first == b'(' { 0 } else { 1 } }
    }
}

/// The place of the first parenthesis that leaves more of them open than may be, where some are open before the text.
fn deep_from(text: &[u8], before: usize) -> Option<usize>
    requires { before ≤ 1 }
    ensures { result ≡ deep_from 512 0 before 0 text.now }
{
    let mut opened: usize = before;
    let mut closed: usize = 0;
    for (place, byte) in text.iter().enumerate() {
        if *byte == b'(' {
            opened += 1;
            if opened > closed && opened - closed > MOST {
                return Some(place);
            }
        } else if *byte == b')' {
            closed += 1;
        }
    }
    None
}

/// The place of the first parenthesis that is too deep.
pub fn deep_at(text: &[u8]) -> Option<usize>
    ensures shallow { MatchOption result (IsShallow text.now) (λ at. IsDeepAt text.now at) }
    ensures same { result ≡ deep_from 512 0 (added text.now) 0 text.now }
{
    deep_from(text, added(text))
}
