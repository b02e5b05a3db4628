//! What follows the attribute of an extensible match.
ghost use Rattle.std.specs.Prelude.{◌≡◌, ℕ, ◌≤◌, List, IfOk, IfErr, MatchResult};
ghost use Rattle.filter_text.specs.inner.Begins.{IsMemory, Faulty};
ghost use Rattle.filter_text.specs.inner.Shapes.{IsAmount, SomeWords};
ghost use Rattle.filter_text.specs.Items.{IsWords};

use crate::cursor::{after, name_at};
use crate::fault::Fault;
use crate::values::value_of;
use base::{Bytes, Sequence};
use std::alloc::Global;

/// As many words may stand behind an attribute.
const MOST: usize = 2;

/// The words and the value that the whole text spells, at least that many words and at most two.
pub fn words_of(alloc: Global, text: &[u8], least: usize) -> Result<(Sequence<Bytes>, Bytes), Fault>
    requires { least ≤ 1 }
    ensures found { IfOk result (λ x. IsWords x.0 x.1 text.now × IsAmount least x.0) }
    ensures only { (ws : List (List ℕ)) (v : List ℕ) → IsWords ws v text.now → IsAmount least ws
        → MatchResult result (λ x. (x.0 ≡ ws) × (x.1 ≡ v)) IsMemory }
    ensures front { IfErr result (Faulty (SomeWords least) text.now) }
{
    let mut words = Sequence::new(alloc);
    let mut rest = text;
    'words: loop {
        let Some(more) = after(rest, b':') else {
            return Err(Fault::Syntax(rest.len()));
        };
        if let Some(right) = after(more, b'=') {
            if words.len() < least {
                return Err(Fault::Syntax(more.len()));
            }
            let value = value_of(alloc, right)?;
            return Ok((words, value));
        }
        if words.len() == MOST {
            return Err(Fault::Syntax(more.len()));
        }
        let (run, end) = name_at(more);
        if run.is_empty() {
            return Err(Fault::Syntax(more.len()));
        }
        let word = Bytes::from_slice(alloc, run)?;
        words.push(word)?;
        rest = end;
    }
}
