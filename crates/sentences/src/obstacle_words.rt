//! What keeps the change of an entry from being carried out, in one line.

ghost use Rattle.sentences.specs.Sentence.{IsShown};

use crate::lines::{Line, ShownText};
use crate::names::push_type;
use crate::shown::push_name;
use differences::{HinderedEntry, Obstacle};
use schema::{Conf, TypeId};
use std::alloc::{AllocError, Global};

/// Puts what an entry's classes have against a type: `its classes ask for modifiersName that users can't add`.
fn push_type_words(
    out: &mut ShownText,
    conf: &Conf,
    front: &'static str,
    t: TypeId,
    end: &'static str,
) -> Result<(), AllocError>
    requires front { IsShown front.now }
    requires end { IsShown end.now }
{
    out.push_str(front)?;
    push_type(out, conf, t)?;
    out.push_str(end)
}

fn push_words(out: &mut ShownText, conf: &Conf, obstacle: Obstacle) -> Result<(), AllocError> {
    match obstacle {
        Obstacle::EntriesBelow => out.push_str("entries below it stay"),
        Obstacle::NoParent => out.push_str("no entry above it"),
        Obstacle::Asked(t) => push_type_words(
            out,
            conf,
            "its classes ask for ",
            t,
            " that users can't add",
        ),
        Obstacle::Barred(t) => push_type_words(
            out,
            conf,
            "its classes don't allow ",
            t,
            " that users can't delete",
        ),
    }
}

/// The line that tells why the change of an entry can't be carried out: its name, a colon, and the reason. The name is cut where it is long.
pub fn obstacle_line(
    alloc: Global,
    conf: &Conf,
    entry: &HinderedEntry,
) -> Result<Line, AllocError> {
    let mut out = ShownText::roomy(alloc)?;
    push_name(&mut out, entry.name.as_slice())?;
    out.push_str(": ")?;
    push_words(&mut out, conf, entry.obstacle)?;
    Line::of(alloc, &out)
}
