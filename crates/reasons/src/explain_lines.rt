//! Explains the lines of an add (RFC 4511, 4.7).

ghost use Rattle.std.specs.Prelude.{◌≡◌, ◌+◌, ◌<◌, [], IfOk, IfNone, length, take};
ghost use Rattle.entries.specs.Entries.{is_barred};
ghost use Rattle.reasons.specs.Asked.{lines_of_record};
ghost use Rattle.reasons.specs.Flaws.{line_checks};
ghost use Rattle.reasons.specs.inner.Found.{Finds};
ghost use Rattle.reasons.specs.inner.Lines.{AreSeen, checks_of_line};

use crate::explainer::Explainer;
use crate::reason::{LineReason, Reason};
use crate::seen_lines::SeenLines;
use ldif::{Attr, Mode};
use schema::{TypeId, ValueFault};
use std::alloc::AllocError;

fn of_line(line: usize, why: LineReason) -> Option<Reason>
    ensures { result ≡ Some (Reason.Line line why) }
{
    Some(Reason::Line { line, why })
}

impl Explainer<'_> {
    // whether a change can't set values of a type
    fn is_barred(&self, t: TypeId) -> bool
        requires { t < length self.now.conf.now.types }
        ensures { result ≡ is_barred self.now.mode self.now.conf.now.types t }
    {
        match self.mode {
            Mode::Content => false,
            Mode::Changes { .. } => self.conf.fixed(t),
        }
    }

    // The first flaw of a line. Where it has none, it is seen with the lines before it.
    fn line_reason(
        &self,
        lines: &[Attr<'_>],
        index: usize,
        seen: &mut SeenLines,
    ) -> Result<Option<Reason>, AllocError>
        requires lines { lines.now ≡ lines_of_record self.now.asked.now }
        requires within { index < length lines.now }
        requires seen { AreSeen self.now.conf.now.types (take index lines.now) seen.old }
        ensures found { IfOk result (Finds self.now.conf.now self.now.mode self.now.tree.now.entries self.now.asked.now (checks_of_line index)) }
        ensures seen { IfOk result (λ found. IfNone found (AreSeen self.now.conf.now.types (take (index + 1) lines.now) seen.new)) }
    {
        let line = &lines[index];
        let Some(t) = self.conf.type_of(line.name()) else {
            return Ok(of_line(index, LineReason::UnknownType));
        };
        if self.is_barred(t) {
            return Ok(of_line(index, LineReason::UsersCantChange));
        }
        let value = match self.conf.make_value(self.alloc, t, line.value()) {
            Ok(value) => value,
            Err(ValueFault::Invalid) => return Ok(of_line(index, LineReason::BadSyntax)),
            Err(ValueFault::OutOfMemory) => return Err(AllocError),
        };
        if let Some(earlier) = seen.place_of(self.alloc, t, value.norm())? {
            return Ok(of_line(index, LineReason::EqualTo { earlier }));
        }
        seen.push(self.alloc, t, value)?;
        Ok(None)
    }

    /// The first flaw of lines that are added. Where they have none, all are seen.
    pub(crate) fn lines_reason(
        &self,
        lines: &[Attr<'_>],
        seen: &mut SeenLines,
    ) -> Result<Option<Reason>, AllocError>
        requires lines { lines.now ≡ lines_of_record self.now.asked.now }
        requires none { AreSeen self.now.conf.now.types [] seen.old }
        ensures found { IfOk result (Finds self.now.conf.now self.now.mode self.now.tree.now.entries self.now.asked.now (line_checks 0 lines.now)) }
        ensures seen { IfOk result (λ found. IfNone found (AreSeen self.now.conf.now.types lines.now seen.new)) }
    {
        for index in 0..lines.len() {
            let found = self.line_reason(lines, index, seen)?;
            if found.is_some() {
                return Ok(found);
            }
        }
        Ok(None)
    }
}
