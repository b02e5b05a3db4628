//! What is reported: a line for each thing that is wrong, in a form that scripts read.

ghost use Rattle.std.specs.Prelude.{◌≡◌, ◌<◌, ◌++◌, ◌∷◌, [], true, length, All, OnOk, codes};
ghost use Rattle.std.specs.List.{flat_map, AllByRecursion};
ghost use Rattle.std.specs.FinMap as finite;
ghost use Rattle.base.specs.Ascii.{tab, line_feed};
ghost use Rattle.ldif.specs.Writing.{line_text};
ghost use Rattle.checks.specs.Reports.{report, value_report, lines_behind, refused_reports, dangling_report, dangling_reports, shared_report, type_reports, shared_reports};
ghost use Rattle.checks.specs.TypeNames.{each_once};
ghost use Rattle.checks.specs.inner.Reports.{IsReportable, AreReportable, AreThere, EachIsThere};

use crate::entry_value::EntryValue;
use crate::file_names::shown_name;
use crate::references::find_dangling;
use crate::shared_value::SharedValue;
use crate::sharing::find_shared;
use crate::type_names::each_once;
use ldif::{LineWidth, put_line_to};
use schema::{Conf, Path, TypeId};
use std::alloc::{AllocError, Global};
use tree::{LentTree, Tree};

/// Puts a word for what is wrong and where it is at the end of a text, each with a tab behind it.
fn put_place(out: &mut Vec<u8>, kind: &str, place: &[u8]) -> Result<(), AllocError>
    ensures { OnOk result (out.new.items ≡ out.old.items ++ (kind.now ++ tab ∷ (place.now ++ tab ∷ []))) }
{
    out.extend_from_slice(kind.as_bytes())?;
    out.push(b'\t')?;
    out.extend_from_slice(place)?;
    out.push(b'\t')?;
    Ok(())
}

/// Puts a report at the end of a text: a word for what is wrong, where it is, and what it is.
pub fn put_report(
    out: &mut Vec<u8>,
    kind: &str,
    place: &[u8],
    what: &[u8],
) -> Result<(), AllocError>
    ensures { OnOk result (out.new.items ≡ out.old.items ++ report kind.now place.now what.now) }
{
    put_place(out, kind, place)?;
    out.extend_from_slice(what)?;
    out.push(b'\n')?;
    Ok(())
}

/// Puts a text at the end of another one, with this in front of each of its lines.
#[tactic(auto, unfolding(crate::specs::Reports::lines_behind))]
fn put_lines(out: &mut Vec<u8>, front: &[u8], text: &[u8]) -> Result<(), AllocError>
    ensures { OnOk result (out.new.items ≡ out.old.items ++ lines_behind front.now true text.now) }
{
    let mut begins = true;
    for byte in text {
        if begins {
            out.extend_from_slice(front)?;
        }
        out.push(*byte)?;
        begins = *byte == b'\n';
    }
    Ok(())
}

/// Puts a report of each record of a file that is refused at the end of a text: the word `refused`, the name of the file, and a line of `text`, as a
/// run that adds the records reports them. A control character of the name is a backslash and two hexadecimal digits.
pub fn report_refused(
    alloc: Global,
    name: &str,
    text: &[u8],
    out: &mut Vec<u8>,
) -> Result<(), AllocError>
    ensures { OnOk result (out.new.items ≡ out.old.items ++ refused_reports name.now text.now) }
{
    let shown = shown_name(alloc, name.as_bytes())?;
    let mut front = Vec::new(alloc);
    put_place(&mut front, "refused", shown.as_slice())?;
    put_lines(out, front.as_slice(), text)
}

/// Puts the line of a name and a value at the end of a text (RFC 2849), without folding it.
fn put_whole_line(
    alloc: Global,
    out: &mut Vec<u8>,
    name: &[u8],
    value: &[u8],
) -> Result<(), AllocError>
    ensures { OnOk result (out.new.items ≡ out.old.items ++ (line_text name.now value.now ++ line_feed ∷ [])) }
{
    put_line_to(alloc, out, LineWidth::unfolded(), name, value)?;
    Ok(())
}

/// Reports what is wrong with values of a directory.
#[derive(Drop)]
struct Reporter<'a> {
    alloc: Global,
    conf: &'a Conf,
    tree: &'a Tree,
    ghost same_conf: { tree.now.conf ≡ conf.now },
}

impl Reporter<'_> {
    /// Puts the report of a value of the entry at a path.
    fn put_value(
        &self,
        out: &mut Vec<u8>,
        kind: &str,
        path: &Path,
        t: TypeId,
        value: &[u8],
    ) -> Result<(), AllocError>
        requires there { finite.contains_key self.now.tree.now.entries path.now ≡ true }
        requires known { t < length self.now.conf.now.types }
        ensures { OnOk result (out.new.items ≡ out.old.items
            ++ value_report kind.now self.now.conf.now self.now.tree.now.entries path.now t value.now) }
    {
        let name = self.tree.name_of(self.alloc, self.conf, path)?;
        put_place(out, kind, name.as_slice())?;
        put_whole_line(self.alloc, out, self.conf.name(t), value)
    }

    /// Puts the reports of references that dangle.
    fn put_dangling(&self, out: &mut Vec<u8>, found: &[EntryValue]) -> Result<(), AllocError>
        requires { AreReportable self.now.conf.now self.now.tree.now.entries found.now }
        ensures { OnOk result (out.new.items ≡ out.old.items
            ++ flat_map (dangling_report self.now.conf.now self.now.tree.now.entries) found.now) }
    {
        for value in found {
            self.put_value(
                out,
                "dangling",
                &value.path,
                value.type_id,
                value.value.as_slice(),
            )?;
        }
        Ok(())
    }

    /// Puts the reports of a value that several entries have.
    fn put_shared_value(
        &self,
        out: &mut Vec<u8>,
        t: TypeId,
        value: &[u8],
        paths: &[Path],
    ) -> Result<(), AllocError>
        requires there { AreThere self.now.tree.now.entries paths.now }
        requires known { t < length self.now.conf.now.types }
        ensures { OnOk result (out.new.items ≡ out.old.items
            ++ flat_map (λ p. value_report (codes "shared") self.now.conf.now self.now.tree.now.entries p t value.now) paths.now) }
    {
        for path in paths {
            self.put_value(out, "shared", path, t, value)?;
        }
        Ok(())
    }

    /// Puts the reports of a value with all entries that have it.
    fn put_shared_by(
        &self,
        out: &mut Vec<u8>,
        t: TypeId,
        shared: &SharedValue,
    ) -> Result<(), AllocError>
        requires there { AreThere self.now.tree.now.entries shared.now.paths }
        requires known { t < length self.now.conf.now.types }
        ensures { OnOk result (out.new.items ≡ out.old.items
            ++ shared_report self.now.conf.now self.now.tree.now.entries t shared.now) }
    {
        self.put_shared_value(out, t, shared.value.as_slice(), shared.paths.as_slice())
    }

    /// Puts the reports of values that several entries have.
    fn put_shared(
        &self,
        out: &mut Vec<u8>,
        t: TypeId,
        found: &[SharedValue],
    ) -> Result<(), AllocError>
        requires there { EachIsThere self.now.tree.now.entries found.now }
        requires known { t < length self.now.conf.now.types }
        ensures { OnOk result (out.new.items ≡ out.old.items
            ++ flat_map (shared_report self.now.conf.now self.now.tree.now.entries t) found.now) }
    {
        for shared in found {
            self.put_shared_by(out, t, shared)?;
        }
        Ok(())
    }

    /// Puts the reports of those values of a type that several entries have.
    fn put_type(&self, out: &mut Vec<u8>, t: TypeId) -> Result<(), AllocError>
        requires known { t < length self.now.conf.now.types }
        ensures { OnOk result (out.new.items ≡ out.old.items
            ++ type_reports self.now.conf.now self.now.tree.now.entries t) }
    {
        let found = find_shared(self.alloc, self.tree, t)?;
        self.put_shared(out, t, found.as_slice())
    }

    /// Puts the reports of those values of types that several entries have.
    fn put_types(&self, out: &mut Vec<u8>, types: &[TypeId]) -> Result<(), AllocError>
        requires known { All (λ t. t < length self.now.conf.now.types) types.now }
        ensures { OnOk result (out.new.items ≡ out.old.items
            ++ flat_map (type_reports self.now.conf.now self.now.tree.now.entries) types.now) }
    {
        for t in types {
            self.put_type(out, *t)?;
        }
        Ok(())
    }
}

/// Puts a report of each reference that dangles at the end of a text, as `find_dangling` finds them: the word `dangling`, the name of the entry, and
/// the value as a line of LDIF. The fault is want of memory.
pub fn report_dangling(
    alloc: Global,
    lent: LentTree<'_>,
    named: &[TypeId],
    out: &mut Vec<u8>,
) -> Result<(), AllocError>
    ensures { OnOk result (out.new.items ≡ out.old.items
        ++ dangling_reports lent.entry.conf.now lent.entry.tree.now.entries named.now) }
{
    let LentTree { tree, conf } = lent;
    let found = find_dangling(alloc, lent, named)?;
    let reporter = Reporter { alloc, conf, tree };
    reporter.put_dangling(out, found.as_slice())
}

/// Puts a report of each entry that shares a value of these types with others at the end of a text, each type once, and value by value as
/// `find_shared` finds them: the word `shared`, the name of the entry, and the value as the first of the entries spells it, as a line of LDIF. The
/// fault is want of memory.
pub fn report_shared(
    alloc: Global,
    lent: LentTree<'_>,
    types: &[TypeId],
    out: &mut Vec<u8>,
) -> Result<(), AllocError>
    requires { AllByRecursion (λ t. t < length lent.conf.now.types) types.now }
    ensures { OnOk result (out.new.items ≡ out.old.items
        ++ shared_reports lent.entry.conf.now lent.entry.tree.now.entries types.now) }
{
    let LentTree { tree, conf } = lent;
    let types = each_once(alloc, types)?;
    let reporter = Reporter { alloc, conf, tree };
    reporter.put_types(out, types.as_slice())
}
