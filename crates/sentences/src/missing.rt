//! Entries that aren't there, and the records that were to make them.

ghost use Rattle.std.specs.Prelude.{◌≡◌, ℕ, false, Some, None, IfOk, OnOk};
ghost use Rattle.std.specs.Option.{IfNone, IfSome};
ghost use Rattle.std.specs.FinMap as finite;
ghost use Rattle.paths.specs.Paths as paths;
ghost use Rattle.sentences.specs.Missing.{IsNearestAbove, NoneAbove, IsNearestWords, IsNoEntryWords, IsLookedUp, above_words, refused_at, no_entry};
ghost use Rattle.sentences.specs.Putting.{IsPut, Puts};
ghost use Rattle.sentences.specs.RefusedAdds.{refused_lines, with_line};

use crate::lines::ShownText;
use crate::names::is_there;
use crate::shown::{push_name, push_number};
use base::Bytes;
use indexmap::IndexMap;
use schema::Path;
use std::alloc::{AllocError, Global};
use tree::{LentTree, Tree};

/// The entries that were to be added by records that are refused.
#[derive(Drop)]
pub(crate) struct RefusedAdds {
    /// By the bytes of its path, on which line the first record begins that was to add an entry.
    lines: IndexMap<Bytes, u64>,
}

/// Puts where the record stands that was to make an entry behind words, if one was.
fn push_refused(words: &mut ShownText, line: Option<u64>) -> Result<(), AllocError>
    ensures { OnOk result (IsPut words.old words.new (refused_at line)) }
{
    match line {
        Some(line) => {
            words.push_str(" (refused at line ")?;
            push_number(words, line)?;
            words.push_str(")")
        }
        None => Ok(()),
    }
}

impl RefusedAdds {
    pub(crate) fn new(alloc: Global) -> RefusedAdds
        ensures { (path : paths.Path) → refused_lines result path ≡ None }
    {
        RefusedAdds {
            lines: IndexMap::new(alloc),
        }
    }

    /// Keeps that a record, which begins on this line, was to add an entry with this path.
    pub(crate) fn keep(&mut self, alloc: Global, path: &Path, line: u64) -> Result<(), AllocError>
        ensures { OnOk result ((other : paths.Path) → refused_lines self.new other ≡ with_line (refused_lines self.old) path.now line other) }
    {
        let bytes = Bytes::from_slice(alloc, path.bytes())?;
        if self.lines.contains_key(&bytes) {
            return Ok(());
        }
        self.lines.insert(bytes, line)?;
        Ok(())
    }

    /// On which line a record begins that was to add an entry with this path.
    fn line_of(&self, alloc: Global, path: &Path) -> Result<Option<u64>, AllocError>
        ensures { IfOk result (λ line. line ≡ refused_lines self.now path.now) }
    {
        let bytes = Bytes::from_slice(alloc, path.bytes())?;
        Ok(self.lines.get(&bytes).copied())
    }

    /// Puts what there is to say of a name that leads to this path behind words: that no entry has it, or that one has it.
    pub(crate) fn push_looked_up(
        &self,
        alloc: Global,
        words: &mut ShownText,
        lent: LentTree<'_>,
        name: &[u8],
        path: &Path,
    ) -> Result<(), AllocError>
        ensures { OnOk result (Puts words.old words.new
            (IsLookedUp lent.entry.conf.now lent.entry.tree.now.entries (refused_lines self.now) name.now path.now)) }
    {
        if is_there(lent.tree, path) {
            push_name(words, name)?;
            return words.push_str(" is there");
        }
        self.push_no_entry(alloc, words, lent, name, path)
    }

    /// Puts behind words that there is no entry with this name, which leads to this path: whether a record that was to make it is refused, and
    /// which entry above it is there.
    fn push_no_entry(
        &self,
        alloc: Global,
        words: &mut ShownText,
        lent: LentTree<'_>,
        name: &[u8],
        path: &Path,
    ) -> Result<(), AllocError>
        requires { finite.contains_key lent.tree.now.entries path.now ≡ false }
        ensures { OnOk result (Puts words.old words.new
            (IsNoEntryWords lent.entry.conf.now lent.entry.tree.now.entries (refused_lines self.now) name.now path.now)) }
    {
        self.push_refused_name(alloc, words, name, path)?;
        push_nearest(alloc, words, lent, path)
    }

    /// Puts behind words that there is no entry with this name, and where a record is refused that was to make it.
    fn push_refused_name(
        &self,
        alloc: Global,
        words: &mut ShownText,
        name: &[u8],
        path: &Path,
    ) -> Result<(), AllocError>
        ensures { OnOk result (IsPut words.old words.new (no_entry name.now (refused_lines self.now path.now))) }
    {
        let line = self.line_of(alloc, path)?;
        words.push_str("no entry ")?;
        push_name(words, name)?;
        push_refused(words, line)
    }
}

/// The path of the nearest entry above a path; none where no entry is above it.
fn nearest_above(alloc: Global, tree: &Tree, path: &Path) -> Result<Option<Path>, AllocError>
    ensures nearest { IfOk result (λ found. IfSome found (λ above. IsNearestAbove tree.now.entries path.now above)) }
    ensures none { IfOk result (λ found. IfNone found (NoneAbove tree.now.entries path.now)) }
{
    let mut above = path.parent(alloc)?;
    'up: for _step in 0..path.len() {
        if is_there(tree, &above) {
            return Ok(Some(above));
        }
        above = above.parent(alloc)?;
    }
    Ok(None)
}

/// Puts the nearest entry above a path behind words, where it isn't the one right above.
#[tactic(auto, unfolding(crate::specs::Missing::above_words))]
fn push_above(
    alloc: Global,
    words: &mut ShownText,
    lent: LentTree<'_>,
    path: &Path,
    above: &Path,
) -> Result<(), AllocError>
    requires { IsNearestAbove lent.tree.now.entries path.now above.now }
    ensures { OnOk result (IsPut words.old words.new (above_words lent.entry.conf.now lent.entry.tree.now.entries path.now above.now)) }
{
    if path.len() == above.len() + 1 {
        return Ok(());
    }
    let name = lent.tree.name_of(alloc, lent.conf, above)?;
    words.push_str("; the nearest above it is ")?;
    push_name(words, name.as_slice())
}

/// Puts the nearest entry above a path that is there behind words; nothing where that is the one right above, or none is
/// there.
fn push_nearest(
    alloc: Global,
    words: &mut ShownText,
    lent: LentTree<'_>,
    path: &Path,
) -> Result<(), AllocError>
    ensures { OnOk result (Puts words.old words.new (IsNearestWords lent.entry.conf.now lent.entry.tree.now.entries path.now)) }
{
    match nearest_above(alloc, lent.tree, path)? {
        Some(above) => push_above(alloc, words, lent, path, &above),
        None => Ok(()),
    }
}
