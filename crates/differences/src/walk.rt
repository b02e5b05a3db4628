//! The walk over two directories that writes the changes between them.

ghost use Rattle.std.specs.Prelude.{◌≡◌, ◌<◌, ◌-◌, ◌^◌, ◌++◌, ◌&&◌, [], not, true, Some, None, IfOk, IfSome, OnOk};
ghost use Rattle.std.specs.List.{All};
ghost use Rattle.std.specs.Option.{option_map};
ghost use Rattle.std.specs.FinMap as finite;
ghost use Rattle.ldif.specs.Written.{Writes, WritesOn, end_of};
ghost use Rattle.entries.specs.StoredEntries.{attributes_of, content_of, IsMade};
ghost use Rattle.differences.specs.EntryChanges.{users, mods_between};
ghost use Rattle.differences.specs.Differences.{same_spelling, is_some_change, removing};
ghost use Rattle.differences.specs.Comparisons.{filter_in, passes};
ghost use Rattle.differences.specs.Comments.{change_text};
ghost use Rattle.differences.specs.Texts.{differs};
ghost use Rattle.differences.specs.inner.LentAttributes.{all_lent, AreLentKnown};
ghost use Rattle.differences.specs.inner.LentBlocks.{AreBlocksKnown, lent_mods};
ghost use Rattle.differences.specs.inner.Walks.{changes_text, respellings_at, modifies_at, removals, lent_paths};
ghost use Rattle.differences.specs.inner.Walks.{extent_in, changes_in, ahead_in, gone_in, settled_in, written_in};

use crate::alike::have_same_attributes;
use crate::as_sets::settled_users;
use crate::attributes::{UserAttribute, users_of};
use crate::blocks::{Block, blocks_between};
use crate::counts::{Counts, Difference};
use crate::differ::Differ;
use crate::rdns::is_spelled_alike;
use crate::records::{put_add, put_delete, put_modify, put_respelling};
use databases::{pass_on, pass_on_long};
use device::Sink;
use entries::Entry;
use filter::{Meter, Truth};
use ldif::WriteFault;
use schema::Path;
use std::alloc::AllocError;
use tree::{LentTree, Names};

impl Differ<'_> {
    /// Whether the filter is True of what stands at a path. Without a filter it is, be there an entry or not.
    fn passes(&self, entry: Option<&Entry>) -> bool
        requires { IfSome entry (λ e. IsMade self.now.conf.now.types e.now.attrs) }
        ensures { result ≡ passes self.now.conf.now.types (filter_in self.now.comparison.now.filter) (option_map (λ e. content_of e.now) entry.entry) }
    {
        match (self.comparison.filter, entry) {
            (None, _) => true,
            (Some(_), None) => false,
            (Some(filter), Some(entry)) => filter.truth(entry, &mut Meter::new()) == Truth::True,
        }
    }

    /// Whether what the two directories have at a path is compared.
    pub(crate) fn is_compared(
        &self,
        path: &Path,
        before: Option<&Entry>,
        after: Option<&Entry>,
    ) -> bool
        requires made_first { IfSome before (λ e. IsMade self.now.conf.now.types e.now.attrs) }
        requires made_second { IfSome after (λ e. IsMade self.now.conf.now.types e.now.attrs) }
        requires first { option_map (λ e. content_of e.now) before ≡ finite.get self.now.before.now.entries path.now }
        requires second { option_map (λ e. content_of e.now) after ≡ finite.get self.now.after.now.entries path.now }
        ensures { result ≡ (extent_in self.now).has path.now }
    {
        self.comparison.base.begins(path) && (self.passes(before) || self.passes(after))
    }

    /// The attributes that users can change of the entry that is to be there, where the second directory has another one.
    fn wanted_users<'e>(
        &self,
        before: &'e Entry,
        after: &'e Entry,
    ) -> Result<Vec<UserAttribute<'e>>, AllocError>
        requires first { IsMade self.now.conf.now.types before.now.attrs }
        requires second { IsMade self.now.conf.now.types after.now.attrs }
        ensures known { IfOk result (λ v. AreLentKnown self.now.conf.now.types v.items) }
        ensures users { IfOk result (λ v. all_lent v.items
            ≡ users self.now.conf.now.types (settled_in self.now before.now after.now).attrs) }
    {
        if self.comparison.unordered {
            settled_users(self.alloc, self.conf, before, after)
        } else {
            users_of(self.alloc, self.conf, after)
        }
    }

    /// The blocks that turn the attributes of one entry into those that are to be there, where the second directory has another entry.
    fn blocks<'e>(&self, before: &'e Entry, after: &'e Entry) -> Result<Vec<Block<'e>>, AllocError>
        requires first { IsMade self.now.conf.now.types before.now.attrs }
        requires second { IsMade self.now.conf.now.types after.now.attrs }
        ensures known { IfOk result (λ bs. AreBlocksKnown self.now.conf.now.types bs.items) }
        ensures mods { IfOk result (λ bs. lent_mods self.now.conf.now.types bs.items
            ≡ mods_between self.now.conf.now.types (attributes_of before.now.attrs) (settled_in self.now before.now after.now).attrs) }
    {
        let old = users_of(self.alloc, self.conf, before)?;
        let new = self.wanted_users(before, after)?;
        blocks_between(self.alloc, self.conf, old.as_slice(), new.as_slice())
    }

    /// Puts the record that gives the entry at a path the RDN of another, where its spelling counts and is another one. Gives whether it does.
    fn put_respelled(
        &self,
        path: &Path,
        before: &Entry,
        after: &Entry,
        counts: &mut Counts,
        out: &mut Vec<u8>,
    ) -> Result<bool, AllocError>
        requires first { finite.get self.now.before.now.entries path.now ≡ Some (content_of before.now) }
        requires second { finite.get self.now.after.now.entries path.now ≡ Some (content_of after.now) }
        ensures some { IfOk result (λ some. some ≡ not (same_spelling before.now.rdn (settled_in self.now before.now after.now).rdn)) }
        ensures text { OnOk result (out.new.items ≡ out.old.items
            ++ changes_text (respellings_at self.now.conf.now self.now.before.now.entries path.now before.now (settled_in self.now before.now after.now))) }
    {
        if self.comparison.unordered {
            return Ok(false);
        }
        if is_spelled_alike(before.rdn(), after.rdn()) {
            return Ok(false);
        }
        self.after.entries_are_a_directory();
        let name = self.before.name_of(self.alloc, self.conf, path)?;
        put_respelling(self.alloc, out, self.conf, name.as_slice(), after.rdn())?;
        counts.count_rename();
        Ok(true)
    }

    /// Puts the record that gives the entry at a path the attributes that are to be there, where they differ. Gives whether they do.
    fn put_modified(
        &self,
        names: &mut Names<'_>,
        path: &Path,
        before: &Entry,
        after: &Entry,
        counts: &mut Counts,
        out: &mut Vec<u8>,
    ) -> Result<bool, AllocError>
        requires names { names.old ≡ self.now.after.now }
        requires made_first { IsMade self.now.conf.now.types before.now.attrs }
        requires made_second { IsMade self.now.conf.now.types after.now.attrs }
        requires first { finite.get self.now.before.now.entries path.now ≡ Some (content_of before.now) }
        requires second { finite.get self.now.after.now.entries path.now ≡ Some (content_of after.now) }
        ensures names { names.new ≡ names.old }
        ensures some { IfOk result (λ some. some
            ≡ is_some_change (modifies_at self.now.conf.now self.now.after.now.entries path.now before.now (settled_in self.now before.now after.now))) }
        ensures text { OnOk result (out.new.items ≡ out.old.items
            ++ changes_text (modifies_at self.now.conf.now self.now.after.now.entries path.now before.now (settled_in self.now before.now after.now))) }
    {
        if have_same_attributes(before, after) {
            self.before.entries_are_a_directory();
            return Ok(false);
        }
        let blocks = self.blocks(before, after)?;
        if blocks.is_empty() {
            return Ok(false);
        }
        let name = names.name_of(self.alloc, path, after)?;
        put_modify(
            self.alloc,
            out,
            self.conf,
            name.as_slice(),
            blocks.as_slice(),
        )?;
        counts.count_modify(blocks.as_slice());
        Ok(true)
    }

    /// Puts the record that adds the entry at a path.
    fn put_added(
        &self,
        names: &mut Names<'_>,
        path: &Path,
        entry: &Entry,
        counts: &mut Counts,
        out: &mut Vec<u8>,
    ) -> Result<bool, AllocError>
        requires names { names.old ≡ self.now.after.now }
        requires compared { (extent_in self.now).has path.now ≡ true }
        requires none { finite.get self.now.before.now.entries path.now ≡ None }
        requires there { finite.get self.now.after.now.entries path.now ≡ Some (content_of entry.now) }
        ensures names { names.new ≡ names.old }
        ensures some { IfOk result (λ some. some ≡ is_some_change (changes_in self.now (path.now, entry.now))) }
        ensures text { OnOk result (out.new.items ≡ out.old.items ++ changes_text (changes_in self.now (path.now, entry.now))) }
    {
        self.after.entries_are_a_directory();
        let name = names.name_of(self.alloc, path, entry)?;
        put_add(self.alloc, out, self.conf, name.as_slice(), entry)?;
        counts.count_add();
        Ok(true)
    }

    /// Puts what is to be done at a path at which both directories have an entry. Gives whether something is.
    fn put_changed(
        &self,
        names: &mut Names<'_>,
        path: &Path,
        before: &Entry,
        after: &Entry,
        counts: &mut Counts,
        out: &mut Vec<u8>,
    ) -> Result<bool, AllocError>
        requires names { names.old ≡ self.now.after.now }
        requires compared { (extent_in self.now).has path.now ≡ true }
        requires made_first { IsMade self.now.conf.now.types before.now.attrs }
        requires made_second { IsMade self.now.conf.now.types after.now.attrs }
        requires first { finite.get self.now.before.now.entries path.now ≡ Some (content_of before.now) }
        requires second { finite.get self.now.after.now.entries path.now ≡ Some (content_of after.now) }
        ensures names { names.new ≡ names.old }
        ensures some { IfOk result (λ some. some ≡ is_some_change (changes_in self.now (path.now, after.now))) }
        ensures text { OnOk result (out.new.items ≡ out.old.items ++ changes_text (changes_in self.now (path.now, after.now))) }
    {
        let respelled = self.put_respelled(path, before, after, counts, out)?;
        let modified = self.put_modified(names, path, before, after, counts, out)?;
        Ok(respelled || modified)
    }

    /// Puts what is to be done where the second directory has an entry. Gives whether something is.
    fn put_changes(
        &self,
        names: &mut Names<'_>,
        found: (&Path, &Entry),
        counts: &mut Counts,
        out: &mut Vec<u8>,
    ) -> Result<bool, AllocError>
        requires names { names.old ≡ self.now.after.now }
        requires made { IsMade self.now.conf.now.types found.1.now.attrs }
        requires there { finite.get self.now.after.now.entries found.0.now ≡ Some (content_of found.1.now) }
        ensures names { names.new ≡ names.old }
        ensures some { IfOk result (λ some. some ≡ is_some_change (changes_in self.now (found.entry.0.now, found.entry.1.now))) }
        ensures text { OnOk result (out.new.items ≡ out.old.items ++ changes_text (changes_in self.now (found.entry.0.now, found.entry.1.now))) }
    {
        let (path, after) = found;
        let there = self.before.get(path);
        if !self.is_compared(path, there, Some(after)) {
            return Ok(false);
        }
        match there {
            Some(before) => self.put_changed(names, path, before, after, counts, out),
            None => self.put_added(names, path, after, counts, out),
        }
    }

    /// The same behind a text, which is handed on where it is long.
    fn write_changes<W: Sink>(
        &self,
        sink: &mut W,
        names: &mut Names<'_>,
        found: (&Path, &Entry),
        counts: &mut Counts,
        text: &mut Vec<u8>,
    ) -> Result<bool, WriteFault>
        requires can_fail { (W.written sink.old).failed < 2 ^ 64 - 1 }
        requires names { names.old ≡ self.now.after.now }
        requires made { IsMade self.now.conf.now.types found.1.now.attrs }
        requires there { finite.get self.now.after.now.entries found.0.now ≡ Some (content_of found.1.now) }
        ensures names { names.new ≡ names.old }
        ensures some { IfOk result (λ some. some ≡ is_some_change (changes_in self.now (found.entry.0.now, found.entry.1.now))) }
        ensures writes { WritesOn (end_of result) (W.written sink.old) (W.written sink.new)
            (text.old.items ++ changes_text (changes_in self.now (found.entry.0.now, found.entry.1.now))) text.new.items }
    {
        let some = self.put_changes(names, found, counts, text)?;
        pass_on_long(sink, text)?;
        Ok(some)
    }

    /// Writes what is to be done where the second directory has entries, behind a text.
    fn write_all_changes<W: Sink>(
        &self,
        sink: &mut W,
        counts: &mut Counts,
        text: &mut Vec<u8>,
    ) -> Result<bool, WriteFault>
        requires { (W.written sink.old).failed < 2 ^ 64 - 1 }
        ensures some { IfOk result (λ some. some ≡ is_some_change (ahead_in self.now)) }
        ensures writes { Writes (end_of result) (W.written sink.old) (W.written sink.new) (text.old.items ++ changes_text (ahead_in self.now)) }
    {
        self.after.entries_are_a_directory();
        schema::order_of_paths();
        let root = Path::root(self.alloc);
        let lent = LentTree::new(self.after, self.conf);
        let mut names = Names::new(self.alloc, lent);
        let mut some = false;
        for found in self.after.range(&root) {
            some |= self.write_changes(sink, &mut names, found, counts, text)?;
        }
        pass_on(sink, text)?;
        Ok(some)
    }

    /// Whether the entry at a path goes: it is compared, and the second directory hasn't it.
    pub(crate) fn goes(&self, path: &Path, entry: &Entry) -> bool
        requires made { IsMade self.now.conf.now.types entry.now.attrs }
        requires there { finite.get self.now.before.now.entries path.now ≡ Some (content_of entry.now) }
        ensures { result ≡ ((extent_in self.now).has path.now && not (finite.contains_key self.now.after.now.entries path.now)) }
    {
        match self.after.get(path) {
            Some(_) => false,
            None => self.is_compared(path, Some(entry), None),
        }
    }

    /// The paths of the entries that go, in the order of paths.
    fn paths_gone<'p>(&'p self, root: &'p Path) -> Result<Vec<&'p Path>, AllocError>
        requires { root.now ≡ [] }
        ensures { IfOk result (λ ps. lent_paths ps.items ≡ gone_in self.now) }
    {
        let mut gone = Vec::new(self.alloc);
        for (path, entry) in self.before.range(root) {
            if self.goes(path, entry) {
                gone.push(path)?;
            }
        }
        Ok(gone)
    }

    /// Writes the record that deletes the entry at a path, behind a text, which is handed on where it is long.
    fn write_removal<W: Sink>(
        &self,
        sink: &mut W,
        path: &Path,
        counts: &mut Counts,
        text: &mut Vec<u8>,
    ) -> Result<(), WriteFault>
        requires can_fail { (W.written sink.old).failed < 2 ^ 64 - 1 }
        requires there { finite.contains_key self.now.before.now.entries path.now ≡ true }
        ensures { WritesOn result (W.written sink.old) (W.written sink.new) (text.old.items
            ++ change_text (removing self.now.conf.now self.now.before.now.entries path.now)) text.new.items }
    {
        let name = self.before.name_of(self.alloc, self.conf, path)?;
        put_delete(self.alloc, text, name.as_slice())?;
        counts.count_delete();
        pass_on_long(sink, text)
    }

    /// Writes the records that delete the entries at these paths, the last path first, and leaves what isn't handed on in the text.
    fn write_removals<W: Sink>(
        &self,
        sink: &mut W,
        paths: &[&Path],
        counts: &mut Counts,
        text: &mut Vec<u8>,
    ) -> Result<(), WriteFault>
        requires can_fail { (W.written sink.old).failed < 2 ^ 64 - 1 }
        requires there { All (λ p. finite.contains_key self.now.before.now.entries p.now ≡ true) paths.now }
        ensures { WritesOn result (W.written sink.old) (W.written sink.new) (text.old.items
            ++ changes_text (removals self.now.conf.now self.now.before.now.entries (lent_paths paths.now))) text.new.items }
    {
        for i in 0..paths.len() {
            let path = paths[paths.len() - 1 - i];
            self.write_removal(sink, path, counts, text)?;
        }
        Ok(())
    }

    /// Writes the changes that make the second directory of the first, in pieces of some 64 KiB. On a fault a beginning was written.
    pub(crate) fn write<W: Sink>(&self, sink: &mut W) -> Result<Difference, WriteFault>
        requires { (W.written sink.old).failed < 2 ^ 64 - 1 }
        ensures differs { IfOk result (λ d. d.differs
            ≡ differs self.now.conf.now (extent_in self.now) self.now.before.now.entries self.now.after.now.entries) }
        ensures writes { Writes (end_of result) (W.written sink.old) (W.written sink.new) (written_in self.now) }
    {
        let root = Path::root(self.alloc);
        let gone = self.paths_gone(&root)?;
        let mut counts = Counts::new();
        let mut text = Vec::new(self.alloc);
        self.write_removals(sink, gone.as_slice(), &mut counts, &mut text)?;
        let some = self.write_all_changes(sink, &mut counts, &mut text)?;
        let differs = !gone.is_empty() | some;
        Ok(Difference { differs, counts })
    }
}
