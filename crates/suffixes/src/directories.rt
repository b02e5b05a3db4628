//! A directory under another suffix.

ghost use Rattle.std.specs.Prelude.{◌≡◌, [], IfOk, Some};
ghost use Rattle.std.specs.FinMap as finite;
ghost use Rattle.schema.specs.Conf.{name_text};
ghost use Rattle.entries.specs.Gives.{Gives};
ghost use Rattle.entries.specs.StoredEntries.{content_of, IsMade};
ghost use Rattle.schema.specs.GoodRdns.{IsRdn};
ghost use Rattle.tree.specs.Directories.{rdns_from};
ghost use Rattle.suffixes.specs.MovedDirectories.{move_by, suffix_entry, suffix_lines, moved_lines, add_named, add_by, add_moved, moved_directory};
ghost use Rattle.suffixes.specs.inner.Lines.{lines_in, AreKnown};

use crate::left_values::left_values;
use crate::lines::{Ava, avas_in, lines_by};
use crate::name_values::NameMover;
use crate::names::moved_name;
use crate::watcher::Watcher;
use base::{Bytes, Sequence};
use entries::{Entry, Refusal, attributes_of_lines, renamed};
use ldif::{Mode, Record};
use schema::{Code, Conf, Path, TypedRdn};
use std::alloc::{AllocError, Global};
use tree::{LentTree, Names, Tree, plan};

/// A directory, the configuration that it moves to, and how its values move.
#[derive(Clone, Copy, Drop)]
struct Mover<'a> {
    alloc: Global,
    tree: &'a Tree,
    values: NameMover<'a>,
    new: &'a Conf,
    ghost same_conf: { tree.now.conf ≡ values.conf.now },
    ghost same_types: { new.now.types ≡ values.conf.now.types },
}

impl Mover<'_> {
    // adds an entry with this name and these values to others
    fn add<W: Watcher>(
        &self,
        out: &mut Tree,
        dn: Bytes,
        avas: &[Ava],
        watcher: &mut W,
    ) -> Result<(), Refusal>
        requires conf { out.old.conf ≡ self.now.new.now }
        requires known { AreKnown self.now.new.now.types avas.now }
        ensures same_conf { out.new.conf ≡ out.old.conf }
        ensures gives { Gives (λ _. out.new.entries) result
            (add_named self.now.new.now out.old.entries dn (lines_in self.now.new.now.types avas.now)) }
    {
        let lines = lines_by(self.alloc, self.new, avas)?;
        let asked = Record::Content {
            dn,
            attrs: Sequence::from_vec(lines),
        };
        match plan(self.alloc, out, self.new, &asked, Mode::Content) {
            Ok(plan) => Ok(out.commit(plan)?),
            Err(Refusal::Code(code)) => {
                watcher.note(self.alloc, LentTree::new(out, self.new), &asked, code);
                Err(Refusal::Code(code))
            }
            Err(Refusal::OutOfMemory) => Err(Refusal::OutOfMemory),
        }
    }

    // the suffix's entry with these values and the new suffix's RDN in place of this one
    fn suffix_entry(&self, rdn: &TypedRdn, avas: &[Ava]) -> Result<Entry, Refusal>
        requires known { AreKnown self.now.new.now.types avas.now }
        requires rdn { IsRdn self.now.new.now.types rdn.now }
        ensures made { IfOk result (λ e. IsMade self.now.new.now.types e.attrs) }
        ensures gives { Gives (λ e. content_of e) result
            (suffix_entry self.now.new.now rdn.now (lines_in self.now.new.now.types avas.now)) }
    {
        self.new.rules_are_kept();
        let lines = lines_by(self.alloc, self.new, avas)?;
        let attrs = attributes_of_lines(self.alloc, self.new, Mode::Content, &lines, &[])?;
        let entry = Entry::new(rdn.copy(self.alloc)?, attrs);
        let new = self.new.suffix_rdn().copy(self.alloc)?;
        renamed(self.alloc, self.new, &entry, new, true)
    }

    // has a watcher take note that the suffix's entry can't be added
    fn note_suffix_entry<W: Watcher>(
        &self,
        out: &Tree,
        dn: Bytes,
        rdn: &TypedRdn,
        avas: &[Ava],
        code: Code,
        watcher: &mut W,
    ) -> Result<(), AllocError>
        requires conf { out.now.conf ≡ self.now.new.now }
        requires known { AreKnown self.now.new.now.types avas.now }
        requires rdn { IsRdn self.now.new.now.types rdn.now }
    {
        let left = left_values(self.alloc, self.new, rdn, avas)?;
        let lines = lines_by(self.alloc, self.new, &left)?;
        let asked = Record::Content {
            dn,
            attrs: Sequence::from_vec(lines),
        };
        watcher.note(self.alloc, LentTree::new(out, self.new), &asked, code);
        Ok(())
    }

    // adds the suffix's entry, which has this RDN and these values
    fn add_suffix_entry<W: Watcher>(
        &self,
        out: &mut Tree,
        dn: Bytes,
        rdn: &TypedRdn,
        avas: &[Ava],
        watcher: &mut W,
    ) -> Result<(), Refusal>
        requires conf { out.old.conf ≡ self.now.new.now }
        requires known { AreKnown self.now.new.now.types avas.now }
        requires rdn { IsRdn self.now.new.now.types rdn.now }
        ensures same_conf { out.new.conf ≡ out.old.conf }
        ensures gives { Gives (λ _. out.new.entries) result
            (add_by self.now.new.now out.old.entries dn (suffix_lines self.now.new.now rdn.now (lines_in self.now.new.now.types avas.now))) }
    {
        match self.suffix_entry(rdn, avas) {
            Ok(entry) => {
                let renamed = avas_in(self.alloc, self.new, &entry)?;
                self.add(out, dn, &renamed, watcher)
            }
            Err(Refusal::Code(code)) => {
                self.note_suffix_entry(out, dn, rdn, avas, code, watcher)?;
                Err(Refusal::Code(code))
            }
            Err(Refusal::OutOfMemory) => Err(Refusal::OutOfMemory),
        }
    }

    // adds what becomes of the entry at a path, by this name
    #[tactic(auto, unfolding(crate::specs::MovedDirectories::moved_lines))]
    fn add_entry<W: Watcher>(
        &self,
        out: &mut Tree,
        dn: Bytes,
        path: &Path,
        entry: &Entry,
        watcher: &mut W,
    ) -> Result<(), Refusal>
        requires conf { out.old.conf ≡ self.now.new.now }
        requires there { finite.get self.now.tree.now.entries path.now ≡ Some (content_of entry.now) }
        requires made { IsMade self.now.values.conf.now.types entry.now.attrs }
        ensures same_conf { out.new.conf ≡ out.old.conf }
        ensures gives { Gives (λ _. out.new.entries) result
            (add_by self.now.new.now out.old.entries dn
            (moved_lines (move_by self.now.values.conf.now self.now.new.now self.now.values.name.now self.now.tree.now.entries) path.now (content_of entry.now))) }
    {
        self.tree.entries_are_a_directory();
        let avas = self.values.moved_avas(entry)?;
        if path.is_root() {
            self.add_suffix_entry(out, dn, entry.rdn(), &avas, watcher)
        } else {
            self.add(out, dn, &avas, watcher)
        }
    }

    // the name of an entry under the new suffix
    fn name_of(
        &self,
        names: &mut Names<'_>,
        path: &Path,
        entry: &Entry,
    ) -> Result<Bytes, AllocError>
        requires names { names.old ≡ self.now.tree.now }
        requires there { finite.get self.now.tree.now.entries path.now ≡ Some (content_of entry.now) }
        ensures names { names.new ≡ self.now.tree.now }
        ensures name { IfOk result (λ name. name ≡ name_text self.now.new.now (rdns_from self.now.tree.now.entries [] path.now)) }
    {
        let name = names.name_of(self.alloc, path, entry)?;
        moved_name(self.alloc, self.values.conf, self.new, name.as_slice())
    }

    // adds what becomes of an entry
    #[tactic(auto, unfolding(crate::specs::MovedDirectories::add_moved))]
    fn add_moved<W: Watcher>(
        &self,
        out: &mut Tree,
        names: &mut Names<'_>,
        found: (&Path, &Entry),
        watcher: &mut W,
    ) -> Result<(), Refusal>
        requires conf { out.old.conf ≡ self.now.new.now }
        requires names { names.old ≡ self.now.tree.now }
        requires there { finite.get self.now.tree.now.entries found.0.now ≡ Some (content_of found.1.now) }
        requires made { IsMade self.now.values.conf.now.types found.1.now.attrs }
        ensures names { names.new ≡ self.now.tree.now }
        ensures same_conf { out.new.conf ≡ out.old.conf }
        ensures gives { Gives (λ _. out.new.entries) result
            (add_moved (move_by self.now.values.conf.now self.now.new.now self.now.values.name.now self.now.tree.now.entries)
            out.old.entries (found.entry.0.now, content_of found.entry.1.now)) }
    {
        let (path, entry) = found;
        let dn = self.name_of(names, path, entry)?;
        self.add_entry(out, dn, path, entry, watcher)
    }

    // adds what becomes of all entries
    fn directory<W: Watcher>(&self, watcher: &mut W) -> Result<Tree, Refusal>
        ensures same_conf { IfOk result (λ t. t.conf ≡ self.now.new.now) }
        ensures gives { Gives (λ t. t.entries) result
            (moved_directory (move_by self.now.values.conf.now self.now.new.now self.now.values.name.now self.now.tree.now.entries)) }
    {
        self.tree.entries_are_a_directory();
        schema::order_of_paths();
        let root = Path::root(self.alloc);
        let lent = LentTree::new(self.tree, self.values.conf);
        let mut names = Names::new(self.alloc, lent);
        let mut out = Tree::new(self.alloc, self.new);
        for found in self.tree.range(&root) {
            self.add_moved(&mut out, &mut names, found, watcher)?;
        }
        Ok(out)
    }
}

/// The entries of a tree under `new`, a configuration with the same types and with the suffix that `name` spells. The values of DN
/// syntax that name something at the old suffix or below it have `name` in its place, and the suffix's entry has the new suffix's RDN, as by a
/// rename that doesn't keep the old one's values (RFC 4511, 4.9). The entries are added in the order of the dump, as they are loaded (RFC 4511, 4.7).
/// The first that can't be added answers with its code, and a watcher takes note of it.
pub fn directory_under<W: Watcher>(
    alloc: Global,
    lent: LentTree<'_>,
    new: &Conf,
    name: &[u8],
    watcher: &mut W,
) -> Result<Tree, Refusal>
    requires { new.now.types ≡ lent.conf.now.types }
    ensures same_conf { IfOk result (λ t. t.conf ≡ new.now) }
    ensures gives { Gives (λ t. t.entries) result
        (moved_directory (move_by lent.entry.conf.now new.now name.now lent.entry.tree.now.entries)) }
{
    let LentTree { tree, conf } = lent;
    let values = NameMover { alloc, conf, name };
    let mover = Mover {
        alloc,
        tree,
        values,
        new,
    };
    mover.directory(watcher)
}
