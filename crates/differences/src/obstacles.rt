//! What keeps changes from being carried out.

ghost use Rattle.std.specs.Prelude.{◌≡◌, ◌++◌, ◌&&◌, ◌<◌, [], true, false, not, length, is_some, Some, IfOk, IfSome, IsTrue, OnOk};
ghost use Rattle.std.specs.List.{AllByRecursion};
ghost use Rattle.std.specs.Option.{option_map};
ghost use Rattle.std.specs.FinMap as finite;
ghost use Rattle.paths.specs.Paths.{Path as SomePath};
ghost use Rattle.entries.specs.Entries.{IsGood, has_its_classes};
ghost use Rattle.entries.specs.StoredEntries.{attributes_of, content_of, IsMade};
ghost use Rattle.differences.specs.EntryChanges.{users};
ghost use Rattle.differences.specs.Follows.{stays};
ghost use Rattle.differences.specs.Obstacles.{stays_below, is_held, is_orphan, is_hindered, HasNoObstacle};
ghost use Rattle.differences.specs.inner.Walks.{extent_in};

use crate::alike::have_same_attributes;
use crate::differ::Differ;
use crate::fixed_types::asks_no_fixed;
use crate::left_attributes::{left_of, left_of_new};
use base::Bytes;
use entries::{Attributes, Entry, has_its_classes};
use schema::{Conf, Path, TypeId};
use std::alloc::AllocError;
use tree::{LentTree, Names};

/// Why the change of an entry can't be carried out.
#[derive(Clone, Copy)]
pub enum Obstacle {
    /// It isn't to be there, and entries below it aren't compared and stay (RFC 4511, 4.8).
    EntriesBelow,
    /// It is new, and there is to be no entry above it (RFC 4511, 4.7).
    NoParent,
    /// Its classes ask for this type, which users can't add (RFC 4512, 4.1.2).
    Asked(TypeId),
    /// Its classes don't allow this type, which users can't delete.
    Barred(TypeId),
}

/// An entry of which the change can't be carried out.
#[derive(Drop)]
pub struct HinderedEntry {
    /// Its name, as the directory spells it that has it: the first where it isn't to be there, and else the second.
    pub name: Bytes,
    /// Why the change can't be carried out.
    pub obstacle: Obstacle,
}

impl HinderedEntry {
    fn new(name: Bytes, obstacle: Obstacle) -> HinderedEntry {
        HinderedEntry { name, obstacle }
    }
}

/// A type that one of an entry's classes requires, and that isn't there.
fn asked_type(conf: &Conf, entry: &Entry) -> Option<TypeId> {
    let values = entry.values(TypeId::OBJECT_CLASS)?;
    for value in values.iter() {
        if let Some(class) = conf.class_of(value.raw()) {
            for t in conf.required(class) {
                if entry.values(*t).is_none() {
                    return Some(*t);
                }
            }
        }
    }
    None
}

/// Whether one of an entry's classes allows a type.
fn is_allowed(conf: &Conf, entry: &Entry, t: TypeId) -> bool
    requires { t < length conf.now.types }
{
    if t == TypeId::OBJECT_CLASS || conf.operational(t) {
        return true;
    }
    let Some(values) = entry.values(TypeId::OBJECT_CLASS) else {
        return false;
    };
    for value in values.iter() {
        if let Some(class) = conf.class_of(value.raw()) {
            if conf.allows(class, t) {
                return true;
            }
        }
    }
    false
}

/// A type of an entry that none of its classes allows.
fn barred_type(conf: &Conf, entry: &Entry) -> Option<TypeId>
    requires { IsMade conf.now.types entry.now.attrs }
{
    for (t, _) in entry.attrs() {
        if !is_allowed(conf, entry, *t) {
            return Some(*t);
        }
    }
    None
}

impl Differ<'_> {
    /// Whether an entry below a path isn't compared.
    fn stays_below(&self, path: &Path) -> bool
        ensures { result ≡ stays_below (extent_in self.now) self.now.before.now.entries path.now }
    {
        let len = path.len();
        for (found, entry) in self.before.range(path) {
            if len < found.len() && !self.is_compared(found, Some(entry), self.after.get(found)) {
                return true;
            }
        }
        false
    }

    /// Whether a new entry is to have none above it.
    fn is_orphan(&self, path: &Path) -> Result<bool, AllocError>
        ensures { IfOk result (λ orphan. orphan ≡ is_orphan (extent_in self.now) self.now.before.now.entries path.now) }
    {
        if path.is_root() || self.before.get(path).is_some() {
            return Ok(false);
        }
        let parent = path.parent(self.alloc)?;
        let above = self.before.get(&parent);
        Ok(above.is_none() && !self.is_compared(&parent, above, self.after.get(&parent)))
    }

    /// The type for which an entry isn't as its classes ask when it has these attributes.
    fn asked_or_barred(&self, entry: &Entry) -> Obstacle
        requires { IsMade self.now.conf.now.types entry.now.attrs }
    {
        match (asked_type(self.conf, entry), barred_type(self.conf, entry)) {
            (Some(t), _) => Obstacle::Asked(t),
            (None, Some(t)) => Obstacle::Barred(t),
            (None, None) => Obstacle::Barred(TypeId::OBJECT_CLASS),
        }
    }

    /// The attributes that the changes leave of an entry.
    fn left_attributes(
        &self,
        before: Option<&Entry>,
        after: &Entry,
    ) -> Result<Attributes, AllocError>
        requires first { IfSome before (λ e. IsGood self.now.conf.now (content_of e.now)) }
        requires second { IsGood self.now.conf.now (content_of after.now) }
        ensures made { IfOk result (λ attrs. IsMade self.now.conf.now.types attrs.entries) }
        ensures classes { IfOk result (λ attrs. has_its_classes self.now.conf.now (attributes_of attrs.entries)
            ≡ has_its_classes self.now.conf.now (users self.now.conf.now.types (attributes_of after.now.attrs)
            ++ stays self.now.conf.now.types (option_map (λ e. content_of e.now) before.entry) (content_of after.now))) }
    {
        self.conf.rules_are_kept();
        match before {
            Some(before) => left_of(self.alloc, self.conf, before, after),
            None => left_of_new(self.alloc, self.conf, after),
        }
    }

    /// Whether an entry has the attributes of the one before, so that it is of the same classes.
    fn keeps_classes(&self, before: Option<&Entry>, after: &Entry) -> bool
        requires { IsGood self.now.conf.now (content_of after.now) }
        ensures { IsTrue result → has_its_classes self.now.conf.now (users self.now.conf.now.types (attributes_of after.now.attrs)
            ++ stays self.now.conf.now.types (option_map (λ e. content_of e.now) before.entry) (content_of after.now)) ≡ true }
    {
        match before {
            Some(before) => have_same_attributes(before, after),
            None => false,
        }
    }

    /// Why the entry at a path can't become what it is to be for its classes, where it can't.
    fn unfit(&self, before: Option<&Entry>, after: &Entry) -> Result<Option<Obstacle>, AllocError>
        requires first { IfSome before (λ e. IsGood self.now.conf.now (content_of e.now)) }
        requires second { IsGood self.now.conf.now (content_of after.now) }
        ensures { IfOk result (λ found. is_some found ≡ not (has_its_classes self.now.conf.now (users self.now.conf.now.types (attributes_of after.now.attrs)
            ++ stays self.now.conf.now.types (option_map (λ e. content_of e.now) before.entry) (content_of after.now)))) }
    {
        if self.keeps_classes(before, after) {
            return Ok(None);
        }
        let attrs = self.left_attributes(before, after)?;
        if has_its_classes(self.alloc, self.conf, &attrs)? {
            return Ok(None);
        }
        let left = Entry::new(after.rdn().copy(self.alloc)?, attrs);
        Ok(Some(self.asked_or_barred(&left)))
    }

    /// Why the entry at a path can't become what it is to be, where it can't.
    fn obstacle(&self, path: &Path, after: &Entry) -> Result<Option<Obstacle>, AllocError>
        requires made { IsMade self.now.conf.now.types after.now.attrs }
        requires there { finite.get self.now.after.now.entries path.now ≡ Some (content_of after.now) }
        ensures { IfOk result (λ found. is_some found
            ≡ is_hindered self.now.conf.now (extent_in self.now) self.now.before.now.entries (path.now, content_of after.now)) }
    {
        let before = self.before.get(path);
        if !self.is_compared(path, before, Some(after)) {
            return Ok(None);
        }
        if self.is_orphan(path)? {
            return Ok(Some(Obstacle::NoParent));
        }
        self.before.entries_are_a_directory();
        self.after.entries_are_a_directory();
        self.unfit(before, after)
    }

    /// Whether the entry at a path can't be deleted, since one below it stays.
    fn is_held(&self, path: &Path, entry: &Entry) -> bool
        requires made { IsMade self.now.conf.now.types entry.now.attrs }
        requires there { finite.get self.now.before.now.entries path.now ≡ Some (content_of entry.now) }
        ensures { result ≡ is_held (extent_in self.now) self.now.before.now.entries self.now.after.now.entries (path.now, content_of entry.now) }
    {
        self.goes(path, entry) && self.stays_below(path)
    }

    /// Puts those entries that go, where one below them stays.
    fn push_held(&self, found: &mut Vec<HinderedEntry>) -> Result<(), AllocError>
        ensures { OnOk result (found.new.items ≡ [] → AllByRecursion (λ x. is_held (extent_in self.now) self.now.before.now.entries self.now.after.now.entries x ≡ false)
            (finite.entries self.now.before.now.entries)) }
    {
        let root = Path::root(self.alloc);
        for (path, entry) in self.before.range(&root) {
            if self.is_held(path, entry) {
                let name = self.before.name_of(self.alloc, self.conf, path)?;
                found.push(HinderedEntry::new(name, Obstacle::EntriesBelow))?;
            }
        }
        Ok(())
    }

    /// Puts those entries that can't become what they are to be.
    fn push_hindered(&self, found: &mut Vec<HinderedEntry>) -> Result<(), AllocError>
        ensures { OnOk result (found.new.items ≡ [] → (found.old.items ≡ []) × AllByRecursion (λ y. is_hindered self.now.conf.now (extent_in self.now) self.now.before.now.entries y ≡ false)
            (finite.entries self.now.after.now.entries)) }
    {
        let root = Path::root(self.alloc);
        let lent = LentTree::new(self.after, self.conf);
        let mut names = Names::new(self.alloc, lent);
        for (path, entry) in self.after.range(&root) {
            if let Some(obstacle) = self.obstacle(path, entry)? {
                let name = names.name_of(self.alloc, path, entry)?;
                found.push(HinderedEntry::new(name, obstacle))?;
            }
        }
        Ok(())
    }

    /// Whether all is compared, whatever stands at a path.
    fn compares_all(&self) -> bool
        ensures { IsTrue result → (p : SomePath) → (extent_in self.now).has p ≡ true }
    {
        match self.comparison.filter {
            Some(_) => false,
            None => self.comparison.base.is_root(),
        }
    }

    /// Whether all is compared, and no class asks for what users can't change.
    fn is_clear(&self) -> bool
        ensures { IsTrue result → HasNoObstacle self.now.conf.now (extent_in self.now) self.now.before.now.entries self.now.after.now.entries }
    {
        self.conf.rules_are_kept();
        self.after.entries_are_a_directory();
        self.compares_all() && asks_no_fixed(self.conf)
    }

    /// The entries of which the change can't be carried out: first those that go, and then the others, each in the order of paths.
    pub(crate) fn obstacles(&self) -> Result<Vec<HinderedEntry>, AllocError>
        ensures { IfOk result (λ found. found.items ≡ []
            → HasNoObstacle self.now.conf.now (extent_in self.now) self.now.before.now.entries self.now.after.now.entries) }
    {
        let mut found = Vec::new(self.alloc);
        if self.is_clear() {
            return Ok(found);
        }
        self.push_held(&mut found)?;
        self.push_hindered(&mut found)?;
        Ok(found)
    }
}
