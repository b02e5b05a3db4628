//! The set that an index keeps under a key.
ghost use Rattle.std.specs.Prelude.{◌≡◌, ◌<◌, ◌*◌, false, not, [], ◌∷◌, ◌⊎◌, IsTrue, ◌↔◌, OnOk, OnErr, IfOk};
ghost use Rattle.std.specs.FinSet as set;
ghost use Rattle.dense_sets.specs.Keys.{IsDense};

use crate::WordSet;
use crate::forms::{Form, Lent, with_all};
use id_sets::{IdSet, ListSet, Members, lists};
use std::alloc::{AllocError, Global};
use std::marker::Model;

// When a list turns to words. The rule trades memory for speed: words then have up to 1,024 bits for each member, and a list has 32.

/// A set of at most so many members stays a list.
const MANY: usize = 64;

/// One of more members turns to words where each is below so many times their number.
const NUMBERS_A_MEMBER: u32 = 1024;

/// The set of numbers under a key. One member takes no memory beside the 16 bytes of the value; more are kept as a list, and
/// as words from the insert on that leaves them dense. Words are never turned back.
pub struct KeySet {
    form: Form,
    alloc: Global,
}

impl Drop for KeySet {
    fn drop(self) {
        let KeySet { form, alloc: _ } = self;
        drop(form);
    }
}

const _: () = prove!(size_of::<KeySet>() == 16);

impl Model for KeySet {
    ghost use Rattle.dense_sets.specs.Keys.{Kept, kept_code};

    ghost Value = { Kept };

    ghost coded = { kept_code };

    ghost use Rattle.dense_sets.specs.inner.Forms.{kept_as};

    ghost view = { λ k. kept_as k.form };
}

impl KeySet {
    /// Whether the members are kept as words.
    pub fn is_words(&self) -> bool
        ensures { result ≡ self.now.is_words }
    {
        matches!(&self.form, Form::Words(_))
    }
}

/// Whether so many members, of which this is the greatest, are dense.
fn is_dense(members: usize, greatest: u32) -> bool
    ensures { IsTrue result ↔ ((64 < members) × (greatest < 1024 * members)) }
{
    members > MANY && ((greatest / NUMBERS_A_MEMBER) as usize) < members
}

/// Whether a list is dense once it has a number too.
fn is_dense_with(list: &ListSet, id: u32) -> bool
    ensures { IsTrue result ↔ IsDense (set.insert list.now id) }
{
    let ids = list.as_slice();
    if ids.len() < MANY {
        return false;
    }
    let members = ids.len() + usize::from(!list.contains(id));
    let greatest = match ids.last() {
        Some(last) => id.max(*last),
        None => id,
    };
    is_dense(members, greatest)
}

/// Two numbers as a list.
fn pair(alloc: Global, one: u32, other: u32) -> Result<ListSet, AllocError>
    ensures { IfOk result (λ both. both ≡ set.insert (set.from_list (one ∷ [])) other) }
{
    let mut both = ListSet::new(alloc);
    both.insert(one)?;
    both.insert(other)?;
    Ok(both)
}

/// Words with the members of a list and a number, which may be one of them.
fn words_with(alloc: Global, list: &ListSet, id: u32) -> Result<WordSet, AllocError>
    ensures { IfOk result (λ words. words ≡ set.insert list.now id) }
{
    let mut words = with_all(WordSet::new(alloc), list.as_slice())?;
    words.insert(id)?;
    Ok(words)
}

impl IdSet for KeySet {
    ghost members = { λ s. s.members };

    fn new(alloc: Global) -> Self
        ensures empty { result.members ≡ set.empty }
        ensures form { result.is_words ≡ false }
    {
        KeySet {
            form: Form::Empty,
            alloc,
        }
    }

    fn len(&self) -> u64 {
        match self.form.lend() {
            Lent::List(ids) => ids.len() as u64,
            Lent::Words(words) => words.len(),
        }
    }

    fn contains(&self, id: u32) -> bool {
        match self.form.lend() {
            Lent::List(ids) => lists::place_of(ids, id).is_ok(),
            Lent::Words(words) => words.contains(id),
        }
    }

    fn next_from(&self, from: u32) -> Option<u32> {
        match self.form.lend() {
            Lent::List(ids) => lists::next_from(ids, from),
            Lent::Words(words) => words.next_from(from),
        }
    }

    fn walk(&self) -> Members<'_> {
        match self.form.lend() {
            Lent::List(ids) => lists::walk(ids),
            Lent::Words(words) => words.walk(),
        }
    }

    fn insert(&mut self, id: u32) -> Result<bool, AllocError>
        ensures new { IfOk result (λ new. new ≡ not (set.contains self.old.members id)) }
        ensures ok { OnOk result (self.new.members ≡ set.insert self.old.members id) }
        ensures form { OnOk result (IsTrue self.new.is_words ↔ (IsTrue self.old.is_words ⊎ IsDense self.new.members)) }
        ensures err { OnErr result (self.new ≡ self.old) }
    {
        match &mut self.form {
            Form::Empty => {
                self.form = Form::One(id);
                Ok(true)
            }
            Form::One(one) => {
                if *one == id {
                    return Ok(false);
                }
                let both = pair(self.alloc, *one, id)?;
                self.form = Form::List(Box::new(self.alloc, both)?);
                Ok(true)
            }
            Form::List(list) => {
                if !is_dense_with(list, id) {
                    return list.insert(id);
                }
                let new = !list.contains(id);
                let words = words_with(self.alloc, list, id)?;
                self.form = Form::Words(Box::new(self.alloc, words)?);
                Ok(new)
            }
            Form::Words(words) => words.insert(id),
        }
    }

    fn remove(&mut self, id: u32) -> bool
        ensures was { result ≡ set.contains self.old.members id }
        ensures removed { self.new.members ≡ set.remove self.old.members id }
        ensures form { self.new.is_words ≡ self.old.is_words }
    {
        match &mut self.form {
            Form::Empty => false,
            Form::One(one) => {
                if *one != id {
                    return false;
                }
                self.form = Form::Empty;
                true
            }
            Form::List(list) => list.remove(id),
            Form::Words(words) => words.remove(id),
        }
    }

    fn copy(&self, alloc: Global) -> Result<Self, AllocError>
        ensures { IfOk result (λ same. same ≡ self.now) }
    {
        let form = match &self.form {
            Form::Empty => Form::Empty,
            Form::One(one) => Form::One(*one),
            Form::List(list) => Form::List(Box::new(alloc, list.copy(alloc)?)?),
            Form::Words(words) => Form::Words(Box::new(alloc, words.copy(alloc)?)?),
        };
        Ok(KeySet { form, alloc })
    }

    fn meet(&self, alloc: Global, other: &Self) -> Result<Self, AllocError> {
        let form = self.form.meet(alloc, &other.form)?;
        Ok(KeySet { form, alloc })
    }

    fn join(&self, alloc: Global, other: &Self) -> Result<Self, AllocError> {
        let form = self.form.join(alloc, &other.form)?;
        Ok(KeySet { form, alloc })
    }

    fn minus(&self, alloc: Global, other: &Self) -> Result<Self, AllocError> {
        let form = self.form.minus(alloc, &other.form)?;
        Ok(KeySet { form, alloc })
    }
}
