//! Cells that hang together where they are free.

ghost use Rattle.std.specs.Prelude.{◌≡◌, ◌+◌, ◌<◌, [], Some, None, OnErr, OnOk, option_copied};
ghost use Rattle.tree.specs.Cells.{cell, IsTaken, IsSet, HasRoom, taken, most};

use std::alloc::{AllocError, Global};
use std::marker::Model;
use std::mem;

/// Values in numbered cells. A value keeps its number until it is removed; the number that was freed is given out next.
#[derive(Drop)]
pub struct Cells<T> {
    cells: Vec<Cell<T>>,
    // how many are taken
    taken: usize,
    // the first free cell, or the number behind all cells
    next: u32,
}

/// A value, or the number of the next free cell.
#[derive(Drop)]
enum Cell<T> {
    Free(u32),
    Taken(T),
}

impl<T> Model for Cells<T> {
    ghost use Rattle.std.specs.Prelude.{map, vec_capacity};
    ghost use Rattle.tree.specs.Cells as seen;
    ghost use Rattle.tree.specs.inner.Chain.{value_of, IsSound};

    ghost Value = { seen.Cells T };

    ghost coded = { seen.cells_code T.code };

    ghost view = { λ s. record {
      cells = map value_of s.cells.items;
      next = s.next;
      capacity = vec_capacity s.cells;
    } };

    ghost invariant = { λ s. IsSound s.cells.items s.taken s.next };
}

impl<T> Cells<T> {
    /// No cell yet.
    pub fn new(alloc: Global) -> Cells<T>
        ensures { result.cells ≡ [] }
    {
        Cells {
            cells: Vec::new(alloc),
            taken: 0,
            next: 0,
        }
    }

    /// The value with a number, if there is one.
    pub fn get(&self, number: u32) -> Option<&T>
        ensures { option_copied result ≡ cell self.now.cells number }
    {
        match self.cells.get(number as usize) {
            Some(Cell::Taken(value)) => Some(value),
            _ => None,
        }
    }

    /// The number that the next value gets. No value has it.
    pub fn next(&self) -> u32
        ensures number { result ≡ self.now.next }
        ensures free { cell self.now.cells result ≡ None }
    {
        self.next
    }

    /// Makes room for one more value, or changes nothing where memory runs out.
    pub fn reserve(&mut self) -> Result<(), AllocError>
        ensures room { OnOk result (HasRoom self.new) }
        ensures err { OnErr result (self.new ≡ self.old) }
        ensures kept { self.new ≡ record self.old { capacity = self.new.capacity } }
    {
        if self.taken < self.cells.len() {
            return Ok(());
        }
        self.cells.reserve(1)
    }

    /// Adds a value where there is room for it, and answers its number. A number is a `u32`, and so is the next one: there are fewer
    /// than 4,294,967,295 values.
    pub fn insert_reserved(&mut self, value: T) -> u32
        requires room { HasRoom self.old }
        requires few { taken self.old.cells < most }
        ensures number { result ≡ self.old.next }
        ensures was_free { cell self.old.cells result ≡ None }
        ensures set { IsSet self.old.cells self.new.cells result (Some value) }
        ensures taken { taken self.new.cells ≡ taken self.old.cells + 1 }
    {
        let number = self.next;
        self.taken += 1;
        if number as usize == self.cells.len() {
            self.cells.push_reserved(Cell::Taken(value));
            self.next = number + 1;
            return number;
        }
        match mem::replace(&mut self.cells[number as usize], Cell::Taken(value)) {
            Cell::Free(next) => self.next = next,
            Cell::Taken(_) => unreachable!(),
        }
        number
    }

    /// Puts a value in place of the one with a number, and answers that one.
    pub fn replace(&mut self, number: u32, value: T) -> T
        requires { IsTaken self.old.cells number }
        ensures value { cell self.old.cells number ≡ Some result }
        ensures set { IsSet self.old.cells self.new.cells number (Some value) }
        ensures next { self.new.next ≡ self.old.next }
        ensures taken { taken self.new.cells ≡ taken self.old.cells }
    {
        match mem::replace(&mut self.cells[number as usize], Cell::Taken(value)) {
            Cell::Taken(value) => value,
            Cell::Free(_) => unreachable!(),
        }
    }

    /// Takes the value with a number out. The next value gets that number.
    pub fn remove(&mut self, number: u32) -> T
        requires { IsTaken self.old.cells number }
        ensures value { cell self.old.cells number ≡ Some result }
        ensures set { IsSet self.old.cells self.new.cells number None }
        ensures next { self.new.next ≡ number }
        ensures taken { taken self.new.cells + 1 ≡ taken self.old.cells }
    {
        let free = Cell::Free(self.next);
        match mem::replace(&mut self.cells[number as usize], free) {
            Cell::Taken(value) => {
                self.taken -= 1;
                self.next = number;
                value
            }
            Cell::Free(_) => unreachable!(),
        }
    }
}
