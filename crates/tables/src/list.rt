//! A list over places that the caller lends.
ghost use Rattle.std.specs.Prelude.{◌≡◌, ◌+◌, length, is_ok};
ghost use Rattle.std.specs.List.{slice_get};
ghost use Rattle.tables.specs.Listed.{unfilled, appends, appended, emptied, writes, written, First};

use crate::full::Full;
use crate::slices::{append, find};
use records::Same;
use std::marker::Model;

/// What is held lies in the first places, in order; the others are free.
// The length stands beside lent places, and not in a `Vec`: no heap, the memory is the caller's.
#[derive(Drop)]
pub struct LentList<'a, X> {
    places: &'a mut [X],
    len: usize,
}

impl<'a, X> Model for LentList<'a, X> {
    ghost use Rattle.std.specs.Prelude.{◌≤◌, length};
    ghost use Rattle.tables.specs.Listed.{Listed, laid};

    ghost Value = { Listed X };

    ghost view = { λ l. laid l.len l.places.now };

    ghost invariant = { λ l. l.len ≤ length l.places.now };
}

impl<'a, X: Copy> LentList<'a, X> {
    /// An empty list over these places.
    pub fn new(places: &'a mut [X]) -> Self
        ensures { result ≡ unfilled places.old }
    {
        LentList { places, len: 0 }
    }

    fn held(&self) -> &[X]
        ensures { result.now ≡ self.now.held }
    {
        &self.places[..self.len]
    }

    /// How many elements it holds.
    pub fn len(&self) -> usize
        ensures { result ≡ length self.now.held }
    {
        self.held().len()
    }

    /// How many free places it has.
    pub fn room(&self) -> usize
        ensures { result ≡ length self.now.rest }
    {
        self.capacity() - self.len
    }

    /// How many places it has, taken and free.
    pub fn capacity(&self) -> usize
        ensures { result ≡ length self.now.held + length self.now.rest }
    {
        self.places.len()
    }

    /// The element at a place of the list.
    pub fn get(&self, i: usize) -> Option<X>
        ensures { result ≡ slice_get self.now.held i }
    {
        self.held().get(i).copied()
    }

    /// One element more, or a refusal where no place is free.
    pub fn append(&mut self, x: X) -> Result<(), Full>
        ensures answer { is_ok result ≡ appends self.old }
        ensures list { self.new ≡ appended self.old x }
    {
        let longer = append(self.places, self.len, x).ok_or(Full)?;
        self.len = longer;
        Ok(())
    }

    /// Holds nothing any more. What lies in the places stays there.
    pub fn clear(&mut self)
        ensures { self.new ≡ emptied self.old }
    {
        self.len = 0;
    }

    /// Elements from the start take the place of what it held, or a refusal where they are too many.
    #[tactic(auto, using(crate::proofs::Laying::written_all))]
    pub fn write(&mut self, xs: &[X]) -> Result<(), Full>
        ensures answer { is_ok result ≡ writes self.old xs.now }
        ensures list { self.new ≡ written self.old xs.now }
    {
        if xs.len() > self.capacity() {
            return Err(Full);
        }
        self.len = xs.len();
        self.places[..self.len].copy_from_slice(xs);
        Ok(())
    }
}

impl<'a, X: Same> LentList<'a, X> {
    /// The first place of an element in the list.
    pub fn find(&self, x: X) -> Option<usize>
        ensures { First x self.now.held result }
    {
        find(self.held(), x)
    }
}
