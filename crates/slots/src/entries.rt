//! The entries of a slab. No call walks the slots.
ghost use Rattle.std.specs.Prelude.{◌≡◌, is_some};
ghost use Rattle.slots.specs.Slots.{capacity, found, next_id, advanced, inserted, replaced, with_slot, vacated, removed, id_at};

use crate::slab::{Slab, Slot};
use records::Id;
use tables::put;

/// The slots that a slab uses of its caller's table.
const SLAB_SLOTS: usize = 65536;

impl<'a, T: Copy> Slab<'a, T> {
    fn capacity(&self) -> usize
        ensures { result ≡ capacity self.now }
    {
        self.slots.len().min(SLAB_SLOTS)
    }

    // Lookups leave by `let .. else`, one exit for each thing that is not there: a rule of this project (docs/DECISIONS.md).

    /// The live entry of an id.
    pub fn get(&self, id: Id) -> Option<T>
        ensures { result ≡ found self.now id }
    {
        if id.index as usize >= self.used {
            return None;
        }
        let Some(slot) = self.slots.get(id.index as usize) else {
            return None;
        };
        if slot.generation != id.generation {
            return None;
        }
        slot.value
    }

    /// The id of the live entry at an index.
    pub fn id_at(&self, index: u32) -> Option<Id>
        ensures { result ≡ id_at self.now index }
    {
        if index as usize >= self.used {
            return None;
        }
        let Some(slot) = self.slots.get(index as usize) else {
            return None;
        };
        let Some(_) = slot.value else {
            return None;
        };
        Some(Id {
            index,
            generation: slot.generation,
        })
    }

    /// The id that the next insertion gives: of the slot freed last, else of the next one never used.
    pub fn next_id(&self) -> Option<Id>
        ensures { result ≡ next_id self.now }
    {
        match self.free {
            Some(index) => self.slots.get(index as usize).map(|slot| Id {
                index,
                generation: slot.generation,
            }),
            None if self.used < self.capacity() => Some(Id {
                index: self.used as u32,
                generation: 0,
            }),
            None => None,
        }
    }

    // The chosen slot is no longer free, or one slot more is in use.
    fn advance(&mut self)
        ensures { self.new ≡ advanced self.old }
    {
        let Some(index) = self.free else {
            self.used = self.used.saturating_add(1);
            return;
        };
        // By its index: a borrow from `get` beside the write to a field gets no proof.
        let index = index as usize;
        if index < self.slots.len() {
            self.free = self.slots[index].next;
        }
    }

    // Past the end nothing is written.
    fn store(&mut self, index: u32, slot: Slot<T>)
        ensures { self.new ≡ with_slot self.old index slot }
    {
        put(self.slots, index as usize, slot);
    }

    /// Stores an entry under the id that comes next, or refuses where no slot is left.
    pub fn insert(&mut self, value: T) -> Option<Id>
        ensures answer { result ≡ next_id self.old }
        ensures after { self.new ≡ inserted self.old value }
    {
        let id = self.next_id()?;
        self.advance();
        self.store(id.index, Slot::full(id.generation, value));
        self.len = self.len.saturating_add(1);
        Some(id)
    }

    /// Stores another value under a live id; whether there is one.
    // A bool: it says one thing, that the id was live, and an Option or Result would say no more.
    pub fn set(&mut self, id: Id, value: T) -> bool
        ensures answer { result ≡ is_some (found self.old id) }
        ensures after { self.new ≡ replaced self.old id value }
    {
        if self.get(id).is_none() {
            return false;
        }
        let replaced = Slot::full(id.generation, value);
        self.store(id.index, replaced);
        true
    }

    // The slot becomes the one freed last, in its next generation; after the last one it is retired.
    fn vacate(&mut self, id: Id)
        ensures { self.new ≡ vacated self.old id }
    {
        match id.generation.checked_add(1) {
            Some(generation) => {
                self.store(id.index, Slot::empty(generation, self.free));
                self.free = Some(id.index);
            }
            None => self.store(id.index, Slot::empty(id.generation, None)),
        }
    }

    /// Takes a live entry out; its id never finds anything again.
    pub fn remove(&mut self, id: Id) -> Option<T>
        ensures answer { result ≡ found self.old id }
        ensures after { self.new ≡ removed self.old id }
    {
        let value = self.get(id)?;
        self.vacate(id);
        self.len = self.len.saturating_sub(1);
        Some(value)
    }
}
