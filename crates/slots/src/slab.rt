//! A slab over lent slots: what it is made of, and its counts.
ghost use Rattle.std.specs.Prelude.{◌≡◌};
ghost use Rattle.slots.specs.Slots.{fresh, empty, full, unused_slot};

use std::marker::Model;

/// One slot and its present incarnation.
#[derive(Clone, Copy)]
pub struct Slot<T> {
    /// Compared whole when an id looks its entry up.
    pub generation: u64,
    /// None while the slot is vacant or retired.
    pub value: Option<T>,
    /// The slot freed before this one, while this one is free.
    pub next: Option<u32>,
}

/// Entries in the caller's slots, each found by the id that it was given.
// The free slots are linked by index, and not kept in a `Vec`: no heap, the memory is the caller's.
#[derive(Drop)]
pub struct Slab<'a, T> {
    pub(crate) slots: &'a mut [Slot<T>],
    /// Slots from here on were never used, whatever they hold.
    pub(crate) used: usize,
    /// The slot freed last.
    pub(crate) free: Option<u32>,
    pub(crate) len: usize,
}

impl<'a, T> Model for Slab<'a, T> {
    ghost use Rattle.slots.specs.Slots.{Slots};

    ghost Value = { Slots T };

    ghost view = { λ s. record { slots = s.slots.now; used = s.used; free = s.free; len = s.len } };
}

impl<T: Copy> Slot<T> {
    /// A slot for the caller's table. A slab takes any other as well.
    pub fn unused() -> Slot<T>
        ensures { result ≡ unused_slot }
    {
        Slot::empty(0, None)
    }

    pub(crate) fn empty(generation: u64, next: Option<u32>) -> Slot<T>
        ensures { result ≡ empty generation next }
    {
        Slot {
            generation,
            value: None,
            next,
        }
    }

    pub(crate) fn full(generation: u64, value: T) -> Slot<T>
        ensures { result ≡ full generation value }
    {
        Slot {
            generation,
            value: Some(value),
            next: None,
        }
    }
}

impl<'a, T: Copy> Slab<'a, T> {
    /// An empty slab: what the slots hold does not matter.
    pub fn new(slots: &'a mut [Slot<T>]) -> Self
        ensures { result ≡ fresh slots.old }
    {
        Slab {
            slots,
            used: 0,
            free: None,
            len: 0,
        }
    }

    /// How many entries are live.
    pub fn len(&self) -> usize
        ensures { result ≡ self.now.len }
    {
        self.len
    }

    /// How many slots were ever used.
    pub fn slots(&self) -> usize
        ensures { result ≡ self.now.used }
    {
        self.used
    }
}
