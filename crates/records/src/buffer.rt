//! Memory that a request names, and the limits of a place.
ghost use Rattle.std.specs.Prelude.{◌≡◌, Some};
ghost use Rattle.records.specs.Limits.{below_top, few_bytes, buffer_limits, row_limits, descriptor_limits};
ghost use Rattle.records.specs.Words.{buffer_text, iovec_text};

use std::fmt;

/// A place in the caller's memory with its capacity, and how much of it counts.
#[derive(Clone, Copy)]
pub struct Buffer {
    pub place: u64,
    pub capacity: u64,
    pub length: u64,
}

/// One row of the chunk table.
#[derive(Clone, Copy)]
pub struct ChunkRow {
    pub place: u64,
    pub length: u64,
}

/// One element of a vectored submission's list, as the kernel reads it.
// Of one shape with a chunk row, and a type of its own: a row is the table's, an iovec the kernel's.
#[derive(Clone, Copy, PartialEq, Eq)]
pub struct Iovec {
    pub base: u64,
    pub length: u64,
}

/// Whether bytes from a place on end at 2^47 or before.
pub fn ends_below_top(place: u64, bytes: u64) -> bool
    ensures { result ≡ below_top place bytes }
{
    place <= 140737488355328 && bytes <= 140737488355328 - place
}

// These limits differ in a number alone, but a name each says whose limit it is.

/// Whether a request may move so many bytes.
pub fn is_few_bytes(bytes: u64) -> bool
    ensures { result ≡ few_bytes bytes }
{
    bytes <= 1099511627776
}

/// Whether a descriptor is one that a process can have.
pub fn is_descriptor(descriptor: u32) -> bool
    ensures { result ≡ descriptor_limits descriptor }
{
    descriptor <= 2147483647
}

impl Buffer {
    pub fn is_within_limits(self) -> bool
        ensures { result ≡ buffer_limits self }
    {
        self.length <= self.capacity && ends_below_top(self.place, self.capacity)
    }
}

impl fmt::Display for Buffer {
    ghost output = { λ buffer. Some (buffer_text buffer) };

    fn fmt<W: fmt::Write>(&self, f: &mut fmt::Formatter<W>) -> fmt::Result {
        let Buffer {
            place,
            capacity,
            length,
        } = *self;
        write!(
            f,
            "buffer place {place} capacity {capacity} length {length}"
        )
    }
}

impl fmt::Display for Iovec {
    ghost output = { λ iovec. Some (iovec_text iovec) };

    fn fmt<W: fmt::Write>(&self, f: &mut fmt::Formatter<W>) -> fmt::Result {
        write!(f, "{} {}", self.base, self.length)
    }
}

impl ChunkRow {
    pub fn is_within_limits(self) -> bool
        ensures { result ≡ row_limits self }
    {
        self.length >= 1 && self.length <= 1073741824 && ends_below_top(self.place, self.length)
    }
}
