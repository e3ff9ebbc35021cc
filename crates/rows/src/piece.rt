//! One row of a vectored write, from an offset on.
ghost use Rattle.std.specs.Prelude.{◌≡◌, ◌-◌};
ghost use Rattle.rows.specs.Vectors.{iovec_of, stop_in};

use records::{ChunkRow, Iovec};

/// A row with so many of its bytes done.
#[derive(Clone, Copy)]
pub(crate) struct Piece {
    pub(crate) row: ChunkRow,
    pub(crate) within: u64,
}

impl Piece {
    // The bytes that are not done.
    pub(crate) fn left(self) -> u64
        ensures { result ≡ self.row.length - self.within }
    {
        self.row.length.saturating_sub(self.within)
    }

    pub(crate) fn iovec(self) -> Iovec
        ensures { result ≡ iovec_of self.row self.within }
    {
        Iovec {
            base: self.row.place.saturating_add(self.within),
            length: self.left(),
        }
    }

    // Where more bytes end inside the row, if they do not reach its end.
    pub(crate) fn stop(self, bytes: u64) -> Option<u64>
        ensures { result ≡ stop_in self.row self.within bytes }
    {
        if bytes < self.left() {
            return Some(self.within + bytes);
        }
        None
    }
}
