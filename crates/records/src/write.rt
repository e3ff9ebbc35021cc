//! What a send or a write moves, and how far it has come.
ghost use Rattle.std.specs.Prelude.{◌≡◌, Some};
ghost use Rattle.records.specs.Writes.{write_length, write_done, write_left, single_submitted};
ghost use Rattle.records.specs.Words.{write_text};

use crate::submission::submission_length;
use std::fmt;

/// Bytes that a send or a write is asked to move.
#[derive(Clone, Copy)]
pub enum Source {
    Single { place: u64, length: u64 },
    /// Rows of the chunk table, from the first on.
    Rows { first: u32, count: u32 },
}

/// One place, with the bytes of it that are done.
#[derive(Clone, Copy)]
pub struct SingleWrite {
    pub place: u64,
    pub length: u64,
    pub done: u64,
}

/// How far rows have come: the rows passed, and the bytes done in the row reached.
#[derive(Clone, Copy)]
pub struct Cursor {
    pub row: u32,
    pub within: u64,
}

/// Rows of the chunk table, with their cursor.
#[derive(Clone, Copy)]
pub struct RowsWrite {
    pub first: u32,
    pub count: u32,
    pub cursor: Cursor,
    /// Bytes of all the rows.
    pub length: u64,
    /// Bytes before the cursor.
    pub done: u64,
}

/// An admitted source with its progress.
#[derive(Clone, Copy)]
pub enum WriteBuffers {
    Single(SingleWrite),
    Rows(RowsWrite),
}

impl SingleWrite {
    /// The bytes that the next submission asks for.
    pub fn bytes_submitted(self) -> u32
        ensures { result ≡ single_submitted self }
    {
        submission_length(self.length.saturating_sub(self.done))
    }
}

impl WriteBuffers {
    /// The bytes to move in all.
    pub fn length(self) -> u64
        ensures { result ≡ write_length self }
    {
        match self {
            WriteBuffers::Single(single) => single.length,
            WriteBuffers::Rows(rows) => rows.length,
        }
    }

    /// The bytes reported so far.
    pub fn done(self) -> u64
        ensures { result ≡ write_done self }
    {
        match self {
            WriteBuffers::Single(single) => single.done,
            WriteBuffers::Rows(rows) => rows.done,
        }
    }

    /// The bytes not reported yet.
    pub fn remaining_len(self) -> u64
        ensures { result ≡ write_left self }
    {
        self.length().saturating_sub(self.done())
    }
}

impl fmt::Display for WriteBuffers {
    ghost output = { λ write. Some (write_text write) };

    fn fmt<W: fmt::Write>(&self, f: &mut fmt::Formatter<W>) -> fmt::Result {
        match self {
            WriteBuffers::Single(q) => write!(
                f,
                "single place {} length {} done {}",
                q.place, q.length, q.done
            ),
            WriteBuffers::Rows(q) => write!(
                f,
                "rows first {} count {} at row {} within {} done {} of {}",
                q.first, q.count, q.cursor.row, q.cursor.within, q.done, q.length
            ),
        }
    }
}
