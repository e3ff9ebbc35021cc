//! The rows of a vectored write, lent from the chunk table, and the walks over them.
ghost use Rattle.std.specs.Prelude.{◌≡◌, ◌≤◌, ◌-◌, min, length, take, drop};
ghost use Rattle.rows.specs.Vectors.{range, inside_table, admitted_total, carried_in, iovecs_of, iovec_bytes, filled_answer_in, filled_list_in, advanced_in};

use crate::piece::Piece;
use records::{ChunkRow, Cursor, Denial, Iovec, RowsWrite, is_few_bytes};
use std::marker::Model;

/// The rows of the chunk table that count.
const TABLE_ROWS: usize = 65536;

/// The kernel takes no more iovecs at once (IOV_MAX).
const IOVEC_BATCH_SIZE: usize = 1024;

/// The rows of one write, lent from the chunk table; those behind its first 65,536 are left out.
#[derive(Drop)]
pub struct Rows<'a> {
    rows: &'a [ChunkRow],
}

impl<'a> Model for Rows<'a> {
    ghost use Rattle.std.specs.Prelude.{List, length, ◌≤◌};
    ghost use Rattle.records.specs.declared.buffer.ChunkRow.{ChunkRow};

    ghost Value = { List ChunkRow };

    ghost view = { λ a. a.rows.now };

    ghost invariant = { λ a. length a.rows.now ≤ 65536 };
}

// So many rows at most, from the first on.
pub(crate) fn front(rows: &[ChunkRow], n: usize) -> &[ChunkRow]
    ensures { result.now ≡ take n rows.now }
{
    &rows[..n.min(rows.len())]
}

// The rows behind so many.
pub(crate) fn behind(rows: &[ChunkRow], n: usize) -> &[ChunkRow]
    ensures { result.now ≡ drop n rows.now }
{
    &rows[n.min(rows.len())..]
}

// Whether a row range has two rows or more and ends with the table or before.
pub(crate) fn is_inside_table(rows: usize, first: u32, count: u32) -> bool
    ensures { result ≡ inside_table rows first count }
{
    count >= 2 && first as usize + count as usize <= rows.min(TABLE_ROWS)
}

impl<'a> Rows<'a> {
    /// The rows of a range, as far as the table has them.
    // First and count stay two numbers: this and the admission below take them where there is no write yet.
    pub fn new(table: &'a [ChunkRow], first: u32, count: u32) -> Rows<'a>
        ensures { result ≡ range table.now first count }
    {
        let end = (first as usize + count as usize).min(TABLE_ROWS);
        Rows {
            rows: behind(front(table, end), first as usize),
        }
    }

    /// The rows of a write.
    pub fn of(table: &'a [ChunkRow], write: RowsWrite) -> Rows<'a>
        ensures { result ≡ range table.now write.first write.count }
    {
        Rows::new(table, write.first, write.count)
    }

    /// The bytes of a row range, where each limit is kept.
    pub fn admitted_total(table: &'a [ChunkRow], first: u32, count: u32) -> Option<u64>
        ensures { result ≡ admitted_total table.now first count }
    {
        if !is_inside_table(table.len(), first, count) {
            return None;
        }
        let admitted = Rows::new(table, first, count);
        let mut bytes: u64 = 0;
        for row in admitted.rows {
            if !row.is_within_limits() {
                return None;
            }
            bytes += row.length;
        }
        is_few_bytes(bytes).then_some(bytes)
    }

    // The rows that a submission carries.
    pub(crate) fn carried(&self, row: u32) -> &[ChunkRow]
        ensures rows { result.now ≡ carried_in self.now row }
        ensures few { length result.now ≤ 1024 }
    {
        front(behind(self.rows, row as usize), IOVEC_BATCH_SIZE)
    }

    /// Rows from the cursor on become iovecs, from the list's start. A list that is too short is left alone.
    pub fn fill_iovecs(&self, cursor: Cursor, iovecs: &mut [Iovec]) -> Result<u32, Denial>
        ensures answer { result ≡ filled_answer_in self.now cursor iovecs.old }
        ensures list { iovecs.new ≡ filled_list_in self.now cursor iovecs.old }
    {
        let carried = self.carried(cursor.row);
        let needed = carried.len() as u32;
        if iovecs.len() < carried.len() {
            return Err(Denial::ListTooShort { needed });
        }
        let mut within = cursor.within;
        // An indexed loop: a rule of this project (docs/DECISIONS.md).
        for i in 0..carried.len() {
            let piece = Piece {
                row: carried[i],
                within,
            };
            iovecs[i] = piece.iovec();
            within = 0;
        }
        Ok(needed)
    }

    /// The bytes that a submission carries.
    pub fn carried_bytes(&self, cursor: Cursor) -> u64
        ensures { result ≡ min (iovec_bytes (iovecs_of cursor.within (carried_in self.now cursor.row))) 18446744073709551615 }
    {
        let Some((first, rest)) = self.carried(cursor.row).split_first() else {
            return 0;
        };
        let begun = Piece {
            row: *first,
            within: cursor.within,
        };
        // In twice the width: a sum that stops at the most at each row takes twice the time.
        let mut bytes = u128::from(begun.left());
        for row in rest {
            bytes += u128::from(row.length);
        }
        bytes.min(u128::from(u64::MAX)) as u64
    }

    /// The cursor after more bytes: past a row that is done, the next row's start.
    pub fn advance(&self, cursor: Cursor, bytes: u64) -> Cursor
        ensures { result ≡ advanced_in self.now cursor bytes }
    {
        let mut at = cursor;
        let mut left = bytes;
        for row in behind(self.rows, cursor.row as usize) {
            let piece = Piece {
                row: *row,
                within: at.within,
            };
            if let Some(within) = piece.stop(left) {
                return Cursor { within, ..at };
            }
            left = left.saturating_sub(piece.left());
            at = Cursor {
                row: at.row + 1,
                within: 0,
            };
        }
        at
    }
}
