//! The ledger over rows that the caller lends, whatever they keep of a file.
ghost use Rattle.std.specs.Prelude.{◌≡◌, length, replicate, slice_set};
ghost use Rattle.ledger.specs.Meaning.{fresh_row, row_at, on_row, completed_at, taint_at, sync_wanted_at, wrote_row, write_answer, ended_row, sync_answer, failed_row};

use crate::tally::Tally;
use records::{Outcome, WriteAtState};
use std::marker::Model;
use tables::{fill, put};

/// A ledger over the caller's rows.
#[derive(Drop)]
pub struct LentLedger<'a, T: Tally> {
    rows: &'a mut [T],
}

impl<'a, T: Tally> Model for LentLedger<'a, T> {
    ghost use Rattle.std.specs.Prelude.{List, map};
    ghost use Rattle.ledger.specs.declared.row.Row.{Row};

    ghost Value = { List Row };

    ghost view = { λ ledger. map T.kept_row ledger.rows.now };
}

impl<'a, T: Tally> LentLedger<'a, T> {
    /// Makes each of the caller's rows fresh.
    pub fn new(rows: &'a mut [T]) -> Self
        ensures { result ≡ replicate (length rows.old) fresh_row }
    {
        fill(rows, T::fresh());
        LentLedger { rows }
    }

    // What is kept in a row; past the end a fresh one.
    fn at(&self, row: usize) -> T
        ensures { T.kept_row result ≡ row_at self.now row }
    {
        match self.rows.get(row) {
            Some(tally) => *tally,
            None => T::fresh(),
        }
    }

    // Past the end nothing is kept.
    fn keep(&mut self, row: usize, tally: T)
        ensures { self.new ≡ slice_set self.old row (T.kept_row tally) }
    {
        put(self.rows, row, tally);
    }
}

// The calls stand here once, whatever is kept; each ledger's impl of `Ledger` says its constant and passes them on.
impl<'a, T: Tally> LentLedger<'a, T> {
    /// How many rows there are.
    pub fn len(&self) -> usize
        ensures { result ≡ length self.now }
    {
        self.rows.len()
    }

    /// Forgets all that a row has seen.
    pub fn fresh(&mut self, row: usize)
        ensures { self.new ≡ on_row self.old row (λ _. fresh_row) }
    {
        self.keep(row, T::fresh());
    }

    /// The writes that completed, to be told to `end_sync`.
    pub fn begin_sync(&self, row: usize) -> u64
        ensures { result ≡ completed_at self.now row }
    {
        self.at(row).row().completed
    }

    /// The taint.
    pub fn failure(&self, row: usize) -> Option<Outcome>
        ensures { result ≡ taint_at self.now row }
    {
        self.at(row).taint()
    }

    /// Whether a completed write is not covered; the taint, where there is one.
    pub fn needs_sync(&self, row: usize) -> Result<bool, Outcome>
        ensures { result ≡ sync_wanted_at self.now row }
    {
        self.at(row).needs_sync()
    }

    /// A write ended in this state with this result; answers the result to give out.
    pub fn wrote(&mut self, row: usize, state: WriteAtState, res: Outcome) -> Outcome
        ensures answer { result ≡ write_answer (taint_at self.old row) state res }
        ensures after { self.new ≡ on_row self.old row (wrote_row T.MOST state res) }
    {
        let mut tally = self.at(row);
        let answer = tally.wrote(state, res);
        self.keep(row, tally);
        answer
    }

    /// A sync succeeded that began when `seen` writes had completed.
    pub fn end_sync(&mut self, row: usize, seen: u64) -> Outcome
        ensures answer { result ≡ sync_answer (taint_at self.old row) }
        ensures after { self.new ≡ on_row self.old row (ended_row seen) }
    {
        let mut tally = self.at(row);
        let answer = tally.end_sync(seen);
        self.keep(row, tally);
        answer
    }

    /// A sync ended with this result.
    pub fn sync_failed(&mut self, row: usize, res: Outcome)
        ensures { self.new ≡ on_row self.old row (failed_row res) }
    {
        let mut tally = self.at(row);
        tally.note_result(res);
        self.keep(row, tally);
    }
}
