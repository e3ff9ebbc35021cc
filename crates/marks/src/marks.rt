//! The ledger that keeps a mark for each write.
ghost use Rattle.std.specs.Prelude.{◌≡◌, length, replicate};
ghost use Rattle.ledger.specs.Meaning.{fresh_row};

use crate::mark::MarkRow;
use ledger::{Ledger, LentLedger};
use records::{Outcome, WriteAtState};
use std::marker::Model;

/// A ledger over the caller's rows of marks.
// Its calls are those of the ledger over lent rows; a struct of this crate, since an impl of `Ledger` must name one.
#[derive(Drop)]
pub struct Marks<'a> {
    lent: LentLedger<'a, MarkRow>,
}

impl<'a> Model for Marks<'a> {
    ghost use Rattle.std.specs.Prelude.{List};
    ghost use Rattle.ledger.specs.declared.row.Row.{Row};

    ghost Value = { List Row };

    ghost view = { λ marks. marks.lent };
}

impl<'a> Marks<'a> {
    /// Makes each of the caller's rows fresh.
    pub fn new(rows: &'a mut [MarkRow]) -> Self
        ensures { result ≡ replicate (length rows.old) fresh_row }
    {
        Marks {
            lent: LentLedger::new(rows),
        }
    }
}

impl<'a> Ledger for Marks<'a> {
    const MOST: u64 = 256;

    ghost rows = { λ ledger. ledger };

    ghost peak = { 256 };

    fn limit() -> u64
        ensures { result ≡ 256 }
    {
        Self::MOST
    }

    fn len(&self) -> usize {
        self.lent.len()
    }

    fn fresh(&mut self, row: usize) {
        self.lent.fresh(row);
    }

    fn begin_sync(&self, row: usize) -> u64 {
        self.lent.begin_sync(row)
    }

    fn failure(&self, row: usize) -> Option<Outcome> {
        self.lent.failure(row)
    }

    fn needs_sync(&self, row: usize) -> Result<bool, Outcome> {
        self.lent.needs_sync(row)
    }

    fn wrote(&mut self, row: usize, state: WriteAtState, res: Outcome) -> Outcome {
        self.lent.wrote(row, state, res)
    }

    fn end_sync(&mut self, row: usize, seen: u64) -> Outcome {
        self.lent.end_sync(row, seen)
    }

    fn sync_failed(&mut self, row: usize, res: Outcome) {
        self.lent.sync_failed(row, res);
    }
}
