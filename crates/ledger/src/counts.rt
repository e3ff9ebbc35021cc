//! The ledger that keeps two numbers a row.
ghost use Rattle.std.specs.Prelude.{◌≡◌};

use crate::ledger::Ledger;
use crate::lent::LentLedger;
use crate::row::Row;
use records::{Outcome, WriteAtState};

/// A ledger over the caller's rows.
pub type Counts<'a> = LentLedger<'a, Row>;

// Not one impl for every `LentLedger`: of a constant that an impl with a type parameter gives, a proof knows nothing.
impl<'a> Ledger for Counts<'a> {
    const MOST: u64 = 18446744073709551615;

    ghost rows = { λ ledger. ledger };

    ghost peak = { 18446744073709551615 };

    fn limit() -> u64
        ensures { result ≡ 18446744073709551615 }
    {
        Self::MOST
    }

    fn len(&self) -> usize {
        self.len()
    }

    fn fresh(&mut self, row: usize) {
        self.fresh(row);
    }

    fn begin_sync(&self, row: usize) -> u64 {
        self.begin_sync(row)
    }

    fn failure(&self, row: usize) -> Option<Outcome> {
        self.failure(row)
    }

    fn needs_sync(&self, row: usize) -> Result<bool, Outcome> {
        self.needs_sync(row)
    }

    fn wrote(&mut self, row: usize, state: WriteAtState, res: Outcome) -> Outcome {
        self.wrote(row, state, res)
    }

    fn end_sync(&mut self, row: usize, seen: u64) -> Outcome {
        self.end_sync(row, seen)
    }

    fn sync_failed(&mut self, row: usize, res: Outcome) {
        self.sync_failed(row, res);
    }
}
