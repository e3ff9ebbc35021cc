//! What every ledger does.
ghost use Rattle.std.specs.Prelude.{◌≡◌, ℕ, List, length};
ghost use Rattle.ledger.specs.declared.row.Row.{Row};
ghost use Rattle.ledger.specs.Meaning.{on_row, completed_at, taint_at, sync_wanted_at, fresh_row, wrote_row, write_answer, ended_row, sync_answer, failed_row};

use records::{Outcome, WriteAtState};

/// Rows of files, by number. No call refuses; a row that the ledger lacks reads as fresh.
pub trait Ledger {
    /// The most that the completed writes of a row can reach.
    const MOST: u64;

    ghost rows: { Self → List Row };

    ghost peak: { ℕ };

    /// The constant, which contracts call `peak`.
    fn limit() -> u64
        ensures { result ≡ peak };

    /// How many rows there are.
    fn len(&self) -> usize
        ensures { result ≡ length (rows self.now) };

    /// Forgets all that a row has seen.
    fn fresh(&mut self, row: usize)
        ensures { rows self.new ≡ on_row (rows self.old) row (λ _. fresh_row) };

    /// The writes that completed, to be told to `end_sync`.
    fn begin_sync(&self, row: usize) -> u64
        ensures { result ≡ completed_at (rows self.now) row };

    /// The taint.
    fn failure(&self, row: usize) -> Option<Outcome>
        ensures { result ≡ taint_at (rows self.now) row };

    /// Whether a completed write is not covered; the taint, where there is one.
    fn needs_sync(&self, row: usize) -> Result<bool, Outcome>
        ensures { result ≡ sync_wanted_at (rows self.now) row };

    /// A write ended in this state with this result; answers the result to give out.
    fn wrote(&mut self, row: usize, state: WriteAtState, res: Outcome) -> Outcome
        ensures answer { result ≡ write_answer (taint_at (rows self.old) row) state res }
        ensures after { rows self.new ≡ on_row (rows self.old) row (wrote_row peak state res) };

    /// A sync succeeded that began when `seen` writes had completed.
    fn end_sync(&mut self, row: usize, seen: u64) -> Outcome
        ensures answer { result ≡ sync_answer (taint_at (rows self.old) row) }
        ensures after { rows self.new ≡ on_row (rows self.old) row (ended_row seen) };

    /// A sync ended with this result.
    fn sync_failed(&mut self, row: usize, res: Outcome)
        ensures { rows self.new ≡ on_row (rows self.old) row (failed_row res) };
}
