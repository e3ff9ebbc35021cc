//! What a ledger says of one file.
ghost use Rattle.std.specs.Prelude.{◌≡◌};
ghost use Rattle.ledger.specs.Meaning.{fresh_row};

use crate::tally::Tally;
use records::Outcome;

/// The writes of one file.
#[derive(Clone, Copy)]
pub struct Row {
    /// Writes that ended.
    pub completed: u64,
    /// Those of them that a sync covered.
    pub covered: u64,
    /// The first error after which a sync promises nothing.
    pub taint: Option<Outcome>,
}

/// The two numbers and the taint themselves.
impl Tally for Row {
    const MOST: u64 = u64::MAX;

    ghost MOST = { 18446744073709551615 };

    ghost kept_row = { λ row. row };

    fn fresh() -> Self {
        Row {
            completed: 0,
            covered: 0,
            taint: None,
        }
    }

    fn row(&self) -> Row {
        *self
    }

    fn taint(&self) -> Option<Outcome> {
        self.taint
    }

    fn note_error(&mut self, error: Outcome) {
        self.taint = self.taint.or(Some(error));
    }

    fn count(&mut self) {
        if self.completed < Self::MOST {
            self.completed += 1;
        } else {
            self.note_error(Outcome::LedgerSpent);
        }
    }

    fn cover(&mut self, seen: u64) {
        self.covered = self.covered.max(seen.min(self.completed));
    }
}
