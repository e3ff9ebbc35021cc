//! What holds of every ledger. A law is the clause of a function of its own, whose number says nothing.
ghost use Rattle.std.specs.Prelude.{[], ◌∷◌};
ghost use Rattle.ledger.specs.Laws.{LedgerLaws, Told};
ghost use Rattle.ledger.specs.Notions.{Telling.refreshed, Telling.wrote, Telling.sync_ended, Telling.sync_failed};

use crate::ledger::Ledger;
use records::{Outcome, WriteAtState};

/// A ledger's answers are what its record of calls says, whatever the ledger keeps.
pub fn ledgers_answer_by_their_record<L: Ledger>() -> u8
    ensures { LedgerLaws L.Ledger.rows L.Ledger.peak }
{
    0
}

// The record that the laws speak of is what the contracts give: here with one call of each kind.
pub(crate) fn calls_make_a_record<L: Ledger>(
    ledger: &mut L,
    row: usize,
    state: WriteAtState,
    res: Outcome,
    seen: u64,
) -> (Outcome, Outcome)
    ensures { Told L.Ledger.rows L.Ledger.peak ledger.old (sync_failed row res ∷ (sync_ended row seen result.1 ∷ (wrote row state res result.0 ∷ (refreshed row ∷ [])))) ledger.new }
{
    ledger.fresh(row);
    let answer = ledger.wrote(row, state, res);
    let ended = ledger.end_sync(row, seen);
    ledger.sync_failed(row, res);
    (answer, ended)
}
