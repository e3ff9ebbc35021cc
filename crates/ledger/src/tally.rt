//! What is kept of one file, and the rules of taints, counts and answers, which hold however it is kept.
ghost use Rattle.std.specs.Prelude.{◌≡◌, ℕ, None};
ghost use Rattle.ledger.specs.declared.row.Row.{Row};
ghost use Rattle.ledger.specs.Meaning.{fresh_row, tainted_row, with_taint, counted, counts_write, write_error, write_answer, wrote_row, ended_by, ended_row, sync_answer, failed_row, sync_wanted};

use crate::row::Row;
use records::{Outcome, WriteAtState};

/// What a ledger keeps of one file: a row, in a form of its own.
pub trait Tally: Copy {
    /// The most that the completed writes can reach.
    const MOST: u64;

    ghost MOST: { ℕ };

    ghost kept_row: { Self → Row };

    /// Nothing written.
    fn fresh() -> Self
        ensures { kept_row result ≡ fresh_row };

    /// The row that is kept.
    fn row(&self) -> Row
        ensures { result ≡ kept_row self.now };

    /// Its taint alone.
    fn taint(&self) -> Option<Outcome>
        ensures { result ≡ (kept_row self.now).taint };

    /// Taints an untainted row: the first error stays.
    fn note_error(&mut self, error: Outcome)
        ensures { kept_row self.new ≡ tainted_row error (kept_row self.old) };

    /// One more completed write; at the most the row is spent.
    fn count(&mut self)
        ensures { kept_row self.new ≡ counted MOST (kept_row self.old) };

    /// Covers the first `seen` completed writes, or as many as there are. What was covered stays so.
    fn cover(&mut self, seen: u64)
        ensures { kept_row self.new ≡ ended_by None seen (kept_row self.old) };

    /// Notes a result that was to be durable: only the device's error taints.
    fn note_result(&mut self, res: Outcome)
        ensures { kept_row self.new ≡ failed_row res (kept_row self.old) }
    {
        if let Outcome::Io { .. } = res {
            self.note_error(res);
        }
    }

    /// The error of a write, before the write is counted.
    fn note_write(&mut self, state: WriteAtState, res: Outcome)
        ensures { kept_row self.new ≡ with_taint (kept_row self.old) (write_error (kept_row self.old).taint state res) }
    {
        match state {
            WriteAtState::Writing | WriteAtState::WritingBeforeSync => {}
            WriteAtState::WritingSync | WriteAtState::Syncing => self.note_result(res),
        }
    }

    /// What a sync answers: the taint, else Ok.
    fn sync_answer(&self) -> Outcome
        ensures { result ≡ sync_answer (kept_row self.now).taint }
    {
        self.taint().unwrap_or(Outcome::Ok)
    }

    /// What a write answers: a write that is durable by itself ends Ok only on an untainted row.
    fn write_answer(&self, state: WriteAtState, res: Outcome) -> Outcome
        ensures { result ≡ write_answer (kept_row self.now).taint state res }
    {
        match (state, res) {
            (WriteAtState::WritingSync | WriteAtState::Syncing, Outcome::Ok) => self.sync_answer(),
            _ => res,
        }
    }

    /// A write ended in this state with this result; answers the result to give out.
    fn wrote(&mut self, state: WriteAtState, res: Outcome) -> Outcome
        ensures answer { result ≡ write_answer (kept_row self.old).taint state res }
        ensures after { kept_row self.new ≡ wrote_row MOST state res (kept_row self.old) }
    {
        let answer = self.write_answer(state, res);
        self.note_write(state, res);
        if counts_write(state, res) {
            self.count();
        }
        answer
    }

    /// A sync succeeded that began when `seen` writes had completed.
    fn end_sync(&mut self, seen: u64) -> Outcome
        ensures answer { result ≡ sync_answer (kept_row self.old).taint }
        ensures after { kept_row self.new ≡ ended_row seen (kept_row self.old) }
    {
        if self.taint().is_none() {
            self.cover(seen);
        }
        self.sync_answer()
    }

    /// Whether a completed write is not covered; the taint, where there is one.
    fn needs_sync(&self) -> Result<bool, Outcome>
        ensures { result ≡ sync_wanted (kept_row self.now) }
    {
        let row = self.row();
        match row.taint {
            Some(error) => Err(error),
            None => Ok(row.covered < row.completed),
        }
    }
}

/// Whether a write leaves bytes that a later sync has to cover.
// State and result stay apart: each caller has them so, and a struct would be made only to be taken apart here.
pub fn counts_write(state: WriteAtState, res: Outcome) -> bool
    ensures { result ≡ counts_write state res }
{
    match (state, res) {
        (WriteAtState::WritingSync | WriteAtState::Syncing, Outcome::Ok) => false,
        _ => true,
    }
}
