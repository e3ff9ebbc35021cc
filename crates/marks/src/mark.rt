//! A row of marks, one for each write that can be counted.
ghost use Rattle.std.specs.Prelude.{◌≡◌, ◌-◌, None, position};
ghost use Rattle.std.proofs.Common.{rules};
ghost use Rattle.ledger.specs.Meaning.{fresh_row, first_error, tainted_row, counted, covers_now, ended_by};
ghost use Rattle.marks.specs.Marking.{completed_marks, covered_marks, is_unused, opened_at, covered_mark, left_after, cover_first, covered_row, seen_row, fresh_marks};

use ledger::{Row, Tally};
use records::{Exact, Outcome, Same};

/// One write that a row can count.
#[derive(Clone, Copy, PartialEq, Eq)]
pub enum Mark {
    Unused,
    /// Completed, and not covered by a sync.
    Open,
    Covered,
}

impl Same for Mark {
    fn same(self, other: Mark) -> bool {
        self == other
    }
}

impl Exact for Mark {
    ghost identical = { Prim.search rules };
}

/// The marks of one file; the oldest write has the first.
#[derive(Clone, Copy)]
pub struct MarkRow {
    marks: [Mark; 256],
    taint: Option<Outcome>,
}

// The completed and the covered writes, in one walk: two filtered counts took twice the time.
fn tally(marks: &[Mark]) -> (u64, u64)
    ensures completed { result.0 ≡ completed_marks marks.now }
    ensures covered { result.1 ≡ covered_marks marks.now }
{
    let mut completed = 0;
    let mut covered = 0;
    for mark in marks {
        completed += u64::from(*mark != Mark::Unused);
        covered += u64::from(*mark == Mark::Covered);
    }
    (completed, covered)
}

// The place of the first unused mark.
fn first_unused(marks: &[Mark]) -> Option<usize>
    ensures { result ≡ position is_unused marks.now }
{
    marks.iter().position(|mark| *mark == Mark::Unused)
}

// An open mark is covered while some are left to cover; how many are left then.
fn cover_mark(mark: &mut Mark, left: u64) -> u64
    ensures marked { mark.new ≡ covered_mark left mark.old }
    ensures rest { result ≡ left_after left mark.old }
{
    if left == 0 || *mark != Mark::Open {
        return left;
    }
    *mark = Mark::Covered;
    left - 1
}

// The first open marks, which are the oldest writes, are covered.
fn cover_first(marks: &mut [Mark], count: u64)
    ensures { marks.new ≡ cover_first count marks.old }
{
    let mut left = count;
    for mark in marks.iter_mut() {
        left = cover_mark(mark, left);
    }
}

/// Numbers are counted from the marks.
// Clauses name `seen_row`, what the marks mean, and no model does: they also say what becomes of every mark.
impl Tally for MarkRow {
    const MOST: u64 = 256;

    ghost MOST = { 256 };

    ghost kept_row = { seen_row };

    #[tactic(auto, unfolding(crate::specs::Marking::completed_marks, crate::specs::Marking::covered_marks))]
    fn fresh() -> Self
        ensures unused { result ≡ fresh_marks }
        ensures row { seen_row result ≡ fresh_row }
    {
        MarkRow {
            marks: [Mark::Unused; 256],
            taint: None,
        }
    }

    fn row(&self) -> Row {
        let (completed, covered) = tally(&self.marks);
        Row {
            completed,
            covered,
            taint: self.taint,
        }
    }

    // This and the next are as of `Row`: a field each, which a third type would not hold more plainly.
    fn taint(&self) -> Option<Outcome> {
        self.taint
    }

    fn note_error(&mut self, error: Outcome)
        ensures marks { self.new ≡ record { marks = self.old.marks; taint = first_error self.old.taint error } }
        ensures row { seen_row self.new ≡ tainted_row error (seen_row self.old) }
    {
        self.taint = self.taint.or(Some(error));
    }

    #[tactic(auto, using(crate::proofs::Seen::seen_opened, crate::proofs::Seen::seen_spent))]
    fn count(&mut self)
        ensures marks { self.new ≡ opened_at self.old (position is_unused self.old.marks) }
        ensures row { seen_row self.new ≡ counted 256 (seen_row self.old) }
    {
        match first_unused(&self.marks) {
            Some(place) => self.marks[place] = Mark::Open,
            None => self.note_error(Outcome::LedgerSpent),
        }
    }

    #[tactic(auto, using(crate::proofs::Seen::seen_covered))]
    fn cover(&mut self, seen: u64)
        ensures marks { self.new ≡ covered_row self.old (covers_now (completed_marks self.old.marks) (covered_marks self.old.marks) seen - covered_marks self.old.marks) }
        ensures row { seen_row self.new ≡ ended_by None seen (seen_row self.old) }
    {
        let old = self.row();
        let mut new = old;
        new.cover(seen);
        cover_first(&mut self.marks, new.covered.saturating_sub(old.covered));
    }
}
