//! One transfer: its calls keep its record, and so the laws.
ghost use Rattle.std.specs.Prelude.{◌≡◌};
ghost use Rattle.runs.specs.Calls.{begin_answer, submit_answer, submit_after, submit_list, complete_answer, complete_after, left_at, standing_request};
ghost use Rattle.runs.specs.Recorded.{BeginRecorded, SubmitRecorded, CompleteRecorded};

use cqe::{Step, on_cqe};
use records::{ChunkRow, Denial, Iovec, Outcome, Submission, WaiterState};
use request::{Request, Wanted};
use sqe::{Setting, Staged, build_sqe};

/// Where a transfer stands.
#[derive(Clone, Copy)]
pub enum Standing {
    /// Its next submission is wanted.
    Queued(Request),
    InFlight(Request),
    Ended(Request, Outcome),
}

/// The request, wherever it stands.
impl From<Standing> for Request {
    ghost from_gives = { λ standing request. request ≡ standing_request standing };

    fn from(standing: Standing) -> Request {
        match standing {
            Standing::Queued(request) | Standing::InFlight(request) => request,
            Standing::Ended(request, _) => request,
        }
    }
}

/// A transfer on its own: what was wanted, and where it stands.
#[derive(Clone, Copy)]
pub struct Transfer {
    pub(crate) wanted: Wanted,
    pub(crate) standing: Standing,
}

impl Transfer {
    // The law that a call keeps is proved from what it does, so a private function does it, and says it, first.

    // The transfer as it begins.
    pub(crate) fn admit(wanted: Wanted, table: &[ChunkRow]) -> Result<Transfer, Denial>
        ensures answer { result ≡ begin_answer table.now wanted }
    {
        let request = wanted.admit(table)?;
        Ok(Transfer {
            wanted,
            standing: Standing::Queued(request),
        })
    }

    /// Admits what is wanted, or answers the cause to refuse it. An admitted transfer has an empty record.
    pub fn begin(wanted: Wanted, table: &[ChunkRow]) -> Result<Transfer, Denial>
        ensures answer { result ≡ begin_answer table.now wanted }
        ensures recorded { BeginRecorded table.now wanted result }
    {
        Transfer::admit(wanted, table)
    }

    /// Where it stands now.
    pub fn standing(&self) -> Standing
        ensures { result ≡ self.now.standing }
    {
        let &Transfer { standing, .. } = self;
        standing
    }

    // The next submission.
    pub(crate) fn stage(
        &mut self,
        setting: Setting,
        table: &[ChunkRow],
        iovecs: &mut [Iovec],
    ) -> Result<Submission, Denial>
        ensures answer { result ≡ submit_answer table.now self.old.standing setting iovecs.old }
        ensures after { self.new ≡ left_at self.old (submit_after table.now self.old.standing setting iovecs.old) }
        ensures list { iovecs.new ≡ submit_list table.now self.old.standing iovecs.old }
    {
        match self.standing {
            Standing::Queued(request) => {
                let Staged {
                    request,
                    submission,
                } = build_sqe(request, setting, table, iovecs)?;
                self.standing = Standing::InFlight(request);
                Ok(submission)
            }
            Standing::InFlight(_) => Err(Denial::InFlight),
            Standing::Ended(..) => Err(Denial::SettledOtherwise),
        }
    }

    /// The next submission, which goes into flight. Whatever record the transfer had has it as its newest event,
    /// and the laws hold of that; a refusal changes nothing.
    pub fn submit(
        &mut self,
        setting: Setting,
        table: &[ChunkRow],
        iovecs: &mut [Iovec],
    ) -> Result<Submission, Denial>
        ensures answer { result ≡ submit_answer table.now self.old.standing setting iovecs.old }
        ensures after { self.new ≡ left_at self.old (submit_after table.now self.old.standing setting iovecs.old) }
        ensures list { iovecs.new ≡ submit_list table.now self.old.standing iovecs.old }
        ensures recorded { SubmitRecorded table.now self.old.wanted self.old.standing self.new.standing result iovecs.new }
    {
        self.stage(setting, table, iovecs)
    }

    // A completion.
    pub(crate) fn hear(
        &mut self,
        table: &[ChunkRow],
        state: WaiterState,
        res: i32,
    ) -> Result<Step, Denial>
        ensures answer { result ≡ complete_answer table.now self.old.standing state res }
        ensures after { self.new ≡ left_at self.old (complete_after table.now self.old.standing state res) }
    {
        let Standing::InFlight(request) = self.standing else {
            return Err(Denial::UnknownToken);
        };
        let step = on_cqe(request, table, state, res)?;
        self.standing = match step.outcome {
            None => Standing::Queued(step.request),
            Some(outcome) => Standing::Ended(step.request, outcome),
        };
        Ok(step)
    }

    /// The completion of the submission in flight. Whatever record the transfer had has it as its newest event,
    /// and the laws hold of that; a refusal changes nothing.
    pub fn complete(
        &mut self,
        table: &[ChunkRow],
        state: WaiterState,
        res: i32,
    ) -> Result<Step, Denial>
        ensures answer { result ≡ complete_answer table.now self.old.standing state res }
        ensures after { self.new ≡ left_at self.old (complete_after table.now self.old.standing state res) }
        ensures recorded { CompleteRecorded table.now self.old.wanted self.old.standing self.new.standing result state res }
    {
        self.hear(table, state, res)
    }
}
