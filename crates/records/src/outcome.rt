//! How a request ends, and what the calls on a completion or an observation answer.
ghost use Rattle.std.specs.Prelude.{◌≡◌, Some};
ghost use Rattle.records.specs.Answers.{outcome_number, outcome_code, outcome_limits, completion_number, completion_waiter, completion_result, observation_number, observation_output};
ghost use Rattle.records.specs.Words.{outcome_text};

use crate::id::WaiterId;
use crate::output::RequestOutput;
use std::fmt;

/// The result of a request.
// Not a `Result<(), E>`: Ok is one of ten results that are stored, numbered and told alike, and that the laws name; no
// call passes one on by `?`.
#[derive(Clone, Copy)]
pub enum Outcome {
    Ok,
    Timeout,
    SendFailed,
    RecvFailed,
    ReadFailed,
    WriteFailed,
    BlobInsufficientLength,
    Closed,
    /// The kernel's error code, from 1 to 4,095.
    Io { code: u32 },
    /// The ledger cannot count another write of the file.
    LedgerSpent,
}

// Each call says one thing of a result and loses the rest, which `From` could not say.
impl Outcome {
    pub fn number(self) -> u32
        ensures { result ≡ outcome_number self }
    {
        match self {
            Outcome::Ok => 0,
            Outcome::Timeout => 1,
            Outcome::SendFailed => 2,
            Outcome::RecvFailed => 3,
            Outcome::ReadFailed => 4,
            Outcome::WriteFailed => 5,
            Outcome::BlobInsufficientLength => 6,
            Outcome::Closed => 7,
            Outcome::Io { .. } => 8,
            Outcome::LedgerSpent => 9,
        }
    }

    /// The kernel's code, where there is one.
    pub fn code(self) -> Option<u32>
        ensures { result ≡ outcome_code self }
    {
        match self {
            Outcome::Io { code } => Some(code),
            _ => None,
        }
    }

    /// Whether a code, if any, is one that the kernel can answer.
    pub fn is_within_limits(self) -> bool
        ensures { result ≡ outcome_limits self }
    {
        match self {
            Outcome::Io { code } => code >= 1 && code <= 4095,
            _ => true,
        }
    }
}

impl fmt::Display for Outcome {
    ghost output = { λ outcome. Some (outcome_text outcome) };

    fn fmt<W: fmt::Write>(&self, f: &mut fmt::Formatter<W>) -> fmt::Result {
        match self {
            Outcome::Ok => f.write_str("ok"),
            Outcome::Timeout => f.write_str("timeout"),
            Outcome::SendFailed => f.write_str("send-failed"),
            Outcome::RecvFailed => f.write_str("recv-failed"),
            Outcome::ReadFailed => f.write_str("read-failed"),
            Outcome::WriteFailed => f.write_str("write-failed"),
            Outcome::BlobInsufficientLength => f.write_str("short-blob"),
            Outcome::Closed => f.write_str("closed"),
            Outcome::Io { code } => write!(f, "io {code}"),
            Outcome::LedgerSpent => f.write_str("ledger-spent"),
        }
    }
}

/// What a granted completion asks of the driver.
// Both cases name a waiter and say what is to be done with it; a pair of a waiter and an `Option` would be no plainer.
#[derive(Clone, Copy)]
pub enum CompletionOutcome {
    /// Another submission is wanted.
    Requeue(WaiterId),
    /// The result to finish this waiter with.
    Complete(WaiterId, Outcome),
}

// As of `Outcome`.
impl CompletionOutcome {
    pub fn number(self) -> u32
        ensures { result ≡ completion_number self }
    {
        match self {
            CompletionOutcome::Requeue(_) => 0,
            CompletionOutcome::Complete(..) => 1,
        }
    }

    pub fn waiter(self) -> WaiterId
        ensures { result ≡ completion_waiter self }
    {
        match self {
            CompletionOutcome::Requeue(id) => id,
            CompletionOutcome::Complete(id, _) => id,
        }
    }

    /// The result, once there is one.
    pub fn result(self) -> Option<Outcome>
        ensures { result ≡ completion_result self }
    {
        match self {
            CompletionOutcome::Requeue(_) => None,
            CompletionOutcome::Complete(_, outcome) => Some(outcome),
        }
    }
}

/// What an observer sees of its waiter.
#[derive(Clone, Copy)]
pub enum Observation {
    /// The output, which leaves the slot with this.
    Ready(RequestOutput),
    /// Not ended, and the same waker is installed.
    Pending,
    /// Not ended, and the waker is to be set.
    Refresh,
}

// As of `Outcome`.
impl Observation {
    pub fn number(self) -> u32
        ensures { result ≡ observation_number self }
    {
        match self {
            Observation::Ready(_) => 0,
            Observation::Pending => 1,
            Observation::Refresh => 2,
        }
    }

    /// The output, once there is one.
    pub fn output(self) -> Option<RequestOutput>
        ensures { result ≡ observation_output self }
    {
        match self {
            Observation::Ready(output) => Some(output),
            _ => None,
        }
    }
}
