//! What a request leaves, and what its durability asks.
ghost use Rattle.std.specs.Prelude.{◌≡◌};
ghost use Rattle.request.specs.Completing.{output_of, resources_of, durable_file, kept_running, shown, counted};

use crate::kinds::Request;
use records::{Buffer, FileId, Outcome, RequestOutput, RetiredResources, WriteAtState};

// A failed read shows nothing of its buffer.
pub(crate) fn show(buffer: Buffer, outcome: Outcome) -> Buffer
    ensures { result ≡ shown buffer outcome }
{
    match outcome {
        Outcome::Ok => buffer,
        _ => Buffer {
            length: 0,
            ..buffer
        },
    }
}

// The count of a receive that ended well.
pub(crate) fn count_if_ok(received: u64, outcome: Outcome) -> Option<u64>
    ensures { result ≡ counted received outcome }
{
    match outcome {
        Outcome::Ok => Some(received),
        _ => None,
    }
}

impl Request {
    // What the observer is told.
    pub(crate) fn output(self, outcome: Outcome) -> RequestOutput
        ensures { result ≡ output_of self outcome }
    {
        match self {
            Request::Send(_) => RequestOutput::Send { outcome },
            Request::Recv(q) => RequestOutput::Recv {
                outcome,
                buffer: q.buffer,
                count: count_if_ok(q.received, outcome),
            },
            Request::ReadAt(q) => RequestOutput::ReadAt {
                outcome,
                buffer: show(q.buffer, outcome),
            },
            Request::WriteAt(_) => RequestOutput::WriteAt { outcome },
            Request::Sync(_) => RequestOutput::Sync { outcome },
        }
    }

    // What it held, a write with its final cursor.
    pub(crate) fn resources(self) -> RetiredResources
        ensures { result ≡ resources_of self }
    {
        match self {
            Request::Send(q) => RetiredResources::Send {
                descriptor: q.descriptor,
                write: q.write,
            },
            Request::Recv(q) => RetiredResources::Socket {
                descriptor: q.descriptor,
            },
            Request::ReadAt(q) => RetiredResources::File {
                file: q.file,
                write: None,
            },
            Request::WriteAt(q) => RetiredResources::File {
                file: q.file,
                write: Some(q.write),
            },
            Request::Sync(q) => RetiredResources::File {
                file: q.file,
                write: None,
            },
        }
    }

    /// The output for the observer, and what the request held.
    pub fn complete(self, outcome: Outcome) -> (RequestOutput, RetiredResources)
        ensures output { result.0 ≡ output_of self outcome }
        ensures resources { result.1 ≡ resources_of self }
    {
        (self.output(outcome), self.resources())
    }

    /// The file whose permit this request is due.
    pub fn durability(self) -> Option<FileId>
        ensures { result ≡ durable_file self }
    {
        match self {
            Request::Sync(q) => Some(q.file),
            Request::WriteAt(q) => match q.state {
                WriteAtState::Writing => None,
                WriteAtState::WritingSync
                | WriteAtState::WritingBeforeSync
                | WriteAtState::Syncing => Some(q.file),
            },
            Request::Send(_) | Request::Recv(_) | Request::ReadAt(_) => None,
        }
    }

    /// Whether the work goes on when its observer goes.
    pub fn retains_on_orphan(self) -> bool
        ensures { result ≡ kept_running self }
    {
        match self {
            Request::WriteAt(_) | Request::Sync(_) => true,
            Request::Send(_) | Request::Recv(_) | Request::ReadAt(_) => false,
        }
    }
}
