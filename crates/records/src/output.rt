//! What a request leaves behind: its output, its resources, and work put off.
ghost use Rattle.std.specs.Prelude.{Some};
ghost use Rattle.records.specs.Words.{output_text, resources_text};

use crate::buffer::Buffer;
use crate::id::FileId;
use crate::outcome::Outcome;
use crate::write::WriteBuffers;
use std::fmt;

/// The output of a request, for its observer.
#[derive(Clone, Copy)]
pub enum RequestOutput {
    Send {
        outcome: Outcome,
    },
    /// The count is there exactly when the outcome is Ok.
    // Beside the outcome and not inside it: every output has its outcome in one place.
    Recv {
        outcome: Outcome,
        buffer: Buffer,
        count: Option<u64>,
    },
    ReadAt {
        outcome: Outcome,
        buffer: Buffer,
    },
    WriteAt {
        outcome: Outcome,
    },
    Sync {
        outcome: Outcome,
    },
}

/// What a request held until it ended.
#[derive(Clone, Copy)]
pub enum RetiredResources {
    Socket {
        descriptor: u32,
    },
    Send {
        descriptor: u32,
        write: WriteBuffers,
    },
    File {
        file: FileId,
        write: Option<WriteBuffers>,
    },
}

impl fmt::Display for RequestOutput {
    ghost output = { λ output. Some (output_text output) };

    fn fmt<W: fmt::Write>(&self, f: &mut fmt::Formatter<W>) -> fmt::Result {
        match self {
            RequestOutput::Send { outcome } => write!(f, "send {outcome}"),
            RequestOutput::Recv {
                outcome,
                buffer,
                count: Some(count),
            } => write!(f, "recv {outcome}, {buffer}, count {count}"),
            RequestOutput::Recv {
                outcome,
                buffer,
                count: None,
            } => write!(f, "recv {outcome}, {buffer}"),
            RequestOutput::ReadAt { outcome, buffer } => write!(f, "read {outcome}, {buffer}"),
            RequestOutput::WriteAt { outcome } => write!(f, "write {outcome}"),
            RequestOutput::Sync { outcome } => write!(f, "sync {outcome}"),
        }
    }
}

impl fmt::Display for RetiredResources {
    ghost output = { λ resources. Some (resources_text resources) };

    fn fmt<W: fmt::Write>(&self, f: &mut fmt::Formatter<W>) -> fmt::Result {
        match self {
            RetiredResources::Socket { descriptor } => write!(f, "socket {descriptor}"),
            RetiredResources::Send { descriptor, write } => write!(
                f,
                "socket {descriptor}, {write}"
            ),
            RetiredResources::File {
                file,
                write: Some(write),
            } => write!(f, "{file}, {write}"),
            RetiredResources::File { file, write: None } => write!(f, "{file}"),
        }
    }
}

/// Work that a call puts off until the ring is no longer borrowed.
#[derive(Clone, Copy)]
pub enum Deferred {
    Wake {
        waker: u32,
    },
    Drop {
        waker: u32,
    },
    Output(RequestOutput),
    Resource(RetiredResources),
    Completion {
        sender: u32,
        outcome: Outcome,
    },
    /// What a forwarded observer is sent; no output is word that none will come.
    Result {
        sender: u32,
        output: Option<RequestOutput>,
    },
}
