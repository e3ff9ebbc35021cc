//! How much a request moves, and how much its next submission asks for.
ghost use Rattle.std.specs.Prelude.{◌≡◌};
ghost use Rattle.request.specs.Progress.{bytes_to_move, bytes_submitted, write_submitted, range_of_read, recv_submitted, read_submitted};

use crate::kinds::{ReadAtRequest, RecvRequest, Request};
use records::{ChunkRow, WriteAtState, WriteBuffers, submission_length};
use rows::Rows;

/// What the kernel moves at once, in whole pages.
const DIRECT_CHUNK: u64 = 2147479552;

// The bytes that the next submission of a write carries. The table stands beside it, as beside all that looks at rows.
pub(crate) fn submitted_of_write(table: &[ChunkRow], write: WriteBuffers) -> u64
    ensures { result ≡ write_submitted table.now write }
{
    match write {
        WriteBuffers::Single(single) => single.bytes_submitted().into(),
        WriteBuffers::Rows(rows) => { Rows::of(table, rows).carried_bytes(rows.cursor) }
    }
}

impl RecvRequest {
    /// The bytes that the next submission asks for.
    // As of a single write, over fields of its own.
    pub fn bytes_submitted(self) -> u32
        ensures { result ≡ recv_submitted self }
    {
        submission_length(self.length.saturating_sub(self.received))
    }
}

impl ReadAtRequest {
    /// The bytes to move in all: of a direct read the range, not its superset.
    pub fn length(self) -> u64
        ensures { result ≡ range_of_read self.buffer.length self.direct }
    {
        match self.direct {
            Some(direct) => direct.length,
            None => self.buffer.length,
        }
    }

    /// The bytes that the next submission asks for.
    pub fn bytes_submitted(self) -> u32
        ensures { result ≡ read_submitted self }
    {
        let left = self.buffer.length.saturating_sub(self.read);
        match self.direct {
            Some(_) => left.min(DIRECT_CHUNK) as u32,
            None => submission_length(left),
        }
    }
}

impl Request {
    /// The bytes to move in all.
    pub fn length(self) -> u64
        ensures { result ≡ bytes_to_move self }
    {
        match self {
            Request::Send(q) => q.write.length(),
            Request::Recv(q) => q.length,
            Request::ReadAt(q) => q.length(),
            Request::WriteAt(q) => q.write.length(),
            Request::Sync(_) => 0,
        }
    }

    /// The bytes that the next submission asks for; a sync asks for none.
    pub fn bytes_submitted(self, table: &[ChunkRow]) -> u64
        ensures { result ≡ bytes_submitted table.now self }
    {
        match self {
            Request::Send(q) => submitted_of_write(table, q.write),
            Request::Recv(q) => q.bytes_submitted().into(),
            Request::ReadAt(q) => q.bytes_submitted().into(),
            Request::WriteAt(q) => match q.state {
                WriteAtState::Syncing => 0,
                WriteAtState::Writing
                | WriteAtState::WritingSync
                | WriteAtState::WritingBeforeSync => { submitted_of_write(table, q.write) }
            },
            Request::Sync(_) => 0,
        }
    }
}
