//! Completions of sends, writes and syncs.
ghost use Rattle.std.specs.Prelude.{◌≡◌};
ghost use Rattle.cqe.specs.Writes.{write_moved, send_step, write_step, write_count, sync_outcome};
ghost use Rattle.cqe.specs.Steps.{stepped};

use crate::result::{CqeResult, ECANCELED, EOPNOTSUPP};
use crate::step::Step;
use records::{Cache, ChunkRow, Outcome, RowsWrite, SingleWrite, WriteAtState, WriteBuffers};
use request::{Request, SendRequest, WriteAtRequest};
use rows::Rows;

// A write with more bytes reported. The table stands beside it, as beside all that looks at rows.
pub(crate) fn move_on(table: &[ChunkRow], write: WriteBuffers, bytes: u32) -> WriteBuffers
    ensures { result ≡ write_moved table.now write bytes }
{
    match write {
        WriteBuffers::Single(single) => {
            WriteBuffers::Single(SingleWrite {
                done: single.done.saturating_add(u64::from(bytes)),
                ..single
            })
        }
        WriteBuffers::Rows(rows) => WriteBuffers::Rows(RowsWrite {
            cursor: Rows::of(table, rows).advance(rows.cursor, u64::from(bytes)),
            done: rows.done.saturating_add(u64::from(bytes)),
            ..rows
        }),
    }
}

pub(crate) fn send_cqe(table: &[ChunkRow], q: SendRequest, res: CqeResult) -> Step
    ensures { result ≡ send_step table.now q res }
{
    match res {
        CqeResult::Retry => Step::goes_on(Request::Send(q)),
        CqeResult::Cancelled => Step::ends(Request::Send(q), Outcome::Timeout),
        CqeResult::Error { .. } | CqeResult::Zero => Step::ends(
            Request::Send(q),
            Outcome::SendFailed,
        ),
        CqeResult::Count { bytes } => {
            let write = move_on(table, q.write, bytes);
            let moved = Request::Send(SendRequest { write, ..q });
            if write.remaining_len() > 0 {
                return Step::goes_on(moved);
            }
            Step::ends(moved, Outcome::Ok)
        }
    }
}

// A data sync's result, trailing or on its own.
pub(crate) fn sync_cqe(request: Request, res: CqeResult) -> Step
    ensures { result ≡ stepped request (sync_outcome res) }
{
    match res {
        CqeResult::Retry => Step::goes_on(request),
        CqeResult::Cancelled => Step::ends(request, Outcome::Io { code: ECANCELED }),
        CqeResult::Error { code } => Step::ends(request, Outcome::Io { code }),
        CqeResult::Zero | CqeResult::Count { .. } => Step::ends(request, Outcome::Ok),
    }
}

pub(crate) fn count_written(table: &[ChunkRow], q: WriteAtRequest, bytes: u32) -> Step
    ensures { result ≡ write_count table.now q bytes }
{
    let write = move_on(table, q.write, bytes);
    if write.remaining_len() > 0 {
        return Step::goes_on(Request::WriteAt(WriteAtRequest { write, ..q }));
    }
    match q.state {
        WriteAtState::WritingBeforeSync => {
            let owing = WriteAtRequest {
                write,
                state: WriteAtState::Syncing,
                ..q
            };
            Step::goes_on(Request::WriteAt(owing))
        }
        WriteAtState::Writing | WriteAtState::WritingSync | WriteAtState::Syncing => {
            Step::ends(Request::WriteAt(WriteAtRequest { write, ..q }), Outcome::Ok)
        }
    }
}

pub(crate) fn write_cqe(table: &[ChunkRow], q: WriteAtRequest, res: CqeResult) -> Step
    ensures { result ≡ write_step table.now q res }
{
    let same = Request::WriteAt(q);
    match (q.state, res) {
        (WriteAtState::Syncing, res) => sync_cqe(same, res),
        (_, CqeResult::Retry) => Step::goes_on(same),
        // A refused hint is dropped, here and in the file.
        (_, CqeResult::Error { code: EOPNOTSUPP }) if q.cache.hints() => {
            let cache = Cache::Enabled;
            Step::unhinted(Request::WriteAt(WriteAtRequest { cache, ..q }))
        }
        (WriteAtState::WritingSync, CqeResult::Error { code }) => Step::ends(
            same,
            Outcome::Io { code },
        ),
        (_, CqeResult::Error { .. } | CqeResult::Cancelled | CqeResult::Zero) => {
            Step::ends(same, Outcome::WriteFailed)
        }
        (_, CqeResult::Count { bytes }) => count_written(table, q, bytes),
    }
}
