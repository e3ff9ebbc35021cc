//! A completion's result against the request that it answers.
ghost use Rattle.std.specs.Prelude.{◌≡◌};
ghost use Rattle.cqe.specs.Cqe.{on_cqe, largest, is_sync, fits, reacted};

use crate::reads::{read_cqe, recv_cqe};
use crate::result::{CqeResult, classify};
use crate::step::Step;
use crate::writes::{send_cqe, sync_cqe, write_cqe};
use records::{ChunkRow, Denial, WaiterState, WriteAtState};
use request::Request;

// The table is no part of a request: it stands beside it, as beside all that looks at rows.

// Whether the next submission is a data sync.
pub(crate) fn is_sync(request: Request) -> bool
    ensures { result ≡ is_sync request }
{
    match request {
        Request::Sync(_) => true,
        Request::WriteAt(q) => match q.state {
            WriteAtState::Syncing => true,
            WriteAtState::Writing | WriteAtState::WritingSync | WriteAtState::WritingBeforeSync =>
                false,
        },
        Request::Send(_) | Request::Recv(_) | Request::ReadAt(_) => false,
    }
}

/// The largest result that fits the request's submission.
pub fn largest_result(request: Request, table: &[ChunkRow]) -> u32
    ensures { result ≡ largest table.now request }
{
    if is_sync(request) {
        return 2147483647;
    }
    request.bytes_submitted(table).min(2147483647) as u32
}

// Whether a classified result fits; an error always does.
pub(crate) fn does_fit(request: Request, table: &[ChunkRow], res: CqeResult) -> bool
    ensures { result ≡ fits table.now request res }
{
    match res {
        CqeResult::Count { bytes } => is_sync(request)
            || u64::from(bytes) <= request.bytes_submitted(table),
        _ => true,
    }
}

// Each kind looks at its own state and the result together.
pub(crate) fn react(request: Request, table: &[ChunkRow], res: CqeResult) -> Step
    ensures { result ≡ reacted table.now request res }
{
    match request {
        Request::Send(q) => send_cqe(table, q, res),
        Request::Recv(q) => recv_cqe(q, res),
        Request::ReadAt(q) => read_cqe(q, res),
        Request::WriteAt(q) => write_cqe(table, q, res),
        Request::Sync(_) => sync_cqe(request, res),
    }
}

/// What a completion makes of a request, or a refusal where the result does not fit.
// The state is the waiter's and the result the kernel's; they meet in this call alone, so they are no struct.
pub fn on_cqe(
    request: Request,
    table: &[ChunkRow],
    state: WaiterState,
    res: i32,
) -> Result<Step, Denial>
    ensures { result ≡ on_cqe table.now request state res }
{
    let cancelled = state.is_cancelled();
    let misfit = Denial::CompletionMisfit {
        largest: largest_result(request, table),
    };
    let res = classify(res, cancelled, request.length() == 0).ok_or(misfit)?;
    if !does_fit(request, table, res) {
        return Err(misfit);
    }
    Ok(react(request, table, res).settled(cancelled))
}
