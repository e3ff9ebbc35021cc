//! Completions of receives and reads.
ghost use Rattle.std.specs.Prelude.{◌≡◌};
ghost use Rattle.cqe.specs.Reads.{recv_step, narrowed, given_up, read_step, direct_count, buffered_count};

use crate::result::{CqeResult, ECANCELED, EOPNOTSUPP};
use crate::step::Step;
use records::{Buffer, Cache, Outcome};
use request::{Direct, ReadAtRequest, RecvRequest, Request};

pub(crate) fn recv_cqe(q: RecvRequest, res: CqeResult) -> Step
    ensures { result ≡ recv_step q res }
{
    match (q.exact, res) {
        (_, CqeResult::Retry) => Step::goes_on(Request::Recv(q)),
        (_, CqeResult::Cancelled) => Step::ends(Request::Recv(q), Outcome::Timeout),
        (_, CqeResult::Error { .. } | CqeResult::Zero) => Step::ends(
            Request::Recv(q),
            Outcome::RecvFailed,
        ),
        (exact, CqeResult::Count { bytes }) => {
            let received = q.received.saturating_add(u64::from(bytes));
            let moved = Request::Recv(RecvRequest { received, ..q });
            if exact && received < q.length {
                return Step::goes_on(moved);
            }
            Step::ends(moved, Outcome::Ok)
        }
    }
}

// The part of a superset's buffer that holds the range.
pub(crate) fn narrow(buffer: Buffer, direct: Direct) -> Buffer
    ensures { result ≡ narrowed buffer direct }
{
    Buffer {
        place: buffer.place.saturating_add(direct.skip),
        capacity: buffer.capacity.saturating_sub(direct.skip),
        length: direct.length,
    }
}

// A buffered read of the whole range, with nothing reported.
pub(crate) fn give_up_direct(q: ReadAtRequest, direct: Direct) -> ReadAtRequest
    ensures { result ≡ given_up q direct }
{
    ReadAtRequest {
        file: q.file,
        offset: q.offset.saturating_add(direct.skip),
        read: 0,
        buffer: narrow(q.buffer, direct),
        cache: Cache::Disabled,
        direct: None,
    }
}

pub(crate) fn count_direct(q: ReadAtRequest, direct: Direct, bytes: u32) -> Step
    ensures { result ≡ direct_count q direct bytes }
{
    let read = q.read.saturating_add(u64::from(bytes));
    if read >= direct.skip.saturating_add(direct.length) {
        let whole = ReadAtRequest {
            read,
            buffer: narrow(q.buffer, direct),
            ..q
        };
        return Step::ends(Request::ReadAt(whole), Outcome::Ok);
    }
    if bytes % 4096 == 0 {
        return Step::goes_on(Request::ReadAt(ReadAtRequest { read, ..q }));
    }
    Step::goes_on(Request::ReadAt(give_up_direct(q, direct)))
}

pub(crate) fn count_buffered(q: ReadAtRequest, bytes: u32) -> Step
    ensures { result ≡ buffered_count q bytes }
{
    let read = q.read.saturating_add(u64::from(bytes));
    let moved = Request::ReadAt(ReadAtRequest { read, ..q });
    if read < q.buffer.length {
        return Step::goes_on(moved);
    }
    Step::ends(moved, Outcome::Ok)
}

pub(crate) fn read_cqe(q: ReadAtRequest, res: CqeResult) -> Step
    ensures { result ≡ read_step q res }
{
    let same = Request::ReadAt(q);
    match (q.direct, res) {
        (_, CqeResult::Retry) => Step::goes_on(same),
        (_, CqeResult::Cancelled) => Step::ends(same, Outcome::ReadFailed),
        // A cancellation ends a direct read; another error gives direct reading up.
        (Some(direct), CqeResult::Error { code }) => match code {
            ECANCELED => Step::ends(same, Outcome::ReadFailed),
            _ => Step::goes_on(Request::ReadAt(give_up_direct(q, direct))),
        },
        (Some(direct), CqeResult::Zero) => Step::goes_on(Request::ReadAt(give_up_direct(
            q, direct,
        ))),
        (Some(direct), CqeResult::Count { bytes }) => count_direct(q, direct, bytes),
        // A refused hint is dropped, here and in the file.
        (None, CqeResult::Error { code: EOPNOTSUPP }) if q.cache.hints() => {
            let cache = Cache::Enabled;
            Step::unhinted(Request::ReadAt(ReadAtRequest { cache, ..q }))
        }
        (None, CqeResult::Error { .. }) => Step::ends(same, Outcome::ReadFailed),
        (None, CqeResult::Zero) => Step::ends(same, Outcome::BlobInsufficientLength),
        (None, CqeResult::Count { bytes }) => count_buffered(q, bytes),
    }
}
