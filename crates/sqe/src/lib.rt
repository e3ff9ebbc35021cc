//! Building a request's next submission.
#![tactic(auto)]

ghost use Rattle.std.specs.Prelude.{◌≡◌};
ghost use Rattle.sqe.specs.Building.{kept_hint, hint_flag, sync_flag, part_of, part_list, datasync, send_built, recv_built, read_built, bytes_built, write_built, write_list, built, built_list};

use records::{Cache, ChunkRow, Denial, Iovec, Opcode, Submission, WriteAtState, WriteBuffers};
use request::{ReadAtRequest, RecvRequest, Request, SendRequest, WriteAtRequest};
use rows::Rows;

const FSYNC_DATASYNC: u32 = 1;

const RWF_DSYNC: u32 = 2;

const RWF_DONTCACHE: u32 = 128;

/// What a submission takes from outside its request. Requests on a socket look at the token and the list alone.
#[derive(Clone, Copy)]
pub struct Setting {
    /// The file's descriptor.
    pub descriptor: u32,
    /// Whether the file is not known to refuse hints.
    pub hints: bool,
    pub token: u64,
    /// Where the iovec list is said to lie.
    pub list: u64,
}

/// A request as it goes into flight, and its submission.
pub struct Staged {
    pub request: Request,
    pub submission: Submission,
}

// Where the bytes of a write's next submission lie.
#[derive(Clone, Copy)]
pub(crate) struct Part {
    pub(crate) opcode: Opcode,
    pub(crate) place: u64,
    pub(crate) length: u32,
}

// The hint stays while the file is not known to refuse it.
pub(crate) fn keep_hint(cache: Cache, hints: bool) -> Cache
    ensures { result ≡ kept_hint cache hints }
{
    match (cache, hints) {
        (Cache::Disabled, true) => Cache::Disabled,
        _ => Cache::Enabled,
    }
}

pub(crate) fn cache_flag(cache: Cache) -> u32
    ensures { result ≡ hint_flag cache }
{
    match cache {
        Cache::Enabled => 0,
        Cache::Disabled => RWF_DONTCACHE,
    }
}

// One place is submitted as it is, rows by their iovecs. The table stands beside the write, as beside all that looks at rows.
pub(crate) fn part_of_write(
    table: &[ChunkRow],
    write: WriteBuffers,
    plain: Opcode,
    list: u64,
    iovecs: &mut [Iovec],
) -> Result<Part, Denial>
    ensures answer { result ≡ part_of table.now write plain list iovecs.old }
    ensures list { iovecs.new ≡ part_list table.now write iovecs.old }
{
    match write {
        WriteBuffers::Single(single) => Ok(Part {
            opcode: plain,
            place: single.place.saturating_add(single.done),
            length: single.bytes_submitted(),
        }),
        WriteBuffers::Rows(rows) => {
            let count = Rows::of(table, rows).fill_iovecs(rows.cursor, iovecs)?;
            Ok(Part {
                opcode: Opcode::Writev,
                place: list,
                length: count,
            })
        }
    }
}

// A write that is to be durable says so with each submission.
pub(crate) fn durability_flag(state: WriteAtState) -> u32
    ensures { result ≡ sync_flag state }
{
    match state {
        WriteAtState::WritingSync => RWF_DSYNC,
        WriteAtState::Writing | WriteAtState::WritingBeforeSync | WriteAtState::Syncing => 0,
    }
}

pub(crate) fn build_datasync(setting: Setting) -> Submission
    ensures { result ≡ datasync setting }
{
    Submission {
        opcode: Opcode::Fsync.into(),
        descriptor: setting.descriptor,
        offset: 0,
        place: 0,
        length: 0,
        flags: FSYNC_DATASYNC,
        token: setting.token,
    }
}

// The setting, the table and the list stay three parameters of each function below: the list is lent for one call, and
// a struct that held it would only be taken apart again.

pub(crate) fn build_send(
    q: SendRequest,
    setting: Setting,
    table: &[ChunkRow],
    iovecs: &mut [Iovec],
) -> Result<Staged, Denial>
    ensures answer { result ≡ send_built q setting (part_of table.now q.write Opcode.Send setting.list iovecs.old) }
    ensures list { iovecs.new ≡ part_list table.now q.write iovecs.old }
{
    let part = part_of_write(table, q.write, Opcode::Send, setting.list, iovecs)?;
    let submission = Submission {
        opcode: part.opcode.into(),
        descriptor: q.descriptor,
        offset: 0,
        place: part.place,
        length: part.length,
        flags: 0,
        token: setting.token,
    };
    Ok(Staged {
        request: Request::Send(q),
        submission,
    })
}

pub(crate) fn build_recv(q: RecvRequest, setting: Setting) -> Staged
    ensures { result ≡ recv_built q setting }
{
    let submission = Submission {
        opcode: Opcode::Recv.into(),
        descriptor: q.descriptor,
        offset: 0,
        place: q.buffer.place.saturating_add(q.received),
        length: q.bytes_submitted(),
        flags: 0,
        token: setting.token,
    };
    Staged {
        request: Request::Recv(q),
        submission,
    }
}

// A direct read goes to its own descriptor and without flags.
pub(crate) fn build_read(q: ReadAtRequest, setting: Setting) -> Staged
    ensures { result ≡ read_built q setting }
{
    let (descriptor, cache, flags) = match q.direct {
        Some(direct) => (direct.descriptor, q.cache, 0),
        None => {
            let cache = keep_hint(q.cache, setting.hints);
            (setting.descriptor, cache, cache_flag(cache))
        }
    };
    let submission = Submission {
        opcode: Opcode::Read.into(),
        descriptor,
        offset: q.offset.saturating_add(q.read),
        place: q.buffer.place.saturating_add(q.read),
        length: q.bytes_submitted(),
        flags,
        token: setting.token,
    };
    Staged {
        request: Request::ReadAt(ReadAtRequest { cache, ..q }),
        submission,
    }
}

pub(crate) fn build_bytes(
    q: WriteAtRequest,
    setting: Setting,
    table: &[ChunkRow],
    iovecs: &mut [Iovec],
) -> Result<Staged, Denial>
    ensures answer { result ≡ bytes_built q setting (part_of table.now q.write Opcode.Write setting.list iovecs.old) }
    ensures list { iovecs.new ≡ part_list table.now q.write iovecs.old }
{
    let part = part_of_write(table, q.write, Opcode::Write, setting.list, iovecs)?;
    let cache = keep_hint(q.cache, setting.hints);
    let submission = Submission {
        opcode: part.opcode.into(),
        descriptor: setting.descriptor,
        offset: q.offset.saturating_add(q.write.done()),
        place: part.place,
        length: part.length,
        flags: durability_flag(q.state) + cache_flag(cache),
        token: setting.token,
    };
    Ok(Staged {
        request: Request::WriteAt(WriteAtRequest { cache, ..q }),
        submission,
    })
}

pub(crate) fn build_write(
    q: WriteAtRequest,
    setting: Setting,
    table: &[ChunkRow],
    iovecs: &mut [Iovec],
) -> Result<Staged, Denial>
    ensures answer { result ≡ write_built q.state table.now q setting iovecs.old }
    ensures list { iovecs.new ≡ write_list q.state table.now q iovecs.old }
{
    match q.state {
        WriteAtState::Syncing => Ok(Staged {
            request: Request::WriteAt(q),
            submission: build_datasync(setting),
        }),
        WriteAtState::Writing | WriteAtState::WritingSync | WriteAtState::WritingBeforeSync => {
            build_bytes(q, setting, table, iovecs)
        }
    }
}

/// The next submission of a request, and the request as it goes into flight.
/// Rows become iovecs from the list's start; a list that is too short is refused and left alone.
pub fn build_sqe(
    request: Request,
    setting: Setting,
    table: &[ChunkRow],
    iovecs: &mut [Iovec],
) -> Result<Staged, Denial>
    ensures answer { result ≡ built table.now request setting iovecs.old }
    ensures list { iovecs.new ≡ built_list table.now request iovecs.old }
{
    match request {
        Request::Send(q) => build_send(q, setting, table, iovecs),
        Request::Recv(q) => Ok(build_recv(q, setting)),
        Request::ReadAt(q) => Ok(build_read(q, setting)),
        Request::WriteAt(q) => build_write(q, setting, table, iovecs),
        Request::Sync(q) => Ok(Staged {
            request: Request::Sync(q),
            submission: build_datasync(setting),
        }),
    }
}
