//! Which requests are taken, and in which state they begin.
ghost use Rattle.std.specs.Prelude.{◌≡◌};
ghost use Rattle.records.specs.Limits.{descriptor_limits};
ghost use Rattle.request.specs.Admission.{begun, direct_begun, admitted, send_begun, recv_begun, read_begun, write_begun};

use crate::file_range::{BLOB_PAGE_SIZE, FileRange, LAST_OFFSET};
use crate::kinds::{
    Direct, ReadAtRequest, RecvRequest, Request, SendRequest, SyncRequest, Wanted, WriteAtRequest,
};
use records::{
    Buffer, Cache, ChunkRow, Cursor, Denial, FileId, RowsWrite, SingleWrite, Source, WriteBuffers,
    WriteMode, ends_below_top, is_descriptor, is_few_bytes,
};
use rows::Rows;

// A source with nothing reported, where it keeps its limits. The table stands beside it, as beside all that looks at rows.
pub(crate) fn begin_write(table: &[ChunkRow], source: Source) -> Option<WriteBuffers>
    ensures { result ≡ begun table.now source }
{
    match source {
        Source::Single { place, length } => {
            if !ends_below_top(place, length) || !is_few_bytes(length) {
                return None;
            }
            Some(WriteBuffers::Single(SingleWrite {
                place,
                length,
                done: 0,
            }))
        }
        Source::Rows { first, count } => {
            let length = Rows::admitted_total(table, first, count)?;
            let cursor = Cursor { row: 0, within: 0 };
            Some(WriteBuffers::Rows(RowsWrite {
                first,
                count,
                cursor,
                length,
                done: 0,
            }))
        }
    }
}

// Each function below has the fields of one variant: a struct for each variant would be read there alone.

pub(crate) fn admit_send(
    table: &[ChunkRow],
    descriptor: u32,
    source: Source,
) -> Result<Request, Denial>
    ensures { result ≡ send_begun descriptor (descriptor_limits descriptor) (begun table.now source) }
{
    if !is_descriptor(descriptor) {
        return Err(Denial::LimitBroken);
    }
    let write = begin_write(table, source).ok_or(Denial::LimitBroken)?;
    Ok(Request::Send(SendRequest { descriptor, write }))
}

pub(crate) fn admit_recv(
    descriptor: u32,
    buffer: Buffer,
    length: u64,
    exact: bool,
) -> Result<Request, Denial>
    ensures { result ≡ recv_begun descriptor buffer length exact }
{
    if !is_descriptor(descriptor)
        || !buffer.is_within_limits()
        || length > buffer.capacity
        || !is_few_bytes(length)
    {
        return Err(Denial::LimitBroken);
    }
    Ok(Request::Recv(RecvRequest {
        descriptor,
        buffer,
        length,
        received: 0,
        exact,
    }))
}

pub(crate) fn admit_read(
    file: FileId,
    offset: u64,
    buffer: Buffer,
    cache: Cache,
) -> Result<Request, Denial>
    ensures { result ≡ read_begun file offset buffer cache }
{
    let range = FileRange {
        offset,
        length: buffer.length,
    };
    if !buffer.is_within_limits() || !range.is_within_limits() {
        return Err(Denial::LimitBroken);
    }
    Ok(Request::ReadAt(ReadAtRequest {
        file,
        offset,
        read: 0,
        buffer,
        cache,
        direct: None,
    }))
}

pub(crate) fn admit_direct(
    file: FileId,
    descriptor: u32,
    offset: u64,
    length: u64,
    place: u64,
    capacity: u64,
) -> Result<Request, Denial>
    ensures { result ≡ direct_begun file descriptor offset length place capacity }
{
    let range = FileRange { offset, length };
    if !is_descriptor(descriptor) || !ends_below_top(place, capacity) || !range.is_within_limits() {
        return Err(Denial::LimitBroken);
    }
    let whole = range.superset();
    if length == 0
        || whole.offset + whole.length > LAST_OFFSET
        || place % BLOB_PAGE_SIZE != 0
        || capacity < whole.length
    {
        return Err(Denial::UnfitForDirect);
    }
    Ok(Request::ReadAt(ReadAtRequest {
        file,
        offset: whole.offset,
        read: 0,
        buffer: Buffer {
            place,
            capacity,
            length: whole.length,
        },
        cache: Cache::Disabled,
        direct: Some(Direct {
            descriptor,
            skip: offset % BLOB_PAGE_SIZE,
            length,
        }),
    }))
}

pub(crate) fn admit_write(
    table: &[ChunkRow],
    file: FileId,
    offset: u64,
    source: Source,
    mode: WriteMode,
    cache: Cache,
) -> Result<Request, Denial>
    ensures { result ≡ write_begun file offset mode cache (begun table.now source) }
{
    let write = begin_write(table, source).ok_or(Denial::LimitBroken)?;
    let range = FileRange {
        offset,
        length: write.length(),
    };
    if !range.is_within_limits() {
        return Err(Denial::LimitBroken);
    }
    Ok(Request::WriteAt(WriteAtRequest {
        file,
        offset,
        write,
        state: mode.into(),
        cache,
    }))
}

impl Wanted {
    /// The request as it begins, or the first cause to refuse it.
    pub fn admit(self, table: &[ChunkRow]) -> Result<Request, Denial>
        ensures { result ≡ admitted table.now self }
    {
        match self {
            Wanted::Send { descriptor, source } => admit_send(table, descriptor, source),
            Wanted::Recv {
                descriptor,
                buffer,
                length,
                exact,
            } => admit_recv(descriptor, buffer, length, exact),
            Wanted::ReadAt {
                file,
                offset,
                buffer,
                cache,
            } => admit_read(file, offset, buffer, cache),
            Wanted::DirectReadAt {
                file,
                descriptor,
                offset,
                length,
                place,
                capacity,
            } => { admit_direct(file, descriptor, offset, length, place, capacity) }
            Wanted::WriteAt {
                file,
                offset,
                source,
                mode,
                cache,
            } => admit_write(table, file, offset, source, mode, cache),
            Wanted::Sync { file } => Ok(Request::Sync(SyncRequest { file })),
        }
    }
}
