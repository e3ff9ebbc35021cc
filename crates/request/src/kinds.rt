//! The kinds of request, as asked for and as they run.
use records::{Buffer, Cache, FileId, Source, WriteAtState, WriteBuffers, WriteMode};

/// What a caller asks for.
#[derive(Clone, Copy)]
pub enum Wanted {
    Send {
        descriptor: u32,
        source: Source,
    },
    Recv {
        descriptor: u32,
        buffer: Buffer,
        length: u64,
        exact: bool,
    },
    /// Reads as many bytes as the buffer's length.
    ReadAt {
        file: FileId,
        offset: u64,
        buffer: Buffer,
        cache: Cache,
    },
    /// Reads past the page cache, by a second descriptor of the file.
    DirectReadAt {
        file: FileId,
        descriptor: u32,
        offset: u64,
        length: u64,
        place: u64,
        capacity: u64,
    },
    WriteAt {
        file: FileId,
        offset: u64,
        source: Source,
        mode: WriteMode,
        cache: Cache,
    },
    Sync {
        file: FileId,
    },
}

#[derive(Clone, Copy)]
pub struct SendRequest {
    pub descriptor: u32,
    pub write: WriteBuffers,
}

#[derive(Clone, Copy)]
pub struct RecvRequest {
    pub descriptor: u32,
    pub buffer: Buffer,
    /// Bytes asked for.
    pub length: u64,
    pub received: u64,
    /// Whether fewer bytes do not do.
    pub exact: bool,
}

/// The direct attempt of a read.
#[derive(Clone, Copy)]
pub struct Direct {
    pub descriptor: u32,
    /// Bytes of the superset before the range.
    pub skip: u64,
    /// Bytes of the range.
    pub length: u64,
}

/// A positioned read. In a direct attempt, offset and read are of the superset.
#[derive(Clone, Copy)]
pub struct ReadAtRequest {
    pub file: FileId,
    pub offset: u64,
    pub read: u64,
    pub buffer: Buffer,
    pub cache: Cache,
    pub direct: Option<Direct>,
}

#[derive(Clone, Copy)]
pub struct WriteAtRequest {
    pub file: FileId,
    pub offset: u64,
    pub write: WriteBuffers,
    pub state: WriteAtState,
    pub cache: Cache,
}

#[derive(Clone, Copy)]
pub struct SyncRequest {
    pub file: FileId,
}

/// An admitted request, with its progress.
#[derive(Clone, Copy)]
pub enum Request {
    Send(SendRequest),
    Recv(RecvRequest),
    ReadAt(ReadAtRequest),
    WriteAt(WriteAtRequest),
    Sync(SyncRequest),
}
