//! Bytes of a file, and the pages that hold them.
ghost use Rattle.std.specs.Prelude.{◌≡◌, ◌≤◌};
ghost use Rattle.request.specs.Admission.{range_limits, superset_start, superset_length};

use records::is_few_bytes;

/// Direct reads begin and end at multiples of this.
pub(crate) const BLOB_PAGE_SIZE: u64 = 4096;

pub(crate) const LAST_OFFSET: u64 = 9223372036854775807;

/// Bytes of a file from an offset on.
#[derive(Clone, Copy)]
pub(crate) struct FileRange {
    pub(crate) offset: u64,
    pub(crate) length: u64,
}

impl FileRange {
    // Whether the bytes are few enough and end at a possible offset.
    pub(crate) fn is_within_limits(self) -> bool
        ensures { result ≡ range_limits self.offset self.length }
    {
        is_few_bytes(self.length)
            && self.offset <= LAST_OFFSET
            && self.offset + self.length <= LAST_OFFSET
    }

    // Where the pages that hold them begin.
    fn start(self) -> u64
        ensures { result ≡ superset_start self.offset }
    {
        self.offset - self.offset % BLOB_PAGE_SIZE
    }

    // The whole pages that hold them.
    pub(crate) fn superset(self) -> FileRange
        requires { self.length ≤ 1099511627776 }
        ensures start { result.offset ≡ superset_start self.offset }
        ensures length { result.length ≡ superset_length self.offset self.length }
    {
        let skip = self.offset % BLOB_PAGE_SIZE;
        FileRange {
            offset: self.start(),
            length: (skip + self.length + BLOB_PAGE_SIZE - 1) / BLOB_PAGE_SIZE * BLOB_PAGE_SIZE,
        }
    }
}
