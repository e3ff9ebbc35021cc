//! The words in which a request is told.
ghost use Rattle.std.specs.Prelude.{Some};
ghost use Rattle.request.specs.Words.{read_text, request_text};

use crate::kinds::{ReadAtRequest, Request};
use std::fmt;

impl fmt::Display for ReadAtRequest {
    ghost output = { λ q. Some (read_text q) };

    fn fmt<W: fmt::Write>(&self, f: &mut fmt::Formatter<W>) -> fmt::Result {
        match self.direct {
            Some(direct) => {
                let offset = self.offset.saturating_add(direct.skip);
                write!(
                    f,
                    "direct read of {} bytes at offset {offset}",
                    direct.length
                )
            }
            None => write!(
                f,
                "read of {} bytes at offset {}",
                self.buffer.length, self.offset
            ),
        }
    }
}

impl fmt::Display for Request {
    ghost output = { λ request. Some (request_text request) };

    fn fmt<W: fmt::Write>(&self, f: &mut fmt::Formatter<W>) -> fmt::Result {
        let length = self.length();
        match self {
            Request::Send(q) => write!(f, "send of {length} bytes on socket {}", q.descriptor),
            Request::Recv(q) => write!(f, "recv of {length} bytes on socket {}", q.descriptor),
            Request::ReadAt(q) => write!(f, "{q}"),
            Request::WriteAt(q) => write!(f, "write of {length} bytes at offset {}", q.offset),
            Request::Sync(_) => f.write_str("sync"),
        }
    }
}
