//! Vectored writes: rows of the chunk table, a cursor over them, and the iovecs that a submission carries.
#![tactic(auto)]

pub mod laws;
pub mod piece;
pub mod view;

pub use laws::cursors_keep_their_bytes;
pub use view::Rows;
