//! One request: what may be asked, what it holds while it runs, and what it leaves.
#![tactic(auto)]

pub mod admission;
pub mod complete;
pub(crate) mod file_range;
pub mod kinds;
pub mod progress;
pub mod words;

pub use kinds::{
    Direct, ReadAtRequest, RecvRequest, Request, SendRequest, SyncRequest, Wanted, WriteAtRequest,
};
