//! The plain records of the ring, with their limits and their numbers.
#![tactic(auto)]

pub mod buffer;
pub mod denial;
pub mod id;
pub mod laws;
pub mod mode;
pub mod outcome;
pub mod output;
pub mod same;
pub mod submission;
pub mod waiter;
pub mod write;

pub use buffer::{Buffer, ChunkRow, Iovec, ends_below_top, is_descriptor, is_few_bytes};
pub use denial::Denial;
pub use id::{FileId, Id, WaiterId};
pub use laws::encodings_lose_nothing;
pub use mode::{Cache, WriteAtState, WriteMode};
pub use outcome::{CompletionOutcome, Observation, Outcome};
pub use output::{Deferred, RequestOutput, RetiredResources};
pub use same::{Exact, Same};
pub use submission::{Opcode, Submission, submission_length};
pub use waiter::{Observer, WaiterState};
pub use write::{Cursor, RowsWrite, SingleWrite, Source, WriteBuffers};
