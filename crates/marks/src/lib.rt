//! The ledger that keeps a mark for each write: 256 a file.
#![tactic(auto)]

pub mod mark;
pub mod marks;

pub use mark::{Mark, MarkRow};
pub use marks::Marks;
