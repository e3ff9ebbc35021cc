//! Lists over memory that the caller lends.
#![tactic(auto)]

pub mod full;
pub mod laws;
pub mod list;
pub mod slices;

pub use full::Full;
pub use laws::lists_hold_what_was_put;
pub use list::LentList;
pub use slices::{append, fill, find, find_among, put};
