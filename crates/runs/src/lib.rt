//! One transfer from its admission to its result, what holds of all its runs, and some runs worked out.
#![tactic(auto)]

pub mod laws;
pub mod transfer;

pub use laws::{every_run_is_lawful, situations_come_out};
pub use transfer::{Standing, Transfer};
