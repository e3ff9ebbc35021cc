//! Reading a completion: what the kernel's result makes of a request.
#![tactic(auto)]

pub mod cqe;
pub mod reads;
pub mod result;
pub mod step;
pub mod writes;

pub use cqe::{largest_result, on_cqe};
pub use result::{CqeResult, classify};
pub use step::Step;
