//! Generational slots over memory that the caller lends.
#![tactic(auto)]

pub mod entries;
pub mod laws;
pub mod slab;

pub use laws::ids_resolve_until_removal;
pub use slab::{Slab, Slot};
