//! The ledger of writes that are not yet durable: for each file, how many completed, how many a sync covered, and the error that taints it.
#![tactic(auto)]

pub mod counts;
pub mod laws;
pub mod ledger;
pub mod lent;
pub mod row;
pub mod tally;

pub use counts::Counts;
pub use laws::ledgers_answer_by_their_record;
pub use ledger::Ledger;
pub use lent::LentLedger;
pub use row::Row;
pub use tally::{Tally, counts_write};
