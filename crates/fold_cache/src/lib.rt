//! What the caches of queues and of transactions share: the states of a fold that are kept behind records, the seqnums
//! of a tag up to one, and what the record with a seqnum says.
#![tactic(auto)]

mod laws;
mod reading;

pub use laws::found_are_recorded;
pub use reading::{body_at, seqnums_upto};
