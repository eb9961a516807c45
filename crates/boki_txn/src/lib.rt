//! Transactions over the log: what a begin reads and whether a commit succeeds, with a cache of states.
#![tactic(auto)]

mod cache;
mod laws;
mod stored;
mod telling;
mod walking;

pub use cache::TxnCache;
pub use laws::txn_folds_stay;
pub use stored::Names;
