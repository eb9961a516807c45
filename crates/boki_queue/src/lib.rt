//! Queues over the log: what a queue holds at a record and what a pop takes, with a cache of states.
#![tactic(auto)]

mod cache;
mod laws;
mod shared;
mod steps;
mod telling;
mod walking;

pub use cache::QueueCache;
pub use laws::queue_folds_stay;
pub use steps::Steps;
