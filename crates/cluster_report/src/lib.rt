//! The report of a run, from the whole ordered list of a book and an object store: turns, results, objects, queues and store
//! names, whatever the engines have seen.
#![tactic(auto)]

mod folds;
pub mod laws;
mod queue;
mod report;
mod telling;
mod turning;
mod values;
mod walk;

pub use boki_types::{Report, Turn};
pub use report::{objects, queues, report_of, results, stores, turns};
