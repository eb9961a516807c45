//! The top call of the command `judge`, and the law that what a run printed is judged to its report.
#![tactic(auto)]

mod judge;
pub mod laws;
mod turns;
mod words;

pub use call_base::Status;
pub use judge::{judge_source, judge_top};
