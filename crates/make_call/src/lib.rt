//! The top call of the command `make`, on any cluster that can be made of a plan.
#![tactic(auto)]

mod make;
mod summary;
mod words;

pub use call_base::Status;
pub use make::{make_top, summarize_transfers};
