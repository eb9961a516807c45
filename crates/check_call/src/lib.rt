//! The top call of the command `check`, and the plan of the generator as a text.
#![tactic(auto)]

mod check;
mod make;
mod plans;
mod words;

pub use call_base::Status;
pub use check::{check_source, check_top};
pub use make::write_transfers;
