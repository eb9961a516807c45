//! The top call of the command `live`.
#![tactic(auto)]

mod live;
mod words;

pub use call_base::Status;
pub use live::{live_source, live_top};
