//! What an attempt is beside the log: where it stands and its script, what it sends for what the script asks, and the lines that
//! tell it.
#![tactic(auto)]

mod bodies;
mod copies;
mod deciding;
mod lines;
mod progress;
mod state;

pub use bodies::body_of;
pub use copies::{copy_names, copy_outcome, copy_values, copy_writes};
pub use deciding::is_inline;
pub use lines::{child, located, send_line};
pub use progress::Progress;
pub use state::AttemptState;
