//! Switches of the book's mode, and trims: they are sent by what an engine sees, and told of it.
//!
//! A `SwitchView` is the fold of what an engine sees, and goes on with it, so that each record is gone over once.
#![tactic(auto)]

mod advancing;
mod calls;
mod change;
mod lives;
mod marks;
mod modes;
mod next;
mod phase;
mod sending;
mod taking;
mod view;

pub use boki_types::{Ending, Sent};
pub use calls::{begin, end, last_trim, mode_at, trim};
pub use view::SwitchView;
