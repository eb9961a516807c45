//! What an event of a plan does to the parts that attempts run on: every event but those of attempts.
//!
//! Each function is one event. It needs parts of a machine that a cluster keeps, and an event that the machine's plan can have; it
//! answers the event's line, and the parts are then those of the machine behind the event. After `Memory` nothing is known of them.
#![tactic(auto)]

mod advancing;
mod opening;
mod ordering;
mod reading;
mod restarting;
mod sending;
mod sweeping;

pub use opening::new_parts;
pub use ordering::{catch, catch_all, copy, cut, sync};
pub use reading::{aux, next, prev, set_aux, settled, tail};
pub use restarting::restart;
pub use sending::{append, cond, end_switch, submit, switch, trim, trim_tag};
pub use sweeping::sweep;
