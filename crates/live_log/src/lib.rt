//! A log that engines share between threads: appends go one after another through a lock, and reads wait for nobody.
//!
//! There are two copies of the published list. Readers see one of them while the writer brings the other up to date, and publishing
//! exchanges them. Each engine keeps a copy of its own of what it has seen, with an index.
#![tactic(auto)]

mod append_counts;
mod appended;
mod closing;
mod door;
mod engine;
mod fault;
mod hall;
mod history;
mod history_rule;
mod learning;
mod list_rule;
mod log;
mod naming;
mod published_list;
mod sequencer;
mod unnamed_ledgers;

pub use door::{Door, RealDoor};
pub use engine::LiveEngine;
pub use fault::{LiveFault, Stop};
pub use hall::{Entered, Hall, Place};
pub use learning::learn_then_catch_up;
pub use log::{CloseFault, LiveLog, Opened};
pub use naming::Naming;
