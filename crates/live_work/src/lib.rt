//! Workers on a log that they share: each does the lines of a live text on an engine of its own, in a thread where one can be had.
//! Beside them stands the same on one thread, over a plain list.
#![tactic(auto)]

mod closing;
mod line;
mod plain;
mod run;
mod team;
mod work;
mod worker;

pub use live_log::Stop;
pub use live_text::{LiveAnswer, LiveOp, LiveRan, LiveText};
pub use plain::live_plain;
pub use run::{run_live, run_through};
pub use work::work_live;
pub use worker::LiveWorker;
