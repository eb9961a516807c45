//! What every top call of the program shares: how it ends, what is due under each end, reading a text, writing lines, and the
//! standard devices.
#![tactic(auto)]

mod reading;
mod status;
mod std_devices;
mod writing;

pub use reading::read_text;
pub use status::Status;
pub use std_devices::{StdSink, StdSource};
pub use writing::{refuse, write_text, write_usage, write_whole};
