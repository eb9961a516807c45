//! What attempts do with the book alone: they send the records of what their scripts ask, each under the condition that its place
//! in the step log is free.
#![tactic(auto)]

pub mod laws;
mod sending;

pub use sending::{send_asked, send_init};
