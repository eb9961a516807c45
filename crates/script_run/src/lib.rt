//! Frames: a script that runs until it asks an operation of its runtime, and goes on from there once it has the answer.
//!
//! [`Frame::new`] starts a function, [`Frame::ask`] tells what it asks for or how it ended, and [`Frame::give`] hands it
//! the answer. A frame keeps the line at which the script stands and what it has made so far, and never runs from the start
//! again.
#![tactic(auto)]

mod answers;
mod conditions;
mod copies;
mod eval;
mod execute;
mod fault;
mod frame;
mod names;
mod operations;
mod operators;
mod run;
mod skip;
mod state;
mod variables;

pub use boki_types::{Answer, Ask, Op};
pub use frame::Frame;
