//! The words of the program `boki`: which request they make. `clap` splits them.
#![tactic(auto)]

mod parser;
mod request;

pub use request::{Request, With, request_of};
