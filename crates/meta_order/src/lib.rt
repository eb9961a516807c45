//! The metalog, and with it the one order of the log.
#![tactic(auto)]

pub mod laws;
mod metalog;
mod vectors;

pub use metalog::Metalog;
