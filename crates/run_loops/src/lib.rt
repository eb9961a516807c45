//! Runs a plan with nemeses on anything that stands for a machine.
#![tactic(auto)]

mod cluster;
mod lines;
mod observation;
mod one;
mod plain;
mod rounds;
mod running;
mod whole;

pub use cluster::Cluster;
pub use plain::apply_plan;
pub use whole::run_events;
