//! The top call of the command `run`, on any cluster that can be made of a plan.
#![tactic(auto)]

mod choosing;
mod cluster;
mod reading;
mod run;
mod running;

pub use call_base::Status;
pub use cluster::PlanCluster;
pub use nemesis::Nemesis;
pub use run::{run_source, run_top};
