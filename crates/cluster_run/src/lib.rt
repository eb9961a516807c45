//! A cluster: a book, an object store and attempts, to which the events of a plan happen one by one.
#![tactic(auto)]

mod applying;
mod attempts;
mod cluster;
mod report;
mod running;

pub use cluster::Cluster;
