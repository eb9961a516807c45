//! The shards of the log and their replicas.
#![tactic(auto)]

pub mod laws;
mod shard;
mod shards;

pub use shards::Shards;
