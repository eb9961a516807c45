//! Tests of the crates of the log and of the bytes of records, which stand apart so that those crates are proved once.
#![tactic(auto)]

#[cfg(test)]
mod base;
#[cfg(test)]
mod cache;
#[cfg(test)]
mod codec;
#[cfg(test)]
mod index;
#[cfg(test)]
mod metalog;
#[cfg(test)]
mod shards;
