//! Tests of the library of queues over its public calls, which stand apart so that it is proved once.
#![tactic(auto)]

#[cfg(test)]
mod asking;
#[cfg(test)]
mod histories;
#[cfg(test)]
mod logs;
#[cfg(test)]
mod rows;
mod steps;

pub use steps::the_counter_rises_little;
