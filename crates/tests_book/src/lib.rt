//! Tests of `book_api` and `step_log` over their public calls, which stand apart so that the crates are proved once: engines in turn
//! and in threads, want of memory, and step logs.
#![tactic(auto)]

#[cfg(test)]
mod catching;
#[cfg(test)]
mod common;
#[cfg(test)]
mod failing;
#[cfg(test)]
mod meeting;
#[cfg(test)]
mod reads;
#[cfg(test)]
mod replicas;
#[cfg(test)]
mod restarts;
#[cfg(test)]
mod steps;
