//! Tests of `live_log` over its public calls, which stand apart so that the crate is proved once: engines in turn, doors that refuse,
//! and engines in threads.
#![tactic(auto)]

#[cfg(test)]
mod common;
#[cfg(test)]
mod reads;
#[cfg(test)]
mod refusing;
#[cfg(test)]
mod rounds;
#[cfg(test)]
mod threads;
#[cfg(test)]
mod turns;
