//! Tests of `ideal_run` and `judge_call`, through public calls alone. What is expected was worked out by hand from the rules of
//! the turns.
#![tactic(auto)]

#[cfg(test)]
mod common;
#[cfg(test)]
mod devices;
#[cfg(test)]
mod execution;
#[cfg(test)]
mod heads;
#[cfg(test)]
mod limits;
#[cfg(test)]
mod reports;
