//! Tests of workers on a log that they share, over public calls: the same text on one thread and in threads, one worker on a log of its
//! own, doors that refuse, and workers that wait for each other. What is expected was worked out by hand from the rules.
#![tactic(auto)]

#[cfg(test)]
mod common;
#[cfg(test)]
mod meeting;
#[cfg(test)]
mod refused;
#[cfg(test)]
mod refusing;
#[cfg(test)]
mod rows;
#[cfg(test)]
mod single;
