//! Tests of `nemesis`, which stand apart so that the crate is proved once.
#![tactic(auto)]

#[cfg(test)]
mod keeping;
#[cfg(test)]
mod standard;
