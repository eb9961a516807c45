//! Tests of `hm_switch`, which stand apart so that it is proved once.
#![tactic(auto)]

#[cfg(test)]
mod history;
#[cfg(test)]
mod plain;
#[cfg(test)]
mod tests;
