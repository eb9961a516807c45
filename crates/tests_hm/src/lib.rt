//! Tests of log-free reads and writes, which stand apart so that `hm_read` and `hm_write` are proved once.
#![tactic(auto)]

#[cfg(test)]
mod base;
#[cfg(test)]
mod logged;
#[cfg(test)]
mod marked;
