//! Tests of the object store and of running scripts, which stand apart so that `obj_store` and `script_run` are proved once.
#![tactic(auto)]

#[cfg(test)]
mod frames;
#[cfg(test)]
mod store;
