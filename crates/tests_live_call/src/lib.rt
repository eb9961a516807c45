//! Tests of the top call of `live`, over devices in memory.
#![tactic(auto)]

#[cfg(test)]
mod calls;
